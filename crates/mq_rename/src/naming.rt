//! The levels of new names.
ghost use Rattle.std.specs.Prelude.{◌≡◌, ◌++◌, IfOk, OnOk};
ghost use Rattle.mq_topic.specs.Levels.{levels};
ghost use Rattle.mq_rename.specs.Lists.{texts};
ghost use Rattle.mq_rename.specs.Renames.{becomes, new_levels};

use crate::parts::levels_of;
use mq_topic::{LevelText, TopicFilter, TopicName};
use std::alloc::{AllocError, Global};

// Adds what a level on the right with this place becomes, where `front` levels stand before the left side's `#`.
fn add_level<'a>(
    made: &mut Vec<&'a str>,
    level: &'a str,
    place: usize,
    name: &[&'a str],
    front: usize,
) -> Result<(), AllocError>
    ensures { OnOk result (texts made.new.items ≡ texts made.old.items
        ++ becomes front (texts name.now) (level.entry.now, place)) }
{
    match level {
        "+" => made.push(name.get(place).copied().unwrap_or(""))?,
        "#" => made.extend_from_slice(&name[front.min(name.len())..])?,
        _ => made.push(level)?,
    }
    Ok(())
}

/// The levels of the new name.
pub(crate) fn new_levels<'a>(
    alloc: Global,
    left: &TopicFilter,
    right: &'a TopicFilter,
    places: &[usize],
    name: &'a TopicName,
) -> Result<Vec<&'a str>, AllocError>
    ensures { IfOk result (λ made. texts made.items
        ≡ new_levels (levels left.now) (levels right.entry.now) places.now
        (levels name.entry.now)) }
{
    let name = levels_of(alloc, name.text())?;
    let front = left.level_count() - 1;
    let mut made = Vec::new(alloc);
    for (level, place) in right.text().split('/').zip(places) {
        add_level(&mut made, level, *place, &name, front)?;
    }
    Ok(made)
}
