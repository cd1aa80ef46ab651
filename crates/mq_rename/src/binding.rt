//! What a filter of new names demands of the names that get them.
ghost use Rattle.std.specs.Prelude.{◌≡◌, ◌<◌, ◌++◌, length, true, IfOk};
ghost use Rattle.std.specs.Option.{option_map};
ghost use Rattle.mq_topic.specs.Levels.{levels, levels_left};
ghost use Rattle.mq_topic.specs.Texts.{parents};
ghost use Rattle.mq_rename.specs.Bounds.{bind, IsBoundIfAny};
ghost use Rattle.mq_rename.specs.Lists.{is_plus, texts};
ghost use Rattle.mq_rename.specs.Renames.{is_rename};

use crate::meeting::{if_ended, met_level};
use crate::parts::{levels_of, with_rest};
use mq_topic::{LevelText, TopicFilter, is_last_hash, split_first};
use std::alloc::{AllocError, Global};

// The left side's levels, where a level on the right with this place has to be the one wanted; none where it can't be.
fn bind<'a>(
    mut bound: Vec<&'a str>,
    level: &str,
    place: usize,
    wanted: &'a str,
) -> Option<Vec<&'a str>>
    requires { is_plus level.now ≡ true → place < length bound.items }
    ensures { option_map (λ all. texts all.items) result
        ≡ bind (texts bound.entry.items) level.now place wanted.entry.now }
{
    if level == "+" {
        let old = bound[place];
        let met = met_level(old, wanted)?;
        bound[place] = met;
        return Some(bound);
    }
    if wanted == "+" || wanted == level {
        Some(bound)
    } else {
        None
    }
}

// Where the right side's `#` takes what is left of the filter, so does the left side's.
fn with_tail<'a>(
    alloc: Global,
    mut bound: Vec<&'a str>,
    rest: Option<&'a str>,
) -> Result<Vec<&'a str>, AllocError>
    ensures { IfOk result (λ all. texts all.items
        ≡ parents (texts bound.entry.items) ++ levels_left rest.entry) }
{
    bound.pop();
    with_rest(alloc, bound, rest)
}

/// The left side's levels, bound to what the filter demands of new names; none where it matches no new name.
pub(crate) fn bound_levels<'a>(
    alloc: Global,
    left: &'a TopicFilter,
    right: &TopicFilter,
    places: &[usize],
    filter: &'a TopicFilter,
) -> Result<Option<Vec<&'a str>>, AllocError>
    requires { is_rename left.now right.now places.now ≡ true }
    ensures { IfOk result (λ found. IsBoundIfAny (levels left.entry.now) (levels right.now)
        places.now (levels filter.entry.now) (option_map (λ all. texts all.items) found)) }
{
    let mut bound = levels_of(alloc, left.text())?;
    let mut filter_rest = Some(filter.text());
    for (level, place) in right.text().split('/').zip(places) {
        if level == "#" {
            return Ok(Some(with_tail(alloc, bound, filter_rest)?));
        }
        let Some(rest) = filter_rest else {
            return Ok(None);
        };
        let (wanted, after) = split_first(rest);
        if is_last_hash(wanted, after) {
            return Ok(Some(bound));
        }
        let Some(next) = bind(bound, level, *place, wanted) else {
            return Ok(None);
        };
        bound = next;
        filter_rest = after;
    }
    Ok(if_ended(bound, filter_rest))
}
