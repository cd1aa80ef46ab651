//! What is shown once.
ghost use Rattle.std.specs.Prelude.{◌≡◌, ◌++◌, ◌∷◌, [], OnOk, if◌then◌else◌};
ghost use Rattle.std.specs.List.{list_any};
ghost use Rattle.mq_through.specs.Through.{is_alike, same_line};

use crate::renamed::Renamed;
use mq_differences::{same_class, same_direction, same_start};
use std::alloc::AllocError;

fn same_line(left: Option<u64>, right: Option<u64>) -> bool
    ensures { result ≡ same_line left right }
{
    match (left, right) {
        (None, None) => true,
        (Some(line), Some(other)) => line == other,
        _ => false,
    }
}

// Whether both are of the same class, direction and way, of topics that begin with `$` or of others, and the same lines
// decide them.
fn is_alike(left: &Renamed, right: &Renamed) -> bool
    ensures { result ≡ is_alike left.now right.now }
{
    same_class(&left.difference.class, &right.difference.class)
        && same_direction(left.difference.direction, right.difference.direction)
        && left.difference.way == right.difference.way
        && same_start(&left.difference.topic, &right.difference.topic)
        && left.difference.old_reason == right.difference.old_reason
        && left.difference.new_reason == right.difference.new_reason
        && same_line(left.rule, right.rule)
}

fn has_like(found: &[Renamed], renamed: &Renamed) -> bool
    ensures { result ≡ list_any (is_alike renamed.now) found.now }
{
    found.iter().any(|other| is_alike(renamed, other))
}

/// Adds it, unless one like it is there.
pub(crate) fn add(found: &mut Vec<Renamed>, renamed: Renamed) -> Result<(), AllocError>
    ensures { OnOk result (found.new.items
        ≡ (if list_any (is_alike renamed) found.old.items then found.old.items
        else found.old.items ++ (renamed ∷ []))) }
{
    if has_like(found, &renamed) {
        return Ok(());
    }
    found.push(renamed)?;
    Ok(())
}
