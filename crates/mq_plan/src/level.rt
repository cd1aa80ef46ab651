//! The levels of a rule's sides.
ghost use Rattle.std.specs.Prelude.{◌≡◌, ◌<◌, ◌+◌, ◌==◌};
ghost use Rattle.mq_topic.specs.Texts.{contains_byte};
ghost use Rattle.mq_plan.specs.Sides.{begins_with_plus, is_capture, is_fit, is_mark, is_name_byte};
ghost use Rattle.mq_plan.specs.Sides.{is_named, level_fault, plain};

use crate::fault::{PlanKind, Side};

fn is_name_byte(byte: u8) -> bool
    ensures { result ≡ is_name_byte byte }
{
    matches!(byte, b'0'..=b'9' | b'A'..=b'Z' | b'a'..=b'z' | b'-' | b'_')
}

pub(crate) fn begins_with_plus(level: &str) -> bool
    ensures { result ≡ begins_with_plus level.now }
{
    level.starts_with('+')
}

// Whether it is `+`, with a name behind it or none.
fn is_capture(level: &str) -> bool
    ensures { result ≡ is_capture level.now }
{
    let Some((first, name)) = level.as_bytes().split_first() else {
        return false;
    };
    if *first != b'+' {
        return false;
    }
    name.iter().all(|byte| is_name_byte(*byte))
}

/// Whether it is a `+` with a name.
pub(crate) fn is_named(level: &str) -> bool
    ensures { result ≡ is_named level.now }
{
    begins_with_plus(level) && level != "+"
}

/// As a level of a topic filter, without the name.
pub(crate) fn plain(level: &str) -> &str
    ensures { result.now ≡ plain level.entry.now }
{
    if begins_with_plus(level) { "+" } else { level }
}

fn is_mark(level: &str) -> bool
    ensures { result ≡ is_mark level.now }
{
    level == "%c" || level == "%u"
}

fn has_byte(level: &str, byte: u8) -> bool
    ensures { result ≡ contains_byte byte level.now }
{
    level.as_bytes().contains(&byte)
}

// Whether it may be a level of a topic filter, the last one or another.
fn is_fit(last: bool, level: &str) -> bool
    ensures { result ≡ is_fit last level.now }
{
    if has_byte(level, 0) {
        return false;
    }
    if has_byte(level, b'+') && !begins_with_plus(level) {
        return false;
    }
    !has_byte(level, b'#') || (last && level == "#")
}

/// What is wrong with the level at this place of a side of so many.
pub(crate) fn level_fault(side: Side, count: usize, place: usize, level: &str) -> Option<PlanKind>
    requires { place < count }
    ensures { result ≡ level_fault side count (place, level.now) }
{
    if begins_with_plus(level) && !is_capture(level) {
        return Some(PlanKind::Capture { side, level: place });
    }
    if is_mark(level) {
        return Some(PlanKind::Mark { side, level: place });
    }
    if !is_fit(place + 1 == count, level) {
        return Some(PlanKind::Side { side, level: place });
    }
    None
}
