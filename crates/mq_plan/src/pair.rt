//! What may be wrong with a rule's sides together.
ghost use Rattle.std.specs.Prelude.{◌≡◌, count_by};
ghost use Rattle.std.specs.Str.{bytes_eq};
ghost use Rattle.std.specs.List.{list_any};
ghost use Rattle.mq_topic.specs.Levels.{levels};
ghost use Rattle.mq_plan.specs.Pairs.{are_paired, begins_with_wildcard, front_fault, has_name, is_twice};
ghost use Rattle.mq_plan.specs.Pairs.{is_unbound, left_fault, pair_fault, plus_count, rename_fault};
ghost use Rattle.mq_plan.specs.Pairs.{twice_fault, unbound_fault, unnamed_fault};

use crate::fault::{PlanKind, Side};
use crate::level::{begins_with_plus, is_named};
use crate::side::side_fault;
use mq_topic::split_first;

// How often the level stands on the side.
fn times(text: &str, level: &str) -> usize
    ensures { result ≡ count_by (bytes_eq level.now) (levels text.now) }
{
    text.split('/').filter(|other| level == *other).count()
}

fn is_twice(text: &str, level: &str) -> bool
    ensures { result ≡ is_twice (levels text.now) level.now }
{
    is_named(level) && times(text, level) > 1
}

fn twice_fault(left: &str) -> Option<PlanKind>
    ensures { result ≡ twice_fault (levels left.now) }
{
    let level = left.split('/').position(|level| is_twice(left, level))?;
    Some(PlanKind::Twice { level })
}

fn plus_count(text: &str) -> usize
    ensures { result ≡ plus_count (levels text.now) }
{
    text.split('/').filter(|level| *level == "+").count()
}

fn has_name(text: &str) -> bool
    ensures { result ≡ has_name (levels text.now) }
{
    text.split('/').any(|level| is_named(level))
}

// Whether each `+` on the right stands for one on the left.
fn are_paired(left: &str, right: &str) -> bool
    ensures { result ≡ are_paired (levels left.now) (levels right.now) }
{
    let count = plus_count(right);
    if count == 0 {
        return true;
    }
    count == plus_count(left) && !(has_name(left) || has_name(right))
}

fn unnamed_fault(left: &str, right: &str) -> Option<PlanKind>
    ensures { result ≡ unnamed_fault (levels left.now) (levels right.now) }
{
    if are_paired(left, right) {
        return None;
    }
    Some(PlanKind::Unnamed {
        left: plus_count(left),
        right: plus_count(right),
    })
}

fn stands_on(text: &str, level: &str) -> bool
    ensures { result ≡ list_any (bytes_eq level.now) (levels text.now) }
{
    text.split('/').any(|other| level == other)
}

// Whether it stands for something that isn't on the left.
fn is_unbound(left: &str, level: &str) -> bool
    ensures { result ≡ is_unbound (levels left.now) level.now }
{
    (is_named(level) || level == "#") && !stands_on(left, level)
}

fn unbound_fault(left: &str, right: &str) -> Option<PlanKind>
    ensures { result ≡ unbound_fault (levels left.now) (levels right.now) }
{
    let level = right.split('/').position(|level| is_unbound(left, level))?;
    Some(PlanKind::Unbound { level })
}

fn begins_with_wildcard(right: &str) -> bool
    ensures { result ≡ begins_with_wildcard (levels right.now) }
{
    let (first, _) = split_first(right);
    begins_with_plus(first) || first == "#"
}

fn front_fault(right: &str) -> Option<PlanKind>
    ensures { result ≡ front_fault (levels right.now) }
{
    if begins_with_wildcard(right) {
        Some(PlanKind::Front)
    } else {
        None
    }
}

// What is wrong with sides that are well each by itself.
fn pair_fault(left: &str, right: &str) -> Option<PlanKind>
    ensures { result ≡ pair_fault (levels left.now) (levels right.now) }
{
    if let Some(kind) = twice_fault(left) {
        return Some(kind);
    }
    if let Some(kind) = unnamed_fault(left, right) {
        return Some(kind);
    }
    if let Some(kind) = unbound_fault(left, right) {
        return Some(kind);
    }
    front_fault(right)
}

/// What is wrong with `FROM -> TO`.
pub(crate) fn rename_fault(left: &str, right: &str) -> Option<PlanKind>
    ensures { result ≡ rename_fault left.now right.now }
{
    if right.is_empty() {
        return Some(PlanKind::Missing { side: Side::Right });
    }
    if let Some(kind) = side_fault(Side::Left, left) {
        return Some(kind);
    }
    if let Some(kind) = side_fault(Side::Right, right) {
        return Some(kind);
    }
    pair_fault(left, right)
}

/// What is wrong with `keep FROM` or `none FROM`.
pub(crate) fn left_fault(left: &str) -> Option<PlanKind>
    ensures { result ≡ left_fault left.now }
{
    if let Some(kind) = side_fault(Side::Left, left) {
        return Some(kind);
    }
    twice_fault(left)
}
