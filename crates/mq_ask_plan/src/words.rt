//! What is wrong with a line of a plan, in words.
use mq_plan::{Entry, PlanKind, Side, entry_of};
use std::alloc::{AllocError, Global};

fn side_name(side: Side) -> &'static str {
    match side {
        Side::Left => "FROM",
        Side::Right => "TO",
    }
}

fn side_in(line: &str, side: Side) -> &str {
    match (entry_of(line), side) {
        (Entry::Renamed(left, _), Side::Left) => left,
        (Entry::Renamed(_, right), Side::Right) => right,
        (Entry::Kept(left), _) | (Entry::Gone(left), _) => left,
        _ => "",
    }
}

// The level of a side at this place.
fn level_in(line: &str, side: Side, place: usize) -> &str {
    side_in(line, side).split('/').nth(place).unwrap_or("")
}

fn missing(side: Side) -> &'static str {
    match side {
        Side::Left => "FROM is missing",
        Side::Right => "TO is missing; for topics that go away write: none FROM",
    }
}

// What is wrong with a level of a side.
fn level_words(
    alloc: Global,
    line: &str,
    side: Side,
    place: usize,
    what: &str,
) -> Result<String, AllocError> {
    let name = side_name(side);
    let level = level_in(line, side, place);
    format!(in alloc; "{name} has a level {level:?}: {what}")
}

// What is wrong with both sides together.
fn pair_words(alloc: Global, line: &str, kind: PlanKind) -> Result<String, AllocError> {
    match kind {
        PlanKind::Twice { level } => {
            let level = level_in(line, Side::Left, level);
            format!(in alloc; "{level} stands more than once in FROM")
        }
        PlanKind::Unnamed { left, right } => format!(in alloc;
            "FROM has {left} + and TO has {right}: name them, as in +hall"
        ),
        PlanKind::Unbound { level } => {
            let level = level_in(line, Side::Right, level);
            format!(in alloc; "FROM has no {level}")
        }
        PlanKind::Front => String::from_str(alloc, "TO must begin with a level of its own"),
        _ => String::from_str(alloc, "out of memory"),
    }
}

/// What is wrong with this line of a plan.
pub fn plan_fault_words(alloc: Global, line: &str, kind: PlanKind) -> Result<String, AllocError> {
    match kind {
        PlanKind::Rule => String::from_str(alloc, "expected FROM -> TO, keep FROM or none FROM"),
        PlanKind::Missing { side } => String::from_str(alloc, missing(side)),
        PlanKind::Long { side } => {
            let name = side_name(side);
            format!(in alloc; "{name} has more than 200 levels, or a level of more than 300 bytes")
        }
        PlanKind::Capture { side, level } => {
            let what = "a name has letters, digits, - and _";
            level_words(alloc, line, side, level, what)
        }
        PlanKind::Mark { side, level } => {
            let what = "a plan has no %c and %u";
            level_words(alloc, line, side, level, what)
        }
        PlanKind::Side { side, level } => {
            let what = "it can't be a level of a topic filter there";
            level_words(alloc, line, side, level, what)
        }
        _ => pair_words(alloc, line, kind),
    }
}
