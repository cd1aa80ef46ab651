//! The sides of rules.
ghost use Rattle.std.specs.Prelude.{◌≡◌, ◌<◌, Option, Some, None, IfOk, length};
ghost use Rattle.mq_topic.specs.Levels.{levels};
ghost use Rattle.mq_rename.specs.Lists.{texts};
ghost use Rattle.mq_plan.specs.Sides.{first_level_fault, is_long_side, plain_levels, plain_text};
ghost use Rattle.mq_plan.specs.Sides.{side_fault};

use crate::fault::{PlanKind, Side};
use crate::level::{level_fault, plain};
use mq_topic::{TopicFault, TopicFilter, split_first};
use std::alloc::{AllocError, Global};

/// The most levels that a side may have.
const LEVEL_LIMIT: usize = 200;

/// The most bytes that a level may have.
const BYTE_LIMIT: usize = 300;

fn count(text: &str) -> usize
    ensures { result ≡ length (levels text.now) }
{
    text.split('/').count()
}

fn is_long_side(text: &str) -> bool
    ensures { result ≡ is_long_side (levels text.now) }
{
    count(text) > LEVEL_LIMIT || text.split('/').any(|level| level.len() > BYTE_LIMIT)
}

// What is wrong with the first faulty level.
fn first_level_fault(side: Side, text: &str) -> Option<PlanKind>
    ensures { result ≡ first_level_fault side (levels text.now) }
{
    let count = count(text);
    let mut place = 0;
    let mut rest = Some(text);
    while let Some(text) = rest {
        let (level, after) = split_first(text);
        if let Some(kind) = level_fault(side, count, place, level) {
            return Some(kind);
        }
        place += 1;
        rest = after;
    }
    None
}

/// What is wrong with the side alone.
pub(crate) fn side_fault(side: Side, text: &str) -> Option<PlanKind>
    ensures { result ≡ side_fault side text.now }
{
    if text.is_empty() {
        return Some(PlanKind::Missing { side });
    }
    if is_long_side(text) {
        return Some(PlanKind::Long { side });
    }
    first_level_fault(side, text)
}

// The levels, without names.
fn plain_levels(alloc: Global, text: &str) -> Result<Vec<&str>, AllocError>
    ensures { IfOk result (λ all. texts all.items ≡ plain_levels text.entry.now) }
{
    text.split('/').map(|level| plain(level)).collect(alloc)
}

/// A side without a fault as a topic filter.
pub(crate) fn plain_filter(alloc: Global, side: Side, text: &str) -> Result<TopicFilter, AllocError>
    requires { side_fault side text.now ≡ None }
    ensures { IfOk result (λ filter. filter ≡ plain_text text.now) }
{
    let levels = plain_levels(alloc, text)?;
    let plain = levels.join(alloc, "/")?;
    match TopicFilter::parse(alloc, plain.as_str()) {
        Ok(filter) => Ok(filter),
        Err(fault) => match fault {
            TopicFault::Memory => Err(AllocError),
            _ => unreachable!(),
        },
    }
}
