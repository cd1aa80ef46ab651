//! Rows that are made for a region and concern none of its topics.
ghost use Rattle.std.specs.Prelude.{◌≡◌, ℕ, List, IfOk, true};
ghost use Rattle.mq_topic.specs.Levels.{levels};
ghost use Rattle.mq_topic.specs.Matching.{matches};
ghost use Rattle.mq_topic.specs.Texts.{is_name};
ghost use Rattle.mq_rename.specs.Lists.{texts};
ghost use Rattle.mq_regions.specs.Regions.{is_taken};
ghost use Rattle.mq_through.specs.Needed.{IsIdle};

use crate::check::has_mark;
use mq_acl::Row;
use mq_regions::Region;
use mq_rename::{MeetFault, meet};
use mq_topic::{LevelText, TopicFilter};
use mq_witness::is_pattern;
use std::alloc::{AllocError, Global};

fn is_same_text(filter: &TopicFilter, other: &TopicFilter) -> bool
    ensures { result ≡ true → filter.now ≡ other.now }
{
    filter == other
}

// Whether the first filter is known to match whatever the second one does.
fn is_within(alloc: Global, taken: &TopicFilter, filter: &TopicFilter) -> Result<bool, AllocError>
    ensures { IfOk result (λ within. within ≡ true → (n : List ℕ) → is_name n ≡ true
        → matches (levels filter.now) (levels n) ≡ true
        → matches (levels taken.now) (levels n) ≡ true) }
{
    match meet(alloc, taken, filter) {
        Ok(Some(met)) => Ok(is_same_text(&met, filter)),
        Ok(None) => Ok(false),
        Err(MeetFault::Memory) => Err(AllocError),
        Err(MeetFault::TooLong) => Ok(false),
    }
}

fn is_taken(alloc: Global, taken: &[&TopicFilter], filter: &TopicFilter) -> Result<bool, AllocError>
    ensures { IfOk result (λ all. all ≡ true → (n : List ℕ) → is_name n ≡ true
        → matches (levels filter.now) (levels n) ≡ true
        → is_taken (texts taken.now) n ≡ true) }
{
    for other in taken {
        if is_within(alloc, other, filter)? {
            return Ok(true);
        }
    }
    Ok(false)
}

/// Whether the row is for all clients, and is known to be about no topic of the region: all of its topics are taken. A
/// `pattern` line with the client id as a level makes such rows.
pub(crate) fn is_idle(alloc: Global, region: &Region, row: &Row) -> Result<bool, AllocError>
    ensures { IfOk result (λ idle. idle ≡ true → IsIdle region.now row.now) }
{
    if !is_pattern(&row.owner) {
        return Ok(false);
    }
    if has_mark(row.filter.text()) {
        return Ok(false);
    }
    let all = is_taken(alloc, &region.taken, &row.filter)?;
    Ok(all)
}
