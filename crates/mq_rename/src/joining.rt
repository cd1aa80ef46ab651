//! The filter of a list of levels.
ghost use Rattle.std.specs.Prelude.{◌≡◌, ℕ, List, true, not, IfOk, IfErr, IfSome};
ghost use Rattle.mq_topic.specs.Levels.{levels};
ghost use Rattle.mq_topic.specs.Matching.{matches};
ghost use Rattle.mq_topic.specs.Texts.{is_memory, is_name};
ghost use Rattle.mq_rename.specs.Lists.{are_fit, has_long, IsFault, texts};
ghost use Rattle.mq_rename.specs.Meets.{matches_if_any};
ghost use Rattle.mq_rename.specs.Joins.{within_reach};

use crate::fault::MeetFault;
use mq_topic::{TopicFault, TopicFilter};
use std::alloc::Global;

/// The most levels that a name may have.
const LEVEL_LIMIT: usize = 200;

// A `#` behind as many levels as a name may have stands for none.
fn within_reach<'a, 'b>(parts: &'b [&'a str]) -> &'b [&'a str]
    ensures { texts result.now ≡ within_reach (texts parts.entry.now) }
{
    if parts.len() == LEVEL_LIMIT + 1 && parts[LEVEL_LIMIT] == "#" {
        return parts.split_at(LEVEL_LIMIT).0;
    }
    parts
}

// What is wrong with a text that would be a filter's, but for its length.
fn fault_of(fault: TopicFault) -> MeetFault
    ensures { IsFault result (not (is_memory fault)) }
{
    match fault {
        TopicFault::Memory => MeetFault::Memory,
        _ => MeetFault::TooLong,
    }
}

/// The filter that matches the names that these levels match; none only where there is no such name.
pub(crate) fn filter_of(alloc: Global, parts: &[&str]) -> Result<Option<TopicFilter>, MeetFault>
    requires { are_fit (texts parts.now) ≡ true }
    ensures same { IfOk result (λ found. (n : List ℕ) → is_name n ≡ true
        → matches_if_any found n ≡ matches (texts parts.now) (levels n)) }
    ensures long { IfOk result (λ found. IfSome found (λ f. has_long (levels f) ≡ true
        → has_long (texts parts.now) ≡ true)) }
    ensures fault { IfErr result (λ fault. IsFault fault (has_long (texts parts.now))) }
{
    let parts = within_reach(parts);
    if parts.len() > LEVEL_LIMIT {
        return Ok(None);
    }
    let joined = parts.join(alloc, "/")?;
    let text = joined.as_str();
    if text.is_empty() {
        return Ok(None);
    }
    match TopicFilter::parse(alloc, text) {
        Ok(filter) => Ok(Some(filter)),
        Err(fault) => Err(fault_of(fault)),
    }
}
