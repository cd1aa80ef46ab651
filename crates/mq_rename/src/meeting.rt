//! The filter that two filters have in common.
ghost use Rattle.std.specs.Prelude.{◌≡◌, ℕ, List, true, Some, None, ◌&&◌, ◌||◌, IfOk, IfErr, IfSome};
ghost use Rattle.std.specs.Prelude.{if◌then◌else◌};
ghost use Rattle.std.specs.Option.{option_copied, option_map};
ghost use Rattle.mq_topic.specs.Levels.{levels, levels_left};
ghost use Rattle.mq_topic.specs.Matching.{matches};
ghost use Rattle.mq_topic.specs.Texts.{is_name};
ghost use Rattle.mq_rename.specs.Lists.{has_long, IsFault, texts};
ghost use Rattle.mq_rename.specs.Meets.{matches_if_any, may_end, met_level, met_levels};

use crate::fault::MeetFault;
use crate::joining::filter_of;
use crate::parts::with_rest;
use mq_topic::{LevelText, TopicFilter, is_hidden, is_last_hash, split_first};
use std::alloc::{AllocError, Global};

/// The level that names have where both of these stand, if they can have one.
pub(crate) fn met_level<'a>(a: &'a str, b: &'a str) -> Option<&'a str>
    ensures { option_copied result ≡ met_level a.entry.now b.entry.now }
{
    if a == "+" {
        return Some(b);
    }
    if b == "+" || a == b {
        return Some(a);
    }
    None
}

// Whether a name may end before what is left of a filter.
#[tactic(auto, using(mq_topic::proofs::Walk::levels_left_is_none))]
fn may_end(rest: Option<&str>) -> bool
    ensures { result ≡ may_end (levels_left rest.entry) }
{
    let Some(rest) = rest else {
        return true;
    };
    let (level, after) = split_first(rest);
    is_last_hash(level, after)
}

/// The levels, if a name may end before what is left of a filter.
pub(crate) fn if_ended<'a>(parts: Vec<&'a str>, rest: Option<&str>) -> Option<Vec<&'a str>>
    ensures { option_map (λ all. texts all.items) result ≡
        (if may_end (levels_left rest.entry) then Some (texts parts.entry.items) else None) }
{
    if may_end(rest) { Some(parts) } else { None }
}

// The levels that two filters have in common.
fn met_levels<'a>(alloc: Global, a: &'a str, b: &'a str) -> Result<Option<Vec<&'a str>>, AllocError>
    ensures { IfOk result (λ met. option_map (λ all. texts all.items) met
        ≡ met_levels (levels a.entry.now) (levels b.entry.now)) }
{
    let mut met = Vec::new(alloc);
    let mut a_rest = Some(a);
    let mut b_rest = Some(b);
    while let Some(a) = a_rest {
        let (x, a_after) = split_first(a);
        if is_last_hash(x, a_after) {
            return Ok(Some(with_rest(alloc, met, b_rest)?));
        }
        let Some(b) = b_rest else {
            return Ok(None);
        };
        let (y, b_after) = split_first(b);
        if is_last_hash(y, b_after) {
            return Ok(Some(with_rest(alloc, met, a_rest)?));
        }
        let Some(level) = met_level(x, y) else {
            return Ok(None);
        };
        met.push(level)?;
        a_rest = a_after;
        b_rest = b_after;
    }
    Ok(if_ended(met, b_rest))
}

/// The filter that matches the names that both match; none only where there is no such name (MQTT 5.0, sections 4.7.1
/// and 4.7.2). It takes memory for the levels and twice for the text.
pub fn meet(
    alloc: Global,
    a: &TopicFilter,
    b: &TopicFilter,
) -> Result<Option<TopicFilter>, MeetFault>
    ensures same { IfOk result (λ met. (n : List ℕ) → is_name n ≡ true → matches_if_any met n
        ≡ (matches (levels a.now) (levels n) && matches (levels b.now) (levels n))) }
    ensures long { IfOk result (λ met. IfSome met (λ f. has_long (levels f) ≡ true
        → (has_long (levels a.now) || has_long (levels b.now)) ≡ true)) }
    ensures fault { IfErr result (λ fault.
        IsFault fault (has_long (levels a.now) || has_long (levels b.now))) }
{
    let a = a.text();
    let b = b.text();
    if is_hidden(a, b) || is_hidden(b, a) {
        return Ok(None);
    }
    let Some(levels) = met_levels(alloc, a, b)? else {
        return Ok(None);
    };
    filter_of(alloc, &levels)
}
