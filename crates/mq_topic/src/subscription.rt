//! What a client subscribes to: a filter, or `$share/NAME/FILTER` (MQTT 5.0, section 4.8.2).
//!
//! | Text | Share name | Filter |
//! |---|---|---|
//! | `plant/#` | none | `plant/#` |
//! | `$share/workers/plant/#` | `workers` | `plant/#` |
//! | `$share/workers//` | `workers` | `/` |
//! | `$share//plant`, `$share/a+b/plant`, `$share/workers`, `$share/workers/` | faulty | |
ghost use Rattle.std.specs.Prelude.{◌≡◌, IfOk, IfErr, IfSome, is_none, false, Some, IsTrue};
ghost use Rattle.std.specs.Prelude.{string_bytes};
ghost use Rattle.std.specs.Option.{option_map, option_copied};
ghost use Rattle.mq_topic.specs.Texts.{subscription_fault, of_text, accepts, is_memory};
ghost use Rattle.mq_topic.specs.Texts.{is_subscription, share_of, share_fits, filter_part};

use crate::fault::TopicFault;
use crate::filter::TopicFilter;
use crate::filter_text::FilterText;
use crate::validity::{first_fault, is_deep, is_plain, wildcards_fit};
use std::alloc::{AllocError, Global};

/// What a subscription text asks for: a topic filter, or `$share/NAME/FILTER`, a filter that is shared under a
/// name (MQTT 5.0, section 4.8.2).
#[derive(Debug, Drop, PartialEq, Eq, PartialOrd, Ord)]
pub struct SubFilter {
    /// The share name, of a shared filter.
    pub share: Option<String>,
    /// The filter.
    pub filter: TopicFilter,
}

impl SubFilter {
    /// What this text subscribes to, or the first fault of the text. Of a shared text the wildcards and the levels
    /// of the filter part are tested, and the length of the whole. The text is tested before memory is taken.
    pub fn parse(alloc: Global, text: &str) -> Result<SubFilter, TopicFault>
        ensures parts { IfOk result (λ sub. (option_map string_bytes sub.share ≡ share_of text.now)
            × (sub.filter ≡ filter_part text.now)) }
        ensures valid { accepts result ≡ is_subscription text.now }
        ensures fault { IfErr result (λ fault. subscription_fault text.now ≡ of_text fault) }
    {
        if let Some(fault) = subscription_fault(text) {
            return Err(fault);
        }
        match SubFilter::new(alloc, text) {
            Ok(sub) => Ok(sub),
            Err(_) => Err(TopicFault::Memory),
        }
    }

    // What this valid text subscribes to.
    #[tactic(auto, using(crate::proofs::TextLemmas::filter_part_is_filter))]
    fn new(alloc: Global, text: &str) -> Result<SubFilter, AllocError>
        requires { IsTrue (is_subscription text.now) }
        ensures { IfOk result (λ sub. (option_map string_bytes sub.share ≡ share_of text.now)
            × (sub.filter ≡ filter_part text.now)) }
    {
        let (share, filter) = parts(text);
        let filter = TopicFilter::new(alloc, filter)?;
        let share = match share {
            None => None,
            Some(share) => Some(String::from_str(alloc, share)?),
        };
        Ok(SubFilter { share, filter })
    }

    /// Whether the text is one that `parse` takes.
    pub fn is_valid(text: &str) -> bool
        ensures { result ≡ is_subscription text.now }
    {
        subscription_fault(text).is_none()
    }

    /// The share name and the filter of a valid text, lent out of it.
    #[tactic(auto, using(crate::proofs::TextLemmas::filter_part_is_filter))]
    pub fn split(text: &str) -> (Option<&str>, FilterText<'_>)
        requires { IsTrue (is_subscription text.now) }
        ensures share { option_copied result.0 ≡ share_of text.now }
        ensures filter { result.1 ≡ filter_part text.now }
    {
        let (share, filter) = parts(text);
        (share, FilterText::new(filter))
    }

    /// Another one with the same share name and filter.
    pub fn clone(&self) -> Result<SubFilter, AllocError>
        ensures { IfOk result
            (λ copy. (option_map string_bytes copy.share ≡ option_map string_bytes self.now.share)
            × (copy.filter ≡ self.now.filter)) }
    {
        Ok(SubFilter {
            share: self.share.clone()?,
            filter: self.filter.clone()?,
        })
    }
}

// The share name and the filter part.
fn parts(text: &str) -> (Option<&str>, &str)
    ensures share { option_copied result.0 ≡ share_of text.now }
    ensures filter { result.1.now ≡ filter_part text.now }
{
    match text.strip_prefix("$share/") {
        None => (None, text),
        Some(shared) => match shared.split_once('/') {
            Some((share, filter)) => (Some(share), filter),
            None => (Some(shared), ""),
        },
    }
}

// The first fault of the text as a subscription.
fn subscription_fault(text: &str) -> Option<TopicFault>
    ensures first { result ≡ subscription_fault text.now }
    ensures no_memory { IfSome result (λ fault. is_memory fault ≡ false) }
    ensures valid { is_none result ≡ is_subscription text.now }
{
    let (share, filter) = parts(text);
    if let Some(fault) = first_fault(text, wildcards_fit(filter), is_deep(filter)) {
        return Some(fault);
    }
    let Some(share) = share else {
        return None;
    };
    if share_fits(share, filter) {
        None
    } else {
        Some(TopicFault::Share)
    }
}

fn share_fits(share: &str, filter: &str) -> bool
    ensures { result ≡ share_fits share.now filter.now }
{
    !share.is_empty() && is_plain(share) && !filter.is_empty()
}
