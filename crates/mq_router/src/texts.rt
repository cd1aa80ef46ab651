//! Which texts a command may name, and what they stand for.
ghost use Rattle.std.specs.Prelude.{◌≡◌, ◌&&◌, None, Some, is_some, string_bytes, IfOk, IfErr, ◌⊎◌};
ghost use Rattle.std.specs.Prelude.{true, false};
ghost use Rattle.std.specs.Option.{option_copied, option_map};
ghost use Rattle.mq_topic.specs.Texts.{is_name, is_subscription};
ghost use Rattle.mq_world.specs.Refusals.{faulty_line, acl_refusal};
ghost use Rattle.mq_subscriptions.specs.SubFilters.{IsAskedBy};
ghost use Rattle.mq_world.specs.After.{access_of};

use mq_acl::{Acl, AclKind, Rules};
use mq_topic::{SubFilter, TopicFault, TopicName};
use mq_world::Refusal;
use std::alloc::{AllocError, Global};

/// A filter, and a share name or none.
pub(crate) fn parse_filter(alloc: Global, text: &str) -> Result<SubFilter, Refusal>
    ensures ok { IfOk result (λ sub_filter. IsAskedBy text.now sub_filter) }
    ensures err { IfErr result (λ refusal. (refusal ≡ Refusal.Memory)
        ⊎ ((refusal ≡ Refusal.TopicFilter) × (is_subscription text.now ≡ false))) }
{
    match SubFilter::parse(alloc, text) {
        Ok(sub_filter) => Ok(sub_filter),
        Err(TopicFault::Memory) => Err(Refusal::Memory),
        Err(_) => Err(Refusal::TopicFilter),
    }
}

pub(crate) fn parse_name(alloc: Global, text: &str) -> Result<TopicName, Refusal>
    ensures ok { IfOk result (λ name. (name ≡ text.now) × (is_name text.now ≡ true)) }
    ensures err { IfErr result (λ refusal. (refusal ≡ Refusal.Memory)
        ⊎ ((refusal ≡ Refusal.TopicName) × (is_name text.now ≡ false))) }
{
    match TopicName::parse(alloc, text) {
        Ok(name) => Ok(name),
        Err(TopicFault::Memory) => Err(Refusal::Memory),
        Err(_) => Err(Refusal::TopicName),
    }
}

/// A copy of a text, if there is one.
pub(crate) fn copied(alloc: Global, text: Option<&str>) -> Result<Option<String>, AllocError>
    ensures { IfOk result (λ copy. option_map string_bytes copy ≡ option_copied text.entry) }
{
    match text {
        None => Ok(None),
        Some(text) => Ok(Some(String::from_str(alloc, text)?)),
    }
}

/// The access list of a text that these rules read, or none without a text.
pub(crate) fn read_access(
    alloc: Global,
    rules: Rules,
    text: Option<&str>,
) -> Result<Option<Acl>, Refusal>
    ensures ok { IfOk result (λ access. (access ≡ access_of rules (option_copied text.entry))
        × (faulty_line rules (option_copied text.entry) ≡ None)) }
    ensures err { IfErr result (λ refusal. (refusal ≡ Refusal.Memory)
        ⊎ (acl_refusal rules (option_copied text.entry) ≡ Some refusal)) }
{
    let Some(text) = text else {
        return Ok(None);
    };
    match Acl::read_by(alloc, rules, text) {
        Ok(acl) => Ok(Some(acl)),
        Err(fault) => match fault.kind {
            AclKind::Memory => Err(Refusal::Memory),
            _ => Err(Refusal::AclLine { line: fault.line }),
        },
    }
}

/// Whether a subscription asks for what is not for shared ones, No Local (MQTT 5.0, section 3.8.3.1).
pub(crate) fn is_shared_no_local(sub_filter: &SubFilter, no_local: bool) -> bool
    ensures { result ≡ (is_some sub_filter.now.share && no_local) }
{
    if no_local {
        sub_filter.share.is_some()
    } else {
        false
    }
}
