//! The copies of retained messages that a subscribe sends.
ghost use Rattle.std.specs.Prelude.{◌≡◌, ◌+◌, ◌<◌, ◌^◌, IfOk, IfSome, map};
ghost use Rattle.std.specs.Option.{option_copied, option_to_list};
ghost use Rattle.mq_world.specs.Retained.{retained_copy};
ghost use Rattle.mq_world.specs.Views.{copy_of, copies_in};
ghost use Rattle.mq_retained.specs.Stored.{message_in, may_get, AreNear};
ghost use Rattle.mq_retained.specs.Receivers.{subscription_for, copies_among};

use crate::retained::stored::Stored;
use mq_acl::{Acl, may_read};
use mq_topic::TopicFilter;
use mq_world::{Clock, Delivery, SubscriptionOptions};
use std::alloc::{AllocError, Global};
use std::rc::RcStr;

/// A client that subscribes, with its user name or none, under an access list at a moment.
#[derive(Clone, Copy)]
pub struct Receiver<'a> {
    pub access: &'a Option<Acl>,
    pub clock: Clock,
    pub user: Option<&'a str>,
    pub client: &'a RcStr,
    pub filter: &'a TopicFilter,
    pub options: SubscriptionOptions,
}

fn may_get(receiver: &Receiver, stored: &Stored) -> bool
    ensures { result ≡ may_get receiver.now.access.now (option_copied receiver.now.user)
        (subscription_for receiver.now) (message_in stored.now) }
{
    let client = receiver.client.as_str();
    may_read(receiver.access, client, receiver.user, &stored.topic)
        && !(receiver.options.no_local && stored.publisher.as_str() == client)
}

fn identifiers(alloc: Global, id: Option<u32>) -> Result<Vec<u32>, AllocError>
    ensures { IfOk result (λ ids. ids.items ≡ option_to_list id) }
{
    let mut ids = Vec::new(alloc);
    if let Some(id) = id {
        ids.push(id)?;
    }
    Ok(ids)
}

fn retained_copy(
    alloc: Global,
    receiver: &Receiver,
    stored: &Stored,
) -> Result<Delivery, AllocError>
    requires { IfSome stored.now.deadline (λ d. d < receiver.now.clock.moment + 2 ^ 32) }
    ensures { IfOk result (λ d. copy_of d ≡ retained_copy receiver.now.clock.moment
        (subscription_for receiver.now) (message_in stored.now)) }
{
    Ok(Delivery {
        client: receiver.client.clone()?,
        topic: stored.topic.clone()?,
        payload: stored.payload.clone()?,
        qos: stored.qos.min(receiver.options.qos),
        retain: true,
        expiry: receiver.clock.time_left(stored.deadline),
        ids: identifiers(alloc, receiver.options.id)?,
        group: None,
    })
}

/// The copies of the messages that the client may get, in their order.
pub(crate) fn copies_of(
    alloc: Global,
    receiver: &Receiver,
    found: &[&Stored],
) -> Result<Vec<Delivery>, AllocError>
    requires { AreNear receiver.now.clock.moment (map (λ s. message_in s.now) found.now) }
    ensures { IfOk result (λ copies. copies_in copies
        ≡ copies_among receiver.now (map (λ s. message_in s.now) found.now)) }
{
    let mut copies = Vec::with_capacity(alloc, found.len())?;
    for stored in found {
        let stored: &Stored = stored;
        if !may_get(receiver, stored) {
            continue;
        }
        copies.push(retained_copy(alloc, receiver, stored)?)?;
    }
    Ok(copies)
}
