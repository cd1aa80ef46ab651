//! A message that goes out, and the copies of it.
ghost use Rattle.std.specs.Prelude.{◌≡◌};
ghost use Rattle.std.specs.Rc.{rc_str_bytes};

use crate::delivery::summary::Summary;
use mq_topic::{TopicFilter, TopicName};
use mq_world::{Delivery, Message};
use std::alloc::{AllocError, Global};
use std::rc::{Rc, RcStr};

/// A message with its texts as its copies hold them: they are made once, and each copy shares them.
pub(crate) struct Outgoing<'a> {
    pub(crate) message: Message<'a>,
    topic: Rc<TopicName>,
    payload: RcStr,
    ghost same_topic: { topic.value ≡ message.topic.now },
    ghost same_payload: { rc_str_bytes payload ≡ message.payload.now },
}

// Opaque to callers' proofs: one step, and not one for each field (docs/explanation/gate.md).
impl Drop for Outgoing<'_> {
    fn drop(self) {
        let Outgoing {
            message: _,
            topic: _,
            payload: _,
        } = self;
    }
}

impl<'a> Outgoing<'a> {
    ghost use Rattle.std.specs.Prelude.{IfOk};
    ghost use Rattle.std.specs.Option.{option_map};
    ghost use Rattle.mq_router.specs.delivery.Summaries.{copy_from};
    ghost use Rattle.mq_world.specs.Views.{copy_of, group_of};
    ghost use Rattle.mq_world.specs.Views.{message_of};

    pub(crate) fn new(alloc: Global, message: &Message<'a>) -> Result<Outgoing<'a>, AllocError>
        ensures { IfOk result (λ o. o.message ≡ message.now) }
    {
        Ok(Outgoing {
            message: *message,
            topic: Rc::new(alloc, message.topic.clone()?)?,
            payload: RcStr::from_str(alloc, message.payload)?,
        })
    }

    /// The copy for a client, or for it in a group, by subscriptions with this summary.
    pub(crate) fn copy(
        &self,
        client: RcStr,
        group: Option<(RcStr, Rc<TopicFilter>)>,
        summary: Summary,
    ) -> Result<Delivery, AllocError>
        ensures { IfOk result (λ d. copy_of d
            ≡ copy_from (rc_str_bytes client) (option_map group_of group)
            (message_of self.now.message) summary) }
    {
        let message = &self.message;
        Ok(Delivery {
            client,
            topic: self.topic.clone()?,
            payload: self.payload.clone()?,
            qos: message.qos.min(summary.qos()),
            retain: message.retain && summary.retains_as_published(),
            expiry: message.expiry,
            ids: summary.into_ids(),
            group,
        })
    }
}
