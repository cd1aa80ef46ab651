ghost use Rattle.std.specs.Prelude.{◌≡◌, IfOk};
ghost use Rattle.std.specs.Option.{option_map};
ghost use Rattle.mq_world.specs.Views.{message_of};
ghost use Rattle.mq_retained.specs.Due.{due_of};
ghost use Rattle.mq_retained.specs.Stored.{message_in, stored_until};

use crate::retained::deadlines::Due;
use mq_topic::TopicName;
use mq_world::Message;
use std::alloc::{AllocError, Global};
use std::rc::{Rc, RcStr};

/// The message that is retained for a topic.
pub(crate) struct Stored {
    /// The copies share the topic and the payload.
    pub(crate) topic: Rc<TopicName>,
    pub(crate) payload: RcStr,
    pub(crate) qos: u8,
    pub(crate) publisher: RcStr,
    pub(crate) deadline: Option<u64>,
}

// Opaque to callers' proofs: one step, and not one for each field (docs/explanation/gate.md).
impl Drop for Stored {
    fn drop(self) {
        let Stored {
            topic: _,
            payload: _,
            qos: _,
            publisher: _,
            deadline: _,
        } = self;
    }
}

impl Stored {
    pub(crate) fn from_message(alloc: Global, message: &Message) -> Result<Stored, AllocError>
        ensures { IfOk result (λ stored. message_in stored
            ≡ stored_until message.now.deadline (message_of message.now)) }
    {
        Ok(Stored {
            topic: Rc::new(alloc, message.topic.clone()?)?,
            payload: RcStr::from_str(alloc, message.payload)?,
            qos: message.qos,
            publisher: message.publisher.clone()?,
            deadline: message.deadline,
        })
    }

    /// Its pair in the index of deadlines, if it has a deadline. It takes no memory.
    pub(crate) fn into_due(self) -> Option<Due>
        ensures { option_map due_of result
            ≡ option_map (λ d. (d, self.topic.value)) self.deadline }
    {
        let Stored {
            topic,
            payload: _,
            qos: _,
            publisher: _,
            deadline,
        } = self;
        match deadline {
            None => None,
            Some(deadline) => Some(Due::new(deadline, topic)),
        }
    }
}
