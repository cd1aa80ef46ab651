//! The retained messages: a tree by topic, and an index of their deadlines.
//!
//! ```text
//! by topic:  plant/door "open", until 90     by deadline:  60  plant/energy
//!            plant/energy "12", until 60                   90  plant/door
//!            plant/notice "..", for ever
//! ```
//!
//! So an advance to 75 looks at two pairs of the index, and at no other message.
ghost use Rattle.std.specs.Prelude.{◌≡◌, ◌+◌, ◌<◌, ◌^◌, ℕ, [], length, not, OnOk, OnErr, IfOk};
ghost use Rattle.std.specs.Prelude.{IfSome, None, nat_eq, if◌then◌else◌};
ghost use Rattle.std.specs.List.{filter, list_any};
ghost use Rattle.std.specs.Option.{option_and_then, option_map, option_eq};
ghost use Rattle.mq_topic.specs.Prefixes.{capped};
ghost use Rattle.mq_topic.specs.Prefixes.{prefixes};
ghost use Rattle.mq_world.specs.Clock.{deadline_of};
ghost use Rattle.mq_world.specs.Lists.{with_row};
ghost use Rattle.mq_world.specs.World.{retained_cmp};
ghost use Rattle.mq_world.specs.Retained.{retained_after, without_expired, is_full, has_topic};
ghost use Rattle.mq_world.specs.Retained.{is_stored};
ghost use Rattle.mq_world.specs.Views.{message_of};
ghost use Rattle.mq_retained.specs.Deadlines.{deadline_at, is_due};
ghost use Rattle.mq_retained.specs.Due.{due_of};
ghost use Rattle.mq_retained.specs.Stored.{stored_until, AreFiled, AreNear};

mod copies;
mod deadlines;
mod messages;
mod stored;

pub use copies::Receiver;
use copies::copies_of;
use deadlines::{Deadlines, Due};
use messages::Messages;
use mq_topic::TopicName;
use mq_tree::Steps;
use mq_world::{Delivery, Message};
use std::alloc::{AllocError, Global};
use std::marker::Model;
use stored::Stored;

/// One message for a topic, each with a deadline or none. It is seen as the list of the messages by
/// topic in level order, with the keys of the tree and the pairs of the index.
pub struct Retained {
    alloc: Global,
    tree: Messages,
    deadlines: Deadlines,
}

// Opaque to callers' proofs: one step, and not one for each field (docs/explanation/gate.md).
impl Drop for Retained {
    fn drop(self) {
        let Retained {
            alloc: _,
            tree: _,
            deadlines: _,
        } = self;
    }
}

impl Model for Retained {
    ghost use Rattle.mq_retained.specs.Stored.{RetainedView};

    ghost Value = { RetainedView };

    ghost use Rattle.mq_retained.specs.Stored.{retained_view, IsSound};

    ghost view = { λ a. retained_view a.tree a.deadlines };

    ghost invariant = { λ a. IsSound a.tree a.deadlines };
}

impl Retained {
    ghost use Rattle.mq_retained.specs.Receivers.{copies_for, steps_among};
    ghost use Rattle.mq_world.specs.Views.{copies_in};

    pub fn new(alloc: Global) -> Retained
        ensures { result ≡ record { messages = []; keys = []; pairs = [] } }
    {
        Retained {
            alloc,
            tree: Messages::new(alloc),
            deadlines: Deadlines::new(alloc),
        }
    }

    /// Takes in a message that is published: with RETAIN it takes the place of the older one of its
    /// topic, or only removes that.
    pub fn publish(&mut self, message: &Message) -> Result<(), AllocError>
        ensures ok { OnOk result ((moment : ℕ) → message.now.deadline
            ≡ deadline_of moment message.now.expiry
            → self.new.messages ≡ retained_after moment self.old.messages
            (message_of message.now)) }
        ensures filed { OnOk result (AreFiled self.old → AreFiled self.new) }
        ensures near { OnOk result ((moment : ℕ)
            → IfSome message.now.deadline (λ d. d < moment + 2 ^ 32)
            → AreNear moment self.old.messages → AreNear moment self.new.messages) }
        ensures err { OnErr result (self.new ≡ self.old) }
    {
        if !message.retain {
            return Ok(());
        }
        if !is_stored(message) {
            self.clear(message.topic);
            return Ok(());
        }
        self.store(message)
    }

    /// Removes each message whose deadline is at the moment or before it, each at one step.
    pub fn advance(&mut self, moment: u64, steps: &mut Steps)
        ensures rest { self.new.messages ≡ without_expired moment self.old.messages }
        ensures filed { AreFiled self.new }
        ensures count { steps.new ≡ steps.old + length (filter (is_due moment) self.old.messages) }
    {
        while let Some(topic) = self.deadlines.take_due(moment, steps) {
            let _ = self.tree.take(&topic);
        }
    }

    /// Whether the message would be stored for another topic, where as many are stored as may be.
    pub fn is_full(&self, limit: Option<u32>, message: &Message) -> bool
        ensures { result ≡ is_full limit self.now.messages (message_of message.now) }
    {
        let Some(most) = limit else {
            return false;
        };
        if !is_stored(message) || self.has_message(message.topic) {
            return false;
        }
        self.len() >= most as u64
    }

    /// The copies that a client is sent, by topic in level order.
    pub fn copies(
        &self,
        receiver: &Receiver,
        steps: &mut Steps,
    ) -> Result<Vec<Delivery>, AllocError>
        requires { AreNear receiver.now.clock.moment self.now.messages }
        ensures copies { IfOk result
            (λ copies. copies_in copies ≡ copies_for receiver.now self.now.messages) }
        ensures count { OnOk result (steps.new ≡ steps.old + steps_among receiver.now.filter.now
            self.now.messages) }
    {
        let found = self.tree.for_filter(receiver.filter, steps)?;
        let copies = copies_of(self.alloc, receiver, found.as_slice())?;
        Ok(copies)
    }

    /// How many messages there are, at most `u64::MAX`.
    pub fn len(&self) -> u64
        ensures { result ≡ capped (length self.now.messages) }
    {
        self.tree.len()
    }

    /// How many nodes the tree keeps, at most `u64::MAX`.
    pub fn nodes(&self) -> u64
        ensures { result ≡ capped (length (prefixes self.now.keys)) }
    {
        self.tree.nodes()
    }

    // Whether a message is stored for the topic.
    fn has_message(&self, topic: &TopicName) -> bool
        ensures { result ≡ list_any (has_topic topic.now) self.now.messages }
    {
        self.tree.get(topic).is_some()
    }

    // Stores a message, in place of an older one of its topic. What takes memory comes first, but
    // for the tree's entry: where that is refused the topic had none, and the new deadline is
    // removed again.
    fn store(&mut self, message: &Message) -> Result<(), AllocError>
        ensures ok { OnOk result (self.new.messages
            ≡ with_row retained_cmp (stored_until message.now.deadline (message_of message.now))
            self.old.messages) }
        ensures filed { OnOk result (AreFiled self.new) }
        ensures err { OnErr result (self.new ≡ self.old) }
    {
        let stored = Stored::from_message(self.alloc, message)?;
        let new = Due::of(message.deadline, &stored.topic)?;
        self.deadlines.insert(message.deadline, &stored.topic)?;
        match self.tree.put(message.topic, stored) {
            Err(fault) => {
                self.deadlines.remove(&new);
                Err(fault)
            }
            Ok(older) => {
                self.deadlines.remove(&replaced(older, message.deadline));
                Ok(())
            }
        }
    }

    // Clears the message of a topic, if there is one.
    fn clear(&mut self, topic: &TopicName)
        ensures rest { self.new.messages
            ≡ filter (λ kept. not (has_topic topic.now kept)) self.old.messages }
        ensures filed { AreFiled self.new }
    {
        let gone = self.tree.take(topic);
        self.deadlines.remove(&due_of_gone(gone));
    }
}

// Whether a message that is published is stored.
fn is_stored(message: &Message) -> bool
    ensures { result ≡ is_stored (message_of message.now) }
{
    message.retain
        && !message.payload.is_empty()
        && !message.expiry.is_some_and(|seconds| seconds == 0)
}

// The pair of a message that is gone, if there was one with a deadline.
fn due_of_gone(gone: Option<Stored>) -> Option<Due>
    ensures { option_map due_of result
        ≡ option_and_then (λ s. option_map (λ d. (d, s.topic.value)) s.deadline) gone }
{
    match gone {
        None => None,
        Some(stored) => stored.into_due(),
    }
}

// The pair of the older message, unless it is the pair of the new one, with this deadline.
fn replaced(older: Option<Stored>, new: Option<u64>) -> Option<Due>
    ensures { option_map due_of result ≡ option_and_then (λ s. if option_eq nat_eq s.deadline new
        then None else option_map (λ d. (d, s.topic.value)) s.deadline) older }
{
    let Some(older) = older else {
        return None;
    };
    if older.deadline == new {
        return None;
    }
    older.into_due()
}
