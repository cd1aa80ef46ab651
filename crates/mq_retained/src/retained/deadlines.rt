//! The deadlines of retained messages, in their order. The module hides its set: outside an edit by its key, a pair is
//! reached only by `take_due`, which takes the first one out if it is due and ticks once for it.
ghost use Rattle.std.specs.Prelude.{◌≡◌, ◌+◌, [], IfOk, OnOk, OnErr, IfSome, IfNone, is_some};
ghost use Rattle.std.specs.Prelude.{if◌then◌else◌};
ghost use Rattle.std.specs.Option.{option_map};
ghost use Rattle.mq_retained.specs.Deadlines.{Adds, Drops, TakesDue, NoneDue};
ghost use Rattle.mq_retained.specs.Due.{due_of};

use mq_topic::TopicName;
use mq_tree::Steps;
use std::alloc::{AllocError, Global};
use std::collections::BTreeSet;
use std::marker::Model;
use std::rc::Rc;

/// A deadline, and the topic that it concerns.
#[derive(Drop, PartialEq, Eq, PartialOrd, Ord)]
pub(crate) struct Due {
    deadline: u64,
    topic: Rc<TopicName>,
}

impl Due {
    pub(crate) fn new(deadline: u64, topic: Rc<TopicName>) -> Due
        ensures { due_of result ≡ (deadline, topic.value) }
    {
        Due { deadline, topic }
    }

    /// The pair of a message with a deadline. It shares the topic.
    pub(crate) fn of(
        deadline: Option<u64>,
        topic: &Rc<TopicName>,
    ) -> Result<Option<Due>, AllocError>
        ensures { IfOk result (λ due. option_map due_of due
            ≡ option_map (λ d. (d, topic.now.value)) deadline) }
    {
        match deadline {
            None => Ok(None),
            Some(deadline) => Ok(Some(Due {
                deadline,
                topic: topic.clone()?,
            })),
        }
    }
}

/// Pairs of a deadline and a topic, by deadline and then by the bytes of the topic.
#[derive(Drop)]
pub(crate) struct Deadlines {
    pairs: BTreeSet<Due>,
}

impl Model for Deadlines {
    ghost use Rattle.std.specs.Prelude.{List};
    ghost use Rattle.mq_retained.specs.Deadlines.{Pair};

    ghost Value = { List Pair };

    ghost use Rattle.mq_retained.specs.Due.{pairs_of};

    ghost view = { pairs_of };
}

impl Deadlines {
    pub(crate) fn new(alloc: Global) -> Deadlines
        ensures { result ≡ [] }
    {
        Deadlines {
            pairs: BTreeSet::new(alloc),
        }
    }

    /// Adds a pair, if there is one.
    pub(crate) fn insert(
        &mut self,
        deadline: Option<u64>,
        topic: &Rc<TopicName>,
    ) -> Result<(), AllocError>
        ensures ok { OnOk result
            (Adds (option_map (λ d. (d, topic.now.value)) deadline) self.old self.new) }
        ensures err { OnErr result (self.new ≡ self.old) }
    {
        let Some(due) = Due::of(deadline, topic)? else {
            return Ok(());
        };
        self.pairs.insert(due)?;
        Ok(())
    }

    /// Removes a pair, if there is one.
    pub(crate) fn remove(&mut self, due: &Option<Due>)
        ensures { Drops (option_map due_of due.now) self.old self.new }
    {
        let Some(due) = due else {
            return;
        };
        // Learns that the pairs are in order.
        let _count = self.pairs.len();
        let _ = self.pairs.remove(due);
    }

    /// Takes the first pair out if its deadline is at the moment or before it.
    pub(crate) fn take_due(&mut self, moment: u64, steps: &mut Steps) -> Option<Rc<TopicName>>
        ensures some { IfSome result (λ topic. TakesDue moment topic.value self.old self.new) }
        ensures none { IfNone result (NoneDue moment self.old) }
        ensures stays { IfNone result (self.new ≡ self.old) }
        ensures count { steps.new ≡ steps.old + (if is_some result then 1 else 0) }
    {
        let first = self.pairs.first()?;
        let is_due = first.deadline <= moment;
        if !is_due {
            return None;
        }
        let due = self.pairs.pop_first()?;
        steps.tick();
        Some(due.topic)
    }
}
