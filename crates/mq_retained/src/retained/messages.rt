//! The tree of the messages by topic, with their number.
ghost use Rattle.std.specs.Prelude.{◌≡◌, ◌+◌, [], length, map, IfOk, OnOk, OnErr, None};
ghost use Rattle.std.specs.BTreeMap.{insert_entry};
ghost use Rattle.std.specs.List.{filter};
ghost use Rattle.std.specs.Map.{lookup, keys_of, values_of, remove_entry};
ghost use Rattle.std.specs.Option.{option_copied};
ghost use Rattle.mq_topic.specs.Levels.{levels, level_order};
ghost use Rattle.mq_topic.specs.Matching.{matches};
ghost use Rattle.mq_tree.specs.Entries.{is_key, AreInOrder};
ghost use Rattle.mq_topic.specs.Prefixes.{capped};
ghost use Rattle.mq_topic.specs.Prefixes.{prefixes, met_by_filter};

use crate::retained::stored::Stored;
use mq_topic::{TopicFilter, TopicName};
use mq_tree::{LevelTree, Steps};
use std::alloc::{AllocError, Global};
use std::marker::Model;

/// The messages by topic, seen as the entries of the tree. Their number, at most `u64::MAX`, is
/// kept beside it, so that a limit can be tested without a walk.
pub(crate) struct Messages {
    by_topic: LevelTree<Stored>,
    count: u64,
}

// Opaque to callers' proofs: one step, and not one for each field (docs/explanation/gate.md).
impl Drop for Messages {
    fn drop(self) {
        let Messages {
            by_topic: _,
            count: _,
        } = self;
    }
}

impl Model for Messages {
    ghost use Rattle.mq_tree.specs.Entries.{Entries};
    ghost use Rattle.mq_retained.specs.declared.retained.stored.Stored.{Stored};

    ghost Value = { Entries Stored };

    ghost view = { λ a. a.by_topic };

    ghost use Rattle.mq_retained.specs.Stored.{AreCounted};

    ghost invariant = { λ a. AreCounted a.count a.by_topic };
}

impl Messages {
    pub(crate) fn new(alloc: Global) -> Messages
        ensures { result ≡ [] }
    {
        Messages {
            by_topic: LevelTree::new(alloc),
            count: 0,
        }
    }

    pub(crate) fn get(&self, topic: &TopicName) -> Option<&Stored>
        ensures { option_copied result ≡ lookup (is_key (levels topic.now)) self.now }
    {
        self.by_topic.get(topic)
    }

    /// Puts a message at its topic, and gives the older one. Where there is no memory the topic has
    /// none.
    pub(crate) fn put(
        &mut self,
        topic: &TopicName,
        stored: Stored,
    ) -> Result<Option<Stored>, AllocError>
        ensures older { IfOk result
            (λ older. older ≡ lookup (is_key (levels topic.now)) self.old) }
        ensures ok { OnOk result
            (self.new ≡ insert_entry level_order self.old (levels topic.now) stored) }
        ensures err { OnErr result (self.new ≡ self.old) }
        ensures absent { OnErr result (lookup (is_key (levels topic.now)) self.old ≡ None) }
    {
        let older = self.by_topic.put(topic, stored)?;
        if older.is_none() {
            self.count = self.count.saturating_add(1);
        }
        Ok(older)
    }

    /// Takes out the message at a topic.
    pub(crate) fn take(&mut self, topic: &TopicName) -> Option<Stored>
        ensures value { result ≡ lookup (is_key (levels topic.now)) self.old }
        ensures rest { self.new ≡ remove_entry (is_key (levels topic.now)) self.old }
    {
        let taken = self.by_topic.take(topic);
        if taken.is_some() {
            self.count = one_less(self.count, &self.by_topic);
        }
        taken
    }

    /// How many messages there are, at most `u64::MAX`.
    pub(crate) fn len(&self) -> u64
        ensures { result ≡ capped (length self.now) }
    {
        self.count
    }

    pub(crate) fn nodes(&self) -> u64
        ensures { result ≡ capped (length (prefixes (keys_of self.now))) }
    {
        self.by_topic.nodes()
    }

    /// The messages whose topics the filter matches, in level order of the topics.
    pub(crate) fn for_filter(
        &self,
        topic_filter: &TopicFilter,
        steps: &mut Steps,
    ) -> Result<Vec<&Stored>, AllocError>
        ensures found { IfOk result (λ found. map (λ v. v.now) found.items
            ≡ values_of (filter (λ e. matches (levels topic_filter.now) e.0) self.now)) }
        ensures count { OnOk result (steps.new ≡ steps.old + length
            (met_by_filter (levels topic_filter.now) (prefixes (keys_of self.now)))) }
        ensures ordered { AreInOrder self.now }
    {
        self.by_topic.for_filter(topic_filter, steps)
    }
}

// The number after one message was taken out. Where the greatest number stands for more, the rest is counted.
fn one_less(count: u64, rest: &LevelTree<Stored>) -> u64
    requires { count ≡ capped (length rest.now + 1) }
    ensures { result ≡ capped (length rest.now) }
{
    if count < u64::MAX {
        return count - 1;
    }
    rest.len()
}
