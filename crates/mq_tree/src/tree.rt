//! The tree. With values at `plant/+`, `plant/hall-1/door` and `#` it has these nodes:
//!
//! ```text
//! root ─┬─ #                     a value
//!       └─ plant ─┬─ +           a value
//!                 └─ hall-1 ── door   a value
//! ```
//!
//! A look-up for the name `plant/hall-2` enters the root, `#`, `plant` and `+`, and no other node.
ghost use Rattle.std.specs.Prelude.{◌≡◌, ◌+◌, [], length, map, IfOk, OnOk, OnErr, None};
ghost use Rattle.std.specs.BTreeMap.{insert_entry};
ghost use Rattle.std.specs.List.{filter, sum_by};
ghost use Rattle.std.specs.Map.{lookup, keys_of, values_of, remove_entry};
ghost use Rattle.std.specs.Borrow.{sem};
ghost use Rattle.std.specs.Option.{option_copied, option_copied_mut};
ghost use Rattle.mq_tree.specs.Lending.{LendsAt};
ghost use Rattle.mq_topic.specs.Levels.{levels, level_order};
ghost use Rattle.mq_topic.specs.Matching.{matches};
ghost use Rattle.mq_tree.specs.Entries.{is_key, AreInOrder};
ghost use Rattle.mq_topic.specs.Prefixes.{capped};
ghost use Rattle.mq_topic.specs.Prefixes.{prefixes, met_by_name, met_by_filter};

pub(crate) mod node;
pub(crate) mod steps;

use self::node::Node;
use self::steps::Steps;
use crate::counted::Counted;
use crate::lookup::{by_filter, by_name};
use mq_topic::{LevelText, TopicFilter, TopicName};
use std::alloc::{AllocError, Global};
use std::marker::Model;

/// How many values a look-up by a filter has room for at first.
const FOUND: usize = 16;

/// A map from topic names or topic filters to values, as a tree with a node for each level. It is seen as the
/// list of its entries in level order: level by level, each by its bytes.
pub struct LevelTree<V> {
    alloc: Global,
    root: Node<V>,
    // How many nodes are below the root. Once it comes to `u64::MAX` it stays there, and says nothing.
    nodes: u64,
}

// Opaque to callers' proofs: one step, and not one for each field (docs/explanation/gate.md).
impl<V: Drop> Drop for LevelTree<V> {
    fn drop(self) {
        let LevelTree {
            alloc: _,
            root: _,
            nodes: _,
        } = self;
    }
}

impl<V> Model for LevelTree<V> {
    ghost use Rattle.mq_tree.specs.Entries.{Entries};
    ghost use Rattle.mq_tree.specs.Nodes.{entries_of};
    ghost use Rattle.mq_tree.specs.NodeCounts.{IsCounted};

    ghost Value = { Entries V };

    ghost view = { λ a. entries_of a.root };

    ghost invariant = { λ a. IsCounted (entries_of a.root) a.nodes };
}

impl<V> LevelTree<V> {
    /// An empty tree. It takes no memory, and keeps the allocator for what is put.
    pub fn new(alloc: Global) -> LevelTree<V>
        ensures { result ≡ [] }
    {
        LevelTree {
            alloc,
            root: Node::new(alloc),
            nodes: 0,
        }
    }

    /// The value at the key.
    pub fn get<K: LevelText>(&self, key: &K) -> Option<&V>
        ensures { option_copied result ≡ lookup (is_key (levels (K.text_of key.now))) self.now }
    {
        self.root.get(Some(key.text()))
    }

    /// The value at the key, lent so that it can be written.
    pub fn get_mut<K: LevelText>(&mut self, key: &K) -> Option<&mut V>
        ensures* writes_back { sem 𝓛
            (LendsAt V.row self.entry (levels (K.text_of key.now)) result) }
        ensures value { option_copied_mut result
            ≡ lookup (is_key (levels (K.text_of key.now))) self.old }
    {
        // In two arms, so that the proof sees that the key of a lent value was there: all nodes stay.
        match self.root.get_mut(Some(key.text())) {
            Some(lent) => Some(lent),
            None => None,
        }
    }

    /// Puts the value at the key, and gives the older one. What is missing of the key's branch is built aside,
    /// so that lack of memory changes nothing; a key that is there takes no memory.
    pub fn put<K: LevelText>(&mut self, key: &K, value: V) -> Result<Option<V>, AllocError>
    where
        V: Drop,
        ensures older { IfOk result
            (λ older. older ≡ lookup (is_key (levels (K.text_of key.now))) self.old) }
        ensures ok { OnOk result
            (self.new ≡ insert_entry level_order self.old (levels (K.text_of key.now)) value) }
        ensures err { OnErr result (self.new ≡ self.old) }
        ensures absent { OnErr result
            (lookup (is_key (levels (K.text_of key.now))) self.old ≡ None) }
    {
        let mut built = 0;
        let older = self
            .root
            .put(self.alloc, Some(key.text()), value, &mut built)?;
        self.nodes = self.nodes.saturating_add(built);
        Ok(older)
    }

    /// Takes out the value at the key, and each node that no key leads to any more.
    pub fn take<K: LevelText>(&mut self, key: &K) -> Option<V>
    where
        V: Drop,
        ensures value { result ≡ lookup (is_key (levels (K.text_of key.now))) self.old }
        ensures rest { self.new ≡ remove_entry (is_key (levels (K.text_of key.now))) self.old }
    {
        let mut gone = 0;
        let taken = self.root.take(Some(key.text()), &mut gone);
        if self.nodes < u64::MAX {
            self.nodes = self.nodes.saturating_sub(gone);
        }
        taken
    }

    /// How many keys there are, at most `u64::MAX`.
    pub fn len(&self) -> u64
        ensures count { result ≡ capped (length self.now) }
        ensures ordered { AreInOrder self.now }
    {
        self.root.len()
    }

    /// How many nodes there are, one for each nonempty prefix of a key, at most `u64::MAX`. The number is kept
    /// while keys are put and taken, so this takes constant time; a tree that once had `u64::MAX` nodes or more
    /// counts them one by one.
    pub fn nodes(&self) -> u64
        ensures { result ≡ capped (length (prefixes (keys_of self.now))) }
    {
        if self.nodes < u64::MAX {
            return self.nodes;
        }
        self.root.nodes()
    }

    /// The values of the keys that match the name, in level order of the keys, by a walk over matching nodes alone.
    pub fn for_name(&self, name: &TopicName, steps: &mut Steps) -> Result<Vec<&V>, AllocError>
        ensures found { IfOk result (λ found. map (λ v. v.now) found.items
            ≡ values_of (filter (λ e. matches e.0 (levels name.now)) self.now)) }
        ensures count { OnOk result (steps.new ≡ steps.old + length
            (met_by_name (levels name.now) (prefixes (keys_of self.now)))) }
        ensures ordered { AreInOrder self.now }
    {
        let mut found = Vec::new(self.alloc);
        by_name(&self.root, name.text(), &mut steps.walk, &mut found)?;
        Ok(found)
    }

    /// The values of the keys that the filter matches, in level order of the keys, by a walk over matching nodes
    /// alone.
    pub fn for_filter(
        &self,
        topic_filter: &TopicFilter,
        steps: &mut Steps,
    ) -> Result<Vec<&V>, AllocError>
        ensures found { IfOk result (λ found. map (λ v. v.now) found.items
            ≡ values_of (filter (λ e. matches (levels topic_filter.now) e.0) self.now)) }
        ensures count { OnOk result (steps.new ≡ steps.old + length
            (met_by_filter (levels topic_filter.now) (prefixes (keys_of self.now)))) }
        ensures ordered { AreInOrder self.now }
    {
        let mut found = Vec::with_capacity(self.alloc, FOUND)?;
        by_filter(&self.root, topic_filter.text(), &mut steps.walk, &mut found)?;
        Ok(found)
    }
}

impl<V: Counted> LevelTree<V> {
    /// The numbers of all values together, at most `u64::MAX`, by a walk over the tree.
    pub fn total(&self) -> u64
        ensures { result ≡ capped (sum_by (λ e. V.count_of e.1) self.now) }
    {
        self.root.total()
    }
}
