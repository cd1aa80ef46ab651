//! The nodes of a tree. The module hides the map of a node's children. What reads or edits a whole branch is for
//! the tree alone (`pub(in crate::tree)`): a look-up can enter a node below another only by `Node::child` and by
//! `Child::enter`, and each ticks the one `Walk` that the look-up was lent.
ghost use Rattle.std.specs.Prelude.{◌≡◌, ◌+◌, List, [], ◌∷◌, length, ◌==◌, map, slice_get};
ghost use Rattle.std.specs.Prelude.{MatchOption, Option, None};
ghost use Rattle.std.specs.Iterator.{at_most};
ghost use Rattle.std.specs.Map.{lookup};
ghost use Rattle.std.specs.Map.Iter.{TakesFirst};
ghost use Rattle.std.specs.Option.{option_copied, option_map};
ghost use Rattle.mq_tree.specs.Nodes.{entries_of, is_level, AreChildren};

mod edits;
mod lend;
mod queries;

use crate::tree::steps::Walk;
use std::alloc::Global;
use std::collections::BTreeMap;
use std::collections::btree_map::Iter;
use std::marker::Model;

/// The value of the key that ends here, if it is stored, and the nodes one level further down by their levels.
/// Each of these has a box of its own: a leaf of the map has room for 15 values, however few it holds.
#[derive(Drop)]
pub(crate) struct Node<V> {
    value: Option<V>,
    children: BTreeMap<String, Box<Node<V>>>,
}

impl<V> Model for Node<V> {
    ghost use Rattle.mq_tree.specs.Nodes.{NodeView, children_of, entries_of, AreChildren, weight};
    ghost use Rattle.mq_tree.specs.Falls.{children_weigh_less};

    ghost Value = { NodeView V };

    ghost view = { λ a. (a.value, children_of a.children.entries) };

    ghost invariant = { λ a. AreChildren (children_of a.children.entries) };

    ghost size = { λ node. weight (entries_of node) };

    ghost size_decreases = { λ a h. children_weigh_less a.value a.children.entries h };
}

impl<V> Node<V> {
    /// A node with no value and no child.
    pub(in crate::tree) fn new(alloc: Global) -> Node<V>
        ensures { result ≡ (None, []) }
    {
        Node {
            value: None,
            children: BTreeMap::new(alloc),
        }
    }

    /// No key leads here.
    fn is_empty(&self) -> bool
        ensures { result ≡ (length (entries_of self.now) == 0) }
    {
        self.value.is_none() && self.children.is_empty()
    }

    /// The value of the key that ends here.
    pub(crate) fn value(&self) -> Option<&V>
        ensures { option_copied result ≡ self.now.0 }
    {
        self.value.as_ref()
    }

    /// Enters the child at this level, which is one step; with no such child it is none.
    pub(crate) fn child(&self, level: &str, steps: &mut Walk) -> Option<&Node<V>>
        ensures found { option_map entries_of (option_copied result)
            ≡ lookup (is_level level.now) self.now.1 }
        ensures count { MatchOption result (steps.new ≡ steps.old)
            (λ _. steps.new ≡ steps.old + 1) }
        ensures children { AreChildren self.now.1 }
    {
        let child = self.children.get(level)?;
        steps.tick();
        Some(child)
    }

    /// The child whose level comes first. It is not entered yet.
    pub(crate) fn first(&self) -> Option<Child<'_, V>>
        ensures first { result ≡ slice_get self.now.1 0 }
        ensures children { AreChildren self.now.1 }
    {
        let (level, node) = self.children.first_key_value()?;
        Some(Child {
            level: level.as_str(),
            node,
        })
    }

    /// The children, in the order of their levels. None of them is entered yet.
    pub(crate) fn children(&self) -> Children<'_, V>
        ensures all { result ≡ self.now.1 }
        ensures children { AreChildren self.now.1 }
    {
        Children {
            left: self.children.iter(),
        }
    }
}

/// The children of a node that a walk has not come to yet.
#[derive(Drop)]
pub(crate) struct Children<'a, V> {
    left: Iter<'a, String, Box<Node<V>>>,
}

impl<'a, V> Model for Children<'a, V> {
    ghost use Rattle.mq_tree.specs.Nodes.{Children, children_of};

    ghost Value = { Children V };

    ghost view = { λ a. children_of a.left };
}

impl<'a, V> Iterator for Children<'a, V> {
    type Item = Child<'a, V>;

    ghost next_gives = { TakesFirst (λ child. child) };

    ghost remaining = { λ children. at_most (length children) };

    fn next(&mut self) -> Option<Child<'a, V>> {
        let (level, node) = self.left.next()?;
        Some(Child {
            level: level.as_str(),
            node,
        })
    }
}

/// A child that a walk has come to, before it is entered.
#[derive(Drop)]
pub(crate) struct Child<'a, V> {
    level: &'a str,
    node: &'a Node<V>,
}

impl<'a, V> Model for Child<'a, V> {
    ghost use Rattle.std.specs.Prelude.{ℕ, List};
    ghost use Rattle.mq_tree.specs.Entries.{Entries};
    ghost use Rattle.mq_tree.specs.Nodes.{entries_of};

    ghost Value = { List ℕ × Entries V };

    ghost view = { λ a. (a.level.now, entries_of a.node.now) };
}

impl<'a, V> Child<'a, V> {
    /// Its level.
    pub(crate) fn level(&self) -> &'a str
        ensures { result.now ≡ self.now.0 }
    {
        self.level
    }

    // Its node, for what counts a whole branch.
    fn node(self) -> &'a Node<V>
        ensures { entries_of result.now ≡ self.entry.1 }
    {
        self.node
    }

    /// Enters it, which is one step.
    pub(crate) fn enter(self, steps: &mut Walk) -> &'a Node<V>
        ensures entries { entries_of result.now ≡ self.entry.1 }
        ensures count { steps.new ≡ steps.old + 1 }
    {
        steps.tick();
        self.node
    }
}
