ghost use Rattle.std.specs.Prelude.{◌≡◌, ℕ, ◌+◌, length};
ghost use Rattle.std.specs.Map.{lookup};
ghost use Rattle.std.specs.Borrow.{sem};
ghost use Rattle.std.specs.Option.{option_copied_mut};
ghost use Rattle.mq_topic.specs.Levels.{levels_left};
ghost use Rattle.mq_tree.specs.Entries.{is_key};
ghost use Rattle.mq_tree.specs.LendingNode.{LendsIn};
ghost use Rattle.mq_tree.specs.Nodes.{entries_of};

use super::Node;
use mq_topic::split_first;

/// How a lender goes on at a child. `Node::lend` calls itself through it: a lender that calls itself by its own
/// name gets no generated proof, and one that calls a method of a type parameter does.
pub(in crate::tree) trait Descend<V> {
    /// How many levels may be left when it is called.
    ghost reach: { ℕ → Type 0 };

    fn descend<'a>(node: &'a mut Node<V>, key: Option<&str>) -> Option<&'a mut V>
        requires { reach (length (levels_left key)) }
        ensures* writes_back { sem 𝓛 (LendsIn V.row node.entry (levels_left key.entry) result) }
        ensures value { option_copied_mut result
            ≡ lookup (is_key (levels_left key.entry)) (entries_of node.old) };
}

/// Goes on by `Node::lend` itself, however many levels are left.
pub(in crate::tree) struct Down;

impl<V> Descend<V> for Down {
    ghost use Rattle.std.specs.Prelude.{⊤};

    ghost reach = { λ _. ⊤ };

    fn descend<'a>(node: &'a mut Node<V>, key: Option<&str>) -> Option<&'a mut V> {
        node.lend::<Down>(key)
    }
}

impl<V> Node<V> {
    /// The value at the key, of which these levels are left, lent so that it can be written. A node that a key
    /// leads to stays one.
    pub(in crate::tree) fn get_mut(&mut self, key: Option<&str>) -> Option<&mut V>
        ensures* writes_back { sem 𝓛 (LendsIn V.row self.entry (levels_left key.entry) result) }
        ensures value { option_copied_mut result
            ≡ lookup (is_key (levels_left key.entry)) (entries_of self.old) }
    {
        self.lend::<Down>(key)
    }

    fn lend<D: Descend<V>>(&mut self, key: Option<&str>) -> Option<&mut V>
        requires { (n : ℕ) → length (levels_left key) ≡ n + 1 → D.reach n }
        ensures* writes_back { sem 𝓛 (LendsIn V.row self.entry (levels_left key.entry) result) }
        ensures value { option_copied_mut result
            ≡ lookup (is_key (levels_left key.entry)) (entries_of self.old) }
    {
        let Some(key) = key else {
            return self.value.as_mut();
        };
        let (level, rest) = split_first(key);
        match self.children.get_mut(level) {
            Some(child) => D::descend(child, rest),
            None => None,
        }
    }
}
