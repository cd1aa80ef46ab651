ghost use Rattle.std.specs.Prelude.{◌≡◌, ◌+◌, [], ◌∷◌, length, IfOk, OnOk, OnErr, None};
ghost use Rattle.std.specs.BTreeMap.{insert_entry, is_at, IsOrdered};
ghost use Rattle.std.specs.Cmp.Lexicographic.{slice_cmp};
ghost use Rattle.std.specs.Ordering.{nat_cmp};
ghost use Rattle.std.specs.String.{string_bytes, string_cmp};
ghost use Rattle.std.specs.Map.{lookup, remove_entry};
ghost use Rattle.mq_topic.specs.Levels.{level_order, levels_left};
ghost use Rattle.mq_topic.specs.Prefixes.{capped};
ghost use Rattle.mq_tree.specs.Entries.{is_key};
ghost use Rattle.mq_tree.specs.Nodes.{children_of, entries_of, with_branch};
ghost use Rattle.mq_tree.specs.NodeCounts.{nodes_of, CountsMore};

use super::Node;
use mq_topic::split_first;
use std::alloc::{AllocError, Global};
use std::collections::BTreeMap;

impl<V> Node<V> {
    // A branch that leads to this value alone, by the levels that are left of its key. The nodes below it are
    // counted as built.
    fn branch(
        alloc: Global,
        key: Option<&str>,
        value: V,
        built: &mut u64,
    ) -> Result<Node<V>, AllocError>
    where
        V: Drop,
        ensures node { IfOk result (λ node. entries_of node ≡ (levels_left key.entry, value) ∷ []) }
        ensures built { OnOk result
            (capped built.new ≡ capped (built.old + length (levels_left key.entry))) }
    {
        let Some(key) = key else {
            return Ok(Node {
                value: Some(value),
                children: BTreeMap::new(alloc),
            });
        };
        let (level, rest) = split_first(key);
        let level = String::from_str(alloc, level)?;
        let child = Node::branch(alloc, rest, value, built)?;
        let mut children = BTreeMap::new(alloc);
        hang(alloc, &mut children, level, child, built)?;
        Ok(Node {
            value: None,
            children,
        })
    }

    /// Puts the value at the key, of which these levels are left, and gives the older one. What is missing of
    /// its branch is built aside and hung in by one insertion. Its new nodes are counted as built; with no
    /// memory for them all, the count says nothing.
    pub(in crate::tree) fn put(
        &mut self,
        alloc: Global,
        key: Option<&str>,
        value: V,
        built: &mut u64,
    ) -> Result<Option<V>, AllocError>
    where
        V: Drop,
        ensures older { IfOk result (λ older. older ≡ lookup (is_key (levels_left key.entry))
            (entries_of self.old)) }
        ensures ok { OnOk result (entries_of self.new
            ≡ insert_entry level_order (entries_of self.old) (levels_left key.entry) value) }
        ensures err { OnErr result (entries_of self.new ≡ entries_of self.old) }
        ensures absent { OnErr result
            (lookup (is_key (levels_left key.entry)) (entries_of self.old) ≡ None) }
        ensures built { OnOk result (CountsMore built.old built.new
            (nodes_of (entries_of self.old)) (nodes_of (entries_of self.new))) }
    {
        let Some(key) = key else {
            return Ok(self.value.replace(value));
        };
        let (level, rest) = split_first(key);
        if let Some(child) = self.children.get_mut(level) {
            return child.put(alloc, rest, value, built);
        }
        grow(alloc, &mut self.children, level, rest, value, built)?;
        Ok(None)
    }

    /// Takes out the value at the key, of which these levels are left, and on the way back each child that no
    /// key leads to any more, which is counted as gone.
    pub(in crate::tree) fn take(&mut self, key: Option<&str>, gone: &mut u64) -> Option<V>
    where
        V: Drop,
        ensures value { result ≡ lookup (is_key (levels_left key.entry)) (entries_of self.old) }
        ensures rest { entries_of self.new ≡ remove_entry (is_key (levels_left key.entry))
            (entries_of self.old) }
        ensures gone { CountsMore gone.old gone.new
            (nodes_of (entries_of self.new)) (nodes_of (entries_of self.old)) }
    {
        let Some(key) = key else {
            return self.value.take();
        };
        let (level, rest) = split_first(key);
        let Some(child) = self.children.get_mut(level) else {
            return None;
        };
        let taken = child.take(rest, gone);
        if child.is_empty() {
            cut(&mut self.children, level);
            *gone = gone.saturating_add(1);
        }
        taken
    }
}

// Builds a branch aside, and hangs it in by one insertion. Its nodes are counted as built.
fn grow<V: Drop>(
    alloc: Global,
    children: &mut BTreeMap<String, Box<Node<V>>>,
    level: &str,
    rest: Option<&str>,
    value: V,
    built: &mut u64,
) -> Result<(), AllocError>
    ensures ok { OnOk result (children_of children.new.entries
        ≡ with_branch (children_of children.old.entries) level.now (levels_left rest.entry) value) }
    ensures err { OnErr result (children.new.entries ≡ children.old.entries) }
    ensures ordered { OnOk result (IsOrdered string_cmp children.new) }
    ensures built { OnOk result
        (capped built.new ≡ capped (built.old + (1 + length (levels_left rest.entry)))) }
{
    let level = String::from_str(alloc, level)?;
    let branch = Node::branch(alloc, rest, value, built)?;
    hang(alloc, children, level, branch, built)?;
    Ok(())
}

// Takes out the child at a level, in a function of its own so that its drop joins no paths of the caller.
fn cut<V: Drop>(children: &mut BTreeMap<String, Box<Node<V>>>, level: &str)
    ensures entries { children.new.entries ≡ remove_entry
        (is_at (λ s. slice_cmp nat_cmp level.now (string_bytes s))) children.old.entries }
    ensures ordered { IsOrdered string_cmp children.new }
{
    children.remove(level);
}

// Hangs a branch in at a level, in a box of its own, and counts its first node as built.
fn hang<V: Drop>(
    alloc: Global,
    children: &mut BTreeMap<String, Box<Node<V>>>,
    level: String,
    branch: Node<V>,
    built: &mut u64,
) -> Result<(), AllocError>
    ensures ok { OnOk result (children_of children.new.entries
        ≡ insert_entry (slice_cmp nat_cmp) (children_of children.old.entries) (string_bytes level)
        (entries_of branch)) }
    ensures err { OnErr result (children.new.entries ≡ children.old.entries) }
    ensures ordered { OnOk result (IsOrdered string_cmp children.new) }
    ensures built { OnOk result (capped built.new ≡ capped (built.old + 1)) }
{
    let branch = Box::new(alloc, branch)?;
    match children.insert(level, branch) {
        Ok(_) => {
            *built = built.saturating_add(1);
            Ok(())
        }
        Err(_) => Err(AllocError),
    }
}
