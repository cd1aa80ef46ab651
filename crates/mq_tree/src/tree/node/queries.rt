ghost use Rattle.std.specs.Prelude.{◌≡◌, length};
ghost use Rattle.std.specs.Map.{lookup, keys_of};
ghost use Rattle.std.specs.Option.{option_copied};
ghost use Rattle.std.specs.List.{sum_by};
ghost use Rattle.mq_topic.specs.Levels.{levels_left};
ghost use Rattle.mq_tree.specs.Entries.{is_key};
ghost use Rattle.mq_topic.specs.Prefixes.{capped};
ghost use Rattle.mq_tree.specs.Nodes.{own, entries_of};
ghost use Rattle.mq_topic.specs.Prefixes.{prefixes};

use super::Node;
use crate::counted::Counted;
use mq_topic::split_first;

impl<V> Node<V> {
    /// The value at the key, of which these levels are left.
    pub(in crate::tree) fn get(&self, key: Option<&str>) -> Option<&V>
        ensures { option_copied result ≡ lookup (is_key (levels_left key.entry))
            (entries_of self.now) }
    {
        let Some(key) = key else {
            return self.value.as_ref();
        };
        let (level, rest) = split_first(key);
        match self.children.get(level) {
            Some(child) => child.get(rest),
            None => None,
        }
    }

    /// How many keys lead here, at most `u64::MAX`.
    pub(in crate::tree) fn len(&self) -> u64
        ensures { result ≡ capped (length (entries_of self.now)) }
    {
        let mut total = u64::from(self.value().is_some());
        for child in self.children() {
            total = total.saturating_add(child.node().len());
        }
        total
    }

    /// How many nodes are below this one, at most `u64::MAX`.
    pub(in crate::tree) fn nodes(&self) -> u64
        ensures { result ≡ capped (length (prefixes (keys_of (entries_of self.now)))) }
    {
        let mut total = 0u64;
        for child in self.children() {
            total = total.saturating_add(1).saturating_add(child.node().nodes());
        }
        total
    }
}

impl<V: Counted> Node<V> {
    /// The numbers of the values that keys lead to from here, together, at most `u64::MAX`.
    pub(in crate::tree) fn total(&self) -> u64
        ensures { result ≡ capped (sum_by (λ e. V.count_of e.1) (entries_of self.now)) }
    {
        let mut total = own_count(&self.value);
        for child in self.children() {
            total = total.saturating_add(child.node().total());
        }
        total
    }
}

fn own_count<V: Counted>(value: &Option<V>) -> u64
    ensures { result ≡ capped (sum_by (λ e. V.count_of e.1) (own value.now)) }
{
    match value {
        Some(value) => value.count(),
        None => 0,
    }
}
