//! Entries that are put into the level tree.
use crate::tests::refused::growth::{refuse, was_refused};
use crate::tests::refused::trial::Trial;
use mq_topic::TopicFilter;
use mq_tree::{LevelTree, Steps};
use std::process::Abort;

/// What the trial puts. No other key has this value.
pub(crate) const VALUE: u32 = 1000;

/// The tree that holds these keys, each with its place.
pub(crate) fn tree_of(rt: &(impl Abort + AllocGlobal), keys: &[TopicFilter]) -> LevelTree<u32> {
    let mut tree = LevelTree::new(rt.alloc());
    for (place, key) in (0..VALUE).zip(keys) {
        tree.put(key, place).expect(rt, "memory");
    }
    tree
}

/// A key that is put into the tree of some keys, or put again.
#[derive(Clone, Copy)]
pub(crate) struct Put<'a> {
    pub(crate) keys: &'a [TopicFilter],
    pub(crate) key: &'a TopicFilter,
    /// The filter `#`.
    pub(crate) all: &'a TopicFilter,
    /// The tree before the put, the one after it, and the value that it answers.
    pub(crate) before: &'a LevelTree<u32>,
    pub(crate) after: &'a LevelTree<u32>,
    pub(crate) older: Option<u32>,
}

impl<'a> Put<'a> {
    // The values in the order of their keys.
    fn values<'t>(
        &self,
        rt: &(impl Abort + AllocGlobal),
        tree: &'t LevelTree<u32>,
    ) -> Vec<&'t u32> {
        let values = tree.for_filter(self.all, &mut Steps::new());
        values.expect(rt, "memory")
    }

    // Whether two trees have the same value at each key.
    fn agree(&self, one: &LevelTree<u32>, other: &LevelTree<u32>) -> bool {
        one.get(self.key) == other.get(self.key)
            && self.keys.iter().all(|key| one.get(key) == other.get(key))
    }

    // The two trees have as many nodes, the same values in the same order, and the same value at each key.
    fn assert_same(
        &self,
        rt: &(impl Abort + AllocGlobal),
        one: &LevelTree<u32>,
        other: &LevelTree<u32>,
    ) {
        assert!(rt; one.len() == other.len() && one.nodes() == other.nodes());
        assert!(rt; self.agree(one, other));
        assert!(rt; self.values(rt, one) == self.values(rt, other));
    }
}

impl<'a> Trial for Put<'a> {
    // Where it is refused, the tree is as before, and the next put makes the tree that it should. A
    // key that is there takes no memory: no growth is met.
    fn attempt<R: Abort + AllocGlobal>(&self, rt: &R, nth: u32) -> bool {
        let mut tree = tree_of(rt, self.keys);
        refuse(rt.alloc(), nth);
        let mut answer = tree.put(self.key, VALUE);
        let was_refused = was_refused(rt.alloc());
        assert!(rt; !was_refused || self.older.is_none());
        if answer.is_err() {
            assert!(rt; was_refused);
            self.assert_same(rt, &tree, self.before);
            answer = tree.put(self.key, VALUE);
        }
        assert!(rt; answer == Ok(self.older));
        self.assert_same(rt, &tree, self.after);
        was_refused
    }
}
