//! The level tree by its public calls: edits, single values, counts of nodes and keys, and both look-ups.
use mq_topic::{LevelText, TopicFilter, TopicName};
use mq_tree::{LevelTree, Steps};
use std::process::Abort;

fn filter(rt: &(impl Abort + AllocGlobal), text: &str) -> TopicFilter {
    TopicFilter::parse(rt.alloc(), text).expect(rt, "a filter")
}

fn put(
    rt: &(impl Abort + AllocGlobal),
    tree: &mut LevelTree<u32>,
    key: &str,
    value: u32,
) -> Option<u32> {
    tree.put(&filter(rt, key), value).expect(rt, "memory")
}

fn for_name(rt: &(impl Abort + AllocGlobal), tree: &LevelTree<u32>, name: &str, want: &[u32]) {
    let name = TopicName::parse(rt.alloc(), name).expect(rt, "a name");
    let found = tree.for_name(&name, &mut Steps::new());
    same(rt, &found.expect(rt, "memory"), want);
}

fn for_filter(rt: &(impl Abort + AllocGlobal), tree: &LevelTree<u32>, text: &str, want: &[u32]) {
    let found = tree.for_filter(&filter(rt, text), &mut Steps::new());
    same(rt, &found.expect(rt, "memory"), want);
}

fn same(rt: &impl Abort, found: &[&u32], want: &[u32]) {
    assert!(rt; found.len() == want.len());
    assert!(rt; found.iter().zip(want).all(|(found, want)| *found == want));
}

// A tree of these filters, with the values 1, 2, and so on.
fn tree_of(rt: &(impl Abort + AllocGlobal), keys: &[&str]) -> LevelTree<u32> {
    let mut tree = LevelTree::new(rt.alloc());
    for (value, key) in (1..100).zip(keys) {
        put(rt, &mut tree, key, value);
    }
    tree
}

#[test]
fn puts_filters(rt: HostRuntime) {
    let mut tree = tree_of(&rt, &["a/#", "a", "+", "#"]);
    assert!(rt; tree.nodes() == 4);
    for_name(&rt, &tree, "a", &[4, 3, 2, 1]);
    let older = put(&rt, &mut tree, "/x", 5);
    assert!(rt; older.is_none() && tree.nodes() == 6);
    for_name(&rt, &tree, "/x", &[5, 4]);
}

#[test]
fn takes_filters(rt: HostRuntime) {
    let mut tree = tree_of(&rt, &["a/#", "a", "+", "#", "/x"]);
    let older = put(&rt, &mut tree, "a", 9);
    assert!(rt; older == Some(2));
    for (key, want, nodes) in [("a", Some(9), 6), ("a", None, 6), ("a/#", Some(1), 4)] {
        let taken = tree.take(&filter(&rt, key));
        assert!(rt; taken == want && tree.nodes() == nodes, "{key}");
    }
    assert!(rt; tree.len() == 3);
}

#[test]
fn looks_up_by_filter(rt: HostRuntime) {
    let tree = tree_of(&rt, &["a/b", "a", "$x", "c"]);
    for_filter(&rt, &tree, "#", &[2, 1, 4]);
    for_filter(&rt, &tree, "a/#", &[2, 1]);
    for_filter(&rt, &tree, "+", &[2, 4]);
    for_filter(&rt, &tree, "$x", &[3]);
}

#[test]
fn gets_and_changes_a_value(rt: HostRuntime) {
    let mut tree = tree_of(&rt, &["+/x", "#", "$SYS/+", "a/+"]);
    for_name(&rt, &tree, "$SYS/x", &[3]);
    for_name(&rt, &tree, "a/$x", &[2, 4]);
    let found = tree.get(&filter(&rt, "a/+")).copied();
    assert!(rt; found == Some(4) && tree.get(&filter(&rt, "a")).is_none());
    assert!(rt; tree.get_mut(&filter(&rt, "a")).is_none());
    if let Some(value) = tree.get_mut(&filter(&rt, "a/+")) {
        *value = 9;
    }
    for_name(&rt, &tree, "a/$x", &[2, 9]);
}

#[test]
fn keeps_a_filter_of_200_levels(rt: HostRuntime) {
    let slashes = "/".repeat(rt.alloc(), 199).expect(&rt, "memory");
    let mut tree = LevelTree::new(rt.alloc());
    let older = put(&rt, &mut tree, slashes.as_str(), 1);
    assert!(rt; older.is_none() && tree.nodes() == 200 && tree.len() == 1);
    assert!(rt; put(&rt, &mut tree, slashes.as_str(), 2) == Some(1));
    let taken = tree.take(&filter(&rt, slashes.as_str()));
    assert!(rt; taken == Some(2) && tree.nodes() == 0);
}
