//! Look-ups by a topic name and by a topic filter. They stand outside the module `tree`, so that they can enter a
//! node below another only by a call that ticks; they enter only nodes that match so far.
ghost use Rattle.std.specs.Prelude.{◌≡◌, ◌+◌, [], length, map, OnOk};
ghost use Rattle.std.specs.Map.{keys_of, values_of};
ghost use Rattle.mq_topic.specs.Levels.{levels, levels_left};
ghost use Rattle.mq_topic.specs.Matching.{matches};
ghost use Rattle.mq_tree.specs.Below.{begins_with_dollar, is_before, plus, in_order_of};
ghost use Rattle.mq_tree.specs.Below.{plain_children};
ghost use Rattle.mq_tree.specs.Below.{Adds, values_at, values_below, nodes_at, nodes_below};
ghost use Rattle.mq_tree.specs.Below.{suits_name, meets_name, matches_below, meets_filter};
ghost use Rattle.mq_tree.specs.Below.{ArePlain, HashLast};
ghost use Rattle.mq_tree.specs.Nodes.{entries_of, own, AreChildren};
ghost use Rattle.mq_topic.specs.Prefixes.{prefixes, met_by_name, met_by_filter};

use crate::tree::node::Node;
use crate::tree::steps::Walk;
use mq_topic::split_first;
use std::alloc::AllocError;

/// Adds the values of the keys that match the name, in level order. At the root a name that begins with `$`
/// is matched by no wildcard (MQTT 5.0, section 4.7.2).
pub(crate) fn by_name<'a, V>(
    root: &'a Node<V>,
    name: &str,
    steps: &mut Walk,
    found: &mut Vec<&'a V>,
) -> Result<(), AllocError>
    requires { ArePlain (levels name.now) }
    ensures found { OnOk result (Adds found.old.items found.new.items
        (values_at (λ k. matches k (levels name.now)) (entries_of root.now))) }
    ensures count { OnOk result (steps.new ≡ steps.old + length
        (met_by_name (levels name.now) (prefixes (keys_of (entries_of root.now))))) }
{
    let (first, rest) = split_first(name);
    if !begins_with_dollar(first) {
        return below_by_name(root, Some(name), steps, found);
    }
    match root.child(first, steps) {
        Some(child) => below_by_name(child, rest, steps, found),
        None => Ok(()),
    }
}

fn begins_with_dollar(level: &str) -> bool
    ensures { result ≡ begins_with_dollar level.now }
{
    level.starts_with('$')
}

// The same at a node, with these levels left of the name.
fn below_by_name<'a, V>(
    node: &'a Node<V>,
    name: Option<&str>,
    steps: &mut Walk,
    found: &mut Vec<&'a V>,
) -> Result<(), AllocError>
    requires { ArePlain (levels_left name) }
    ensures found { OnOk result (Adds found.old.items found.new.items
        (values_at (suits_name (levels_left name.entry)) (entries_of node.now))) }
    ensures count { OnOk result
        (steps.new ≡ steps.old + nodes_at (meets_name (levels_left name.entry))
        (entries_of node.now)) }
{
    let Some(name) = name else {
        return at_end(node, steps, found);
    };
    let (level, rest) = split_first(name);
    let Some(first) = node.first() else {
        return Ok(());
    };
    // Mostly no child comes before `+`: then there is no `#`, and a `+` comes first.
    if !comes_before_plus(first.level()) && !comes_before_plus(level) {
        if first.level() == "+" {
            below_by_name(first.enter(steps), rest, steps, found)?;
        }
        let Some(exact) = node.child(level, steps) else {
            return Ok(());
        };
        return below_by_name(exact, rest, steps, found);
    }
    for candidate in in_order(level) {
        let Some(child) = node.child(candidate, steps) else {
            continue;
        };
        if candidate == "#" {
            add_value(child, found)?;
            continue;
        }
        below_by_name(child, rest, steps, found)?;
    }
    Ok(())
}

// The same where the name ends. A `#` matches its parent too.
fn at_end<'a, V>(
    node: &'a Node<V>,
    steps: &mut Walk,
    found: &mut Vec<&'a V>,
) -> Result<(), AllocError>
    ensures found { OnOk result (Adds found.old.items found.new.items
        (values_at (suits_name []) (entries_of node.now))) }
    ensures count { OnOk result
        (steps.new ≡ steps.old + nodes_at (meets_name []) (entries_of node.now)) }
{
    add_value(node, found)?;
    match node.child("#", steps) {
        Some(child) => add_value(child, found),
        None => Ok(()),
    }
}

fn comes_before_plus(level: &str) -> bool
    ensures { result ≡ is_before level.now plus }
{
    match level.as_bytes() {
        [first, ..] => *first < b'+',
        [] => true,
    }
}

// The levels of the children that may match a name's level, in their order.
fn in_order<'a>(level: &'a str) -> [&'a str; 3]
    ensures { map (λ x. x.now) result ≡ in_order_of level.now }
{
    if level < "#" {
        [level, "#", "+"]
    } else if comes_before_plus(level) {
        ["#", level, "+"]
    } else {
        ["#", "+", level]
    }
}

fn add_value<'a, V>(node: &'a Node<V>, found: &mut Vec<&'a V>) -> Result<(), AllocError>
    ensures { OnOk result (Adds found.old.items found.new.items (values_of (own node.now.0))) }
{
    match node.value() {
        Some(value) => Ok(found.push(value)?),
        None => Ok(()),
    }
}

/// Adds the values of the keys that the filter matches, in level order. At the root a wildcard matches no
/// level that begins with `$` (MQTT 5.0, section 4.7.2).
pub(crate) fn by_filter<'a, V>(
    root: &'a Node<V>,
    topic_filter: &str,
    steps: &mut Walk,
    found: &mut Vec<&'a V>,
) -> Result<(), AllocError>
    requires { HashLast (levels topic_filter.now) }
    ensures found { OnOk result (Adds found.old.items found.new.items
        (values_at (matches (levels topic_filter.now)) (entries_of root.now))) }
    ensures count { OnOk result (steps.new ≡ steps.old + length
        (met_by_filter (levels topic_filter.now) (prefixes (keys_of (entries_of root.now))))) }
{
    let (first, rest) = split_first(topic_filter);
    if first == "#" {
        return shown_by_filter(root, Some(topic_filter), steps, found);
    }
    if first == "+" {
        return shown_by_filter(root, rest, steps, found);
    }
    below_by_filter(root, Some(topic_filter), steps, found)
}

// The values below each child whose level does not begin with `$`, with these levels left of the filter.
fn shown_by_filter<'a, V>(
    root: &'a Node<V>,
    topic_filter: Option<&str>,
    steps: &mut Walk,
    found: &mut Vec<&'a V>,
) -> Result<(), AllocError>
    requires { HashLast (levels_left topic_filter) }
    ensures found { OnOk result (Adds found.old.items found.new.items
        (values_below (matches_below (levels_left topic_filter.entry))
        (plain_children root.now.1))) }
    ensures count { OnOk result
        (steps.new ≡ steps.old + nodes_below (meets_filter (levels_left topic_filter.entry))
        (plain_children root.now.1)) }
    ensures children { AreChildren root.now.1 }
{
    for child in root.children() {
        if begins_with_dollar(child.level()) {
            continue;
        }
        below_by_filter(child.enter(steps), topic_filter, steps, found)?;
    }
    Ok(())
}

// The values of the keys that the filter matches at a node, with these levels left of it. A `#` stands last,
// and matches its parent too.
fn below_by_filter<'a, V>(
    node: &'a Node<V>,
    topic_filter: Option<&str>,
    steps: &mut Walk,
    found: &mut Vec<&'a V>,
) -> Result<(), AllocError>
    requires { HashLast (levels_left topic_filter) }
    ensures found { OnOk result (Adds found.old.items found.new.items
        (values_at (matches_below (levels_left topic_filter.entry)) (entries_of node.now))) }
    ensures count { OnOk result
        (steps.new ≡ steps.old + nodes_at (meets_filter (levels_left topic_filter.entry))
        (entries_of node.now)) }
{
    let Some(topic_filter) = topic_filter else {
        return add_value(node, found);
    };
    let (level, rest) = split_first(topic_filter);
    if level == "#" {
        return all(node, steps, found);
    }
    if level != "+" {
        return match node.child(level, steps) {
            Some(child) => below_by_filter(child, rest, steps, found),
            None => Ok(()),
        };
    }
    for child in node.children() {
        below_by_filter(child.enter(steps), rest, steps, found)?;
    }
    Ok(())
}

// The values of the node and of all nodes below it.
fn all<'a, V>(node: &'a Node<V>, steps: &mut Walk, found: &mut Vec<&'a V>) -> Result<(), AllocError>
    ensures found { OnOk result
        (Adds found.old.items found.new.items (values_of (entries_of node.now))) }
    ensures count { OnOk result
        (steps.new ≡ steps.old + length (prefixes (keys_of (entries_of node.now)))) }
{
    add_value(node, found)?;
    for child in node.children() {
        all(child.enter(steps), steps, found)?;
    }
    Ok(())
}
