//! Changes of the tree of subscriptions.
ghost use Rattle.std.specs.Prelude.{◌≡◌, ◌+◌, length, not, IsTrue, OnOk, OnErr, IfOk, true, false};
ghost use Rattle.std.specs.Prelude.{None, ◌&&◌};
ghost use Rattle.std.specs.List.{filter, list_any};
ghost use Rattle.std.specs.Map.{lookup};
ghost use Rattle.std.specs.Rc.{rc_str_bytes};
ghost use Rattle.mq_topic.specs.Levels.{levels};
ghost use Rattle.mq_topic.specs.Prefixes.{capped};
ghost use Rattle.mq_topic.specs.Texts.{is_subscription};
ghost use Rattle.mq_tree.specs.Entries.{is_key};
ghost use Rattle.mq_world.specs.Lists.{same_text};
ghost use Rattle.mq_world.specs.Turns.{SameInTurn};
ghost use Rattle.mq_subscriptions.specs.SubFilters.{sub_filter_row, has_sub_filter, has_asked};
ghost use Rattle.mq_subscriptions.specs.Turns.{upsert};
ghost use Rattle.mq_subscriptions.specs.Filters.{all_rows, AreEntries, AreCounted, is_in_list};

use crate::subscriptions::client_filters::ClientFilters;
use crate::subscriptions::filter_entry::FilterEntry;
use mq_topic::SubFilter;
use mq_tree::LevelTree;
use mq_world::SubscriptionOptions;
use std::alloc::{AllocError, Global};
use std::rc::{Rc, RcStr};

/// Whether the tree has a filter, and whether it has a client's subscription to it.
#[derive(Clone, Copy)]
pub(crate) struct Found {
    pub(crate) filter: bool,
    pub(crate) subscription: bool,
}

/// Puts a subscription in the place of the one with its key, if there is one.
pub(crate) fn replace_in(
    tree: &mut LevelTree<FilterEntry>,
    alloc: Global,
    client: &RcStr,
    sub_filter: &SubFilter,
    options: SubscriptionOptions,
) -> Result<Found, AllocError>
    requires { AreEntries tree.old }
    ensures filter { IfOk result (λ found. found.filter ≡ false
        → lookup (is_key (levels sub_filter.now.filter)) tree.new ≡ None) }
    ensures existed { IfOk result (λ found. found.subscription
        ≡ list_any (has_sub_filter (rc_str_bytes client.now) sub_filter.now) (all_rows tree.old)) }
    ensures replaced { IfOk result (λ found. found.subscription ≡ true
        → SameInTurn (all_rows tree.new)
        (upsert (sub_filter_row (rc_str_bytes client.now) sub_filter.now options)
        (all_rows tree.old))) }
    ensures absent { IfOk result (λ found. found.subscription ≡ false → tree.new ≡ tree.old) }
    ensures err { OnErr result (tree.new ≡ tree.old) }
    ensures kept { AreEntries tree.new }
{
    let share = sub_filter.share.as_deref();
    let Some(at) = tree.get_mut(&sub_filter.filter) else {
        return Ok(Found {
            filter: false,
            subscription: false,
        });
    };
    if !at.contains(share, client.as_str()) {
        return Ok(Found {
            filter: true,
            subscription: false,
        });
    }
    at.insert(alloc, share, client.clone()?, options)?;
    Ok(Found {
        filter: true,
        subscription: true,
    })
}

/// Adds a subscription. Where the tree is known not to have its filter, that is not looked for.
pub(crate) fn insert_in(
    tree: &mut LevelTree<FilterEntry>,
    alloc: Global,
    has_filter: bool,
    client: &RcStr,
    sub_filter: &SubFilter,
    options: SubscriptionOptions,
) -> Result<(), AllocError>
    requires kept { AreEntries tree.old }
    requires absent { has_filter ≡ false
        → lookup (is_key (levels sub_filter.now.filter)) tree.old ≡ None }
    ensures ok { OnOk result (SameInTurn (all_rows tree.new)
        (upsert (sub_filter_row (rc_str_bytes client.now) sub_filter.now options)
        (all_rows tree.old))) }
    ensures err { OnErr result (tree.new ≡ tree.old) }
    ensures kept { AreEntries tree.new }
{
    let client = client.clone()?;
    if !has_filter {
        return add_in(tree, alloc, client, sub_filter, options);
    }
    match tree.get_mut(&sub_filter.filter) {
        Some(at) => at.insert(alloc, sub_filter.share.as_deref(), client, options),
        None => add_in(tree, alloc, client, sub_filter, options),
    }
}

// A filter with one subscription, made aside.
fn add_in(
    tree: &mut LevelTree<FilterEntry>,
    alloc: Global,
    client: RcStr,
    sub_filter: &SubFilter,
    options: SubscriptionOptions,
) -> Result<(), AllocError>
    requires kept { AreEntries tree.old }
    requires absent { lookup (is_key (levels sub_filter.now.filter)) tree.old ≡ None }
    ensures ok { OnOk result (SameInTurn (all_rows tree.new)
        (upsert (sub_filter_row (rc_str_bytes client) sub_filter.now options)
        (all_rows tree.old))) }
    ensures err { OnErr result (tree.new ≡ tree.old) }
    ensures kept { AreEntries tree.new }
{
    let filter = Rc::new(alloc, sub_filter.filter.clone()?)?;
    let mut at = FilterEntry::new(alloc, filter);
    at.insert(alloc, sub_filter.share.as_deref(), client, options)?;
    tree.put(&sub_filter.filter, at)?;
    Ok(())
}

// Takes a subscription out, and the filter with its last one; says whether there was one.
fn remove_in(tree: &mut LevelTree<FilterEntry>, client: &str, text: &str) -> bool
    requires kept { AreEntries tree.old }
    requires valid { IsTrue (is_subscription text.now) }
    ensures existed { result ≡ list_any (has_asked client.now text.now) (all_rows tree.old) }
    ensures rows { all_rows tree.new ≡ filter (λ s. not (has_asked client.now text.now s))
        (all_rows tree.old) }
    ensures kept { AreEntries tree.new }
{
    let (share, filter) = SubFilter::split(text);
    let Some(at) = tree.get_mut(&filter) else {
        return false;
    };
    let existed = at.contains(share, client);
    at.remove(share, client);
    if at.is_empty() {
        let _ = tree.take(&filter);
    }
    existed
}

/// Takes a subscription out, and counts one less if there was one.
pub(crate) fn remove_counted(
    tree: &mut LevelTree<FilterEntry>,
    count: &mut u64,
    client: &str,
    text: &str,
) -> bool
    requires kept { AreEntries tree.old }
    requires counted { AreCounted count.old (all_rows tree.old) }
    requires valid { IsTrue (is_subscription text.now) }
    ensures existed { result ≡ list_any (has_asked client.now text.now) (all_rows tree.old) }
    ensures rows { all_rows tree.new ≡ filter (λ s. not (has_asked client.now text.now s))
        (all_rows tree.old) }
    ensures kept { AreEntries tree.new }
    ensures counted { AreCounted count.new (all_rows tree.new) }
{
    let existed = remove_in(tree, client, text);
    if existed {
        *count = one_less(*count, tree);
    }
    existed
}

// The number after one was taken out. Where the greatest number stands for more, the rest is counted.
fn one_less(count: u64, rest: &LevelTree<FilterEntry>) -> u64
    requires { count ≡ capped (length (all_rows rest.now) + 1) }
    ensures { result ≡ capped (length (all_rows rest.now)) }
{
    if count < u64::MAX {
        return count - 1;
    }
    rest.total()
}

/// Takes a client's subscriptions out of the tree.
pub(crate) fn remove_all(
    tree: &mut LevelTree<FilterEntry>,
    count: &mut u64,
    filters: &ClientFilters,
    client: &str,
)
    requires kept { AreEntries tree.old }
    requires counted { AreCounted count.old (all_rows tree.old) }
    ensures rows { all_rows tree.new ≡ filter
        (λ s. not (same_text s.client client.now && is_in_list filters.now s)) (all_rows tree.old) }
    ensures kept { AreEntries tree.new }
    ensures counted { AreCounted count.new (all_rows tree.new) }
{
    for text in filters.texts() {
        let _ = remove_counted(tree, count, client, text.as_str());
    }
}
