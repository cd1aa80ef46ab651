//! The subscriptions of all clients.
//!
//! ```text
//! by filter:  plant/# ── a: QoS 1          by client:  a ── plant/#
//!                     ├─ b: QoS 0                      b ── plant/#
//!                     └─ group workers: c, d           c ── $share/workers/plant/#
//!                                                      d ── $share/workers/plant/#
//! ```
//!
//! The member of a group that was served goes to its end, so that the next one takes its turn.
ghost use Rattle.std.specs.Prelude.{◌≡◌, ◌+◌, [], length, not, IsTrue, OnOk, OnErr, IfOk, map};
ghost use Rattle.std.specs.Prelude.{Some};
ghost use Rattle.std.specs.Rc.{rc_str_bytes};
ghost use Rattle.std.specs.List.{filter, list_any};
ghost use Rattle.mq_topic.specs.Texts.{is_subscription};
ghost use Rattle.mq_topic.specs.Prefixes.{capped};
ghost use Rattle.mq_topic.specs.Prefixes.{prefixes, met_by_name};
ghost use Rattle.mq_world.specs.Lists.{same_text};
ghost use Rattle.mq_world.specs.World.{has_key};
ghost use Rattle.mq_subscriptions.specs.SubFilters.{sub_filter_row, has_sub_filter, has_asked, IsAskedBy};
ghost use Rattle.mq_subscriptions.specs.Matches.{lent_values, rows_found};
ghost use Rattle.mq_world.specs.Copies.{filter_matches};
ghost use Rattle.mq_world.specs.Retained.{asks_for_retained};
ghost use Rattle.mq_world.specs.Turns.{SameInTurn};
ghost use Rattle.mq_subscriptions.specs.Turns.{upsert, put_last, all_turned, turn_of};
ghost use Rattle.mq_subscriptions.specs.Filters.{AreKeys, AreEntriesFor};
ghost use Rattle.mq_topic.specs.Levels.{levels};

pub(crate) mod client_filters;
pub(crate) mod client_lists;
pub(crate) mod client_test;
pub(crate) mod filter_entry;
pub(crate) mod group;
pub(crate) mod matches;
pub(crate) mod share_groups;
pub(crate) mod tree_edits;
pub(crate) mod turn;

use crate::subscriptions::client_lists::ClientLists;
use crate::subscriptions::filter_entry::FilterEntry;
use crate::subscriptions::tree_edits::{insert_in, remove_all, remove_counted, replace_in};
use crate::subscriptions::turn::Turn;
use mq_topic::{SubFilter, TopicFilter, TopicName};
use mq_tree::{LevelTree, Steps};
use mq_world::SubscriptionOptions;
use std::alloc::{AllocError, Global};
use std::marker::Model;
use std::rc::RcStr;

/// The subscriptions, by their filters, and for each client that has any its own, so that its end walks no other's.
/// Their number is kept beside them.
pub struct Subscriptions {
    alloc: Global,
    tree: LevelTree<FilterEntry>,
    count: u64,
    lists: ClientLists,
}

// Opaque to callers' proofs: one step, and not one for each field (docs/explanation/gate.md).
impl Drop for Subscriptions {
    fn drop(self) {
        let Subscriptions {
            alloc: _,
            tree: _,
            count: _,
            lists: _,
        } = self;
    }
}

impl Model for Subscriptions {
    ghost use Rattle.mq_subscriptions.specs.Filters.{SubscriptionsView};

    ghost Value = { SubscriptionsView };

    ghost use Rattle.mq_subscriptions.specs.Views.{subscriptions_of, AreSubscriptions};

    ghost view = { subscriptions_of };

    ghost invariant = { AreSubscriptions };
}

impl Subscriptions {
    pub fn new(alloc: Global) -> Self
        ensures { result ≡ record { rows = []; keys = [] } }
    {
        Subscriptions {
            alloc,
            tree: LevelTree::new(alloc),
            count: 0,
            lists: ClientLists::new(alloc),
        }
    }

    pub fn contains(&self, client: &str, sub_filter: &SubFilter) -> bool
        ensures { result ≡ list_any (has_sub_filter client.now sub_filter.now) self.now.rows }
    {
        match self.tree.get(&sub_filter.filter) {
            Some(at) => at.contains(sub_filter.share.as_deref(), client),
            None => false,
        }
    }

    /// Whether a subscribe is sent retained messages.
    pub fn asks_for_retained(
        &self,
        client: &str,
        sub_filter: &SubFilter,
        options: SubscriptionOptions,
    ) -> bool
        ensures { result ≡ asks_for_retained self.now.rows
            (sub_filter_row client.now sub_filter.now options) }
    {
        if sub_filter.share.is_some() {
            return false;
        }
        match options.handling {
            0 => true,
            1 => !self.contains(client, sub_filter),
            _ => false,
        }
    }

    /// Adds the subscription with this text, in the place of the one with its key.
    pub fn insert(
        &mut self,
        client: &RcStr,
        text: &str,
        sub_filter: &SubFilter,
        options: SubscriptionOptions,
    ) -> Result<(), AllocError>
        requires { IsAskedBy text.now sub_filter.now }
        ensures ok { OnOk result (SameInTurn self.new.rows
            (upsert (sub_filter_row (rc_str_bytes client.now) sub_filter.now options)
            self.old.rows)) }
        ensures keys { OnOk result (AreKeys self.new) }
        ensures err { OnErr result (self.new ≡ self.old) }
    {
        let id = client.as_str();
        let found = replace_in(&mut self.tree, self.alloc, client, sub_filter, options)?;
        if found.subscription {
            return Ok(());
        }
        self.lists.insert(self.alloc, client, text)?;
        // Where there is no memory, nothing is left beside the tree that leads to no subscription.
        match insert_in(
            &mut self.tree,
            self.alloc,
            found.filter,
            client,
            sub_filter,
            options,
        ) {
            Ok(()) => {
                self.count = self.count.saturating_add(1);
                Ok(())
            }
            Err(fault) => {
                self.lists.remove(id, text);
                Err(fault)
            }
        }
    }

    /// Takes the subscription with this text out, and says whether there was one.
    pub fn remove(&mut self, client: &str, text: &str) -> bool
        requires { IsTrue (is_subscription text.now) }
        ensures existed { result ≡ list_any (has_asked client.now text.now) self.old.rows }
        ensures rows { self.new.rows ≡ filter (λ s. not (has_asked client.now text.now s))
            self.old.rows }
        ensures keys { AreKeys self.new }
    {
        let existed = remove_counted(&mut self.tree, &mut self.count, client, text);
        self.lists.remove(client, text);
        existed
    }

    /// Takes a client's subscriptions out, and no other is looked at.
    pub fn remove_client(&mut self, client: &str)
        ensures rows { self.new.rows ≡ filter (λ s. not (same_text s.client client.now))
            self.old.rows }
        ensures keys { AreKeys self.new }
    {
        let Some(filters) = self.lists.take(client) else {
            return;
        };
        remove_all(&mut self.tree, &mut self.count, &filters, client);
    }

    /// What is kept at the filters that match the name, in level order of the filters.
    pub fn candidates(
        &self,
        name: &TopicName,
        steps: &mut Steps,
    ) -> Result<Vec<&FilterEntry>, AllocError>
        ensures rows { IfOk result (λ found. rows_found (lent_values found.items)
            ≡ filter (λ s. filter_matches s.filter name.now) self.now.rows) }
        ensures order { IfOk result (λ found. AreEntriesFor name.now (lent_values found.items)) }
        ensures count { OnOk result (steps.new ≡ steps.old + length
            (met_by_name (levels name.now) (prefixes self.now.keys))) }
    {
        Ok(self.tree.for_name(name, steps)?)
    }

    /// A member of a group goes last.
    pub fn serve(&mut self, share: &str, topic_filter: &TopicFilter, client: &str)
        ensures rows { SameInTurn self.new.rows
            (put_last (has_key client.now (Some share.now) topic_filter.now) self.old.rows) }
        ensures keys { AreKeys self.new }
    {
        let Some(at) = self.tree.get_mut(topic_filter) else {
            return;
        };
        at.serve(share, client);
    }

    /// Each member that was served goes last in its group.
    pub fn serve_all(&mut self, served: &[Turn])
        ensures rows { SameInTurn self.new.rows
            (all_turned (map turn_of served.now) self.old.rows) }
        ensures keys { AreKeys self.old → AreKeys self.new }
    {
        for turn in served {
            self.serve(turn.share.as_str(), &turn.filter, turn.client.as_str());
        }
    }

    /// How many subscriptions there are, at most `u64::MAX`.
    pub fn len(&self) -> u64
        ensures { result ≡ capped (length self.now.rows) }
    {
        self.count
    }

    /// How many nodes the tree keeps, at most `u64::MAX`.
    pub fn nodes(&self) -> u64
        ensures { result ≡ capped (length (prefixes self.now.keys)) }
    {
        self.tree.nodes()
    }
}
