//! What is kept at one filter.
ghost use Rattle.std.specs.Prelude.{◌≡◌, ◌&&◌, [], not, Some, None, OnOk, OnErr};
ghost use Rattle.std.specs.Option.{option_copied};
ghost use Rattle.std.specs.List.{filter, list_any};
ghost use Rattle.std.specs.Rc.{rc_str_bytes};
ghost use Rattle.mq_world.specs.World.{has_key};
ghost use Rattle.mq_world.specs.Turns.{SameInTurn};
ghost use Rattle.mq_subscriptions.specs.Turns.{put_last};
ghost use Rattle.mq_subscriptions.specs.Filters.{is_empty, AreHere};
ghost use Rattle.std.specs.Prelude.{length, ◌++◌};
ghost use Rattle.mq_world.specs.Views.{message_of};
ghost use Rattle.mq_subscriptions.specs.Matches.{unshared_matches};
ghost use Rattle.mq_subscriptions.specs.Matches.{match_views};
ghost use Rattle.mq_subscriptions.specs.Turns.{GathersTurns};
ghost use Rattle.mq_subscriptions.specs.Edits.{JoinsEntry};
ghost use Rattle.mq_world.specs.Lists.{same_text};

use crate::subscriptions::client_test::ClientTest;
use crate::subscriptions::matches::Match;
use crate::subscriptions::share_groups::ShareGroups;
use crate::subscriptions::turn::Turn;
use mq_topic::TopicFilter;
use mq_tree::Counted;
use mq_world::{Message, SubscriptionOptions};
use std::alloc::{AllocError, Global};
use std::collections::BTreeMap;
use std::marker::Model;
use std::rc::{Rc, RcStr};

/// The subscriptions to one filter: those of clients in their own name, and the groups by share name.
pub struct FilterEntry {
    filter: Rc<TopicFilter>,
    unshared: BTreeMap<RcStr, SubscriptionOptions>,
    groups: ShareGroups,
}

// Opaque to callers' proofs: one step, and not one for each field (docs/explanation/gate.md).
impl Drop for FilterEntry {
    fn drop(self) {
        let FilterEntry {
            filter: _,
            unshared: _,
            groups: _,
        } = self;
    }
}

impl Model for FilterEntry {
    ghost use Rattle.mq_subscriptions.specs.Filters.{Entry};

    ghost Value = { Entry };

    ghost use Rattle.mq_subscriptions.specs.Views.{entry_of};

    ghost view = { entry_of };
}

impl FilterEntry {
    pub fn new(alloc: Global, filter: Rc<TopicFilter>) -> FilterEntry
        ensures { result ≡ record { filter = filter.value; rows = [] } }
    {
        FilterEntry {
            filter,
            unshared: BTreeMap::new(alloc),
            groups: ShareGroups::new(alloc),
        }
    }

    /// Whether no subscription is kept here.
    pub fn is_empty(&self) -> bool
        ensures { result ≡ is_empty self.now.rows }
    {
        self.unshared.is_empty() && self.groups.is_empty()
    }

    pub fn contains(&self, share: Option<&str>, client: &str) -> bool
        ensures { result ≡ list_any (has_key client.now (option_copied share.entry) self.now.filter)
            self.now.rows }
    {
        match share {
            None => self.unshared.contains_key(client),
            Some(share) => self.groups.contains(share, client),
        }
    }

    /// Adds a subscription, in the place of the one with its key.
    #[tactic(auto, using(crate::proofs::EntryLemmas::is_here))]
    pub fn insert(
        &mut self,
        alloc: Global,
        share: Option<&str>,
        client: RcStr,
        options: SubscriptionOptions,
    ) -> Result<(), AllocError>
        ensures ok { OnOk result
            (JoinsEntry (option_copied share.entry) (rc_str_bytes client, options) self.old
            self.new.rows) }
        ensures filter { self.new.filter ≡ self.old.filter }
        ensures here { AreHere self.new }
        ensures err { OnErr result (self.new ≡ self.old) }
    {
        // Learns that the clients are in order.
        let _count = self.unshared.len();
        match share {
            None => {
                self.unshared.insert(client, options)?;
                Ok(())
            }
            Some(share) => self.groups.insert(alloc, share, client, options),
        }
    }

    /// Takes a subscription out, and its group with its last member.
    #[tactic(auto, using(crate::proofs::EntryLemmas::is_here))]
    pub fn remove(&mut self, share: Option<&str>, client: &str)
        ensures rows { self.new.rows ≡ filter
            (λ s. not (has_key client.now (option_copied share.entry) self.old.filter s))
            self.old.rows }
        ensures filter { self.new.filter ≡ self.old.filter }
        ensures here { AreHere self.new }
    {
        // Learns that the clients are in order.
        let _count = self.unshared.len();
        match share {
            None => {
                let _ = self.unshared.remove(client);
            }
            Some(share) => self.groups.remove(share, client),
        }
    }

    /// A member of a group goes last.
    #[tactic(auto, using(crate::proofs::EntryLemmas::is_here))]
    pub fn serve(&mut self, share: &str, client: &str)
        ensures turned { SameInTurn self.new.rows
            (put_last (has_key client.now (Some share.now) self.old.filter) self.old.rows) }
        ensures filter { self.new.filter ≡ self.old.filter }
        ensures here { AreHere self.new }
    {
        self.groups.serve(share, client);
    }

    /// How many clients subscribe in their own name.
    pub fn unshared_count(&self) -> usize {
        self.unshared.len()
    }

    /// Adds the subscriptions of clients in their own name that take part in a message that the filter matches.
    pub fn gather_matches<'a>(
        &'a self,
        message: &Message,
        matches: &mut Vec<Match<'a>>,
    ) -> Result<(), AllocError>
        ensures { OnOk result (match_views matches.new.items ≡ match_views matches.old.items
            ++ unshared_matches (message_of message.now) self.now.rows) }
    {
        for (client, options) in &self.unshared {
            if !is_held_back(*options, client.as_str(), message) {
                matches.push(Match {
                    client,
                    options: *options,
                })?;
            }
        }
        Ok(())
    }

    /// Adds the member of each group that is served.
    pub fn gather_turns<T: ClientTest>(
        &self,
        test: &T,
        turns: &mut Vec<Turn>,
    ) -> Result<(), AllocError>
        ensures { OnOk result (GathersTurns (T.passes test.now) self.now.filter self.now.rows
            turns.old.items turns.new.items) }
    {
        self.groups.gather_turns(&self.filter, test, turns)
    }
}

/// It counts for its subscriptions.
impl Counted for FilterEntry {
    ghost count_of = { λ at. length at.rows };

    fn count(&self) -> u64 {
        (self.unshared.len() as u64).saturating_add(self.groups.member_count())
    }
}

// Whether No Local keeps a client's own message from it.
fn is_held_back(options: SubscriptionOptions, client: &str, message: &Message) -> bool
    ensures { result ≡ (options.no_local
        && same_text client.now (rc_str_bytes message.now.publisher.now)) }
{
    options.no_local && client == message.publisher.as_str()
}
