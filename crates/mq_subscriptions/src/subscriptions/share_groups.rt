//! The groups at one filter.
ghost use Rattle.std.specs.Prelude.{◌≡◌, [], length, Some, None, OnOk, OnErr};
ghost use Rattle.std.specs.List.{list_any};
ghost use Rattle.std.specs.Map.{lookup};
ghost use Rattle.std.specs.Rc.{rc_str_bytes};
ghost use Rattle.mq_topic.specs.Prefixes.{capped};
ghost use Rattle.mq_world.specs.Lists.{Text};
ghost use Rattle.mq_world.specs.World.{has_key};
ghost use Rattle.mq_subscriptions.specs.Edits.{GroupJoins, GroupLeaves, GroupTurns};
ghost use Rattle.mq_subscriptions.specs.Filters.{group_rows, is_empty, is_text};
ghost use Rattle.mq_subscriptions.specs.Turns.{GathersTurns};

use crate::subscriptions::client_test::ClientTest;
use crate::subscriptions::group::Group;
use crate::subscriptions::turn::Turn;
use mq_topic::TopicFilter;
use mq_world::SubscriptionOptions;
use std::alloc::{AllocError, Global};
use std::collections::BTreeMap;
use std::marker::Model;
use std::rc::{Rc, RcStr};

/// The groups at a filter, by share name. Each has a member.
#[derive(Drop)]
pub(crate) struct ShareGroups {
    by_share: BTreeMap<RcStr, Group>,
}

impl Model for ShareGroups {
    ghost use Rattle.mq_subscriptions.specs.Filters.{GroupList};

    ghost Value = { GroupList };

    ghost use Rattle.mq_subscriptions.specs.Views.{groups_of, NoneIsEmpty};

    ghost view = { groups_of };

    ghost invariant = { NoneIsEmpty };
}

impl ShareGroups {
    pub(crate) fn new(alloc: Global) -> ShareGroups
        ensures { result ≡ [] }
    {
        ShareGroups {
            by_share: BTreeMap::new(alloc),
        }
    }

    /// Whether no group has a member.
    pub(crate) fn is_empty(&self) -> bool
        ensures { (f : Text) → result ≡ is_empty (group_rows f self.now) }
    {
        self.by_share.is_empty()
    }

    /// How many members all groups have, at most `u64::MAX`.
    pub(crate) fn member_count(&self) -> u64
        ensures { (f : Text) → result ≡ capped (length (group_rows f self.now)) }
    {
        let mut total = 0u64;
        for group in self.by_share.values() {
            total = total.saturating_add(group.len() as u64);
        }
        total
    }

    pub(crate) fn contains(&self, share: &str, client: &str) -> bool
        ensures { (f : Text) → result ≡ list_any (has_key client.now (Some share.now) f)
            (group_rows f self.now) }
    {
        // Learns that the share names are in order.
        let _count = self.by_share.len();
        match self.by_share.get(share) {
            Some(group) => group.contains(client),
            None => false,
        }
    }

    /// A member keeps its place, and a new one goes last.
    pub(crate) fn insert(
        &mut self,
        alloc: Global,
        share: &str,
        client: RcStr,
        options: SubscriptionOptions,
    ) -> Result<(), AllocError>
        ensures ok { OnOk result
            (GroupJoins share.now (rc_str_bytes client, options) self.old self.new) }
        ensures err { OnErr result (self.new ≡ self.old) }
    {
        match self.by_share.get_mut(share) {
            Some(group) => group.insert(client, options),
            None => self.add(alloc, share, client, options),
        }
    }

    // Adds a group of one member, made aside.
    fn add(
        &mut self,
        alloc: Global,
        share: &str,
        client: RcStr,
        options: SubscriptionOptions,
    ) -> Result<(), AllocError>
        requires { lookup (is_text share.now) self.old ≡ None }
        ensures ok { OnOk result
            (GroupJoins share.now (rc_str_bytes client, options) self.old self.new) }
        ensures err { OnErr result (self.new ≡ self.old) }
    {
        let name = RcStr::from_str(alloc, share)?;
        let mut group = Group::new(alloc);
        group.insert(client, options)?;
        self.by_share.insert(name, group)?;
        Ok(())
    }

    /// Takes a member out, and its group with its last one.
    pub(crate) fn remove(&mut self, share: &str, client: &str)
        ensures { GroupLeaves share.now client.now self.old self.new }
    {
        let Some(group) = self.by_share.get_mut(share) else {
            return;
        };
        group.remove(client);
        if group.is_empty() {
            let _ = self.by_share.remove(share);
        }
    }

    /// A member goes last in its group.
    pub(crate) fn serve(&mut self, share: &str, client: &str)
        ensures { GroupTurns share.now client.now self.old self.new }
    {
        let Some(group) = self.by_share.get_mut(share) else {
            return;
        };
        group.serve(client);
    }

    /// Adds the member of each group that is served.
    pub(crate) fn gather_turns<T: ClientTest>(
        &self,
        filter: &Rc<TopicFilter>,
        test: &T,
        turns: &mut Vec<Turn>,
    ) -> Result<(), AllocError>
        ensures { OnOk result (GathersTurns (T.passes test.now) filter.now.value
            (group_rows filter.now.value self.now) turns.old.items turns.new.items) }
    {
        for (share, group) in &self.by_share {
            if let Some((client, options)) = group.next(test) {
                turns.push(Turn::of(share, filter, client, options)?)?;
            }
        }
        Ok(())
    }
}
