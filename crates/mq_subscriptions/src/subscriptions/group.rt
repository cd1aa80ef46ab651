//! The members of a group, in their turn.
ghost use Rattle.std.specs.Prelude.{◌≡◌, [], length, not, OnOk, OnErr};
ghost use Rattle.std.specs.Option.{option_map};
ghost use Rattle.std.specs.Rc.{rc_str_bytes};
ghost use Rattle.std.specs.List.{filter, find, list_any};
ghost use Rattle.mq_subscriptions.specs.Filters.{has_client, is_empty};
ghost use Rattle.mq_subscriptions.specs.Turns.{with_one, put_last};

use crate::subscriptions::client_test::ClientTest;
use indexmap::IndexMap;
use mq_world::SubscriptionOptions;
use std::alloc::{AllocError, Global};
use std::marker::Model;
use std::rc::RcStr;

/// The members of a group, the one that joined or was served longest ago first.
#[derive(Drop)]
pub(crate) struct Group {
    members: IndexMap<RcStr, SubscriptionOptions>,
}

impl Model for Group {
    ghost use Rattle.std.specs.Prelude.{List};
    ghost use Rattle.mq_subscriptions.specs.Filters.{Member};

    ghost Value = { List Member };

    ghost use Rattle.mq_subscriptions.specs.Views.{members_of};

    ghost view = { members_of };
}

impl Group {
    pub(crate) fn new(alloc: Global) -> Group
        ensures { result ≡ [] }
    {
        Group {
            members: IndexMap::new(alloc),
        }
    }

    pub(crate) fn is_empty(&self) -> bool
        ensures { result ≡ is_empty self.now }
    {
        self.members.is_empty()
    }

    pub(crate) fn len(&self) -> usize
        ensures { result ≡ length self.now }
    {
        self.members.len()
    }

    pub(crate) fn contains(&self, client: &str) -> bool
        ensures { result ≡ list_any (has_client client.now) self.now }
    {
        self.members.get_index_of(client).is_some()
    }

    /// A member keeps its place, and a new one goes last.
    pub(crate) fn insert(
        &mut self,
        client: RcStr,
        options: SubscriptionOptions,
    ) -> Result<(), AllocError>
        ensures ok { OnOk result
            (self.new ≡ with_one (has_client (rc_str_bytes client)) (rc_str_bytes client, options)
            self.old) }
        ensures err { OnErr result (self.new ≡ self.old) }
    {
        let _count = self.members.len();
        self.members.insert(client, options)?;
        Ok(())
    }

    pub(crate) fn remove(&mut self, client: &str)
        ensures { self.new ≡ filter (λ m. not (has_client client.now m)) self.old }
    {
        let _count = self.members.len();
        let _ = self.members.shift_remove(client);
    }

    /// The member goes last.
    pub(crate) fn serve(&mut self, client: &str)
        ensures { self.new ≡ put_last (has_client client.now) self.old }
    {
        let count = self.members.len();
        match self.members.get_index_of(client) {
            Some(place) => self.members.move_index(place, count - 1),
            None => {}
        }
    }

    /// The first member whose client passes.
    pub(crate) fn next<T: ClientTest>(&self, test: &T) -> Option<(&RcStr, SubscriptionOptions)>
        ensures { option_map (λ m. (rc_str_bytes m.0.now, m.1)) result
            ≡ find (λ m. T.passes test.now m.0) self.now }
    {
        for (client, options) in &self.members {
            if test.passes(client.as_str()) {
                return Some((client, *options));
            }
        }
        None
    }
}
