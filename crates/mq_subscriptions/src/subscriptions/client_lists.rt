//! What each client subscribes to.
ghost use Rattle.std.specs.Prelude.{◌≡◌, [], None, IsTrue, OnOk, OnErr};
ghost use Rattle.std.specs.Map.{lookup};
ghost use Rattle.std.specs.Rc.{rc_str_bytes};
ghost use Rattle.mq_topic.specs.Texts.{is_subscription};
ghost use Rattle.mq_subscriptions.specs.Filters.{is_text, text_key};
ghost use Rattle.mq_subscriptions.specs.SubFilters.{ListsMore, ListsLess, ListsOthers};

use crate::subscriptions::client_filters::ClientFilters;
use std::alloc::{AllocError, Global};
use std::collections::BTreeMap;
use std::marker::Model;
use std::rc::RcStr;

/// The subscriptions of each client that has any.
#[derive(Drop)]
pub(crate) struct ClientLists {
    by_client: BTreeMap<RcStr, ClientFilters>,
}

impl Model for ClientLists {
    ghost use Rattle.mq_subscriptions.specs.Filters.{FilterLists};

    ghost Value = { FilterLists };

    ghost use Rattle.mq_subscriptions.specs.Views.{lists_of, AreClientLists};

    ghost view = { lists_of };

    ghost invariant = { AreClientLists };
}

impl ClientLists {
    pub(crate) fn new(alloc: Global) -> ClientLists
        ensures { result ≡ [] }
    {
        ClientLists {
            by_client: BTreeMap::new(alloc),
        }
    }

    /// Adds the client's subscription with this text.
    pub(crate) fn insert(
        &mut self,
        alloc: Global,
        client: &RcStr,
        text: &str,
    ) -> Result<(), AllocError>
        requires { IsTrue (is_subscription text.now) }
        ensures ok { OnOk result
            (ListsMore (rc_str_bytes client.now) (text_key text.now) self.old self.new) }
        ensures err { OnErr result (self.new ≡ self.old) }
    {
        match self.by_client.get_mut(client) {
            Some(filters) => filters.insert(alloc, text),
            None => self.insert_first(alloc, client, text),
        }
    }

    // A client's first one, made aside.
    fn insert_first(&mut self, alloc: Global, client: &RcStr, text: &str) -> Result<(), AllocError>
        requires valid { IsTrue (is_subscription text.now) }
        requires absent { lookup (is_text (rc_str_bytes client.now)) self.old ≡ None }
        ensures ok { OnOk result
            (ListsMore (rc_str_bytes client.now) (text_key text.now) self.old self.new) }
        ensures err { OnErr result (self.new ≡ self.old) }
    {
        let client = client.clone()?;
        let mut filters = ClientFilters::new(alloc);
        filters.insert(alloc, text)?;
        self.by_client.insert(client, filters)?;
        Ok(())
    }

    /// Removes the subscription with this text, if there is one, and with its last one the client.
    pub(crate) fn remove(&mut self, client: &str, text: &str)
        requires { IsTrue (is_subscription text.now) }
        ensures { ListsLess client.now (text_key text.now) self.old self.new }
    {
        let Some(filters) = self.by_client.get_mut(client) else {
            return;
        };
        filters.remove(text);
        if filters.is_empty() {
            let _ = self.by_client.remove(client);
        }
    }

    /// Takes out all that the client has, if it has any.
    pub(crate) fn take(&mut self, client: &str) -> Option<ClientFilters>
        ensures taken { result ≡ lookup (is_text client.now) self.old }
        ensures rest { ListsOthers client.now self.old self.new }
    {
        self.by_client.remove(client)
    }
}
