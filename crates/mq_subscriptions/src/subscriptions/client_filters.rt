//! The subscriptions of one client, beside the tree of all.
ghost use Rattle.std.specs.Prelude.{◌≡◌, ◌&&◌, ◌||◌, [], true, map, not, IsTrue, OnOk, OnErr};
ghost use Rattle.std.specs.List.{AllByRecursion};
ghost use Rattle.mq_topic.specs.Texts.{is_subscription};
ghost use Rattle.mq_world.specs.World.{Subscription};
ghost use Rattle.mq_subscriptions.specs.Filters.{is_empty, has_filter_key, is_in_list, text_key};
ghost use Rattle.mq_subscriptions.specs.ClientViews.{key_in, IsAsked};

use std::alloc::{AllocError, Global};
use std::collections::BTreeSet;
use std::marker::Model;
use std::rc::RcStr;

/// A client's subscriptions, by their texts, so that one can be looked up by the text of a command.
/// Each has a place of its own, since a leaf of the set has room for more than most clients
/// subscribe to.
#[derive(Drop)]
pub(crate) struct ClientFilters {
    texts: BTreeSet<RcStr>,
}

impl Model for ClientFilters {
    ghost use Rattle.std.specs.Prelude.{List};
    ghost use Rattle.mq_subscriptions.specs.Filters.{FilterKey};

    ghost Value = { List FilterKey };

    ghost use Rattle.mq_subscriptions.specs.ClientViews.{filters_view, AreAsked};

    ghost view = { filters_view };

    ghost invariant = { AreAsked };
}

impl ClientFilters {
    pub(crate) fn new(alloc: Global) -> ClientFilters
        ensures { result ≡ [] }
    {
        ClientFilters {
            texts: BTreeSet::new(alloc),
        }
    }

    pub(crate) fn is_empty(&self) -> bool
        ensures { result ≡ is_empty self.now }
    {
        self.texts.is_empty()
    }

    /// Adds the subscription with this text.
    pub(crate) fn insert(&mut self, alloc: Global, text: &str) -> Result<(), AllocError>
        requires { IsTrue (is_subscription text.now) }
        ensures ok { OnOk result ((s : Subscription)
            → is_in_list self.new s ≡ (has_filter_key s (text_key text.now)
            || is_in_list self.old s)) }
        ensures err { OnErr result (self.new ≡ self.old) }
    {
        let text = RcStr::from_str(alloc, text)?;
        self.texts.insert(text)?;
        Ok(())
    }

    /// Removes the subscription with this text, if there is one.
    pub(crate) fn remove(&mut self, text: &str)
        requires { IsTrue (is_subscription text.now) }
        ensures { (s : Subscription)
            → is_in_list self.new s ≡
            (not (has_filter_key s (text_key text.now)) && is_in_list self.old s) }
    {
        // Learns that the keys are in order.
        let _count = self.texts.len();
        let _ = self.texts.remove(text);
    }

    pub(crate) fn texts(&self) -> &BTreeSet<RcStr>
        ensures keys { map key_in result.now.keys ≡ self.now }
        ensures valid { AllByRecursion IsAsked result.now.keys }
    {
        &self.texts
    }
}
