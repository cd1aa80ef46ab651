//! The subscriptions of clients in their own name that take part in a message.
ghost use Rattle.std.specs.Prelude.{◌≡◌, OnOk};
ghost use Rattle.mq_world.specs.Lists.{Text};
ghost use Rattle.mq_subscriptions.specs.Matches.{match_views, options_among, AreByClient};

use mq_world::SubscriptionOptions;
use std::alloc::AllocError;
use std::rc::RcStr;

/// A client's subscription in its own name that takes part in a message.
#[derive(Clone, Copy)]
pub struct Match<'a> {
    pub client: &'a RcStr,
    pub options: SubscriptionOptions,
}

/// Sorts them by client; those of one client keep their order.
pub fn sort_by_client(matches: &mut Vec<Match>) -> Result<(), AllocError>
    ensures sorted { OnOk result (AreByClient (match_views matches.new.items)) }
    ensures stable { (id : Text) → options_among id (match_views matches.new.items)
        ≡ options_among id (match_views matches.old.items) }
{
    matches.sort_by(|a, b| a.client.cmp(b.client))
}
