//! Turns in groups.
ghost use Rattle.std.specs.Prelude.{◌≡◌, Some, IfOk, OnOk};
ghost use Rattle.std.specs.Rc.{rc_str_bytes};
ghost use Rattle.mq_subscriptions.specs.Filters.{row};
ghost use Rattle.mq_world.specs.Lists.{Text};
ghost use Rattle.mq_subscriptions.specs.Turns.{shares_of, turn_of, turns_listed};
ghost use Rattle.mq_subscriptions.specs.Matches.{AreAscending};

use mq_topic::TopicFilter;
use mq_world::SubscriptionOptions;
use std::alloc::AllocError;
use std::rc::{Rc, RcStr};

/// A member of a group that a publish serves.
pub struct Turn {
    pub share: RcStr,
    pub filter: Rc<TopicFilter>,
    pub client: RcStr,
    pub options: SubscriptionOptions,
}

// Opaque to callers' proofs: one step, and not one for each field (docs/explanation/gate.md).
impl Drop for Turn {
    fn drop(self) {
        let Turn {
            share: _,
            filter: _,
            client: _,
            options: _,
        } = self;
    }
}

impl Turn {
    /// That of a client in the group of this share name at this filter.
    pub(crate) fn of(
        share: &RcStr,
        filter: &Rc<TopicFilter>,
        client: &RcStr,
        options: SubscriptionOptions,
    ) -> Result<Turn, AllocError>
        ensures share { IfOk result (λ turn. rc_str_bytes turn.share ≡ rc_str_bytes share.now) }
        ensures row { IfOk result (λ turn. turn_of turn ≡ row (Some (rc_str_bytes share.now))
            filter.now.value (rc_str_bytes client.now, options)) }
    {
        Ok(Turn {
            share: share.clone()?,
            filter: filter.clone()?,
            client: client.clone()?,
            options,
        })
    }
}

/// Sorts them by share name; those of one share name keep their order.
pub fn sort_by_share(turns: &mut Vec<Turn>) -> Result<(), AllocError>
    ensures sorted { OnOk result (AreAscending (shares_of turns.new.items)) }
    ensures stable { (share : Text) → turns_listed share turns.new.items
        ≡ turns_listed share turns.old.items }
{
    turns.sort_by(|a, b| a.share.cmp(&b.share))
}
