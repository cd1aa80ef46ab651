//! The sessions that end, and their subscriptions.
ghost use Rattle.std.specs.Prelude.{◌≡◌, not};
ghost use Rattle.std.specs.List.{filter};
ghost use Rattle.mq_world.specs.Sessions.{has_ended};
ghost use Rattle.mq_subscriptions.specs.Filters.{AreKeys};
ghost use Rattle.mq_router.specs.router.Effects.{lasts};

use mq_sessions::Sessions;
use mq_subscriptions::Subscriptions;

/// Takes out the sessions that have ended, and their subscriptions, and looks at no other's.
pub(crate) fn end_sessions(sessions: &mut Sessions, subscriptions: &mut Subscriptions, moment: u64)
    ensures sessions { sessions.new
        ≡ filter (λ session. not (has_ended moment session)) sessions.old }
    ensures rows { subscriptions.new.rows ≡ filter (lasts moment sessions.old)
        subscriptions.old.rows }
    ensures keys { AreKeys subscriptions.old → AreKeys subscriptions.new }
{
    while let Some(id) = sessions.take_ended(moment) {
        subscriptions.remove_client(id.as_str());
    }
}
