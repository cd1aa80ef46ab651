//! What becomes of the subscriptions that are tracked as a client connects, and as sessions end.
ghost use Rattle.std.specs.Prelude.{◌≡◌, true, not, map, OnOk, IfErr};
ghost use Rattle.std.specs.List.{filter};
ghost use Rattle.std.specs.Option.{option_copied};
ghost use Rattle.mq_world.specs.Sessions.{has_ended, resumes};
ghost use Rattle.mq_reach.specs.Connects.{Connects, closed_ended};
ghost use Rattle.mq_reach.specs.Faults.{IsFaultOpen};

use crate::question::SearchFault;
use crate::reach::Reach;
use crate::tracked::Tracked;
use mq_sessions::Sessions;
use std::alloc::Global;

/// A client connects under this user name, or without one. Where its session is resumed, its
/// subscriptions are asked about again, unless that is the name that it had.
pub(crate) fn take_over(
    tracked: &mut Tracked,
    sessions: &Sessions,
    alloc: Global,
    list: &Reach,
    client: &str,
    user: Option<&str>,
    clean: bool,
) -> Result<(), SearchFault>
    ensures ok { OnOk result (Connects list.now client.now (option_copied user.entry) clean
        sessions.now tracked.old tracked.new) }
    ensures err { IfErr result (λ fault. (resumes sessions.now client.now clean ≡ true)
        × IsFaultOpen list.now client.now (option_copied user.entry) tracked.old fault) }
{
    if clean || !sessions.outlives(client) {
        tracked.close_all(client);
        return Ok(());
    }
    if sessions.user(client) == user {
        return Ok(());
    }
    tracked.ask(alloc, list, client, user)
}

/// Takes out the sessions that have ended; none of their subscriptions is kept any more.
pub(crate) fn end_sessions(sessions: &mut Sessions, tracked: &mut Tracked, moment: u64)
    ensures sessions { sessions.new
        ≡ filter (λ session. not (has_ended moment session)) sessions.old }
    ensures tracked { tracked.new ≡ map (closed_ended moment sessions.old) tracked.old }
{
    while let Some(client) = sessions.take_ended(moment) {
        tracked.close_all(client.as_str());
    }
}
