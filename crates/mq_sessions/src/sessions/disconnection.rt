//! The end of a client's connection.
ghost use Rattle.std.specs.Prelude.{◌≡◌, ◌+◌, length, IfSome, IfNone, map, is_some, false, true, List};
ghost use Rattle.std.specs.Rc.{rc_str_bytes};
ghost use Rattle.mq_sessions.specs.Dues.{Due, is_in};
ghost use Rattle.mq_world.specs.Sessions.{connected, is_connected, left_by};
ghost use Rattle.mq_sessions.specs.Ends.{AreListed, KeepIds, ending, one_if, views_of};

use crate::sessions::session::Session;
use mq_world::Clock;
use std::collections::BTreeMap;
use std::rc::RcStr;

/// An end, and the id of the client whose session ends then.
#[derive(Drop)]
pub(crate) struct Disconnection {
    pub(crate) id: RcStr,
    pub(crate) end: Option<u64>,
}

/// The connection of a client ends, if there is one. Gives the id that its session kept, and its end, if it ends.
pub(crate) fn disconnect(
    sessions: &mut BTreeMap<RcStr, Session>,
    id: &str,
    clock: Clock,
) -> Option<Disconnection>
    requires { KeepIds sessions.old.entries }
    ensures ids { KeepIds sessions.new.entries }
    ensures away { IfNone result (sessions.new.entries ≡ sessions.old.entries) }
    ensures none { IfNone result (is_connected (views_of sessions.old.entries) id.now ≡ false) }
    ensures some { IfSome result (λ _. is_connected (views_of sessions.old.entries) id.now ≡ true) }
    ensures left { IfSome result (λ _. views_of sessions.new.entries
        ≡ map (left_by clock.moment id.now) (views_of sessions.old.entries)) }
    ensures fewer { IfSome result (λ _. length (connected (views_of sessions.new.entries)) + 1
        ≡ length (connected (views_of sessions.old.entries))) }
    ensures ending { IfSome result (λ it. length (ending (views_of sessions.new.entries))
        ≡ length (ending (views_of sessions.old.entries)) + one_if (is_some it.end)) }
    ensures listed { IfSome result (λ it. (dues : List Due)
        → AreListed dues (views_of sessions.old.entries)
        → IfSome it.end (λ end. is_in (end, rc_str_bytes it.id) dues ≡ true)
        → AreListed dues (views_of sessions.new.entries)) }
{
    let Some(session) = sessions.get_mut(id) else {
        return None;
    };
    let Some(id) = session.disconnect(clock) else {
        return None;
    };
    Some(Disconnection {
        id,
        end: session.end(),
    })
}
