//! The sessions that start.
ghost use Rattle.std.specs.Prelude.{◌≡◌, IfOk, OnOk, OnErr};
ghost use Rattle.std.specs.Option.{option_copied, option_map};
ghost use Rattle.mq_world.specs.Lists.{with_row};
ghost use Rattle.mq_world.specs.World.{session_cmp};
ghost use Rattle.mq_world.specs.Sessions.{new_session};
ghost use Rattle.mq_world.specs.Views.{copies_in};
ghost use Rattle.mq_sessions.specs.Near.{AllReached};
ghost use Rattle.mq_sessions.specs.Resumed.{copies_if_resumed};

use crate::texts::copied;
use mq_sessions::Sessions;
use mq_world::{Clock, Delivery};
use std::alloc::{AllocError, Global};
use std::rc::RcStr;

/// Puts a new session of the client in the place of its older one, and gives the copies that waited
/// there, if it is resumed.
pub(crate) fn start_session(
    sessions: &mut Sessions,
    alloc: Global,
    clock: Clock,
    client: &str,
    user: Option<&str>,
    clean: bool,
    session_expiry: u32,
) -> Result<Option<Vec<Delivery>>, AllocError>
    requires { AllReached clock.moment sessions.old }
    ensures resumed { IfOk result (λ copies. option_map copies_in copies
        ≡ copies_if_resumed clock.moment sessions.old client.now clean) }
    ensures ok { OnOk result (sessions.new ≡ with_row session_cmp
        (new_session client.now (option_copied user.entry) session_expiry) sessions.old) }
    ensures err { OnErr result (sessions.new ≡ sessions.old) }
{
    let id = RcStr::from_str(alloc, client)?;
    let user = copied(alloc, user)?;
    sessions.start(alloc, clock, id, user, session_expiry, clean)
}
