//! Look-ups of many sessions.
ghost use Rattle.std.specs.Prelude.{◌≡◌};
ghost use Rattle.std.specs.Option.{option_map};
ghost use Rattle.mq_world.specs.Sessions.{session_of};
ghost use Rattle.mq_sessions.specs.Views.{session_at};

use crate::sessions::Sessions;
use crate::sessions::session::Session;
use crate::sessions::walk::Walk;
use std::marker::Model;

/// For fewer look-ups a walk is never begun.
const MANY: usize = 16;

/// Looks up sessions one after the other: by a search each, or where there are many by a walk beside
/// ids that ascend, as long as that costs less.
pub struct SessionFinder<'a> {
    sessions: &'a Sessions,
    walk: Option<Walk<'a>>,
}

// Opaque to callers' proofs: one step, and not one for each field (docs/explanation/gate.md).
impl Drop for SessionFinder<'_> {
    fn drop(self) {
        let SessionFinder {
            sessions: _,
            walk: _,
        } = self;
    }
}

impl<'a> Model for SessionFinder<'a> {
    ghost use Rattle.std.specs.Prelude.{◌≡◌, IfSome, List};
    ghost use Rattle.mq_world.specs.World.{Session};

    ghost Value = { List Session };

    ghost view = { λ f. f.sessions.now };

    ghost invariant = { λ f. IfSome f.walk (λ walk. walk ≡ f.sessions.now) };
}

impl<'a> SessionFinder<'a> {
    /// For about so many look-ups.
    pub fn new(sessions: &'a Sessions, count: usize) -> SessionFinder<'a>
        ensures { result ≡ sessions.entry.now }
    {
        SessionFinder {
            sessions,
            walk: if count < MANY {
                None
            } else {
                Some(Walk::new(sessions))
            },
        }
    }

    /// The session of a client, if it has one.
    pub fn find(&mut self, id: &str) -> Option<&'a Session>
        ensures same { self.new ≡ self.old }
        ensures found { option_map (λ session. session_at id.now session.now) result
            ≡ session_of self.old id.now }
    {
        match &mut self.walk {
            Some(walk) => walk.find(id),
            None => self.sessions.get(id),
        }
    }
}
