//! A walk over the sessions beside ids that ascend.
ghost use Rattle.std.specs.Prelude.{◌≡◌, None, if◌then◌else◌};
ghost use Rattle.std.specs.Option.{option_map};
ghost use Rattle.mq_world.specs.Sessions.{session_of};
ghost use Rattle.mq_sessions.specs.Views.{session_at};
ghost use Rattle.mq_sessions.specs.Walks.{is_past};

use crate::sessions::Sessions;
use crate::sessions::session::Session;
use std::cmp::Ordering;
use std::collections::btree_map::Iter;
use std::marker::Model;
use std::rc::RcStr;

/// So many steps a walk may take at first.
const CREDIT: u32 = 16;

/// So many more with each look-up: they cost half of what a search does.
const STEPS: u32 = 4;

/// A walk over the sessions by client id. Ids that are looked up in their order take one walk
/// together, in place of a search each. Once that takes too many steps the walk has ended, and each
/// is a search.
pub(crate) struct Walk<'a> {
    sessions: &'a Sessions,
    // The last id that was passed.
    past: Option<&'a RcStr>,
    ahead: Option<(&'a RcStr, &'a Session)>,
    rest: Iter<'a, RcStr, Session>,
    // How many steps it may still take; 0 once it has ended.
    credit: u32,
}

// Opaque to callers' proofs: one step, and not one for each field (docs/explanation/gate.md).
impl Drop for Walk<'_> {
    fn drop(self) {
        let Walk {
            sessions: _,
            past: _,
            ahead: _,
            rest: _,
            credit: _,
        } = self;
    }
}

impl<'a> Model for Walk<'a> {
    ghost use Rattle.std.specs.Prelude.{List};
    ghost use Rattle.mq_world.specs.World.{Session};
    ghost use Rattle.mq_sessions.specs.Walks.{IsAhead};

    ghost Value = { List Session };

    ghost view = { λ w. w.sessions.now };

    ghost invariant = { λ w. IsAhead w.sessions.now w.past w.ahead w.rest };
}

impl<'a> Walk<'a> {
    pub(crate) fn new(sessions: &'a Sessions) -> Walk<'a>
        ensures { result ≡ sessions.entry.now }
    {
        let mut rest = sessions.entries();
        let ahead = rest.next();
        Walk {
            sessions,
            past: None,
            ahead,
            rest,
            credit: CREDIT,
        }
    }

    /// The session of a client, if it has one. An id that the walk has passed is a search.
    pub(crate) fn find(&mut self, id: &str) -> Option<&'a Session>
        ensures same { self.new ≡ self.old }
        ensures found { option_map (λ session. session_at id.now session.now) result
            ≡ session_of self.old id.now }
    {
        if self.credit == 0 {
            return self.sessions.get(id);
        }
        self.credit = self.credit.saturating_add(STEPS);
        while let Some((key, session)) = self.ahead {
            match key.as_str().cmp(id) {
                Ordering::Less => {
                    if self.credit == 0 {
                        return self.sessions.get(id);
                    }
                    self.credit -= 1;
                    self.past = Some(key);
                    self.ahead = self.rest.next();
                }
                Ordering::Equal => return Some(session),
                Ordering::Greater => return find_past(self.sessions, self.past, id),
            }
        }
        find_past(self.sessions, self.past, id)
    }
}

// The session of a client whose id the walk has passed.
fn find_past<'a>(sessions: &'a Sessions, past: Option<&'a RcStr>, id: &str) -> Option<&'a Session>
    ensures { option_map (λ session. session_at id.now session.now) result
        ≡ (if is_past past.entry id.now then None else session_of sessions.entry.now id.now) }
{
    let last = past?;
    if last.as_str() < id {
        return None;
    }
    sessions.get(id)
}
