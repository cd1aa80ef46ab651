//! A client's session, and the copies that wait for it.
ghost use Rattle.std.specs.Prelude.{◌≡◌, ◌≤◌, [], length, map, string_bytes, IfSome, IfNone, Some};
ghost use Rattle.std.specs.Prelude.{None};
ghost use Rattle.std.specs.Rc.{rc_str_bytes};
ghost use Rattle.std.specs.Option.{option_map};
ghost use Rattle.mq_world.specs.World.{Away};
ghost use Rattle.mq_world.specs.Sessions.{is_present, outlives_connection, session_end};
ghost use Rattle.mq_world.specs.Sessions.{new_session};
ghost use Rattle.mq_world.specs.Waiting.{has_place, has_room};
ghost use Rattle.mq_sessions.specs.Queue.{queue_copies};
ghost use Rattle.mq_sessions.specs.Ends.{end_of};
ghost use Rattle.mq_sessions.specs.Views.{kept_id, view_of, waiting_of};

use mq_world::{Clock, Delivery};
use std::alloc::Global;
use std::collections::LinkedList;
use std::mem::replace;
use std::rc::RcStr;

/// Whether a client is connected, or away until its session ends, at a moment or never. While it is
/// connected its id is kept once more, for the index of ends: where the connection ends, none can
/// be made.
#[derive(Drop)]
pub enum Presence {
    Connected { id: RcStr },
    Away { end: Option<u64> },
}

/// Where a copy for a client goes.
#[derive(Clone, Copy)]
pub enum Fate {
    Sent,
    Queued,
    Dropped,
}

/// A copy that waits for its client, until its deadline if it has one.
pub struct Waiting {
    pub copy: Delivery,
    pub deadline: Option<u64>,
}

// Opaque to callers' proofs: one step, and not one for each field (docs/explanation/gate.md).
impl Drop for Waiting {
    fn drop(self) {
        let Waiting {
            copy: _,
            deadline: _,
        } = self;
    }
}

impl Waiting {
    /// The copy, and its deadline if it has one.
    pub(crate) fn into_parts(self) -> (Delivery, Option<u64>)
        ensures { result ≡ (self.copy, self.deadline) }
    {
        let Waiting { copy, deadline } = self;
        (copy, deadline)
    }
}

/// What is known of a client.
pub struct Session {
    pub user: Option<String>,
    /// The Session Expiry Interval in seconds.
    pub interval: u32,
    pub presence: Presence,
    /// The copies that wait, the first one first.
    pub waiting: LinkedList<Waiting>,
}

// Opaque to callers' proofs: one step, and not one for each field (docs/explanation/gate.md).
impl Drop for Session {
    fn drop(self) {
        let Session {
            user: _,
            interval: _,
            presence: _,
            waiting: _,
        } = self;
    }
}

impl Session {
    ghost use Rattle.mq_sessions.specs.Fates.{is_sent, waits};

    /// The session of a client that connects.
    pub fn new(alloc: Global, id: RcStr, user: Option<String>, interval: u32) -> Session
        ensures shown { view_of result ≡ new_session [] (option_map string_bytes user) interval }
        ensures id { kept_id result ≡ Some (rc_str_bytes id) }
    {
        Session {
            user,
            interval,
            presence: Presence::Connected { id },
            waiting: LinkedList::new(alloc),
        }
    }

    pub fn is_present(&self) -> bool
        ensures { result ≡ is_present (view_of self.now) }
    {
        match self.presence {
            Presence::Connected { .. } => true,
            Presence::Away { .. } => false,
        }
    }

    /// Whether the session stays when the connection ends.
    pub fn outlives_connection(&self) -> bool
        ensures { result ≡ outlives_connection (view_of self.now) }
    {
        !(self.is_present() && self.interval == 0)
    }

    /// The moment at which the session ends, if the client is away and it ends.
    pub fn end(&self) -> Option<u64>
        ensures { result ≡ end_of (view_of self.now) }
    {
        match self.presence {
            Presence::Connected { .. } => None,
            Presence::Away { end } => end,
        }
    }

    /// The connection ends, if there is one. Gives the id that was kept.
    pub fn disconnect(&mut self, clock: Clock) -> Option<RcStr>
        ensures left { IfSome result (λ _. view_of self.new ≡ record (view_of self.old)
            { presence = Away (session_end clock.moment self.old.interval) }) }
        ensures away { IfNone result (self.new ≡ self.old) }
        ensures gone { IfSome result (λ _. kept_id self.new ≡ None) }
        ensures id { option_map rc_str_bytes result ≡ kept_id self.old }
    {
        if !self.is_present() {
            return None;
        }
        let end = clock.session_end(self.interval);
        match replace(&mut self.presence, Presence::Away { end }) {
            Presence::Connected { id } => Some(id),
            Presence::Away { .. } => None,
        }
    }

    // Whether fewer copies wait than may.
    fn has_place(&self, limit: u32) -> bool
        ensures { result ≡ has_place limit (view_of self.now) }
    {
        self.waiting.len() < limit as usize
    }

    /// Where a copy for the client goes: a client that is away has to have room.
    pub fn fate(&self, limit: u32) -> Fate
        ensures sent { is_sent result ≡ is_present (view_of self.now) }
        ensures waits { waits result ≡ has_room limit (view_of self.now) }
    {
        if self.is_present() {
            Fate::Sent
        } else if self.has_place(limit) {
            Fate::Queued
        } else {
            Fate::Dropped
        }
    }

    /// The copies that wait, the first one first.
    pub(crate) fn into_waiting(self) -> LinkedList<Waiting>
        ensures { result ≡ self.waiting }
    {
        let Session {
            user: _,
            interval: _,
            presence: _,
            waiting,
        } = self;
        waiting
    }

    /// One more copy waits, behind the others, if there is a place for it. Who was found to have room has
    /// a place: to ask again spares an invariant on how many wait.
    pub fn queue(&mut self, limit: u32, mut copies: LinkedList<Waiting>)
        requires { length copies ≤ 1 }
        ensures shown { view_of self.new
            ≡ queue_copies limit (map waiting_of copies) (view_of self.old) }
        ensures id { kept_id self.new ≡ kept_id self.old }
    {
        if self.has_place(limit) {
            let _ = self.waiting.append(&mut copies);
        }
    }
}
