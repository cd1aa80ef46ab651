//! The sessions of the clients, of those that are connected and of those that are away.
//!
//! ```text
//!             connect               disconnect, with a session expiry
//! nothing  ------------->  connected  ---------------------->  away: copies wait
//!    ^                      |     ^            connect               |       |
//!    |  disconnect without  |     +----------------------------------+       |
//!    +----------------------+                                                |
//!    |                            its time is over                           |
//!    +-----------------------------------------------------------------------+
//! ```
ghost use Rattle.std.specs.Prelude.{◌≡◌, [], length, not, is_some, false, true, OnOk, OnErr, IfOk};
ghost use Rattle.std.specs.Prelude.{IfSome, IfNone, map, string_bytes};
ghost use Rattle.std.specs.Option.{option_copied, option_map};
ghost use Rattle.std.specs.List.{filter, list_any};
ghost use Rattle.std.specs.Rc.{rc_str_bytes};
ghost use Rattle.std.specs.List.Sorted.{IsStrictlySortedBy};
ghost use Rattle.mq_world.specs.Lists.{with_row};
ghost use Rattle.mq_world.specs.World.{has_id, session_cmp};
ghost use Rattle.mq_world.specs.Sessions.{new_session, session_of, is_connected, user_of, outlives};
ghost use Rattle.mq_world.specs.Sessions.{left_by, has_ended, is_among};
ghost use Rattle.mq_sessions.specs.Resumed.{copies_if_resumed};
ghost use Rattle.mq_sessions.specs.Queue.{queue_one, queue_all};
ghost use Rattle.mq_sessions.specs.Near.{AllReached};
ghost use Rattle.mq_sessions.specs.Pending.{AreAscending, Joins};
ghost use Rattle.mq_world.specs.Views.{copy_of};
ghost use Rattle.mq_sessions.specs.Views.{session_in};

mod disconnection;
mod end_heap;
pub(crate) mod finder;
mod index;
mod pending;
pub(crate) mod queue;
pub(crate) mod queued;
mod resume;
pub(crate) mod session;
mod walk;

use crate::sessions::pending::{Pending, can_walk};
use crate::sessions::queued::QueuedCopy;
use crate::sessions::session::Session;
use disconnection::disconnect;
use index::{Index, drop_stale_ends, push_end, reserve_ends, sweep, was_ending};
use mq_world::{Clock, Delivery};
use resume::restart;
use std::alloc::{AllocError, Global};
use std::collections::BTreeMap;
use std::collections::btree_map::Iter;
use std::marker::Model;
use std::rc::RcStr;

/// The sessions, by client id, and the ends of those whose clients are away.
pub struct Sessions {
    by_id: BTreeMap<RcStr, Session>,
    index: Index,
}

// Opaque to callers' proofs: one step, and not one for each field (docs/explanation/gate.md).
impl Drop for Sessions {
    fn drop(self) {
        let Sessions { by_id: _, index: _ } = self;
    }
}

impl Model for Sessions {
    ghost use Rattle.std.specs.Prelude.{List};
    ghost use Rattle.mq_world.specs.World.{Session};

    ghost Value = { List Session };

    ghost use Rattle.mq_sessions.specs.Views.{sessions_of};
    ghost use Rattle.mq_sessions.specs.Ends.{AreIndexed, KeepIds};

    ghost view = { sessions_of };

    ghost invariant = { λ a. AreIndexed a.index (sessions_of a) × KeepIds a.by_id.entries };
}

/// A client that is connected: its id, as its session keeps it, and its user name, if it has one.
#[derive(Clone, Copy)]
pub struct Client<'a> {
    pub id: &'a RcStr,
    pub user: Option<&'a str>,
}

impl Sessions {
    ghost use Rattle.mq_sessions.specs.Views.{queue_item_of, session_at};

    pub fn new(alloc: Global) -> Self
        ensures { result ≡ [] }
    {
        Sessions {
            by_id: BTreeMap::new(alloc),
            index: Index::new(alloc),
        }
    }

    /// How many clients have a session.
    pub fn len(&self) -> usize
        ensures len { result ≡ length self.now }
        ensures ordered { IsStrictlySortedBy session_cmp self.now }
    {
        learn_order(&self.by_id);
        self.by_id.len()
    }

    /// The client, if it is connected. One look-up.
    pub fn connected(&self, id: &str) -> Option<Client<'_>>
        ensures connected { is_some result ≡ is_connected self.now id.now }
        ensures same { IfSome result (λ client. rc_str_bytes client.id.now ≡ id.now) }
        ensures user { IfSome result (λ client.
            option_copied client.user ≡ user_of self.now id.now) }
    {
        match self.by_id.get_key_value(id) {
            None => None,
            Some((key, session)) => {
                if session.is_present() {
                    Some(Client {
                        id: key,
                        user: session.user.as_deref(),
                    })
                } else {
                    None
                }
            }
        }
    }

    /// The user name of a client with a session, if it has one.
    pub fn user(&self, id: &str) -> Option<&str>
        ensures { option_copied result ≡ user_of self.now id.now }
    {
        match self.by_id.get(id) {
            None => None,
            Some(session) => session.user.as_deref(),
        }
    }

    /// Whether the client has a session that stays when its connection ends.
    pub fn outlives(&self, id: &str) -> bool
        ensures { result ≡ outlives self.now id.now }
    {
        match self.by_id.get(id) {
            None => false,
            Some(session) => session.outlives_connection(),
        }
    }

    /// The session of a client, if it has one.
    pub fn get(&self, id: &str) -> Option<&Session>
        ensures { option_map (λ session. session_at id.now session.now) result
            ≡ session_of self.now id.now }
    {
        self.by_id.get(id)
    }

    // All of them, with the ids of their clients.
    fn entries(&self) -> Iter<'_, RcStr, Session>
        ensures all { map session_in result ≡ self.now }
        ensures ordered { IsStrictlySortedBy session_cmp self.now }
    {
        learn_order(&self.by_id);
        self.by_id.iter()
    }

    /// Adds the session of a client that connects, in place of an older one. Gives the copies that
    /// waited there, with what is left of their intervals, if that is resumed.
    pub fn start(
        &mut self,
        alloc: Global,
        clock: Clock,
        id: RcStr,
        user: Option<String>,
        interval: u32,
        clean: bool,
    ) -> Result<Option<Vec<Delivery>>, AllocError>
        requires { AllReached clock.moment self.old }
        ensures resumed { IfOk result (λ copies. option_map (λ list. map copy_of list.items) copies
            ≡ copies_if_resumed clock.moment self.old (rc_str_bytes id) clean) }
        ensures ok { OnOk result (self.new
            ≡ with_row session_cmp (new_session (rc_str_bytes id) (option_map string_bytes user)
            interval) self.old) }
        ensures err { OnErr result (self.new ≡ self.old) }
    {
        reserve_ends(alloc, &mut self.index, &self.by_id)?;
        if let Some(session) = self.by_id.get_mut(id.as_str()) {
            let ended = session.end().is_some();
            let copies = restart(alloc, session, clock, id, user, interval, clean)?;
            sweep(&mut self.index, ended, &self.by_id);
            return Ok(copies);
        }
        self.insert(alloc, id, user, interval)?;
        Ok(None)
    }

    /// Adds the session of a client that connects, in place of an older one.
    pub fn insert(
        &mut self,
        alloc: Global,
        id: RcStr,
        user: Option<String>,
        interval: u32,
    ) -> Result<(), AllocError>
        ensures ok { OnOk result (self.new
            ≡ with_row session_cmp (new_session (rc_str_bytes id) (option_map string_bytes user)
            interval) self.old) }
        ensures err { OnErr result (self.new ≡ self.old) }
    {
        let kept = id.clone()?;
        reserve_ends(alloc, &mut self.index, &self.by_id)?;
        let session = Session::new(alloc, kept, user, interval);
        let older = self.by_id.insert(id, session)?;
        sweep(&mut self.index, was_ending(older), &self.by_id);
        Ok(())
    }

    /// The connection of a client ends, if there is one, and its session stays.
    pub fn disconnect(&mut self, id: &str, clock: Clock)
        ensures left { is_connected self.old id.now ≡ true
            → self.new ≡ map (left_by clock.moment id.now) self.old }
        ensures away { is_connected self.old id.now ≡ false → self.new ≡ self.old }
    {
        let Some(disconnection) = disconnect(&mut self.by_id, id, clock) else {
            return;
        };
        push_end(&mut self.index, disconnection.end, disconnection.id);
    }

    pub fn remove(&mut self, id: &str)
        ensures { self.new ≡ filter (λ session. not (has_id id.now session)) self.old }
    {
        // Learns that the ids are in order.
        let _count = self.by_id.len();
        let removed = self.by_id.remove(id);
        sweep(&mut self.index, was_ending(removed), &self.by_id);
    }

    /// Takes out a session that has ended, if there is one, and gives the id of its client.
    pub fn take_ended(&mut self, moment: u64) -> Option<RcStr>
        ensures none { IfNone result (list_any (has_ended moment) self.old ≡ false) }
        ensures same { IfNone result (self.new ≡ self.old) }
        ensures ended { IfSome result (λ id. is_among (filter (has_ended moment) self.old)
            (rc_str_bytes id) ≡ true) }
        ensures only { IfSome result (λ id. is_among (filter (λ session.
            not (has_ended moment session)) self.old) (rc_str_bytes id) ≡ false) }
        ensures taken { IfSome result (λ id. self.new
            ≡ filter (λ session. not (has_id (rc_str_bytes id) session)) self.old) }
    {
        drop_stale_ends(moment, &mut self.index.ends, &self.by_id);
        if !self.index.ends.any_until(moment) {
            return None;
        }
        // Learns that the ids are in order.
        let _count = self.by_id.len();
        let (_, client) = self.index.ends.pop()?;
        let removed = self.by_id.remove(client.as_str());
        sweep(&mut self.index, was_ending(removed), &self.by_id);
        Some(client)
    }

    // One more copy waits for a client.
    fn queue(&mut self, limit: u32, queued_copy: QueuedCopy)
        ensures { self.new ≡ queue_one limit (queue_item_of queued_copy) self.old }
    {
        let Some(session) = self.by_id.get_mut(queued_copy.client.as_str()) else {
            return;
        };
        session.queue(limit, queued_copy.copies);
    }

    /// The copies begin to wait, each where fewer wait than may.
    pub fn queue_all(&mut self, limit: u32, all: Vec<QueuedCopy>)
        ensures new { self.new ≡ queue_all limit (map queue_item_of all.items) self.old }
        ensures ordered { IsStrictlySortedBy session_cmp self.old }
    {
        learn_order(&self.by_id);
        if can_walk(all.as_slice(), self.by_id.len()) {
            return self.queue_beside(limit, all);
        }
        for queued_copy in all {
            self.queue(limit, queued_copy);
        }
    }

    // The same by one walk over the sessions.
    fn queue_beside(&mut self, limit: u32, all: Vec<QueuedCopy>)
        requires { AreAscending (map queue_item_of all.items) }
        ensures { self.new ≡ queue_all limit (map queue_item_of all.items) self.old }
    {
        let mut pending = Pending::new(all);
        self.by_id.retain(
            move |id, session|
                ensures { Joins limit pending.entry (rc_str_bytes id.now) result session.old
                    session.new pending.exit }
            {
                if let Some(first) = pending.pass(id.as_str()) {
                    session.queue(limit, first.copies);
                }
                true
            },
        );
    }
}

// Learns that the map's keys are in order.
fn learn_order(sessions: &BTreeMap<RcStr, Session>)
    ensures { IsStrictlySortedBy session_cmp (map session_in sessions.now.entries) }
{
    let _count = sessions.len();
}
