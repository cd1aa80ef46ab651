//! The copies that a client gets that comes back.
ghost use Rattle.std.specs.Prelude.{◌≡◌, ◌+◌, ◌≤◌, ◌++◌, ◌&&◌, [], length, map, not, string_bytes};
ghost use Rattle.std.specs.Prelude.{IfOk, OnErr, OnOk, Some, None, if◌then◌else◌};
ghost use Rattle.std.specs.Rc.{rc_str_bytes};
ghost use Rattle.std.specs.Option.{option_map};
ghost use Rattle.std.specs.List.{filter_map};
ghost use Rattle.std.specs.Vec.{vec_capacity, vec_len};
ghost use Rattle.mq_world.specs.Sessions.{new_session, outlives_connection};
ghost use Rattle.mq_world.specs.Waiting.{resumed_copy};
ghost use Rattle.mq_sessions.specs.Near.{IsReached, AreReached};
ghost use Rattle.mq_world.specs.Views.{copy_of};
ghost use Rattle.mq_sessions.specs.Views.{kept_id, view_of, waiting_of};

use crate::sessions::session::{Session, Waiting};
use mq_world::{Clock, Delivery};
use std::alloc::{AllocError, Global};
use std::collections::LinkedList;
use std::mem::replace;
use std::rc::RcStr;

// The copy with what is left of its interval, unless that is over.
fn resumed_copy(clock: Clock, waiting: Waiting) -> Option<Delivery>
    requires { IsReached clock.moment (waiting_of waiting) }
    ensures { option_map copy_of result ≡ resumed_copy clock.moment (waiting_of waiting) }
{
    let (copy, deadline) = waiting.into_parts();
    if deadline.is_some_and(|deadline| deadline <= clock.moment) {
        return None;
    }
    Some(Delivery {
        expiry: clock.time_left(deadline),
        ..copy
    })
}

// Moves the copies that waited behind those that are there, in their order, with what is left of
// their intervals. It takes no memory.
fn move_copies(clock: Clock, mut waiting: LinkedList<Waiting>, copies: &mut Vec<Delivery>)
    requires reached { AreReached clock.moment (map waiting_of waiting) }
    requires room { vec_len copies.old + length waiting ≤ vec_capacity copies.old }
    ensures { map copy_of copies.new.items ≡ map copy_of copies.old.items
        ++ filter_map (resumed_copy clock.moment) (map waiting_of waiting) }
{
    while let Some(first) = waiting.pop_front() {
        if let Some(copy) = resumed_copy(clock, first) {
            copies.push(copy).unwrap();
        }
    }
}

/// Puts the session of a client that connects in the place of its older one. Gives the copies that
/// waited there, with what is left of their intervals, if that is resumed. Room for them is made
/// first.
pub(crate) fn restart(
    alloc: Global,
    session: &mut Session,
    clock: Clock,
    id: RcStr,
    user: Option<String>,
    interval: u32,
    clean: bool,
) -> Result<Option<Vec<Delivery>>, AllocError>
    requires { AreReached clock.moment (view_of session.old).waiting }
    ensures resumed { IfOk result (λ copies. option_map (λ list. map copy_of list.items) copies
        ≡ (if not clean && outlives_connection (view_of session.old)
        then Some (filter_map (resumed_copy clock.moment) (view_of session.old).waiting)
        else None)) }
    ensures shown { OnOk result (view_of session.new
        ≡ new_session [] (option_map string_bytes user) interval) }
    ensures id { OnOk result (kept_id session.new ≡ Some (rc_str_bytes id)) }
    ensures err { OnErr result (session.new ≡ session.old) }
{
    let resumes = !clean && session.outlives_connection();
    let count = if resumes { session.waiting.len() } else { 0 };
    let mut copies = Vec::with_capacity(alloc, count)?;
    let older = replace(session, Session::new(alloc, id, user, interval));
    if !resumes {
        return Ok(None);
    }
    move_copies(clock, older.into_waiting(), &mut copies);
    Ok(Some(copies))
}
