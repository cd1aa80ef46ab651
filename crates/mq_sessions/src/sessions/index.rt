//! The index of the ends of sessions. It lists the end of each, and ends that are none any more: of clients that came
//! back, and of sessions that were removed. There are never more of those than of the others: the command that makes one
//! too many sweeps all of them out.
ghost use Rattle.std.specs.Prelude.{◌≡◌, ◌+◌, ◌*◌, ◌<◌, ◌≤◌, [], true, false, length, IfOk, OnOk};
ghost use Rattle.std.specs.Prelude.{is_some, map};
ghost use Rattle.std.specs.Option.{IfSome, option_map_or};
ghost use Rattle.std.specs.List.{list_any};
ghost use Rattle.std.specs.Rc.{rc_str_bytes};
ghost use Rattle.mq_sessions.specs.Dues.{Due, is_in};
ghost use Rattle.mq_sessions.specs.Ends.{AreListed, AreKept, AreIndexed, HasRoom, IsFirstLive};
ghost use Rattle.mq_sessions.specs.Ends.{ending, has_end, is_ending, one_if, views_of};
ghost use Rattle.mq_sessions.specs.Views.{view_of};

use crate::sessions::end_heap::Ends;
use crate::sessions::session::Session;
use std::alloc::{AllocError, Global};
use std::collections::BTreeMap;
use std::mem::swap;
use std::rc::RcStr;

/// The ends, and how many sessions have one.
#[derive(Drop)]
pub(crate) struct Index {
    pub(crate) ends: Ends,
    /// Empty. A sweep moves the ends of sessions into it, without memory, and exchanges the two.
    pub(crate) spare: Ends,
    /// How many sessions are away and end.
    pub(crate) count: usize,
}

impl Index {
    pub(crate) fn new(alloc: Global) -> Index
        ensures { AreIndexed result [] }
    {
        Index {
            ends: Ends::new(alloc),
            spare: Ends::new(alloc),
            count: 0,
        }
    }
}

// Whether the client has a session that ends then.
fn has_end(sessions: &BTreeMap<RcStr, Session>, end: u64, client: &RcStr) -> bool
    ensures { result ≡ list_any (has_end (end, rc_str_bytes client.now))
        (views_of sessions.now.entries) }
{
    // Learns that the keys are in order.
    let _count = sessions.len();
    match sessions.get(client.as_str()) {
        None => false,
        Some(session) => session.end() == Some(end),
    }
}

/// Takes out what is first and due, as long as no session ends so.
pub(crate) fn drop_stale_ends(moment: u64, ends: &mut Ends, sessions: &BTreeMap<RcStr, Session>)
    requires { AreListed ends.old.entries (views_of sessions.now.entries) }
    ensures listed { AreListed ends.new.entries (views_of sessions.now.entries) }
    ensures first { IsFirstLive moment ends.new.entries (views_of sessions.now.entries) }
    ensures count { length ends.new.entries ≤ length ends.old.entries }
    ensures room { ends.new.room ≡ ends.old.room }
{
    while let Some((end, client)) = ends.first() {
        if moment < end || has_end(sessions, end, client) {
            return;
        }
        let _ = ends.pop();
    }
}

/// Adds the end of a session that had none, if it has one.
pub(crate) fn push_end(index: &mut Index, end: Option<u64>, client: RcStr)
    requires room { length index.old.ends.entries < index.old.ends.room }
    requires count { index.old.count < index.old.ends.room }
    ensures listed { IfSome end (λ at.
        is_in (at, rc_str_bytes client) index.new.ends.entries ≡ true) }
    ensures others { (due : Due) → is_in due index.old.ends.entries ≡ true
        → is_in due index.new.ends.entries ≡ true }
    ensures count { index.new.count ≡ index.old.count + one_if (is_some end) }
    ensures length { length index.new.ends.entries
        ≡ length index.old.ends.entries + one_if (is_some end) }
    ensures room { index.old.ends.room ≤ index.new.ends.room }
    ensures spare { index.new.spare ≡ index.old.spare }
{
    // Learns that one more can be counted.
    let _room = index.ends.room();
    if let Some(end) = end {
        index.ends.add(end, client);
        index.count += 1;
    }
}

// Moves the ends that some session has into the empty heap, each once, and drops the others. Of the
// same end that stands there twice, as of a client that came and went in one second, the last one
// that comes out is moved.
fn move_live(ends: &mut Ends, live: &mut Ends, sessions: &BTreeMap<RcStr, Session>)
    requires listed { AreListed ends.old.entries (views_of sessions.now.entries) }
    requires empty { live.old.entries ≡ [] }
    requires fits { length ends.old.entries ≤ live.old.room }
    ensures listed { AreListed live.new.entries (views_of sessions.now.entries) }
    ensures few { length live.new.entries ≤ length (ending (views_of sessions.now.entries)) }
    ensures empty { ends.new.entries ≡ [] }
    ensures room { ends.new.room ≡ ends.old.room }
    ensures live_room { live.old.room ≤ live.new.room }
{
    while let Some((end, client)) = ends.pop() {
        if !ends.has_first(end, &client) && has_end(sessions, end, &client) {
            live.add(end, client);
        }
    }
}

/// Whether this is a session that is away and ends.
pub(crate) fn was_ending(session: Option<Session>) -> bool
    ensures { result ≡ option_map_or (λ it. is_ending (view_of it)) session false }
{
    match session {
        None => false,
        Some(session) => session.end().is_some(),
    }
}

/// Follows a change of the sessions after which an end may be no session's any more: that of one
/// that was away and ended, if one came back or was removed. If more than half of the ends are such
/// ones then, they are all taken out, without memory. Each command makes at most one, so this comes
/// to a few steps of a heap for each of those that made them.
pub(crate) fn sweep(index: &mut Index, gone: bool, sessions: &BTreeMap<RcStr, Session>)
    requires kept { AreKept index.old (views_of sessions.now.entries) }
    requires count { index.old.count
        ≡ length (ending (views_of sessions.now.entries)) + one_if gone }
    ensures { AreIndexed index.new (views_of sessions.now.entries) }
{
    index.count -= gone as usize;
    if index.ends.len().saturating_sub(index.count) <= index.count {
        return;
    }
    move_live(&mut index.ends, &mut index.spare, sessions);
    swap(&mut index.ends, &mut index.spare);
}

// The ends of the sessions.
fn ends_of(
    alloc: Global,
    sessions: &BTreeMap<RcStr, Session>,
    room: usize,
) -> Result<Ends, AllocError>
    requires { length sessions.now.entries ≤ room }
    ensures listed { IfOk result (λ ends. AreListed ends.entries (views_of sessions.now.entries)) }
    ensures count { IfOk result (λ ends.
        length ends.entries ≤ length (ending (views_of sessions.now.entries))) }
    ensures room { IfOk result (λ ends. room ≤ ends.room) }
{
    let mut ends = Ends::with_room(alloc, room)?;
    for (id, session) in sessions {
        if let Some(end) = session.end() {
            ends.add(end, id.clone()?);
        }
    }
    Ok(ends)
}

/// Makes room for one session more: for twice as many ends as there are sessions, in both heaps.
/// What is made anew has a quarter more, so this is done once in at least a fourth as many connects
/// as there are sessions.
pub(crate) fn reserve_ends(
    alloc: Global,
    index: &mut Index,
    sessions: &BTreeMap<RcStr, Session>,
) -> Result<(), AllocError>
    requires { AreIndexed index.old (views_of sessions.now.entries) }
    ensures indexed { AreIndexed index.new (views_of sessions.now.entries) }
    ensures ok { OnOk result (HasRoom (2 * (length sessions.now.entries + 1)) index.new) }
{
    let all = sessions.len() + 1;
    let wanted = all.checked_mul(2).ok_or(AllocError)?;
    if wanted <= index.ends.room() && wanted <= index.spare.room() {
        return Ok(());
    }
    let room = wanted.checked_add(all / 2).ok_or(AllocError)?;
    let spare = Ends::with_room(alloc, room)?;
    let ends = ends_of(alloc, sessions, room)?;
    index.ends = ends;
    index.spare = spare;
    Ok(())
}
