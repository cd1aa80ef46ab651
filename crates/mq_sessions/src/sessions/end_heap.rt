//! The ends of sessions, of which a first one is at hand, each with the id of its client.
//!
//! `with_room` makes all room, and no other call takes memory. An end that is added or taken out costs a number of steps
//! that is logarithmic in how many there are.
ghost use Rattle.std.specs.Prelude.{◌≡◌, ◌+◌, ◌<◌, ◌≤◌, nat_le, false, [], length, IfOk, IfSome};
ghost use Rattle.std.specs.Option.{option_map, option_map_or};
ghost use Rattle.std.specs.List.{list_any};
ghost use Rattle.std.specs.Rc.{rc_str_bytes};
ghost use Rattle.mq_sessions.specs.Dues.{first_of, is_in, AreWith, AreRest, IsFirst};

use std::alloc::{AllocError, Global};
use std::cmp::Reverse;
use std::collections::BinaryHeap;
use std::marker::Model;
use std::rc::RcStr;

/// Ends, in seconds, with clients, each as often as it was added and not taken out.
#[derive(Drop)]
pub(crate) struct Ends {
    heap: BinaryHeap<(Reverse<u64>, RcStr)>,
}

impl Model for Ends {
    ghost use Rattle.std.specs.Prelude.{◌≡◌, map, length};
    ghost use Rattle.std.specs.BinaryHeap.{heap_items, heap_len, heap_capacity, IsHeap};
    ghost use Rattle.mq_sessions.specs.Dues.{Dues, due_of};
    ghost use Rattle.mq_sessions.specs.Dues.{entry_cmp};

    ghost Value = { Dues };

    ghost view = { λ e. record {
      entries = map due_of (heap_items e.heap);
      room = heap_capacity e.heap;
    } };

    ghost invariant = { λ e. IsHeap entry_cmp (heap_items e.heap)
        × (heap_len e.heap ≡ length (heap_items e.heap)) };
}

impl Ends {
    pub fn new(alloc: Global) -> Self
        ensures { result.entries ≡ [] }
    {
        Ends {
            heap: BinaryHeap::new(alloc),
        }
    }

    pub fn with_room(alloc: Global, room: usize) -> Result<Self, AllocError>
        ensures entries { IfOk result (λ ends. ends.entries ≡ []) }
        ensures room { IfOk result (λ ends. room ≤ ends.room) }
    {
        let heap = BinaryHeap::with_capacity(alloc, room)?;
        Ok(Ends { heap })
    }

    /// How many there are.
    pub fn len(&self) -> usize
        ensures { result ≡ length self.now.entries }
    {
        self.heap.len()
    }

    /// How many there is room for.
    pub fn room(&self) -> usize
        ensures { result ≡ self.now.room }
    {
        self.heap.capacity()
    }

    /// A first end and its client, if there is one.
    pub fn first(&self) -> Option<(u64, &RcStr)>
        ensures { option_map (λ first. (first.0, rc_str_bytes first.1.now)) result
            ≡ first_of self.now.entries }
    {
        let first = self.heap.peek()?;
        Some((first.0.0, &first.1))
    }

    /// Whether an end is not after the moment. It looks at the first alone.
    pub fn any_until(&self, moment: u64) -> bool
        ensures all { result ≡ list_any (λ due. nat_le due.0 moment) self.now.entries }
        ensures first { result
            ≡ option_map_or (λ due. nat_le due.0 moment) (first_of self.now.entries) false }
    {
        match self.heap.peek() {
            None => false,
            Some(first) => first.0.0 <= moment,
        }
    }

    /// Whether the end is there, if none that is there comes before it. It looks at the first alone.
    pub fn has_first(&self, end: u64, client: &RcStr) -> bool
        requires { IsFirst (end, rc_str_bytes client.now) self.now.entries }
        ensures { result ≡ is_in (end, rc_str_bytes client.now) self.now.entries }
    {
        match self.heap.peek() {
            None => false,
            Some(first) => end == first.0.0 && client.as_str() == first.1.as_str(),
        }
    }

    /// Adds an end.
    pub fn add(&mut self, end: u64, client: RcStr)
        requires { length self.old.entries < self.old.room }
        ensures entries { AreWith (end, rc_str_bytes client) self.old.entries self.new.entries }
        ensures room { self.old.room ≤ self.new.room }
    {
        self.heap.push((Reverse(end), client)).unwrap();
    }

    /// Takes the first end out, and gives it with its client.
    pub fn pop(&mut self) -> Option<(u64, RcStr)>
        ensures first { option_map (λ first. (first.0, rc_str_bytes first.1)) result
            ≡ first_of self.old.entries }
        ensures entries { AreRest self.old.entries self.new.entries }
        ensures others { IfSome result (λ first.
            IsFirst (first.0, rc_str_bytes first.1) self.new.entries) }
        ensures room { self.new.room ≡ self.old.room }
    {
        let (Reverse(end), client) = self.heap.pop()?;
        Some((end, client))
    }
}
