//! Copies that begin to wait, beside a walk over the sessions.
ghost use Rattle.std.specs.Prelude.{◌≡◌, IsTrue, map};
ghost use Rattle.std.specs.List.{filter, find};
ghost use Rattle.std.specs.Option.{option_map};
ghost use Rattle.mq_sessions.specs.Pending.{AreAscending, is_beyond, is_for};
ghost use Rattle.mq_sessions.specs.Views.{queue_item_of};

use crate::sessions::queued::QueuedCopy;
use std::cmp::Ordering;
use std::collections::VecDeque;
use std::marker::Model;

/// A search costs as much as so many steps of a walk.
const STEPS: usize = 4;

/// Whether a walk over so many sessions can be taken beside the copies, and costs no more than a
/// search for each.
pub(crate) fn can_walk(all: &[QueuedCopy], sessions: usize) -> bool
    ensures { IsTrue result → AreAscending (map queue_item_of all.now) }
{
    sessions <= all.len().saturating_mul(STEPS) && are_ascending(all)
}

// Whether the copies are by client id, each for another client.
fn are_ascending(all: &[QueuedCopy]) -> bool
    ensures { IsTrue result → AreAscending (map queue_item_of all.now) }
{
    let mut rest = all;
    while let [first, second, ..] = rest {
        if first.client >= second.client {
            return false;
        }
        rest = &rest[1..];
    }
    true
}

/// Those that the walk has not passed, by client id, each for another client.
#[derive(Drop)]
pub(crate) struct Pending {
    copies: VecDeque<QueuedCopy>,
}

impl Model for Pending {
    ghost use Rattle.std.specs.Prelude.{List, map};
    ghost use Rattle.mq_sessions.specs.Queue.{QueueItem};

    ghost Value = { List QueueItem };

    ghost use Rattle.mq_sessions.specs.Pending.{AreAscending};
    ghost use Rattle.mq_sessions.specs.Views.{queue_item_of};

    ghost view = { λ p. map queue_item_of p.copies.items };

    ghost invariant = { λ p. AreAscending (map queue_item_of p.copies.items) };
}

impl Pending {
    pub(crate) fn new(all: Vec<QueuedCopy>) -> Pending
        requires { AreAscending (map queue_item_of all.items) }
        ensures { result ≡ map queue_item_of all.items }
    {
        Pending {
            copies: VecDeque::from(all),
        }
    }

    /// Passes a client: takes out what is for it, if something is, and what is for those before it.
    pub(crate) fn pass(&mut self, id: &str) -> Option<QueuedCopy>
        ensures found { option_map queue_item_of result ≡ find (is_for id.now) self.old }
        ensures left { self.new ≡ filter (is_beyond id.now) self.old }
    {
        while let Some(first) = self.copies.front() {
            match first.client.as_str().cmp(id) {
                Ordering::Less => {
                    let _ = self.copies.pop_front();
                }
                Ordering::Equal => return self.copies.pop_front(),
                Ordering::Greater => return None,
            }
        }
        None
    }
}
