//! The subscriptions that can receive nothing so far.
ghost use Rattle.std.specs.Prelude.{◌≡◌, ◌<◌, ◌++◌, ◌∷◌, [], ℕ, Bool, List, All, length, map};
ghost use Rattle.std.specs.Prelude.{IfOk, IfErr, OnErr, OnOk, string_bytes, if◌then◌else◌};
ghost use Rattle.std.specs.BTreeMap.{get_by_text};
ghost use Rattle.std.specs.List.{AllZip, filter};
ghost use Rattle.std.specs.Option.{option_copied, option_map, option_map_or};
ghost use Rattle.std.specs.Str.{bytes_eq};
ghost use Rattle.mq_reach.specs.Faults.{IsAskFault, IsFaultOpen};
ghost use Rattle.mq_reach.specs.Tracked.{Asks, IsAsked, IsOf, TrackedSubscription, Where};
ghost use Rattle.mq_reach.specs.Tracked.{closed_all};
ghost use Rattle.mq_reach.specs.Tracked.{closed_if, closed_one, entry_view, is_open_at, is_open_of};
ghost use Rattle.mq_reach.specs.Tracked.{is_to, places_from, subscription_view, subscription_views};
ghost use Rattle.mq_reach.specs.Tracked.{shown_of, tracked_of, unreached_of};

use crate::question::{SearchFault, is_unreached};
use crate::reach::Reach;
use crate::subscription::Subscription;
use std::alloc::{AllocError, Global};
use std::collections::BTreeMap;
use std::marker::Model;

/// How it is with a subscription that could receive nothing as it was made.
#[derive(Clone, Copy, PartialEq, Eq)]
pub(crate) enum State {
    /// Its client's session keeps it, and it can receive nothing so far.
    Open,
    /// The session doesn't keep it any more, and it could receive nothing to the end.
    Closed,
    /// Its client came back under a user name by which it may read what the filter matches.
    Reached,
}

pub(crate) struct Entry {
    subscription: Subscription,
    state: State,
}

// Opaque to callers' proofs: one step, and not one for each field (docs/explanation/gate.md).
impl Drop for Entry {
    fn drop(self) {
        let Entry {
            subscription: _,
            state: _,
        } = self;
    }
}

impl Entry {
    // It isn't kept any more, if it is to this filter, or whatever it is to.
    fn close(&mut self, filter: Option<&str>)
        ensures { let old = entry_view self.old in
            entry_view self.new ≡ closed_if (is_to (option_copied filter.entry) old) old }
    {
        if filter.is_none_or(|filter| filter == self.subscription.filter.as_str()) {
            self.state = State::Closed;
        }
    }

    // Asks whether it can receive nothing under this user name too, or under none.
    fn ask(&mut self, alloc: Global, list: &Reach, user: Option<&str>) -> Result<(), SearchFault>
        ensures ok { OnOk result (IsAsked list.now (option_copied user.entry)
            (entry_view self.old) (entry_view self.new)) }
        ensures kept { IsOf (entry_view self.old) (entry_view self.new) }
        ensures err { IfErr result (IsAskFault list.now (subscription_view self.old.subscription)
            (option_copied user.entry)) }
    {
        if !is_unreached(alloc, list, &self.subscription, user)? {
            self.state = State::Reached;
        }
        Ok(())
    }

    // The subscription, if it can receive nothing.
    fn shown(self) -> Option<Subscription>
        ensures { option_map subscription_view result ≡ shown_of (entry_view self) }
    {
        let Entry {
            subscription,
            state,
        } = self;
        match state {
            State::Reached => None,
            _ => Some(subscription),
        }
    }
}

// Adds the place of a subscription of this client.
fn add_place(
    index: &mut BTreeMap<String, Vec<usize>>,
    client: String,
    place: usize,
) -> Result<(), AllocError>
    ensures ok { OnOk result ((other : List ℕ)
        → option_map_or (λ places. places.items) (get_by_text index.new other) []
        ≡ option_map_or (λ places. places.items) (get_by_text index.old other) []
        ++ (if bytes_eq other (string_bytes client) then place ∷ [] else [])) }
    ensures err { OnErr result ((other : List ℕ)
        → option_map_or (λ places. places.items) (get_by_text index.new other) []
        ≡ option_map_or (λ places. places.items) (get_by_text index.old other) []) }
{
    index.entry(client)?.or_default().push(place)?;
    Ok(())
}

// The subscriptions at these places aren't kept any more: those to this filter, or all of them.
fn close_at(entries: &mut [Entry], places: &[usize], filter: Option<&str>)
    requires { All (λ place. place < length entries.old) places.now }
    ensures { (test : TrackedSubscription → Bool)
        → places.now ≡ places_from 0 test (map entry_view entries.old)
        → AllZip (Where test (λ old new. new ≡ closed_if (is_to (option_copied filter.entry) old)
        old)) (map entry_view entries.old) (map entry_view entries.new) }
{
    for place in places {
        entries[*place].close(filter);
    }
}

// Asks whether the subscriptions at these places can receive nothing under this user name too, or under none.
fn ask_at(
    entries: &mut [Entry],
    places: &[usize],
    alloc: Global,
    list: &Reach,
    user: Option<&str>,
) -> Result<(), SearchFault>
    requires { All (λ place. place < length entries.old) places.now }
    ensures ok { OnOk result ((test : TrackedSubscription → Bool)
        → places.now ≡ places_from 0 test (map entry_view entries.old)
        → AllZip (Where test (IsAsked list.now (option_copied user.entry)))
        (map entry_view entries.old) (map entry_view entries.new)) }
    ensures kept { (test : TrackedSubscription → Bool)
        → places.now ≡ places_from 0 test (map entry_view entries.old)
        → AllZip (Where test IsOf) (map entry_view entries.old) (map entry_view entries.new) }
    ensures err { IfErr result (λ fault. (client : List ℕ)
        → places.now ≡ places_from 0 (is_open_of client) (map entry_view entries.old)
        → IsFaultOpen list.now client (option_copied user.entry) (map entry_view entries.old)
        fault) }
{
    for place in places {
        entries[*place].ask(alloc, list, user)?;
    }
    Ok(())
}

// Whether the subscription at a place is open.
fn is_open_at(entries: &[Entry], place: usize) -> bool
    ensures { result ≡ is_open_at (map entry_view entries.now) place }
{
    match entries.get(place) {
        Some(entry) => entry.state == State::Open,
        None => false,
    }
}

// Keeps the places of those that are open.
fn keep_open(entries: &[Entry], places: &mut Vec<usize>)
    ensures { places.new.items
        ≡ filter (is_open_at (map entry_view entries.now)) places.old.items }
{
    places.retain(|place| is_open_at(entries, *place));
}

/// The subscriptions that could receive nothing as they were made, in the order of their lines, and
/// by client id the places of those that are open.
pub(crate) struct Tracked {
    entries: Vec<Entry>,
    open: BTreeMap<String, Vec<usize>>,
}

// Opaque to callers' proofs: one step, and not one for each field (docs/explanation/gate.md).
impl Drop for Tracked {
    fn drop(self) {
        let Tracked {
            entries: _,
            open: _,
        } = self;
    }
}

impl Model for Tracked {
    ghost use Rattle.std.specs.Prelude.{List};
    ghost use Rattle.mq_reach.specs.Tracked.{AreIndexed, TrackedSubscription, tracked_in};

    ghost Value = { List TrackedSubscription };

    ghost view = { tracked_in };

    ghost invariant = { AreIndexed };
}

impl Tracked {
    pub fn new(alloc: Global) -> Tracked
        ensures { result ≡ [] }
    {
        Tracked {
            entries: Vec::new(alloc),
            open: BTreeMap::new(alloc),
        }
    }

    /// One more subscription, which is open. Where memory is refused, none is added.
    pub fn add(&mut self, subscription: Subscription) -> Result<(), AllocError>
        ensures ok { OnOk result (self.new ≡ self.old ++ tracked_of subscription ∷ []) }
        ensures err { OnErr result (self.new ≡ self.old) }
    {
        let client = subscription.client.clone()?;
        let place = self.entries.len();
        self.entries.push(Entry {
            subscription,
            state: State::Open,
        })?;
        if let Err(error) = add_place(&mut self.open, client, place) {
            let _ = self.entries.pop();
            return Err(error);
        }
        Ok(())
    }

    /// The client's session doesn't keep its subscription to this filter any more, if it has one.
    pub fn close(&mut self, client: &str, filter: &str)
        ensures { self.new ≡ map (closed_one client.now filter.now) self.old }
    {
        let Some(places) = self.open.get_mut(client) else {
            return;
        };
        close_at(&mut self.entries, places, Some(filter));
        keep_open(&self.entries, places);
    }

    /// The client's session keeps none of its subscriptions any more.
    pub fn close_all(&mut self, client: &str)
        ensures { self.new ≡ map (closed_all client.now) self.old }
    {
        let Some(places) = self.open.remove(client) else {
            return;
        };
        close_at(&mut self.entries, &places, None);
    }

    /// The client is connected under this user name, or without one, and its session keeps its subscriptions.
    pub fn ask(
        &mut self,
        alloc: Global,
        list: &Reach,
        client: &str,
        user: Option<&str>,
    ) -> Result<(), SearchFault>
        ensures ok { OnOk result (Asks list.now client.now (option_copied user.entry) self.old
            self.new) }
        ensures err { IfErr result (IsFaultOpen list.now client.now (option_copied user.entry)
            self.old) }
    {
        let Some(places) = self.open.get_mut(client) else {
            return Ok(());
        };
        let asked = ask_at(&mut self.entries, places, alloc, list, user);
        keep_open(&self.entries, places);
        asked
    }

    /// Those that can receive nothing, in the order of their lines.
    pub fn unreached(self, alloc: Global) -> Result<Vec<Subscription>, AllocError>
        ensures { IfOk result (λ unreached. subscription_views unreached.items
            ≡ unreached_of self) }
    {
        let Tracked { entries, open: _ } = self;
        let mut unreached = Vec::new(alloc);
        for entry in entries {
            let Some(subscription) = entry.shown() else {
                continue;
            };
            unreached.push(subscription)?;
        }
        Ok(unreached)
    }
}
