//! The copies of a message.
ghost use Rattle.std.specs.Prelude.{◌≡◌, ◌+◌, IfOk, length, map, ◌++◌, OnOk, []};
ghost use Rattle.mq_topic.specs.Levels.{levels};
ghost use Rattle.mq_topic.specs.Prefixes.{prefixes, met_by_name};
ghost use Rattle.mq_world.specs.Lists.{Text};
ghost use Rattle.mq_world.specs.Views.{message_of, copy_of, copies_in};
ghost use Rattle.mq_subscriptions.specs.Turns.{turn_of, turns_in, next_members};
ghost use Rattle.mq_sessions.specs.Views.{queue_item_of};
ghost use Rattle.mq_router.specs.delivery.Copies.{queued_by, by_client, copies_by, queue_items_by};
ghost use Rattle.mq_subscriptions.specs.Filters.{AreEntriesFor};
ghost use Rattle.mq_subscriptions.specs.Matches.{lent_values, match_views, options_among};
ghost use Rattle.mq_subscriptions.specs.Matches.{AreByClient, rows_found, unshared_matches};
ghost use Rattle.mq_router.specs.router.Effects.{message_copies, member_copy};

pub(crate) mod access_view;
pub(crate) mod fates;
pub(crate) mod outgoing;
pub(crate) mod summary;
pub(crate) mod unshared;

use crate::delivery::access_view::{AccessView, TopicReaders};
use crate::delivery::outgoing::Outgoing;
use crate::delivery::summary::Summary;
use crate::delivery::unshared::{Unshared, unshared_copies};
use mq_sessions::QueuedCopy;
use mq_subscriptions::{FilterEntry, Match, Subscriptions, Turn, sort_by_client, sort_by_share};
use mq_tree::Steps;
use mq_world::{Delivery, Message};
use std::alloc::{AllocError, Global};

/// The copies of a message that are sent, those that begin to wait, and the members of groups that it serves.
#[derive(Drop)]
pub(crate) struct Deliveries {
    pub(crate) copies: Vec<Delivery>,
    pub(crate) queued: Vec<QueuedCopy>,
    pub(crate) served: Vec<Turn>,
}

impl Deliveries {
    // What is made of a message that nobody gets.
    fn nothing(alloc: Global) -> Deliveries
        ensures copies { copies_in result.copies ≡ [] }
        ensures queued { result.queued.items ≡ [] }
        ensures served { turns_in result.served ≡ [] }
    {
        Deliveries {
            copies: Vec::new(alloc),
            queued: Vec::new(alloc),
            served: Vec::new(alloc),
        }
    }
}

/// All copies of a message: those for clients themselves by client id, and those for groups by share name and filter.
pub(crate) fn make_copies(
    alloc: Global,
    view: &AccessView,
    subscriptions: &Subscriptions,
    message: &Message,
    limit: u32,
    steps: &mut Steps,
) -> Result<Deliveries, AllocError>
    ensures copies { IfOk result (λ m. copies_in m.copies
        ≡ message_copies view.now.access.now view.now.sessions.now subscriptions.now.rows
        (message_of message.now)) }
    ensures queued { IfOk result (λ m. map queue_item_of m.queued.items
        ≡ queued_by limit view.now.access.now view.now.sessions.now subscriptions.now.rows
        (message_of message.now)
        message.now.deadline) }
    ensures served { IfOk result (λ m. turns_in m.served
        ≡ next_members view.now.access.now view.now.sessions.now subscriptions.now.rows
        (message_of message.now)) }
    ensures count { OnOk result (steps.new ≡ steps.old
        + length (met_by_name (levels message.now.topic.now) (prefixes subscriptions.now.keys))) }
{
    let candidates = subscriptions.candidates(message.topic, steps)?;
    let found = candidates.as_slice();
    if found.is_empty() {
        return Ok(Deliveries::nothing(alloc));
    }
    let matches = matches_by_client(alloc, found, message)?;
    // Learns that the sessions are in order.
    let _sessions = view.sessions.len();
    let served = members_served(alloc, view, found, message)?;
    deliveries_for(alloc, view, matches.as_slice(), served, message, limit)
}

// How many subscriptions of clients in their own name there are at most. It is a measure of room alone.
fn unshared_count(found: &[&FilterEntry]) -> usize {
    let mut count: usize = 0;
    for at in found {
        count = count.saturating_add(at.unshared_count());
    }
    count
}

// The subscriptions of clients in their own name that take part, by client, and by filter for each client.
fn matches_by_client<'a>(
    alloc: Global,
    found: &[&'a FilterEntry],
    message: &Message,
) -> Result<Vec<Match<'a>>, AllocError>
    ensures sorted { IfOk result (λ ms. AreByClient (match_views ms.items)) }
    ensures options { IfOk result (λ ms. (id : Text) → options_among id (match_views ms.items)
        ≡ options_among id (unshared_matches (message_of message.now)
        (rows_found (lent_values found.now)))) }
{
    let mut matches = Vec::with_capacity(alloc, unshared_count(found))?;
    for at in found {
        at.gather_matches(message, &mut matches)?;
    }
    sort_by_client(&mut matches)?;
    Ok(matches)
}

// The members that are served, by share name and filter.
fn members_served(
    alloc: Global,
    view: &AccessView,
    found: &[&FilterEntry],
    message: &Message,
) -> Result<Vec<Turn>, AllocError>
    requires { AreEntriesFor message.now.topic.now (lent_values found.now) }
    ensures { IfOk result (λ served. turns_in served
        ≡ next_members view.now.access.now view.now.sessions.now
        (rows_found (lent_values found.now))
        (message_of message.now)) }
{
    let test = TopicReaders {
        view,
        name: message.topic,
    };
    let mut served = Vec::new(alloc);
    for at in found {
        at.gather_turns(&test, &mut served)?;
    }
    sort_by_share(&mut served)?;
    Ok(served)
}

// The copies for these clients and members, with texts that all of them share. Where there is no one no texts are made.
fn deliveries_for(
    alloc: Global,
    view: &AccessView,
    matches: &[Match],
    served: Vec<Turn>,
    message: &Message,
    limit: u32,
) -> Result<Deliveries, AllocError>
    requires { AreByClient (match_views matches.now) }
    ensures copies { IfOk result (λ m. copies_in m.copies
        ≡ copies_by view.now.access.now view.now.sessions.now (message_of message.now)
        (by_client (match_views matches.now))
        ++ map (member_copy (message_of message.now)) (turns_in served)) }
    ensures queued { IfOk result (λ m. map queue_item_of m.queued.items
        ≡ queue_items_by limit view.now.access.now view.now.sessions.now
        (message_of message.now)
        message.now.deadline
        (by_client (match_views matches.now))) }
    ensures served { IfOk result (λ m. m.served ≡ served) }
{
    if matches.is_empty() && served.is_empty() {
        return Ok(Deliveries {
            served,
            ..Deliveries::nothing(alloc)
        });
    }
    let outgoing = Outgoing::new(alloc, message)?;
    let Unshared { mut copies, queued } = unshared_copies(alloc, view, matches, &outgoing, limit)?;
    add_group_copies(alloc, served.as_slice(), &outgoing, &mut copies)?;
    Ok(Deliveries {
        copies,
        queued,
        served,
    })
}

fn add_group_copies(
    alloc: Global,
    served: &[Turn],
    outgoing: &Outgoing,
    copies: &mut Vec<Delivery>,
) -> Result<(), AllocError>
    ensures { OnOk result (copies_in copies.new
        ≡ copies_in copies.old
        ++ map (λ t. member_copy (message_of outgoing.now.message) (turn_of t)) served.now) }
{
    for turn in served {
        copies.push(group_copy(alloc, turn, outgoing)?)?;
    }
    Ok(())
}

// The copy for a member of a group.
fn group_copy(alloc: Global, turn: &Turn, outgoing: &Outgoing) -> Result<Delivery, AllocError>
    ensures { IfOk result (λ d. copy_of d
        ≡ member_copy (message_of outgoing.now.message) (turn_of turn.now)) }
{
    let summary = Summary::of(alloc, turn.options)?;
    let group = (turn.share.clone()?, turn.filter.clone()?);
    outgoing.copy(turn.client.clone()?, Some(group), summary)
}
