//! The copies of a message for clients in their own name: those that are sent, and those that begin to wait.
ghost use Rattle.std.specs.Prelude.{◌≡◌, ◌++◌, IfOk, OnOk, None, map};
ghost use Rattle.std.specs.Option.{option_map, option_to_list};
ghost use Rattle.std.specs.Rc.{rc_str_bytes};
ghost use Rattle.mq_world.specs.Views.{options_of};
ghost use Rattle.mq_world.specs.Views.{copies_in};
ghost use Rattle.mq_subscriptions.specs.Matches.{match_views, AreByClient};
ghost use Rattle.mq_router.specs.delivery.Copies.{by_client};
ghost use Rattle.mq_router.specs.delivery.Copies.{copies_by, queue_items_by};
ghost use Rattle.mq_router.specs.delivery.Copies.{sent_by_fate, queued_by_fate};
ghost use Rattle.mq_router.specs.delivery.Summaries.{summary_of, copy_from};
ghost use Rattle.mq_world.specs.Views.{copy_of};
ghost use Rattle.mq_world.specs.Views.{message_of};
ghost use Rattle.mq_world.specs.Waiting.{with_qos};
ghost use Rattle.mq_sessions.specs.Queue.{queue_item};
ghost use Rattle.mq_sessions.specs.Views.{queue_item_of};

use crate::delivery::access_view::AccessView;
use crate::delivery::fates::Fates;
use crate::delivery::outgoing::Outgoing;
use crate::delivery::summary::Summary;
use mq_sessions::{Fate, QueuedCopy, queued_copy};
use mq_subscriptions::Match;
use mq_world::Delivery;
use std::alloc::{AllocError, Global};
use std::rc::RcStr;

/// The copies that are sent, and those that begin to wait.
#[derive(Drop)]
pub(crate) struct Unshared {
    pub(crate) copies: Vec<Delivery>,
    pub(crate) queued: Vec<QueuedCopy>,
}

/// The copies for the clients that may read the topic, by client id: for those that are connected,
/// and for those that are away and have room.
pub(crate) fn unshared_copies(
    alloc: Global,
    view: &AccessView,
    matches: &[Match],
    outgoing: &Outgoing,
    limit: u32,
) -> Result<Unshared, AllocError>
    requires { AreByClient (match_views matches.now) }
    ensures copies { IfOk result (λ d. copies_in d.copies
        ≡ copies_by view.now.access.now view.now.sessions.now
        (message_of outgoing.now.message) (by_client (match_views matches.now))) }
    ensures queued { IfOk result (λ d. map queue_item_of d.queued.items
        ≡ queue_items_by limit view.now.access.now view.now.sessions.now
        (message_of outgoing.now.message) outgoing.now.message.deadline
        (by_client (match_views matches.now))) }
{
    // A client gets a copy if it has a session.
    let most = matches.len().min(view.sessions.len());
    let mut made = Unshared {
        copies: Vec::with_capacity(alloc, most)?,
        queued: Vec::new(alloc),
    };
    if matches.is_empty() {
        return Ok(made);
    }
    let mut fates = Fates::new(alloc, view, outgoing.message.topic, matches.len());
    for chunk in matches.chunk_by(|a, b| a.client == b.client) {
        let client = chunk[0].client;
        let fate = fates.fate(client, limit);
        made.add(alloc, fate, client, chunk, outgoing)?;
    }
    Ok(made)
}

impl Unshared {
    // Adds the copy for a client, by its subscriptions, where one goes.
    fn add(
        &mut self,
        alloc: Global,
        fate: Fate,
        client: &RcStr,
        matches: &[Match],
        outgoing: &Outgoing,
    ) -> Result<(), AllocError>
        ensures copies { OnOk result (copies_in self.new.copies
            ≡ copies_in self.old.copies ++ option_to_list (sent_by_fate fate
            (copy_from (rc_str_bytes client.now) None (message_of outgoing.now.message)
            (summary_of (map (λ x. options_of x.options) matches.now))))) }
        ensures queued { OnOk result (map queue_item_of self.new.queued.items
            ≡ map queue_item_of self.old.queued.items ++ option_to_list (queued_by_fate fate
            outgoing.now.message.deadline
            (copy_from (rc_str_bytes client.now) None (message_of outgoing.now.message)
            (summary_of (map (λ x. options_of x.options) matches.now))))) }
    {
        match fate {
            Fate::Sent => {
                let copy = unshared_copy(alloc, client, matches, outgoing)?;
                Ok(self.copies.push(copy)?)
            }
            Fate::Queued => {
                let copy = unshared_copy(alloc, client, matches, outgoing)?;
                self.queue(alloc, copy, outgoing.message.deadline)
            }
            Fate::Dropped => Ok(()),
        }
    }

    // Adds what begins to wait of the copy, if it waits.
    fn queue(
        &mut self,
        alloc: Global,
        copy: Delivery,
        deadline: Option<u64>,
    ) -> Result<(), AllocError>
        ensures copies { self.new.copies ≡ self.old.copies }
        ensures queued { OnOk result (map queue_item_of self.new.queued.items
            ≡ map queue_item_of self.old.queued.items ++ option_to_list (option_map
            (queue_item (rc_str_bytes copy.client) deadline) (with_qos (copy_of copy)))) }
    {
        match queued_copy(alloc, copy, deadline)? {
            Some(one) => Ok(self.queued.push(one)?),
            None => Ok(()),
        }
    }
}

// The copy for a client, by its subscriptions.
fn unshared_copy(
    alloc: Global,
    client: &RcStr,
    matches: &[Match],
    outgoing: &Outgoing,
) -> Result<Delivery, AllocError>
    ensures { IfOk result (λ d. copy_of d
        ≡ copy_from (rc_str_bytes client.now) None (message_of outgoing.now.message)
        (summary_of (map (λ x. options_of x.options) matches.now))) }
{
    outgoing.copy(client.clone()?, None, summarize(alloc, matches)?)
}

fn summarize(alloc: Global, matches: &[Match]) -> Result<Summary, AllocError>
    ensures { IfOk result (λ summary. summary
        ≡ summary_of (map (λ x. options_of x.options) matches.now)) }
{
    let mut summary = Summary::new(alloc);
    for one in matches {
        summary.add(one.options)?;
    }
    Ok(summary)
}
