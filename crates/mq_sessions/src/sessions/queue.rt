//! The copies that begin to wait for clients that are away.
ghost use Rattle.std.specs.Prelude.{◌≡◌, [], ◌∷◌, IfOk};
ghost use Rattle.std.specs.Option.{option_map};
ghost use Rattle.std.specs.Rc.{rc_str_bytes};
ghost use Rattle.mq_world.specs.Waiting.{with_qos};
ghost use Rattle.mq_sessions.specs.Queue.{queue_item};
ghost use Rattle.mq_world.specs.Views.{copy_of};
ghost use Rattle.mq_sessions.specs.Views.{queue_item_of};

use crate::sessions::queued::QueuedCopy;
use crate::sessions::session::Waiting;
use mq_world::Delivery;
use std::alloc::{AllocError, Global};
use std::collections::LinkedList;

fn list_of_one(alloc: Global, waiting: Waiting) -> Result<LinkedList<Waiting>, AllocError>
    ensures { IfOk result (λ list. list ≡ waiting ∷ []) }
{
    let mut list = LinkedList::new(alloc);
    list.push_back(waiting)?;
    Ok(list)
}

/// What begins to wait of the copy, until the deadline or for ever. A copy of QoS 0 does not wait.
pub fn queued_copy(
    alloc: Global,
    copy: Delivery,
    deadline: Option<u64>,
) -> Result<Option<QueuedCopy>, AllocError>
    ensures { IfOk result (λ queued_copy. option_map queue_item_of queued_copy
        ≡ option_map (queue_item (rc_str_bytes copy.client) deadline) (with_qos (copy_of copy))) }
{
    if copy.qos == 0 {
        return Ok(None);
    }
    let client = copy.client.clone()?;
    let waiting = Waiting { copy, deadline };
    Ok(Some(QueuedCopy {
        client,
        copies: list_of_one(alloc, waiting)?,
    }))
}
