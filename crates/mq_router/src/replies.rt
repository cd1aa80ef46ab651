//! Answers of commands.
ghost use Rattle.std.specs.Prelude.{◌≡◌, ◌&&◌, not, map, if◌then◌else◌};
ghost use Rattle.mq_world.specs.Answers.{reason, publish_reply};
ghost use Rattle.mq_world.specs.Views.{reply_of, copy_of};

use mq_world::{Answer, Delivery, Outcome};
use std::alloc::Global;

/// An answer without copies.
pub(crate) fn with_reason(alloc: Global, code: u8) -> Answer
    ensures { reply_of result ≡ reason code }
{
    Answer {
        copies: Vec::new(alloc),
        outcome: Outcome::Reason(code),
    }
}

pub(crate) fn reason_to_leave(existed: bool) -> u8
    ensures { result ≡ (if existed then 0 else 17) }
{
    if existed { 0 } else { 17 }
}

// The reason of a publish, by whether a copy is sent and whether one begins to wait.
fn reason_to_publish(sent: bool, waits: bool) -> u8
    ensures { result ≡ (if not sent && not waits then 16 else 0) }
{
    if sent {
        return 0;
    }
    if waits { 0 } else { 16 }
}

pub(crate) fn published(copies: Vec<Delivery>, waits: bool) -> Answer
    ensures { reply_of result ≡ publish_reply (map copy_of copies.items) waits }
{
    let code = reason_to_publish(!copies.is_empty(), waits);
    Answer {
        copies,
        outcome: Outcome::Reason(code),
    }
}
