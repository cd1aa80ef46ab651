//! What a publish lets wait. It stands alone: a struct with a ghost field imports every `ghost use` of its file.
ghost use Rattle.std.specs.Prelude.{◌≡◌, length};

use crate::sessions::session::Waiting;
use std::collections::LinkedList;
use std::rc::RcStr;

/// A copy that begins to wait, in a list of its own: that can join those that wait without memory.
#[derive(Drop)]
pub struct QueuedCopy {
    pub client: RcStr,
    pub copies: LinkedList<Waiting>,
    ghost one: { length copies ≡ 1 },
}
