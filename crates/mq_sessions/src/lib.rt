//! The clients of a broker: their sessions, and the copies that wait for those that are away.
//!
//! A call takes memory only if its result can say that there was none.
#![tactic(auto)]

mod sessions;

pub use sessions::finder::SessionFinder;
pub use sessions::queue::queued_copy;
pub use sessions::queued::QueuedCopy;
pub use sessions::session::{Fate, Presence, Session, Waiting};
pub use sessions::{Client, Sessions};
