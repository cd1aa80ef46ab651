//! The subscriptions of a script, and which of them can receive nothing: whose client may read no
//! topic that the filter matches, under none of the user names that its session has while it keeps
//! them. What a client may read is decided by our own rules, or by mosquitto's.
#![tactic(auto)]

mod connections;
mod counts;
mod fault;
mod filled;
mod granted;
mod log;
mod overlaps;
mod patterns;
mod question;
mod reach;
mod reading;
mod search;
mod subscription;
mod tracked;

pub use counts::Counts;
pub use fault::ReachFault;
pub use log::begins_as_log;
pub use question::SearchFault;
pub use reach::Reach;
pub use reading::{ScriptFault, find_unreached};
pub use search::Findings;
pub use subscription::Subscription;
