//! The question `reach`: whether subscriptions of a client, or of a script, can be sent anything.
#![tactic(auto)]

mod reach;
mod script;
mod short_topic;
mod subscriptions;
mod topic;

pub use reach::{find_topic, show_reach};
pub use script::{find_subscriptions, show_subscriptions};
