//! The question `who`: who may read or write the topics that a filter matches; and that of `reach --any`,
//! whether any client of a user may read them.
#![tactic(auto)]

mod any_client;
mod permission_rows;
mod permissions;
mod reach_any;
mod refusals;
mod who;

pub use reach_any::{find_any, show_reach_any};
pub use who::{find_permissions, show_who};
