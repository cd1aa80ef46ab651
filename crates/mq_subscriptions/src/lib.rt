//! The subscriptions of all clients, by filter with the groups, and by client.
//!
//! A call takes memory only if its result can say that there was none.
#![tactic(auto)]

mod subscriptions;

pub use subscriptions::Subscriptions;
pub use subscriptions::client_test::ClientTest;
pub use subscriptions::filter_entry::FilterEntry;
pub use subscriptions::matches::{Match, sort_by_client};
pub use subscriptions::turn::{Turn, sort_by_share};
