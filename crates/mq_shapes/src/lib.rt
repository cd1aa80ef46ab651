//! By mosquitto's rules, of every client id and every user name: is there a client, with a topic that each of some rows concerns
//! and none of some others does? An id is asked about by how many levels it has; of each number the most general one, with its
//! texts in the rows; and ids and user names with `+` or `#`, for which no `pattern` row is asked, once more.
//!
//! `dev/%c/#` and not `dev/+`: `dev/x1/x2` of the client `x1/x2`.
#![tactic(auto)]

mod clients;
mod covered;
mod every;
mod few;
mod filled;
mod found;
mod odd;
mod prefix;
mod ruled;
mod total;

pub use clients::Clients;
pub use every::Search;
pub use found::{Found, Shaped};
pub use prefix::Prefixes;
pub use ruled::Ruled;
