//! The topics that the publishes of a script are to, with how many are to each.
#![tactic(auto)]

mod pattern;
mod publishes;
mod reading;
mod traffic;

pub use pattern::{Marks, TopicPattern};
pub use publishes::Publishes;
pub use reading::{TrafficFault, read_traffic};
pub use traffic::Traffic;
