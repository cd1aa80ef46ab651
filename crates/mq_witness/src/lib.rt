//! The search that questions to access lists stand on: is there a client id, a user name of some kind and a topic
//! name that each of some rows concerns and none of some others does?
#![tactic(auto)]

mod asked;
mod fault;
mod fresh;
mod ids;
mod limits;
mod literals;
mod names;
mod one;
mod overlap;
mod patterns;
mod pose;
mod question;
mod roots;
mod ruled_search;
mod ruled_texts;
mod search;
mod texts;
mod topics;
mod witness;

pub use asked::Asked;
pub use fault::{LimitFault, ListFault};
pub use limits::{has_short_levels, long_line};
pub use mq_shapes::Clients;
pub use patterns::{has_pattern, is_pattern};
pub use roots::{begins_with_mark, may_overlap};
pub use topics::Topics;
pub use witness::Witness;
