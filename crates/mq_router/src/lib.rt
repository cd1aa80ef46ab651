//! The router: sessions, subscriptions, access, delivery and retained messages of MQTT 5, as one
//! call that answers a command at a time.
//!
//! A call takes memory only if its result can say that there was none.
#![tactic(auto)]

mod delivery;
mod replies;
mod router;
mod texts;

pub use mq_world::{Answer, Command, Delivery, Limits, Outcome, Refusal};
pub use router::Router;
