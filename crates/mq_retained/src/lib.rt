//! The retained messages: by topic, with an index of their deadlines.
//!
//! A call takes memory only if its result can say that there was none.
#![tactic(auto)]

mod retained;

pub use retained::{Receiver, Retained};
