//! A tree of values by topic levels (MQTT 5.0, section 4.7): each node has a level of its own, so that look-ups
//! by a topic name or a topic filter walk matching nodes alone.
//!
//! A call takes memory only if its result can say that there was none.
#![tactic(auto)]

mod counted;
mod lookup;
mod tree;

pub use counted::Counted;
pub use tree::LevelTree;
pub use tree::steps::Steps;
