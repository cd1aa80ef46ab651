//! Topic names, topic filters and subscription texts of MQTT 5, and which filters match which names
//! (MQTT 5.0, sections 4.7 and 4.8.2).
//!
//! A call takes memory only if its result can say that there was none.
#![tactic(auto)]

mod fault;
mod filter;
mod filter_text;
mod level_text;
mod levels;
mod matching;
mod name;
mod subscription;
mod validity;

pub use fault::TopicFault;
pub use filter::TopicFilter;
pub use filter_text::FilterText;
pub use level_text::LevelText;
pub use levels::split_first;
pub use matching::{LevelTest, is_hidden, is_last_hash, levels_match, matches};
pub use name::TopicName;
pub use subscription::SubFilter;
pub use validity::is_plain;
