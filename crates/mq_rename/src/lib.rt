//! Topics that are renamed by a rule: the filter that two filters have in common, new names, and back from a filter of
//! new names to one of the names that get them (MQTT 5.0, sections 4.7.1 and 4.7.2; the rules are our own).
//!
//! By `plant/+hall/energy -> site/+hall/meters/energy`:
//!
//! - the new name of `plant/hall-1/energy` is `site/hall-1/meters/energy`; `plant/x/door` has none;
//! - what has a new name that `site/+/meters/#` matches is what `plant/+/energy` matches;
//! - of `plant/hall-1/#` it renames what `plant/hall-1/energy` matches.
#![tactic(auto)]

mod binding;
mod fault;
mod joining;
mod meeting;
mod naming;
mod parts;
mod rename;

pub use fault::MeetFault;
pub use meeting::meet;
pub use rename::Rename;
