//! The question `compare`: where two access lists differ.
#![tactic(auto)]

mod changes;
mod compare;

pub use compare::{Changes, find_changes, show_changes};
