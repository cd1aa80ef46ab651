//! The question `compare --plan`: what changes between two access lists through a plan of topic names.
#![tactic(auto)]

mod compared;
mod fault;
mod find;
mod names;
mod objects;
mod scope;
mod table;
mod text;
mod through;
mod words;

pub use fault::PlanAnswerFault;
pub use find::{RenamedChanges, find_renamed};
pub use through::{PlanTexts, show_through};
