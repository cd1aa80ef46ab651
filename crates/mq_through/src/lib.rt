//! Compares two access lists through a plan of new topic names: does the new list allow the new name of a topic exactly
//! where the old one allows the topic (the rules are our own)?
#![tactic(auto)]

mod check;
mod clients;
mod comparison;
mod fault;
mod fresh;
mod idle;
mod like;
mod lists;
mod made;
mod named;
mod needed;
mod parts;
mod placeholders;
mod renamed;
mod spares;
mod through;
mod tried;

pub use fault::ThroughFault;
pub use renamed::Renamed;
pub use through::compare_through;
