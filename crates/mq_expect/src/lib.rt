//! Files of expectations of access lists: what a line says.
#![tactic(auto)]

mod entry;
mod excepted;
mod expectation;
mod fault;
mod read;

pub use expectation::{Claim, Expectation, Holds, Numbered, Whom};
pub use fault::ExpectationKind;
pub use read::read_expectations;
