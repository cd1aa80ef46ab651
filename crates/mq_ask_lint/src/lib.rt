//! The question `lint`: what is odd, faulty or needless in an access list.
#![tactic(auto)]

mod lint;
mod remarks;

pub use lint::{Linted, Remarks, add_lint, find_remarks};
