//! What the command lines of the programs share: arguments in the words of `clap`, and why words are not understood.
#![tactic(auto)]

mod argument;
mod usage;

pub use argument::{Argument, ArgumentKind, described, with_arguments};
pub use usage::UsageFault;
