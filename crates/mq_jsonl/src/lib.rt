//! The lines of a script, and the lines that answer them.
//!
//! A `LineFeeder` makes lines of a script, and `read_line` makes a command of one. `print_answer`,
//! `print_refusal` and `print_line_fault` make the text that answers one; a `Printer` adds the same
//! text line after line, and uses its objects again.
#![tactic(auto)]

mod alike;
mod copies;
mod fault;
mod fields;
mod line_buffer;
mod line_feeder;
mod object;
mod printed;
mod printer;
mod read;
mod snippets;
mod texts;

pub use fault::LineFault;
pub use line_feeder::{LineFeeder, PIECE, SCRIPT_LIMIT};
pub use printer::{Printer, print_answer, print_line_fault, print_refusal};
pub use read::{LINE_LIMIT, read_line};
