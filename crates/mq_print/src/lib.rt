//! What answers are printed with: JSON objects, columns, lines of files, and texts in which nothing acts
//! on a terminal.
#![tactic(auto)]

mod escape;
mod json;
mod lines;
mod list;
mod table;

pub use escape::{Escape, shown_lines, shown_name};
pub use json::{Datum, Exception, add_object};
pub use lines::add_line;
pub use list::{Line, Lines, ListText, lines_of};
pub use table::{add_cell, widened};
