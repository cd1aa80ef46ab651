//! The question `why`: which lines of an access list decide whether a client may read and write a topic, of one or of many.
#![tactic(auto)]

mod answers;
mod each;
mod explanation;
mod question;
mod read;
mod why;

pub use answers::Answer;
pub use each::{explain_each, show_each};
pub use question::{AccessQuestion, QuestionKind};
pub use read::{Numbered, read_questions};
pub use why::{Explanation, explain, show_why};
