//! The question `test`: whether access lists are as a file of expectations says.
#![tactic(auto)]

mod asked;
mod bound;
mod case;
mod fault;
mod files;
mod finding;
mod junit;
mod list;
mod objects;
mod said;
mod test;
mod text;
mod verdicts;
mod words;
mod xml;

pub use asked::Asked;
pub use fault::TestFault;
pub use files::wanted_files;
pub use finding::Finding;
pub use list::{ReadList, read_list};
pub use test::{Tested, test_lists};
pub use verdicts::{Verdict, all_hold, holding, judge_all};
