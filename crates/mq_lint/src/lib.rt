//! What is said of the lines of one access list: what is odd, and which lines it doesn't need.
//!
//! ```text
//! topic read plant/#
//! topic read plant/#           repeats line 1
//! topic read plant/+/state     changes nothing: line 1 allows the same
//! topic deny lab/#             denies nothing that a line grants
//! ```
#![tactic(auto)]

mod blanks;
mod called;
mod case;
mod fault;
mod hidden;
mod lint;
mod linted;
mod maker;
mod needless_lines;
mod question;
mod remark;
mod repeats;
mod same;

pub use fault::NeedlessFault;
pub use lint::remarks;
pub use needless_lines::needless;
pub use remark::{Remark, RemarkKind};
pub use same::same_row;
