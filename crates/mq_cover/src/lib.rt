//! A walk down the levels of topic names, for one client id and user name: is there a name that each of some filters
//! covers and none of some others does? At each place one level is as good as any, so it goes straight down.
//!
//! Each of `plant/#` and `+/+/door` and none of `plant/hall-1/#`: `plant/x/door`, with any other
//! level for `x`. Each of `plant/#` and none of `plant`, `plant/+/#`: there is none.
#![tactic(auto)]

mod choice;
mod ends;
mod found;
mod left;
mod marks;
mod others;
mod path;
mod remainder;
mod start;

pub use found::find;
pub use marks::Marks;
pub use others::Others;
pub use path::Path;
pub use remainder::Remainder;
pub use start::Start;
