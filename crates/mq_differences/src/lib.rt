//! Where two access lists differ, and which line decides.
//!
//! ```text
//! old list                     new list
//! user ops                     user ops
//! topic read plant/#           topic read plant/+/state
//! ```
//!
//! One difference: user ops loses what line 2 of the old list allows and no line of the new one.
#![tactic(auto)]

mod by_owner;
mod changes;
mod class;
mod decision;
mod difference;
mod fault;
mod gains;
mod group;
mod judges;
mod lists;
mod marks;
mod placeholders;
mod ranks;
mod reason;
mod report;
mod steps;
mod verdict;
mod way;
mod work;

pub use by_owner::ByOwner;
pub use changes::compare;
pub use class::{Class, class_of};
pub use difference::{Difference, same_class, same_direction, same_start};
pub use fault::{ComparisonFault, Side};
pub use group::{Group, gather};
pub use marks::{Marked, same_owner};
pub use placeholders::has_text;
pub use ranks::{is_judge, rank};
pub use reason::Reason;
pub use steps::{Steps, enough_steps};
pub use verdict::{Verdict, why};
pub use way::Way;
pub use work::work_of;
