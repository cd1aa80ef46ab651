//! Who may read or write the topics that a filter matches.
#![tactic(auto)]

mod extent;
mod fault;
mod judge;
mod made;
mod permissions;

pub use extent::Extent;
pub use fault::WhoFault;
pub use judge::{Judgement, judge_claim};
pub use permissions::{Permissions, who_may};
