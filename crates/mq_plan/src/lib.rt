//! Plans of a change of topic names: what a plan's text says, and the new name that it gives a topic (the rules are our
//! own).
#![tactic(auto)]

mod check;
mod fault;
mod level;
mod line;
mod pair;
mod places;
mod plan;
mod read;
mod rule;
mod side;

pub use fault::{PlanFault, PlanKind, Side};
pub use line::{Entry, entry_of};
pub use plan::Plan;
pub use rule::{Act, PlanRule};
