//! Access lists in one region of topics: of an old list and of a new one that asks about the new names, ordinary rows
//! that decide about each topic as the list does (the rules are our own).
#![tactic(auto)]

mod carry;
mod fill;
mod limit;
mod list;
mod region;
mod side;
mod text;
mod version;

pub use list::{new_rows, old_rows};
pub use region::{Region, RegionKind};
