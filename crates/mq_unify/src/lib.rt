//! The most general client: where all of some filters of `pattern` lines are to match one topic, the client id of so many
//! levels, and the user name, that they demand, with levels that no row names where they demand nothing. If any client with as
//! many levels has a topic that these rows cover and others don't, so has this one.
//!
//! `+/%c/#` and `%c/secret/#` of a client id of one level: `secret`. `dev/%c` and `dev/+/+` of one of two levels: any two.
#![tactic(auto)]

mod binding;
mod general;
mod lengths;
mod rows;
mod shape;
mod term;
mod terms;
mod unify;

pub use general::{General, most_general};
pub use shape::{ClientShape, UserShape};
