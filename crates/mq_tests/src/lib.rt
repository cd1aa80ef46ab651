//! Tests alone: what no contract says of calls of topics, access lists, the level tree and the router, and of runs over
//! devices that give and take little, and fail.
#![tactic(auto)]

#[cfg(test)]
mod tests;
