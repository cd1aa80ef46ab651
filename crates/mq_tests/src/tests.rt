//! Calls of the crates below the command line.

mod access;
mod devices;
mod example;
mod refused;
mod runs;
mod scripts;
mod streams;
mod topics;
mod tree;
