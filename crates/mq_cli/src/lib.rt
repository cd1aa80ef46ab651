//! The command line of the routing half of an MQTT broker.
//!
//! `start` is all of the program but its streams: `arguments` reads the command line, `read_acl_by`
//! the access list, and the script goes through `run` of `mq_run`. What reads, runs and prints a
//! script is passed on, so that a caller needs no other crate.
#![tactic(auto)]

mod acl_file;
mod command_line;
mod failure;
mod program;

pub use acl_file::{AclFileFault, read_acl, read_acl_by};
pub use command_line::{Options, arguments};
pub use failure::UNREADABLE;
pub use mq_args::UsageFault;
pub use mq_jsonl::{LineFault, print_answer, print_line_fault, print_refusal, read_line};
pub use mq_run::{
    DeviceFault, RunFault, RunOptions, Sink, Source, StdSink, StdSource, Summary, exit_status, run,
    run_with, run_within,
};
pub use program::start;
