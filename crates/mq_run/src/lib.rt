//! The run of a script, and the devices that it reads from and writes to.
//!
//! A script goes through `run` line by line: `mq_jsonl` makes a command of a line, the router answers it,
//! and a `Printer` makes the text that is written before the next command is applied. `exit_status` makes
//! the status of what `run` answered.
#![tactic(auto)]

mod answer;
mod devices;
mod outcome;
mod progress;
mod runner;
mod write;

pub use devices::{DeviceFault, Sink, Source, StdSink, StdSource};
pub use outcome::{RUN_FAILED, RunFault, Summary, exit_status};
pub use runner::{RunOptions, run, run_unbuffered, run_with, run_within};
pub use write::{flush, write_all};
