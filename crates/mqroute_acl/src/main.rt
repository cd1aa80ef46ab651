//! The program. All but the streams stands in `program.rt`, and what is asked of it in `mq_acl_args`.
#![tactic(auto)]

mod files;
mod lint;
mod list_file;
mod plan;
mod program;
mod reach;
mod report;
mod test;
mod traffic;

use crate::program::start;
use mq_ask::{FAILED, UNREADABLE};
use std::env::{self, VarError};
use std::io::{self, ErrorKind, IsTerminal, Write};
use std::process::ExitCode;

const NO_TEXT: &str = "mqroute-acl: an argument is not UTF-8\n";

const OUT_OF_MEMORY: &str = "mqroute-acl: out of memory\n";

fn main(rt: HostRuntime) -> ExitCode {
    ExitCode::from(match words(&rt) {
        Ok(words) => run(&rt, words.as_slice()),
        Err(e) if e.kind() == ErrorKind::InvalidData => complain(&rt, NO_TEXT, UNREADABLE),
        Err(_) => complain(&rt, OUT_OF_MEMORY, FAILED),
    })
}

// The program's name and its arguments. One that is not UTF-8 is invalid data.
fn words(rt: &HostRuntime) -> io::Result<Vec<String>> {
    let mut words = Vec::new(rt.alloc());
    for word in env::args(rt)? {
        words.push(word)?;
    }
    Ok(words)
}

// Whether a variable of the environment is set, and not empty. One that is not a text is.
fn is_set(rt: &HostRuntime, name: &str) -> bool {
    match env::var(rt, name) {
        Ok(value) => !value.is_empty(),
        Err(VarError::NotPresent) => false,
        Err(_) => true,
    }
}

// Whether answers have colours: on a terminal, unless NO_COLOR is set (no-color.org).
fn is_coloured(rt: &HostRuntime) -> bool {
    rt.stdout().is_terminal() && !is_set(rt, "NO_COLOR")
}

fn run(rt: &HostRuntime, words: &[String]) -> u8 {
    let coloured = is_coloured(rt);
    let mut input = rt.stdin();
    let mut out = rt.stdout();
    let mut err = rt.stderr();
    start(
        rt,
        rt.alloc(),
        words,
        coloured,
        &mut input,
        &mut out,
        &mut err,
    )
}

// Says why the program fails, and answers its status. A failed write on standard error is ignored.
fn complain(rt: &HostRuntime, text: &str, status: u8) -> u8 {
    let _ = rt.stderr().write_all(text.as_bytes());
    status
}
