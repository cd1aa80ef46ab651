//! The program. All but the streams stands in `mq_cli`.
#![tactic(auto)]

use mq_cli::{UNREADABLE, start};
use mq_run::{RUN_FAILED, StdSink, StdSource};
use std::env;
use std::io::{self, BufWriter, ErrorKind, IsTerminal, Write};
use std::process::ExitCode;

/// How many bytes of answers are gathered for a write.
const BUFFER: usize = 65_536;

const NO_TEXT: &str = "mqroute: an argument is not UTF-8\n";

const WRITE_FAULT: &str = "mqroute: write fault\n";

const OUT_OF_MEMORY: &str = "mqroute: out of memory\n";

fn main(rt: HostRuntime) -> ExitCode {
    ExitCode::from(match answered(&rt) {
        Ok(status) => status,
        Err(_) => complain(&rt, OUT_OF_MEMORY, RUN_FAILED),
    })
}

// Reads the arguments, and runs the program. It fails for lack of memory alone.
fn answered(rt: &HostRuntime) -> io::Result<u8> {
    match words(rt) {
        Ok(words) => run(rt, words.as_slice()),
        Err(e) if e.kind() == ErrorKind::InvalidData => Ok(complain(rt, NO_TEXT, UNREADABLE)),
        Err(e) => Err(e),
    }
}

// The program's name and its arguments. One that is not UTF-8 is invalid data.
fn words(rt: &HostRuntime) -> io::Result<Vec<String>> {
    let mut words = Vec::new(rt.alloc());
    for word in env::args(rt)? {
        words.push(word)?;
    }
    Ok(words)
}

// Whoever looks on sees each line's answers at once.
fn room(rt: &HostRuntime) -> usize {
    if rt.stdout().is_terminal() { 0 } else { BUFFER }
}

// Runs the program, and then writes what is still gathered, whatever its status is: the answers
// before a fault are shown.
fn run(rt: &HostRuntime, words: &[String]) -> io::Result<u8> {
    let mut input = StdSource::new(rt.stdin());
    let mut out = StdSink::new(BufWriter::with_capacity(rt.alloc(), room(rt), rt.stdout())?);
    let mut err = StdSink::new(rt.stderr());
    let status = start(rt, rt.alloc(), words, &mut input, &mut out, &mut err);
    let mut gathered = out.into_inner();
    if gathered.flush().is_err() && status < RUN_FAILED {
        return Ok(complain(rt, WRITE_FAULT, RUN_FAILED));
    }
    Ok(status)
}

// Says why the program fails, and answers its status. A failed write on standard error is ignored.
fn complain(rt: &HostRuntime, text: &str, status: u8) -> u8 {
    let _ = rt.stderr().write_all(text.as_bytes());
    status
}
