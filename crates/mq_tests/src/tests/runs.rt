//! Runs over readers and writers that fail at each of their calls in turn, and scripts cut at each byte.
use crate::tests::devices::{Page, Script, Spaces, Trouble};
use crate::tests::scripts::{FIRST_LOOK, REFUSALS};
use mq_cli::{RunFault, Summary, exit_status, run, run_within};
use mq_router::Router;
use mq_run::run_unbuffered;
use std::alloc::{AllocError, Global};
use std::process::Abort;

// The scripts that are tried, each with its answers.
fn scripts() -> [(&'static str, &'static str); 2] {
    [
        (FIRST_LOOK.script, FIRST_LOOK.output),
        (REFUSALS.script, REFUSALS.output),
    ]
}

fn ended(alloc: Global, reader: &mut Script, writer: &mut Page) -> Result<Summary, RunFault> {
    run(alloc, Router::new(alloc), reader, writer)
}

// How many lines a run reads by so many bytes a call, if it writes what is wanted, and flushes it once, at its end.
fn lines_answered(alloc: Global, script: &[u8], wanted: &[u8], most: usize) -> Option<u64> {
    let mut writer = Page::new(wanted, most);
    let all = wanted.len();
    match ended(alloc, &mut Script::new(script, most), &mut writer) {
        Ok(summary) if writer.seen() == (Some(all), 1, all) => Some(summary.lines),
        _ => None,
    }
}

// The run fails so, when so many bytes are written, as wanted. None is flushed.
fn assert_fails(
    rt: &(impl Abort + AllocGlobal),
    reader: &mut Script,
    writer: &mut Page,
    fault: RunFault,
    taken: usize,
) {
    let result = ended(rt.alloc(), reader, writer);
    assert!(rt; result == Err(fault) && exit_status(&result) == 3);
    assert!(rt; writer.seen() == (Some(taken), 0, 0));
}

// The number of the script's line that a line of the output answers.
fn line_answered(text: &str) -> Option<usize> {
    let (_, rest) = text.split_once("\"line\":")?;
    let (number, _) = rest.split_once([',', '}'])?;
    number.parse().ok()
}

/// How many bytes answer the first lines.
pub(crate) fn answers_to(output: &str, lines: usize) -> usize {
    let mut bytes: usize = 0;
    for text in output.lines() {
        if line_answered(text).is_some_and(|number| number <= lines) {
            bytes = bytes.saturating_add(text.len()).saturating_add(1);
        }
    }
    bytes
}

pub(crate) fn line_feeds(bytes: &[u8]) -> usize {
    bytes.iter().filter(|byte| **byte == b'\n').count()
}

#[test]
fn one_byte_a_call(rt: HostRuntime) {
    for (script, output) in scripts() {
        let lines = lines_answered(rt.alloc(), script.as_bytes(), output.as_bytes(), 1);
        let wanted = line_feeds(script.as_bytes()) as u64;
        assert!(rt; lines == Some(wanted) && !output.is_empty());
    }
}

#[test]
fn flush_after_a_last_piece(rt: HostRuntime) {
    for (script, output) in scripts() {
        let cut = &script.as_bytes()[..script.len().saturating_sub(1)];
        let lines = lines_answered(rt.alloc(), cut, output.as_bytes(), 100);
        assert!(rt; lines.is_some());
    }
}

// The script is written so, has so many lines, and none is refused.
fn assert_answered(rt: &(impl Abort + AllocGlobal), script: &str, output: &str, lines: u64) {
    let mut writer = Page::new(output.as_bytes(), 100);
    let result = ended(
        rt.alloc(),
        &mut Script::new(script.as_bytes(), 100),
        &mut writer,
    );
    assert!(rt; result == Ok(Summary { lines, refused: 0 }) && exit_status(&result) == 0);
    assert!(rt; writer.seen() == (Some(output.len()), 1, output.len()));
}

#[test]
fn blank_lines_are_counted(rt: HostRuntime) {
    assert_answered(&rt, "", "", 0);
    assert_answered(&rt, "\n \n\r\n", "", 3);
    let last = "\n\n{\"do\":\"connect\",\"client\":\"a\"}";
    assert_answered(&rt, last, "{\"line\":3,\"reason\":0}\n", 3);
}

#[test]
fn flushes_of_an_unbuffered_run(rt: HostRuntime) {
    let alloc = rt.alloc();
    let (script, output) = (FIRST_LOOK.script.as_bytes(), FIRST_LOOK.output);
    let mut writer = Page::new(output.as_bytes(), 100);
    let mut reader = Script::new(script, 100);
    let result = run_unbuffered(alloc, Router::new(alloc), &mut reader, &mut writer);
    assert!(rt; result.is_ok());
    // One comes before each read, of which the last gives nothing, and one at the end.
    let flushes = script.len().div_ceil(100).saturating_add(2);
    assert!(rt; writer.seen() == (Some(output.len()), flushes, output.len()));
}

const CONNECT: &str = "{\"do\":\"connect\",\"client\":\"a\"}\n";

const ANSWER: &str = "{\"line\":1,\"reason\":0}\n";

// The first two calls of 20 bytes give the line and the front of another.
#[test]
fn a_reader_that_fails_within_a_line(rt: HostRuntime) {
    let script = "{\"do\":\"connect\",\"client\":\"a\"}\n{\"do\":";
    let mut reader = Script::failing(script.as_bytes(), 20, 2);
    let mut writer = Page::new(ANSWER.as_bytes(), 100);
    assert_fails(&rt, &mut reader, &mut writer, RunFault::Read, ANSWER.len());
}

#[test]
fn a_writer_that_fails_after_ten_bytes(rt: HostRuntime) {
    let mut reader = Script::new(CONNECT.as_bytes(), 100);
    let mut writer = Page::failing(ANSWER.as_bytes(), 10, Trouble::Write, 1);
    assert_fails(&rt, &mut reader, &mut writer, RunFault::Write, 10);
}

// The reader fails after so many calls: the lines that it has given whole are answered.
fn trouble_at_a_read(
    rt: &(impl Abort + AllocGlobal),
    script: &str,
    output: &str,
    most: usize,
    calls: usize,
) {
    let given = script.len().min(most.saturating_mul(calls));
    let lines = line_feeds(&script.as_bytes()[..given]);
    let mut reader = Script::failing(script.as_bytes(), most, calls);
    let mut writer = Page::new(output.as_bytes(), 100);
    let taken = answers_to(output, lines);
    assert_fails(rt, &mut reader, &mut writer, RunFault::Read, taken);
    assert!(rt; reader.given == given, "{most} {calls}");
}

#[test]
fn a_reader_that_fails_at_each_call(rt: HostRuntime) {
    for (script, output) in scripts() {
        for most in [1, 7, 100] {
            for calls in 0..=script.len().div_ceil(most) {
                trouble_at_a_read(&rt, script, output, most, calls);
            }
        }
    }
}

// Each call of the writer in turn is in trouble: what came before it is written, byte by byte.
fn trouble_at_each_call(rt: &(impl Abort + AllocGlobal), trouble: Trouble) {
    for (script, output) in scripts() {
        for calls in 0..output.len() {
            let mut reader = Script::new(script.as_bytes(), 100);
            let mut writer = Page::failing(output.as_bytes(), 1, trouble, calls);
            assert_fails(rt, &mut reader, &mut writer, RunFault::Write, calls);
        }
    }
}

#[test]
fn a_writer_that_fails_at_each_call(rt: HostRuntime) {
    trouble_at_each_call(&rt, Trouble::Write);
}

#[test]
fn a_writer_that_takes_nothing_at_each_call(rt: HostRuntime) {
    trouble_at_each_call(&rt, Trouble::Stall);
}

#[test]
fn a_flush_that_fails(rt: HostRuntime) {
    for (script, output) in scripts() {
        let mut reader = Script::new(script.as_bytes(), 100);
        let mut writer = Page::failing(output.as_bytes(), 100, Trouble::Flush, 0);
        assert_fails(&rt, &mut reader, &mut writer, RunFault::Write, output.len());
    }
}

#[test]
fn spaces_without_end(rt: HostRuntime) {
    let alloc = rt.alloc();
    let mut writer = Page::new(b"", 100);
    let result = run_within(alloc, Router::new(alloc), &mut Spaces, &mut writer, 100_000);
    assert!(rt; result == Err(RunFault::TooMuch));
    assert!(rt; writer.seen() == (Some(0), 0, 0));
}

// What a run within a limit answers, and how many bytes it writes, if they answer two connects.
fn limited(
    alloc: Global,
    script: &str,
    most: usize,
    limit: u64,
) -> (Result<Summary, RunFault>, Option<usize>) {
    let output = "{\"line\":1,\"reason\":0}\n{\"line\":2,\"reason\":0}\n";
    let mut reader = Script::new(script.as_bytes(), most);
    let mut writer = Page::new(output.as_bytes(), most);
    let result = run_within(alloc, Router::new(alloc), &mut reader, &mut writer, limit);
    (result, writer.seen().0)
}

fn accepted(lines: u64) -> Result<Summary, RunFault> {
    Ok(Summary { lines, refused: 0 })
}

#[test]
fn limits_in_bytes(rt: HostRuntime) {
    let connects = "{\"do\":\"connect\",\"client\":\"a\"}\n{\"do\":\"connect\",\"client\":\"a\"}\n";
    let cases = [
        (connects, 60, accepted(2), 44),
        (connects, 59, Err(RunFault::TooMuch), 22),
        (connects, 30, Err(RunFault::TooMuch), 22),
        (connects, 29, Err(RunFault::TooMuch), 0),
        (connects, 0, Err(RunFault::TooMuch), 0),
        ("", 0, accepted(0), 0),
    ];
    for (script, limit, result, taken) in cases {
        for most in [1, 7, 100] {
            let found = limited(rt.alloc(), script, most, limit);
            assert!(rt; found == (result, Some(taken)), "{most} {limit}");
        }
    }
}

// The answers to the front of a script: a last piece that is not a whole line is not JSON.
fn answers_to_front(
    alloc: Global,
    script: &str,
    output: &str,
    bytes: usize,
) -> Result<String, AllocError> {
    let front = &script.as_bytes()[..bytes.min(script.len())];
    let lines = line_feeds(front);
    let next = lines.saturating_add(1);
    let ends = script.as_bytes().get(bytes) == Some(&b'\n');
    let begins = front.last().is_some_and(|byte| *byte != b'\n');
    let whole = answers_to(output, if ends { next } else { lines });
    let answers = output.get(..whole).unwrap_or("");
    if ends || !begins {
        return String::from_str(alloc, answers);
    }
    format!(in alloc; "{answers}{{\"code\":2,\"line\":{next},\"refused\":\"BadJson\"}}\n")
}

#[test]
fn a_script_cut_at_each_byte(rt: HostRuntime) {
    for (script, output) in scripts() {
        for bytes in 0..=script.len() {
            let front = &script.as_bytes()[..bytes.min(script.len())];
            let wanted = answers_to_front(rt.alloc(), script, output, bytes);
            let wanted = wanted.expect(&rt, "memory");
            let lines = lines_answered(rt.alloc(), front, wanted.as_bytes(), 100);
            assert!(rt; lines.is_some(), "{bytes}");
        }
    }
}
