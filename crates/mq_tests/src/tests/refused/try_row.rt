//! Tries a worked row: its run, and each of its lines, commands and answers.
use crate::tests::refused::calls::Call;
use crate::tests::refused::command::{Apply, answer_around};
use crate::tests::refused::reply::Reply;
use crate::tests::refused::row::{Line, Row};
use crate::tests::refused::trial::{Subject, attempt};
use mq_jsonl::read_line;
use std::process::Abort;

pub(crate) fn try_row(rt: &(impl Abort + AllocGlobal + Print), row: Row) {
    attempt(rt, "run", Subject::Script, &row);
    let lines = row.lines(rt);
    let (once, _) = lines.split_at(lines.len() / 2);
    try_lines(rt, once);
    try_commands(rt, row, lines.as_slice());
    try_answers(rt, row, once);
}

fn try_lines(rt: &(impl Abort + AllocGlobal + Print), lines: &[Line]) {
    for (number, text) in lines {
        let read = Call::ReadLine(text.as_bytes());
        attempt(rt, "read_line", Subject::Line(*number), &read);
    }
}

// The script is gone through twice, so that each command has all others behind it.
fn try_commands(rt: &(impl Abort + AllocGlobal + Print), row: Row, lines: &[Line]) {
    let whole = answer_around(rt, row, lines, &[]);
    assert!(rt; whole.as_slice().starts_with(row.output.as_bytes()));
    for place in 0..lines.len() / 2 {
        let (before, rest) = lines.split_at(place);
        try_command(rt, row, whole.as_slice(), before, rest);
    }
}

// Tries the first of the rest, if it is a command.
fn try_command<'a>(
    rt: &(impl Abort + AllocGlobal + Print),
    row: Row<'a>,
    whole: &'a [u8],
    before: &'a [Line<'a>],
    rest: &'a [Line<'a>],
) {
    let Some((line, after)) = rest.split_first() else {
        return;
    };
    let (number, text) = *line;
    if !matches!(read_line(rt.alloc(), text.as_bytes()), Ok(Some(_))) {
        return;
    }
    let again = Apply {
        row,
        before,
        line: *line,
        after,
        whole,
        next: (rest, whole),
    };
    attempt(rt, "apply (then again)", Subject::Line(number), &again);
    let without = answer_around(rt, row, before, after);
    let on = Apply {
        next: (after, without.as_slice()),
        ..again
    };
    attempt(rt, "apply (then on)", Subject::Line(number), &on);
}

fn try_answers(rt: &(impl Abort + AllocGlobal + Print), row: Row, lines: &[Line]) {
    let mut router = row.router(rt);
    for line in lines {
        if let Some(reply) = Reply::to(rt.alloc(), *line, &mut router) {
            attempt(rt, "print", Subject::Line(reply.line), &reply);
        }
    }
}
