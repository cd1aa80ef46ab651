//! A command in the middle of its script.
use crate::tests::refused::growth::{refuse, was_refused};
use crate::tests::refused::reply::Reply;
use crate::tests::refused::row::{Line, Row};
use crate::tests::refused::trial::Trial;
use mq_jsonl::read_line;
use mq_router::{Answer, Command, Outcome, Refusal, Router};
use std::process::Abort;

// Answers these lines, and adds what is written for them.
fn answer_all(
    rt: &(impl Abort + AllocGlobal),
    lines: &[Line],
    router: &mut Router,
    out: &mut Vec<u8>,
) {
    for line in lines {
        if let Some(reply) = Reply::to(rt.alloc(), *line, router) {
            reply.print(rt.alloc(), out).expect(rt, "memory");
        }
    }
}

/// What the row's router answers to the lines before and after one that is left out.
pub(crate) fn answer_around(
    rt: &(impl Abort + AllocGlobal),
    row: Row,
    before: &[Line],
    after: &[Line],
) -> Vec<u8> {
    let mut router = row.router(rt);
    let mut out = Vec::new(rt.alloc());
    answer_all(rt, before, &mut router, &mut out);
    answer_all(rt, after, &mut router, &mut out);
    out
}

// The numbers of nodes, retained messages and subscriptions.
fn counts(rt: &(impl Abort + AllocGlobal), router: &mut Router) -> Outcome {
    let answer = router.apply(&Command::Stat);
    answer.expect(rt, "a stat").outcome
}

// Whether a command meets no growth, whatever it is answered.
fn takes_no_memory(command: &Command) -> bool {
    matches!(
        command,
        Command::Disconnect { .. }
            | Command::Unsubscribe { .. }
            | Command::Advance { .. }
            | Command::Stat
    )
}

// Applies a line's command while its nth growth is refused, and answers whether one was, and what the router answers.
fn apply_refused(
    rt: &(impl Abort + AllocGlobal),
    nth: u32,
    text: &str,
    router: &mut Router,
) -> (bool, Result<Answer, Refusal>) {
    let read = read_line(rt.alloc(), text.as_bytes());
    let command = read.expect(rt, "a line").expect(rt, "a command");
    refuse(rt.alloc(), nth);
    let answer = router.apply(&command);
    let was_refused = was_refused(rt.alloc());
    assert!(rt; !was_refused || !takes_no_memory(&command));
    (was_refused, answer)
}

// Answers a line while its nth growth is refused, and answers whether a growth was, and whether
// memory ran out. Else what it answers is written.
fn answer_refused(
    rt: &(impl Abort + AllocGlobal),
    nth: u32,
    line: Line,
    router: &mut Router,
    out: &mut Vec<u8>,
) -> (bool, bool) {
    let (line, text) = line;
    let before = counts(rt, router);
    let (was_refused, answer) = apply_refused(rt, nth, text, router);
    if matches!(answer, Err(Refusal::Memory)) {
        assert!(rt; was_refused && counts(rt, router) == before);
        return (was_refused, true);
    }
    let answer = Ok(answer);
    let reply = Reply { line, answer };
    reply.print(rt.alloc(), out).expect(rt, "memory");
    (was_refused, false)
}

/// A command, between the lines before and after it.
#[derive(Clone, Copy)]
pub(crate) struct Apply<'a> {
    pub(crate) row: Row<'a>,
    pub(crate) before: &'a [Line<'a>],
    pub(crate) line: Line<'a>,
    pub(crate) after: &'a [Line<'a>],
    /// What is written for all lines.
    pub(crate) whole: &'a [u8],
    /// The lines that come next where it was refused, and what is written for them and those before.
    pub(crate) next: (&'a [Line<'a>], &'a [u8]),
}

impl<'a> Trial for Apply<'a> {
    // Where it is refused, all that follows is answered as in a script without the command, or, if it comes again, as if
    // nothing had happened.
    fn attempt<R: Abort + AllocGlobal>(&self, rt: &R, nth: u32) -> bool {
        let mut router = self.row.router(rt);
        let mut out = Vec::new(rt.alloc());
        answer_all(rt, self.before, &mut router, &mut out);
        let (was_refused, is_memory) = answer_refused(rt, nth, self.line, &mut router, &mut out);
        let (rest, wanted) = if is_memory {
            self.next
        } else {
            (self.after, self.whole)
        };
        answer_all(rt, rest, &mut router, &mut out);
        assert!(rt; out.as_slice() == wanted);
        was_refused
    }
}
