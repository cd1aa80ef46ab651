//! What answers a line, and its print.
use crate::tests::refused::growth::{refuse, was_refused};
use crate::tests::refused::row::Line;
use crate::tests::refused::trial::Trial;
use mq_cli::{LineFault, print_answer, print_line_fault, print_refusal, read_line};
use mq_router::{Answer, Refusal, Router};
use std::alloc::{AllocError, Global};
use std::process::Abort;

/// What answers a line that is not blank.
pub(crate) struct Reply {
    pub(crate) line: u64,
    /// The router's answer, if the line is a command.
    pub(crate) answer: Result<Result<Answer, Refusal>, LineFault>,
}

// Opaque to callers' proofs: one step, and not one for each field (docs/explanation/gate.md).
impl Drop for Reply {
    fn drop(self) {
        let Reply { line: _, answer: _ } = self;
    }
}

impl Reply {
    /// What answers this line, none if it is blank.
    pub(crate) fn to(alloc: Global, line: Line, router: &mut Router) -> Option<Reply> {
        let (line, text) = line;
        let answer = match read_line(alloc, text.as_bytes()) {
            Ok(None) => return None,
            Ok(Some(command)) => Ok(router.apply(&command)),
            Err(fault) => Err(fault),
        };
        Some(Reply { line, answer })
    }

    pub(crate) fn print(&self, alloc: Global, out: &mut Vec<u8>) -> Result<(), AllocError> {
        match &self.answer {
            Ok(Ok(answer)) => print_answer(alloc, self.line, answer, out),
            Ok(Err(refusal)) => print_refusal(alloc, self.line, refusal, out),
            Err(fault) => print_line_fault(alloc, self.line, fault, out),
        }
    }
}

/// What stands in the text before.
const BEFORE: &[u8] = b"before\n";

fn text_before(rt: &(impl Abort + AllocGlobal)) -> Vec<u8> {
    Vec::from_slice(rt.alloc(), BEFORE).expect(rt, "memory")
}

impl Trial for Reply {
    // Where its print is refused, the text is as before, and the next print adds what it should.
    fn attempt<R: Abort + AllocGlobal>(&self, rt: &R, nth: u32) -> bool {
        let alloc = rt.alloc();
        let mut wanted = text_before(rt);
        self.print(alloc, &mut wanted).expect(rt, "memory");
        let mut out = text_before(rt);
        refuse(alloc, nth);
        let answer = self.print(alloc, &mut out);
        let was_refused = was_refused(alloc);
        if answer.is_err() {
            assert!(rt; was_refused && out.as_slice() == BEFORE);
            self.print(alloc, &mut out).expect(rt, "memory");
        }
        assert!(rt; out.as_slice() == wanted.as_slice());
        was_refused
    }
}
