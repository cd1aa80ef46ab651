//! The run of a script.
use crate::tests::devices::{Page, Script};
use crate::tests::refused::growth::{refuse, was_refused};
use crate::tests::refused::row::Row;
use crate::tests::refused::trial::Trial;
use crate::tests::runs::{answers_to, line_feeds};
use mq_cli::{RunFault, run};
use std::process::Abort;

impl<'a> Row<'a> {
    // How many bytes answer the lines before the one of which the last of these bytes of the script is.
    fn bytes_before(self, given: usize) -> usize {
        let front = self.script.as_bytes().get(..given.saturating_sub(1));
        answers_to(self.output, line_feeds(front.unwrap_or(b"")))
    }
}

impl<'a> Trial for Row<'a> {
    // What its run writes is the output or, for lack of memory, the answers to all lines before the one that met it: the
    // last one that a reader of one byte a call has begun to give.
    fn attempt<R: Abort + AllocGlobal>(&self, rt: &R, nth: u32) -> bool {
        let router = self.router(rt);
        let mut reader = Script::new(self.script.as_bytes(), 1);
        let mut writer = Page::new(self.output.as_bytes(), 100);
        refuse(rt.alloc(), nth);
        let answer = run(rt.alloc(), router, &mut reader, &mut writer);
        let was_refused = was_refused(rt.alloc());
        let wanted = match answer {
            Ok(_) => self.output.len(),
            Err(fault) => {
                assert!(rt; was_refused && fault == RunFault::Memory);
                self.bytes_before(reader.given)
            }
        };
        assert!(rt; writer.seen().0 == Some(wanted));
        was_refused
    }
}
