//! A worked row: a script, with what must be written for it.
use mq_acl::{Acl, Rules};
use mq_router::{Limits, Router};
use std::process::Abort;

/// The number of a line of a script, and its text.
pub(crate) type Line<'a> = (u64, &'a str);

/// A script, what the router begins with, and what must be written.
#[derive(Clone, Copy)]
pub(crate) struct Row<'a> {
    /// The text of the access list, which has no fault.
    pub(crate) acl: Option<&'a str>,
    pub(crate) rules: Rules,
    pub(crate) limits: Limits,
    pub(crate) script: &'a str,
    pub(crate) output: &'a str,
}

impl<'a> Row<'a> {
    /// The router that the script begins with.
    pub(crate) fn router(self, rt: &(impl Abort + AllocGlobal)) -> Router {
        let alloc = rt.alloc();
        let acl = self.acl.map(|text| Acl::read_by(alloc, self.rules, text).expect(
            rt,
            "an access list",
        ));
        Router::with_limits(alloc, acl, self.limits).with_rules(self.rules)
    }

    /// The lines of the script, twice over: so each has all others behind it.
    pub(crate) fn lines(self, rt: &(impl Abort + AllocGlobal)) -> Vec<Line<'a>> {
        let mut lines = Vec::new(rt.alloc());
        for _ in 0..2 {
            for text in self.script.split_terminator('\n') {
                let number = lines.len() as u64 + 1;
                lines.push((number, text)).expect(rt, "memory");
            }
        }
        lines
    }
}
