//! The lines that answer a line. Their objects are used again from line to line.
//!
//! ```text
//! {"client":"a","line":3,"payload":"x","qos":1,"retain":false,"topic":"a"}   a copy
//! {"line":3,"reason":0}                                                      the closing line
//! {"code":11,"line":4,"refused":"NotAuthorized"}                             a refusal
//! ```
ghost use Rattle.std.specs.Prelude.{◌≡◌, ◌++◌, ℕ, List, Bool, false, is_some, OnOk, OnErr};
ghost use Rattle.std.specs.Option.{option_map};
ghost use Rattle.serde_json.specs.Data.{no_members};
ghost use Rattle.serde_json.specs.View.{members_view};
ghost use Rattle.mq_world.specs.Views.{reply_of};
ghost use Rattle.mq_world.specs.declared.answer.Outcome.TheVariants.{Reason, Counts};
ghost use Rattle.mq_jsonl.specs.Printed.{answer_text, line_text, closing_members};
ghost use Rattle.mq_jsonl.specs.Printed.{report_members, report_text, report_of, refusal_text};
ghost use Rattle.mq_jsonl.specs.Printed.{fault_text, plain as plain_report};
ghost use Rattle.mq_jsonl.specs.Objects.{IsFor, reason_names, report_names};
ghost use Rattle.mq_jsonl.specs.Printed.{refusal_report as report_of_refusal};
ghost use Rattle.mq_jsonl.specs.Printed.{fault_report as report_of_fault};

use crate::copies::Copies;
use crate::fault::LineFault;
use crate::object::{Datum, Object};
use mq_world::{Answer, Outcome, Refusal};
use std::alloc::{AllocError, Global};

/// A code and a name, and of an access list the number of its faulty line.
#[derive(Clone, Copy)]
pub struct LineReport {
    pub code: u8,
    pub name: &'static str,
    pub acl_line: Option<u64>,
}

fn plain(code: u8, name: &'static str) -> Option<LineReport>
    ensures { option_map report_of result ≡ plain_report code name.entry.now }
{
    Some(LineReport {
        code,
        name,
        acl_line: None,
    })
}

/// None for lack of memory.
fn refusal_report(refusal: Refusal) -> Option<LineReport>
    ensures { option_map report_of result ≡ report_of_refusal refusal }
{
    match refusal {
        Refusal::ClientId => plain(5, "ClientId"),
        Refusal::UserName => plain(6, "UserName"),
        Refusal::NotConnected => plain(7, "NotConnected"),
        Refusal::TopicName => plain(8, "TopicName"),
        Refusal::TopicFilter => plain(9, "TopicFilter"),
        Refusal::SharedNoLocal => plain(10, "SharedNoLocal"),
        Refusal::NotAuthorized => plain(11, "NotAuthorized"),
        Refusal::AclLine { line } => Some(LineReport {
            code: 12,
            name: "AclLine",
            acl_line: Some(line),
        }),
        Refusal::ClockTooFar => plain(13, "ClockTooFar"),
        Refusal::RetainedFull => plain(14, "RetainedFull"),
        Refusal::Memory => None,
    }
}

/// None for lack of memory.
fn line_fault_report(fault: LineFault) -> Option<LineReport>
    ensures { option_map report_of result ≡ report_of_fault fault }
{
    match fault {
        LineFault::LineTooLong => plain(1, "LineTooLong"),
        LineFault::BadJson => plain(2, "BadJson"),
        LineFault::BadCommand => plain(3, "BadCommand"),
        LineFault::BadField => plain(4, "BadField"),
        LineFault::Memory => None,
    }
}

#[tactic(auto, unfolding(crate::specs::Printed::closing_members, crate::specs::Objects::reason_names))]
fn set_reason(alloc: Global, object: &mut Object, line: u64, reason: u8) -> Result<(), AllocError>
    requires { IsFor reason_names (members_view object.old.members.entries) }
    ensures { OnOk result (members_view object.new.members.entries
        ≡ closing_members line (Reason reason)) }
{
    let code = u64::from(reason);
    if object.is_empty() {
        object.number(alloc, "line", line)?;
        object.number(alloc, "reason", code)?;
        return Ok(());
    }
    object.refill(alloc, &[Datum::Number(line), Datum::Number(code)])
}

fn print_reason(
    alloc: Global,
    kept: &mut Object,
    line: u64,
    reason: u8,
    out: &mut Vec<u8>,
) -> Result<(), AllocError>
    requires { IsFor reason_names (members_view kept.old.members.entries) }
    ensures ok { OnOk result (out.new.items ≡ out.old.items
        ++ line_text (closing_members line (Reason reason))) }
    ensures err { OnErr result (out.new.items ≡ out.old.items) }
    ensures kept { IsFor reason_names (members_view kept.new.members.entries) }
{
    let Ok(()) = set_reason(alloc, kept, line, reason) else {
        *kept = Object::new(alloc);
        return Err(AllocError);
    };
    kept.print(alloc, out)
}

#[tactic(auto, unfolding(crate::specs::Printed::closing_members))]
fn print_counts(
    alloc: Global,
    line: u64,
    nodes: u64,
    retained: u64,
    subscriptions: u64,
    out: &mut Vec<u8>,
) -> Result<(), AllocError>
    ensures ok { OnOk result (out.new.items ≡ out.old.items
        ++ line_text (closing_members line (Counts nodes retained subscriptions))) }
    ensures err { OnErr result (out.new.items ≡ out.old.items) }
{
    let mut object = Object::new(alloc);
    object.number(alloc, "line", line)?;
    object.number(alloc, "nodes", nodes)?;
    object.number(alloc, "retained", retained)?;
    object.number(alloc, "subscriptions", subscriptions)?;
    object.print(alloc, out)
}

fn put_report(
    alloc: Global,
    object: &mut Object,
    line: u64,
    report: LineReport,
) -> Result<(), AllocError>
    requires { IsFor (report_names (is_some report.acl_line))
        (members_view object.old.members.entries) }
    ensures { OnOk result (members_view object.new.members.entries
        ≡ report_members line (report_of report)) }
{
    object.number(alloc, "code", u64::from(report.code))?;
    object.number(alloc, "line", line)?;
    object.text(alloc, "refused", report.name)?;
    object.number_if(alloc, "acl_line", report.acl_line)?;
    Ok(())
}

fn set_report(
    alloc: Global,
    object: &mut Object,
    line: u64,
    report: LineReport,
) -> Result<(), AllocError>
    requires { IsFor (report_names (is_some report.acl_line))
        (members_view object.old.members.entries) }
    ensures { OnOk result (members_view object.new.members.entries
        ≡ report_members line (report_of report)) }
{
    if report.acl_line.is_some() || object.is_empty() {
        return put_report(alloc, object, line, report);
    }
    let code = Datum::Number(u64::from(report.code));
    object.refill(
        alloc,
        &[code, Datum::Number(line), Datum::Text(report.name)],
    )
}

fn print_report(
    alloc: Global,
    kept: &mut Object,
    line: u64,
    report: LineReport,
    out: &mut Vec<u8>,
) -> Result<(), AllocError>
    requires { IsFor (report_names (is_some report.acl_line))
        (members_view kept.old.members.entries) }
    ensures ok { OnOk result (out.new.items ≡ out.old.items
        ++ line_text (report_members line (report_of report))) }
    ensures err { OnErr result (out.new.items ≡ out.old.items) }
    ensures kept { IsFor (report_names (is_some report.acl_line))
        (members_view kept.new.members.entries) }
{
    let Ok(()) = set_report(alloc, kept, line, report) else {
        *kept = Object::new(alloc);
        return Err(AllocError);
    };
    kept.print(alloc, out)
}

/// Objects whose members are set again for each line of the same names: those for copies, one for closing lines with a
/// reason, and one for faults without the line of an access list. Other lines have their own.
pub struct Printer {
    copies: Copies,
    reason: Object,
    ghost reason_names: { IsFor reason_names (members_view reason.members.entries) },
    report: Object,
    ghost report_names: { IsFor (report_names false) (members_view report.members.entries) },
}

// Opaque to callers' proofs: one step, and not one for each field (docs/explanation/gate.md).
impl Drop for Printer {
    fn drop(self) {
        let Printer {
            copies: _,
            reason: _,
            report: _,
        } = self;
    }
}

impl Printer {
    pub fn new(alloc: Global) -> Printer {
        Printer {
            copies: Copies::new(alloc),
            reason: Object::new(alloc),
            report: Object::new(alloc),
        }
    }

    fn closing(
        &mut self,
        alloc: Global,
        line: u64,
        outcome: Outcome,
        out: &mut Vec<u8>,
    ) -> Result<(), AllocError>
        ensures ok { OnOk result (out.new.items ≡ out.old.items
            ++ line_text (closing_members line outcome)) }
        ensures err { OnErr result (out.new.items ≡ out.old.items) }
    {
        match outcome {
            Outcome::Reason(reason) => print_reason(alloc, &mut self.reason, line, reason, out),
            Outcome::Counts {
                nodes,
                retained,
                subscriptions,
            } => print_counts(alloc, line, nodes, retained, subscriptions, out),
        }
    }

    fn lines(
        &mut self,
        alloc: Global,
        line: u64,
        answer: &Answer,
        out: &mut Vec<u8>,
    ) -> Result<(), AllocError>
        ensures ok { OnOk result (out.new.items ≡ out.old.items
            ++ answer_text line (reply_of answer.now)) }
        ensures err { OnErr result ((more : List ℕ) × (out.new.items ≡ out.old.items ++ more)) }
    {
        self.copies
            .print_all(alloc, line, answer.copies.as_slice(), out)?;
        self.closing(alloc, line, answer.outcome, out)
    }

    /// Adds the answer to line `line`, as `print_answer` does. An error leaves the text as it is.
    pub fn answer(
        &mut self,
        alloc: Global,
        line: u64,
        answer: &Answer,
        out: &mut Vec<u8>,
    ) -> Result<(), AllocError>
        ensures ok { OnOk result (out.new.items ≡ out.old.items
            ++ answer_text line (reply_of answer.now)) }
        ensures err { OnErr result (out.new.items ≡ out.old.items) }
    {
        let before = out.len();
        match self.lines(alloc, line, answer, out) {
            Ok(()) => Ok(()),
            Err(e) => {
                out.truncate(before);
                Err(e)
            }
        }
    }

    fn report(
        &mut self,
        alloc: Global,
        line: u64,
        report: Option<LineReport>,
        out: &mut Vec<u8>,
    ) -> Result<(), AllocError>
        ensures ok { OnOk result (out.new.items ≡ out.old.items
            ++ report_text line (option_map report_of report)) }
        ensures err { OnErr result (out.new.items ≡ out.old.items) }
    {
        let Some(report) = report else {
            return Ok(());
        };
        match report.acl_line {
            None => print_report(alloc, &mut self.report, line, report, out),
            Some(_) => print_report(alloc, &mut Object::new(alloc), line, report, out),
        }
    }

    /// Adds the text line of a refusal, as `print_refusal` does. An error leaves the text as it is.
    pub fn refusal(
        &mut self,
        alloc: Global,
        line: u64,
        refusal: &Refusal,
        out: &mut Vec<u8>,
    ) -> Result<(), AllocError>
        ensures ok { OnOk result (out.new.items ≡ out.old.items ++ refusal_text line refusal.now) }
        ensures err { OnErr result (out.new.items ≡ out.old.items) }
    {
        self.report(alloc, line, refusal_report(*refusal), out)
    }

    /// Adds the text line of a line that is not a command, as `print_line_fault` does. An error
    /// leaves the text as it is.
    pub fn line_fault(
        &mut self,
        alloc: Global,
        line: u64,
        fault: &LineFault,
        out: &mut Vec<u8>,
    ) -> Result<(), AllocError>
        ensures ok { OnOk result (out.new.items ≡ out.old.items ++ fault_text line fault.now) }
        ensures err { OnErr result (out.new.items ≡ out.old.items) }
    {
        self.report(alloc, line, line_fault_report(*fault), out)
    }
}

/// Adds the answer to line `line`: a text line for each copy, in their order, and a closing one. Each is a compact JSON
/// object with its names in ascending order, and a line feed.
pub fn print_answer(
    alloc: Global,
    line: u64,
    answer: &Answer,
    out: &mut Vec<u8>,
) -> Result<(), AllocError>
    ensures ok { OnOk result (out.new.items ≡ out.old.items
        ++ answer_text line (reply_of answer.now)) }
    ensures err { OnErr result (out.new.items ≡ out.old.items) }
{
    Printer::new(alloc).answer(alloc, line, answer, out)
}

/// Adds the text line of line `line` where its command is refused: its code, its name and, for an
/// access list, the number of the faulty line. For lack of memory it adds nothing.
pub fn print_refusal(
    alloc: Global,
    line: u64,
    refusal: &Refusal,
    out: &mut Vec<u8>,
) -> Result<(), AllocError>
    ensures ok { OnOk result (out.new.items ≡ out.old.items ++ refusal_text line refusal.now) }
    ensures err { OnErr result (out.new.items ≡ out.old.items) }
{
    Printer::new(alloc).refusal(alloc, line, refusal, out)
}

/// Adds the text line of line `line` where it is not a command: its code and its name. For lack of
/// memory it adds nothing.
pub fn print_line_fault(
    alloc: Global,
    line: u64,
    fault: &LineFault,
    out: &mut Vec<u8>,
) -> Result<(), AllocError>
    ensures ok { OnOk result (out.new.items ≡ out.old.items ++ fault_text line fault.now) }
    ensures err { OnErr result (out.new.items ≡ out.old.items) }
{
    Printer::new(alloc).line_fault(alloc, line, fault, out)
}
