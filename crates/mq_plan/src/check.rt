//! What is wrong with a plan's text.
ghost use Rattle.std.specs.Prelude.{◌≡◌, slice_get};
ghost use Rattle.mq_acl.specs.Lines.{lines};
ghost use Rattle.mq_plan.specs.Rules.{entry_fault, fault_at, faults_in};
ghost use Rattle.mq_plan.specs.Views.{entry_view};

use crate::fault::{PlanFault, PlanKind};
use crate::line::{Entry, entry_of, split_line};
use crate::pair::{left_fault, rename_fault};

fn entry_fault(entry: Entry) -> Option<PlanKind>
    ensures { result ≡ entry_fault (entry_view entry.entry) }
{
    match entry {
        Entry::Skipped => None,
        Entry::Renamed(left, right) => rename_fault(left, right),
        Entry::Kept(left) | Entry::Gone(left) => left_fault(left),
        Entry::Unread => Some(PlanKind::Rule),
    }
}

fn fault_at(line: u64, text: &str) -> Option<PlanFault>
    ensures { result ≡ fault_at (line, text.now) }
{
    let kind = entry_fault(entry_of(text))?;
    Some(PlanFault { line, kind })
}

/// The first faulty line.
pub(crate) fn first_fault(text: &str) -> Option<PlanFault>
    ensures { result ≡ slice_get (faults_in (lines text.now)) 0 }
{
    let mut number = 0u64;
    let mut rest = Some(text);
    while let Some(text) = rest {
        let (line, after) = split_line(text);
        number += 1;
        if let Some(fault) = fault_at(number, line) {
            return Some(fault);
        }
        rest = after;
    }
    None
}
