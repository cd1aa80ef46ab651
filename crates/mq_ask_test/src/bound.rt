//! Whether a list allows at most what another one does, or at least that.
ghost use Rattle.std.specs.Prelude.{◌≡◌, ℕ, IfOk, IfErr, find};
ghost use Rattle.mq_ask_test.specs.Faults.{IsBoundFault};
ghost use Rattle.mq_ask_test.specs.Findings.{IsBound};
ghost use Rattle.mq_differences.specs.Differences.{same_way};
ghost use Rattle.mq_differences.specs.Faults.{IsComparisonFault};
ghost use Rattle.mq_differences.specs.declared.way.Way.{Way};

use crate::fault::TestFault;
use crate::finding::Finding;
use crate::list::Listed;
use mq_acl::Rules;
use mq_differences::{ComparisonFault, Difference, Side, Way, compare};
use std::alloc::Global;

// The first of this way.
fn first(differences: Vec<Difference>, way: Way) -> Option<Difference>
    ensures { result ≡ find (λ d. same_way d.way way) differences.items }
{
    differences.into_iter().find(|d| d.way == way)
}

fn bound_fault<'a>(
    bound: Listed<'a, '_>,
    list: Listed<'a, '_>,
    expectation: u64,
    fault: ComparisonFault,
) -> TestFault<'a>
    ensures { (rules : Rules) (steps : ℕ)
        → IsComparisonFault rules bound.entry.rows.now list.entry.rows.now steps fault
        → IsBoundFault rules bound.entry.file.now bound.entry.rows.now list.entry.file.now
        list.entry.rows.now steps expectation result }
{
    match fault {
        ComparisonFault::Memory => TestFault::Memory,
        ComparisonFault::OldLine(line) => TestFault::Long {
            file: bound.file,
            line,
        },
        ComparisonFault::NewLine(line) => TestFault::Long {
            file: list.file,
            line,
        },
        ComparisonFault::OldMark(line) => TestFault::Mark {
            file: bound.file,
            line,
        },
        ComparisonFault::NewMark(line) => TestFault::Mark {
            file: list.file,
            line,
        },
        ComparisonFault::GaveUp(Side::Old, row, others) => TestFault::GaveUp {
            expectation,
            file: bound.file,
            row,
            others,
        },
        ComparisonFault::GaveUp(Side::New, row, others) => TestFault::GaveUp {
            expectation,
            file: list.file,
            row,
            others,
        },
    }
}

/// Whether nothing is gained from the other list to this one, or nothing is lost.
pub(crate) fn bound_finding<'a>(
    alloc: Global,
    rules: Rules,
    way: Way,
    bound: Listed<'a, '_>,
    list: Listed<'a, '_>,
    expectation: u64,
    steps: u64,
) -> Result<Finding<'a>, TestFault<'a>>
    ensures finding { IfOk result (IsBound rules way bound.entry.rows.now list.entry.rows.now) }
    ensures fault { IfErr result (IsBoundFault rules bound.entry.file.now bound.entry.rows.now
        list.entry.file.now list.entry.rows.now steps expectation) }
{
    match compare(alloc, rules, bound.rows, list.rows, steps) {
        Ok(differences) => match first(differences, way) {
            Some(difference) => Ok(Finding::Differs(difference)),
            None => Ok(Finding::Holds),
        },
        Err(fault) => Err(bound_fault(bound, list, expectation, fault)),
    }
}
