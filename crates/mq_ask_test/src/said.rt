//! What comes of what a line says of a list.
ghost use Rattle.std.specs.Prelude.{◌+◌, ℕ, List, IfOk, IfErr, length};
ghost use Rattle.mq_acl.specs.declared.row.Row.{Row};
ghost use Rattle.mq_acl.specs.declared.rules.Rules.{Rules};
ghost use Rattle.mq_ask_test.specs.Faults.{IsEntryFault, IsFaultOf, IsListFault};
ghost use Rattle.mq_ask_test.specs.Findings.{IsClaimed, IsFinding, IsSaid};
ghost use Rattle.mq_ask_test.specs.Questions.{asked_view};
ghost use Rattle.mq_expect.specs.Expectations.{Claim as Claimed};
ghost use Rattle.mq_expect.specs.Views.{claim_view, entry_view};
ghost use Rattle.mq_who.specs.Claims.{IsJudgement};
ghost use Rattle.mq_who.specs.Faults.{IsWhoFault};
ghost use Rattle.mq_who.specs.Made.{most_made};

use crate::asked::Asked;
use crate::bound::bound_finding;
use crate::fault::TestFault;
use crate::finding::Finding;
use crate::list::{Listed, ReadList, list_in};
use mq_acl::Rules;
use mq_differences::Way;
use mq_expect::{Claim, Expectation};
use mq_who::{Judgement, WhoFault, judge_claim};
use std::alloc::Global;

fn judged<'a>(judgement: Judgement<'a>) -> Finding<'a>
    ensures { (rules : Rules) (rows : List Row) (claim : Claimed)
        → IsJudgement rules rows claim judgement.entry → IsClaimed rules rows claim result }
{
    match judgement {
        Judgement::Holds => Finding::Holds,
        Judgement::Fails(difference) => Finding::Fails(difference),
        Judgement::NoneMay(direction) => Finding::NoneMay(direction),
        Judgement::Unnamed(user) => Finding::Unnamed(user),
        Judgement::Refused(direction) => Finding::Refused(direction),
    }
}

// What is said of a claim that isn't judged: its filter is at fault, or the list is.
fn not_judged<'a>(
    list: Listed<'a, '_>,
    expectation: u64,
    fault: WhoFault,
) -> Result<Finding<'a>, TestFault<'a>>
    ensures finding { (rules : Rules) (steps : ℕ) (claim : Claimed)
        → IsWhoFault rules list.entry.rows.now claim.topics steps fault
        → IfOk result (IsClaimed rules list.entry.rows.now claim) }
    ensures fault { (rules : Rules) (steps : ℕ) (claim : Claimed)
        → IsWhoFault rules list.entry.rows.now claim.topics steps fault
        → IfErr result (IsListFault rules list.entry.file.now list.entry.rows.now
        (length list.entry.rows.now + most_made rules (length list.entry.rows.now)) steps
        expectation) }
{
    let file = list.file;
    match fault {
        WhoFault::Filter => Ok(Finding::LongLevel),
        WhoFault::FilterMark => Ok(Finding::PartMark),
        WhoFault::Memory => Err(TestFault::Memory),
        WhoFault::Line(line) => Err(TestFault::Long { file, line }),
        WhoFault::Mark(line) => Err(TestFault::Mark { file, line }),
        WhoFault::GaveUp(row, others) => Err(TestFault::GaveUp {
            expectation,
            file,
            row,
            others,
        }),
    }
}

fn claim_finding<'a>(
    alloc: Global,
    rules: Rules,
    list: Listed<'a, '_>,
    expectation: u64,
    claim: &Claim<'a>,
    steps: u64,
) -> Result<Finding<'a>, TestFault<'a>>
    ensures finding { IfOk result (IsClaimed rules list.entry.rows.now (claim_view claim.now)) }
    ensures fault { IfErr result (IsListFault rules list.entry.file.now list.entry.rows.now
        (length list.entry.rows.now + most_made rules (length list.entry.rows.now)) steps
        expectation) }
{
    match judge_claim(alloc, rules, list.rows, claim, steps) {
        Ok(judgement) => Ok(judged(judgement)),
        Err(fault) => not_judged(list, expectation, fault),
    }
}

// What comes of a line without a fault.
fn said<'a>(
    alloc: Global,
    rules: Rules,
    lists: &[ReadList<'_, '_>],
    list: Listed<'a, '_>,
    line: u64,
    says: &Expectation<'a>,
    steps: u64,
) -> Result<Finding<'a>, TestFault<'a>>
    ensures finding { IfOk result (IsSaid rules lists.now list.entry.rows.now (entry_view says.now)) }
    ensures fault { IfErr result (IsEntryFault rules lists.now list.entry.file.now
        list.entry.rows.now steps line (entry_view says.now)) }
{
    match says {
        Expectation::List(_) => Ok(Finding::Holds),
        Expectation::AtMost(file) => {
            let bound = list_in(lists, *file)?;
            bound_finding(alloc, rules, Way::Gained, bound, list, line, steps)
        }
        Expectation::AtLeast(file) => {
            let bound = list_in(lists, *file)?;
            bound_finding(alloc, rules, Way::Lost, bound, list, line, steps)
        }
        Expectation::Claim(claim) => claim_finding(alloc, rules, list, line, claim, steps),
    }
}

/// What comes of a line.
pub(crate) fn finding_of<'a>(
    alloc: Global,
    rules: Rules,
    lists: &[ReadList<'_, '_>],
    asked: &Asked<'_, 'a>,
    steps: u64,
) -> Result<Finding<'a>, TestFault<'a>>
    ensures finding { IfOk result (IsFinding rules lists.now (asked_view asked.now)) }
    ensures fault { IfErr result (IsFaultOf rules lists.now steps (asked_view asked.now)) }
{
    let says = match &asked.expectation.says {
        Ok(says) => says,
        Err(kind) => return Ok(Finding::Fault(*kind)),
    };
    let Some(file) = asked.list else {
        return Ok(Finding::NoList);
    };
    let list = list_in(lists, file)?;
    said(
        alloc,
        rules,
        lists,
        list,
        asked.expectation.line,
        says,
        steps,
    )
}
