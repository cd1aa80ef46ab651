//! What comes of each line.
ghost use Rattle.std.specs.List.{list_all};
ghost use Rattle.std.specs.Prelude.{List, ◌≡◌, All, IfOk, IfErr, OnOk, ◌++◌, ◌∷◌, [], map};
ghost use Rattle.std.specs.Prelude.{count_by};
ghost use Rattle.mq_acl.specs.declared.rules.Rules.{Rules};
ghost use Rattle.mq_ask_test.specs.Faults.{IsTestFault};
ghost use Rattle.mq_ask_test.specs.Findings.{IsVerdict, SaysWhetherAll, is_holds};
ghost use Rattle.mq_ask_test.specs.Questions.{asked_view, questions};
ghost use Rattle.mq_ask_test.specs.declared.list.ReadList.{ReadList};
ghost use Rattle.mq_expect.specs.Files.{numbered_views};

use crate::asked::{Asked, asked_of};
use crate::fault::TestFault;
use crate::finding::Finding;
use crate::list::ReadList;
use crate::said::finding_of;
use mq_acl::Rules;
use mq_expect::Numbered;
use std::alloc::{AllocError, Global};

/// A line of a file of expectations, and what comes of it.
#[derive(Drop)]
pub struct Verdict<'p, 'a> {
    /// The line, and the list of which it is judged.
    pub asked: Asked<'p, 'a>,
    /// What comes of it.
    pub finding: Finding<'a>,
}

fn add<'p, 'a>(
    all: &mut Vec<Verdict<'p, 'a>>,
    asked: Asked<'p, 'a>,
    finding: Finding<'a>,
) -> Result<(), AllocError>
    ensures { OnOk result (all.new.items
        ≡ all.old.items ++ (record { asked = asked.entry; finding = finding.entry } ∷ [])) }
{
    all.push(Verdict { asked, finding })?;
    Ok(())
}

/// What comes of each line of a file of expectations that expects something, by these rules: in the
/// order of the lines, of the list that is named last before it. Where the files of lists are
/// given, the whole is judged of each of these in turn, and what `acl` lines name is skipped.
///
/// Each list that is wanted has to be among those that were read. So many steps are given to each
/// comparison of two lists, and to each claim about clients. Where they don't suffice nothing is
/// said of any line.
pub fn judge_all<'p, 'a>(
    alloc: Global,
    rules: Rules,
    given: &[&'a str],
    expectations: &'p [Numbered<'a>],
    lists: &[ReadList<'_, '_>],
    steps: u64,
) -> Result<Vec<Verdict<'p, 'a>>, TestFault<'a>>
    ensures asked { IfOk result (λ all. map (λ v. asked_view v.asked) all.items
        ≡ questions (map (λ file. file.now) given.entry.now) (numbered_views expectations.entry.now)) }
    ensures verdicts { IfOk result (λ all. All (IsVerdict rules lists.now) all.items) }
    ensures fault { IfErr result (IsTestFault rules lists.now steps
        (questions (map (λ file. file.now) given.entry.now) (numbered_views expectations.entry.now))) }
{
    let asked = asked_of(alloc, given, expectations)?;
    let mut all = Vec::new(alloc);
    for one in &asked {
        let finding = finding_of(alloc, rules, lists, one, steps)?;
        add(&mut all, *one, finding)?;
    }
    Ok(all)
}

/// How many of the lines hold.
pub fn holding(verdicts: &[Verdict<'_, '_>]) -> usize
    ensures { result ≡ count_by (λ v. is_holds v.finding) verdicts.now }
{
    verdicts.iter().filter(|v| v.finding.holds()).count()
}

fn each_holds(verdicts: &[Verdict<'_, '_>]) -> bool
    ensures { result ≡ list_all (λ v. is_holds v.finding) verdicts.now }
{
    verdicts.iter().all(|v| v.finding.holds())
}

/// Whether each line holds.
pub fn all_hold(verdicts: &[Verdict<'_, '_>]) -> bool
    ensures each { result ≡ list_all (λ v. is_holds v.finding) verdicts.now }
    ensures shown { (rules : Rules) (lists : List ReadList) → All (IsVerdict rules lists) verdicts.now
        → SaysWhetherAll rules lists (map (λ v. asked_view v.asked) verdicts.now) result }
{
    each_holds(verdicts)
}
