//! The answer to `compare`.
ghost use Rattle.std.specs.List.{filter, list_any};
ghost use Rattle.std.specs.Prelude.{◌≡◌, ℕ, List, IfOk, IfErr, OnOk, false};
ghost use Rattle.std.specs.Prelude.{None, string_bytes, true};
ghost use Rattle.mq_acl.specs.Views.{row_views};
ghost use Rattle.mq_ask.specs.Lists.{AreRows};
ghost use Rattle.mq_ask.specs.Statuses.{failure_status};
ghost use Rattle.mq_ask_cases.specs.Ways.{is_way};
ghost use Rattle.mq_ask_compare.specs.Compare.{AreChanges, IsCompared, SaysWhetherSame};
ghost use Rattle.mq_ask_compare.specs.Compare.{IsComparisonFailure};
ghost use Rattle.mq_ask_compare.specs.Changed.{AreObjects, AreShown};
ghost use Rattle.mq_ask_compare.specs.Worded.{AreWorded, AreWords};
ghost use Rattle.mq_print.specs.Lists.{list_view};
ghost use Rattle.mq_differences.specs.Faults.{IsComparisonFault};

use crate::changes::{ComparedTraffic, Scope, changes_text};
use mq_acl::{Row, Rules};
use mq_ask::{Failure, Options, Outcome, check_taken, print_outcome, rows_in};
use mq_ask_cases::{ScriptTraffic, is_way};
use mq_differences::{ComparisonFault, Difference, Side, Way, compare};
use mq_print::ListText;
use std::alloc::{AllocError, Global};
use std::io::Write;

/// Two lists, and where they differ.
pub struct Changes {
    /// The rows of the old list.
    pub old: Vec<Row>,
    /// The rows of the new list.
    pub new: Vec<Row>,
    /// Where they differ.
    pub differences: Vec<Difference>,
}

// Opaque to callers' proofs: one step, and not one for each field (docs/explanation/gate.md).
impl Drop for Changes {
    fn drop(self) {
        let Changes {
            old: _,
            new: _,
            differences: _,
        } = self;
    }
}

impl Changes {
    // The rows of both lists, and where they differ.
    fn into_parts(self) -> (Vec<Row>, Vec<Row>, Vec<Difference>)
        ensures { result ≡ (self.old, self.new, self.differences) }
    {
        let Changes {
            old,
            new,
            differences,
        } = self;
        (old, new, differences)
    }
}

fn comparison_failure<'a>(
    rules: Rules,
    old: ListText<'a, '_>,
    new: ListText<'a, '_>,
    old_rows: &[Row],
    new_rows: &[Row],
    fault: ComparisonFault,
) -> Failure<'a>
    requires old { AreRows rules old.text.now old_rows.now }
    requires new { AreRows rules new.text.now new_rows.now }
    ensures { (steps : ℕ) → IsComparisonFault rules old_rows.now new_rows.now steps fault
        → IsComparisonFailure rules old.entry new.entry steps result }
{
    match fault {
        ComparisonFault::Memory => Failure::Memory,
        ComparisonFault::OldLine(line) => Failure::Long {
            file: old.file,
            line,
        },
        ComparisonFault::NewLine(line) => Failure::Long {
            file: new.file,
            line,
        },
        ComparisonFault::OldMark(line) => Failure::Mark {
            file: old.file,
            line,
        },
        ComparisonFault::NewMark(line) => Failure::Mark {
            file: new.file,
            line,
        },
        ComparisonFault::GaveUp(Side::Old, line, others) => Failure::GaveUp {
            file: old.file,
            line,
            others,
        },
        ComparisonFault::GaveUp(Side::New, line, others) => Failure::GaveUp {
            file: new.file,
            line,
            others,
        },
    }
}

/// Where the lists with these texts differ by these rules. Where so many steps don't suffice to know it, it is given up:
/// what is answered is always the whole.
pub fn find_changes<'a>(
    alloc: Global,
    rules: Rules,
    old: ListText<'a, '_>,
    new: ListText<'a, '_>,
    steps: u64,
) -> Result<Changes, Failure<'a>>
    ensures ok { IfOk result (AreChanges rules old.entry.text.now new.entry.text.now) }
    ensures err { IfErr result (IsComparisonFailure rules old.entry new.entry steps) }
{
    let old_rows = rows_in(alloc, rules, old)?;
    let new_rows = rows_in(alloc, rules, new)?;
    match compare(alloc, rules, &old_rows, &new_rows, steps) {
        Ok(differences) => Ok(Changes {
            old: old_rows,
            new: new_rows,
            differences,
        }),
        Err(fault) => Err(comparison_failure(rules, old, new, &old_rows, &new_rows, fault)),
    }
}

fn has_change(differences: &[Difference], only: Option<Way>) -> bool
    ensures { result ≡ list_any (λ d. is_way only d.way) differences.now }
{
    differences.iter().any(|d| is_way(only, d.way))
}

// Whether there are differences that are asked about.
fn outcome_of(differences: &[Difference], only: Option<Way>) -> Outcome
    ensures clear { result ≡ Outcome.Clear
        → list_any (λ d. is_way only d.way) differences.now ≡ false }
    ensures remark { result ≡ Outcome.Remark
        → list_any (λ d. is_way only d.way) differences.now ≡ true }
{
    if has_change(differences, only) {
        return Outcome::Remark;
    }
    Outcome::Clear
}

fn outcome_in(rules: Rules, changes: &Changes, only: Option<Way>) -> Outcome
    ensures { (old new : List ℕ) → AreChanges rules old new changes.now
        → SaysWhetherSame rules only (row_views changes.now.old.items)
        (row_views changes.now.new.items) result }
{
    outcome_of(&changes.differences, only)
}

// Those that are asked about.
fn asked(
    alloc: Global,
    differences: Vec<Difference>,
    only: Option<Way>,
) -> Result<Vec<Difference>, AllocError>
    ensures { IfOk result (λ all. all.items
        ≡ filter (λ d. is_way only d.way) differences.items) }
{
    differences
        .into_iter()
        .filter(|d| is_way(only, d.way))
        .collect(alloc)
}

fn answer_text(
    alloc: Global,
    lists: (ListText<'_, '_>, ListText<'_, '_>),
    only: Option<Way>,
    script: Option<ScriptTraffic<'_>>,
    options: Options,
    changes: Changes,
) -> Result<String, AllocError>
    ensures objects { IfOk result (λ text. options.json ≡ true → script.entry ≡ None
        → AreObjects only (list_view lists.entry.0) (list_view lists.entry.1) changes
        (string_bytes text)) }
    ensures words { IfOk result (λ text. options.json ≡ false
        → AreWords options.rules only script.entry options.coloured (list_view lists.entry.0)
        (list_view lists.entry.1) changes (string_bytes text)) }
{
    let (old, new, differences) = changes.into_parts();
    let traffic = script.map(|script| ComparedTraffic {
        script,
        rules: options.rules,
        old: &old,
        new: &new,
    });
    let scope = Scope {
        rules: options.rules,
        only,
        traffic,
        coloured: options.coloured,
    };
    let differences = asked(alloc, differences, only)?;
    changes_text(alloc, scope, lists.0, lists.1, differences, options.json)
}

/// Shows where the lists with these texts differ, or what one of them alone allows, if so many
/// steps suffice to know it. Where a script is given, its publishes that each difference is about at
/// most are counted. Of a list that mosquitto doesn't take nothing is answered.
pub fn show_changes<'a, W: Write>(
    alloc: Global,
    old: ListText<'a, '_>,
    new: ListText<'a, '_>,
    only: Option<Way>,
    script: Option<ScriptTraffic<'_>>,
    options: Options,
    out: &mut W,
) -> Result<Outcome, Failure<'a>>
    ensures ok { IfOk result (IsCompared options.rules only old.entry.text.now
        new.entry.text.now) }
    ensures unread { IfErr result (λ failure. failure_status failure ≡ 2 → out.new ≡ out.old) }
    ensures json { OnOk result (options.json ≡ true → script.entry ≡ None
        → AreShown options.rules only old.entry new.entry
        (W.contents out.old) (W.contents out.new)) }
    ensures words { OnOk result (options.json ≡ false
        → AreWorded options.rules only script.entry options.coloured old.entry new.entry
        (W.contents out.old) (W.contents out.new)) }
{
    check_taken(alloc, old)?;
    check_taken(alloc, new)?;
    let changes = find_changes(alloc, options.rules, old, new, options.steps)?;
    let outcome = outcome_in(options.rules, &changes, only);
    let text = answer_text(alloc, (old, new), only, script, options, changes)?;
    print_outcome(out, Ok(text), outcome)
}
