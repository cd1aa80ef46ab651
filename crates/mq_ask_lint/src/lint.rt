//! The answer to `lint`.
ghost use Rattle.std.specs.Prelude.{◌≡◌, ◌≢◌, ◌⊎◌, ℕ, List, [], IfOk, IfErr, OnOk, true, false};
ghost use Rattle.std.specs.Prelude.{string_bytes};
ghost use Rattle.mq_ask.specs.Lists.{AreRows};
ghost use Rattle.mq_ask_lint.specs.Lint.{IsLintFailure, AreRemarks, has_fault, has_needless};
ghost use Rattle.mq_ask_lint.specs.Lint.{is_fault, matters, IsLinted, SaysWhetherTaken};
ghost use Rattle.mq_ask_lint.specs.Objects.{AddsObjects, AddsRemarks, empty_said};
ghost use Rattle.mq_ask_lint.specs.Objects.{refused_lines};
ghost use Rattle.mq_lint.specs.Needless.{AreNeedless};
ghost use Rattle.mq_lint.specs.NeedlessFault.{IsNeedlessFault};
ghost use denote.Ref.{Bor};

use crate::remarks::{add_empty, add_none, add_refused, add_remarks};
use mq_acl::{AclKind, Row, Rules, read_rows_by};
use mq_ask::{Failure, Options, Outcome, foreign_words, rows_in};
use mq_lint::{NeedlessFault, Remark, RemarkKind, needless, remarks};
use mq_print::ListText;
use std::alloc::{AllocError, Global};

/// The remarks on a list.
pub struct Remarks {
    /// Lines that are faulty or odd.
    pub odd: Vec<Remark>,
    /// Lines that repeat another, deny nothing or are needless, where none is faulty.
    pub needless: Vec<Remark>,
    /// Whether none is faulty, and none says anything: the list allows nothing.
    pub is_empty: bool,
}

// Opaque to callers' proofs: one step, and not one for each field (docs/explanation/gate.md).
impl Drop for Remarks {
    fn drop(self) {
        let Remarks {
            odd: _,
            needless: _,
            is_empty: _,
        } = self;
    }
}

fn is_fault(kind: RemarkKind) -> bool
    ensures { result ≡ is_fault kind }
{
    matches!(kind, RemarkKind::Fault(_))
}

// Whether something is said of more than a line that denies nothing, which may guard.
fn matters(kind: RemarkKind) -> bool
    ensures { result ≡ matters kind }
{
    !matches!(kind, RemarkKind::DeniesNothing)
}

fn has_fault(odd: &[Remark]) -> bool
    ensures { result ≡ has_fault odd.now }
{
    odd.iter().any(|remark| is_fault(remark.kind))
}

fn has_needless(shown: &[Remark]) -> bool
    ensures { result ≡ has_needless shown.now }
{
    shown.iter().any(|remark| matters(remark.kind))
}

fn needless_failure<'a>(
    rules: Rules,
    list: ListText<'a, '_>,
    rows: &[Row],
    fault: NeedlessFault,
) -> Failure<'a>
    requires { AreRows rules list.text.now rows.now }
    ensures { (steps : ℕ) → IsNeedlessFault rules rows.now steps fault
        → IsLintFailure rules list.entry steps result }
{
    let file = list.file;
    match fault {
        NeedlessFault::Memory => Failure::Memory,
        NeedlessFault::Line(line) => Failure::Long { file, line },
        NeedlessFault::Mark(line) => Failure::Mark { file, line },
        NeedlessFault::GaveUp(line, others) => Failure::GaveUp { file, line, others },
    }
}

// Of the rows of the list.
fn needless_in<'a>(
    alloc: Global,
    rules: Rules,
    list: ListText<'a, '_>,
    rows: &[Row],
    steps: u64,
) -> Result<Vec<Remark>, Failure<'a>>
    requires { AreRows rules list.text.now rows.now }
    ensures ok { IfOk result (λ shown. AreNeedless rules rows.entry.now shown.items) }
    ensures err { IfErr result (IsLintFailure rules list.entry steps) }
{
    match needless(alloc, rules, rows, steps) {
        Ok(shown) => Ok(shown),
        Err(fault) => Err(needless_failure(rules, list, rows, fault)),
    }
}

// Whether a text with a fault is that of a list at all.
fn check_foreign<'a>(list: ListText<'a, '_>) -> Result<(), Failure<'a>>
    ensures { IfErr result (λ failure. (what : Bor (List ℕ))
        × (failure ≡ Failure.Foreign list.entry.file what)) }
{
    match foreign_words(list.text) {
        Some(what) => Err(Failure::Foreign(list.file, what)),
        None => Ok(()),
    }
}

/// What by these rules is odd or needless in the list. Where so many steps don't suffice to know
/// it, it is given up: what is answered is always the whole.
pub fn find_remarks<'a>(
    alloc: Global,
    rules: Rules,
    list: ListText<'a, '_>,
    steps: u64,
) -> Result<Remarks, Failure<'a>>
    ensures ok { IfOk result (AreRemarks rules list.entry.text.now) }
    ensures err { IfErr result (IsLintFailure rules list.entry steps) }
{
    let odd = remarks(alloc, rules, list.text)?;
    if has_fault(&odd) {
        check_foreign(list)?;
        return Ok(Remarks {
            odd,
            needless: Vec::new(alloc),
            is_empty: false,
        });
    }
    let rows = rows_in(alloc, rules, list)?;
    let needless = needless_in(alloc, rules, list, &rows, steps)?;
    let is_empty = rows.is_empty();
    Ok(Remarks {
        odd,
        needless,
        is_empty,
    })
}

// Whether there are remarks, but for lines that deny nothing, or the list allows nothing.
fn outcome_of(remarks: &Remarks) -> Outcome
    ensures clear { result ≡ Outcome.Clear
        → (remarks.now.odd.items ≡ []) × (has_needless remarks.now.needless.items ≡ false)
        × (remarks.now.is_empty ≡ false) }
    ensures remark { result ≡ Outcome.Remark
        → (remarks.now.odd.items ≢ []) ⊎ (has_needless remarks.now.needless.items ≡ true)
        ⊎ (remarks.now.is_empty ≡ true) }
{
    if remarks.is_empty {
        return Outcome::Remark;
    }
    match (remarks.odd.is_empty(), has_needless(&remarks.needless)) {
        (true, false) => Outcome::Clear,
        _ => Outcome::Remark,
    }
}

// The lines that mosquitto doesn't take.
fn refused_lines(alloc: Global, text: &str) -> Result<Vec<Remark>, AllocError>
    ensures { IfOk result (λ refused. refused.items ≡ refused_lines text.now) }
{
    let all = remarks(alloc, Rules::Mosquitto, text)?;
    all.into_iter()
        .filter(|remark| is_fault(remark.kind))
        .collect(alloc)
}

// Whether mosquitto takes each line.
fn is_taken(alloc: Global, text: &str) -> Result<bool, AllocError>
    ensures { IfOk result (SaysWhetherTaken text.now) }
{
    match read_rows_by(alloc, Rules::Mosquitto, text) {
        Ok(_) => Ok(true),
        Err(fault) => match fault.kind {
            AclKind::Memory => Err(AllocError),
            _ => Ok(false),
        },
    }
}

/// What is said of a list.
#[derive(Clone, Copy, Drop)]
pub struct Linted {
    /// Whether something is to be remarked.
    pub outcome: Outcome,
    /// Whether mosquitto takes the list.
    pub is_taken: bool,
}

// Adds what is said of the list as a whole: that it has no row, or that there is no remark.
fn add_whole(
    alloc: Global,
    answer: &mut String,
    file: &str,
    found: &Remarks,
    options: Options,
) -> Result<(), AllocError>
    ensures { OnOk result (options.json ≡ true → (lines : List (List ℕ)) → AddsObjects
        (record { file = file.now; lines = lines }) (empty_said found.now.is_empty)
        (string_bytes answer.old) (string_bytes answer.new)) }
{
    if found.is_empty {
        return add_empty(alloc, answer, file, options.json);
    }
    if options.json || !found.odd.is_empty() || !found.needless.is_empty() {
        return Ok(());
    }
    add_none(answer, file, options.rules)
}

/// Adds to an answer what is odd or needless in the list, if so many steps suffice to know it, and
/// which lines mosquitto doesn't take.
pub fn add_lint<'a>(
    alloc: Global,
    list: ListText<'a, '_>,
    options: Options,
    answer: &mut String,
) -> Result<Linted, Failure<'a>>
    ensures ok { IfOk result (λ linted. IsLinted options.rules list.entry.text.now linted.outcome) }
    ensures taken { IfOk result (λ linted.
        SaysWhetherTaken list.entry.text.now linted.is_taken) }
    ensures json { OnOk result (options.json ≡ true → AddsRemarks options.rules list.entry
        (string_bytes answer.old) (string_bytes answer.new)) }
{
    let found = find_remarks(alloc, options.rules, list, options.steps)?;
    let is_taken = is_taken(alloc, list.text)?;
    let refused = refused_lines(alloc, list.text)?;
    let outcome = outcome_of(&found);
    add_remarks(alloc, answer, list, &found.odd, &found.needless, options)?;
    add_refused(alloc, answer, list, &found.odd, &refused, options)?;
    add_whole(alloc, answer, list.file, &found, options)?;
    Ok(Linted { outcome, is_taken })
}
