//! Lines without which a list allows the same.
ghost use Rattle.std.specs.Prelude.{◌≡◌, ◌<◌, ◌++◌, ◌∷◌, [], List, OnOk, IfOk, IfErr, ℕ, Option};
ghost use Rattle.std.specs.Prelude.{true};
ghost use Rattle.std.specs.Prelude.{false, length, slice_index_or};
ghost use Rattle.std.specs.List.{filter_map, zip};
ghost use Rattle.std.specs.Option.{option_map};
ghost use Rattle.mq_acl.specs.Access.{is_deny};
ghost use Rattle.mq_acl.specs.Views.{row_view};
ghost use Rattle.mq_acl.specs.declared.row.Row.{Row};
ghost use Rattle.mq_witness.specs.Rows.{lent_rows};
ghost use Rattle.mq_lint.specs.Cases.{IsNeeded, MeetsGrant, has_row};
ghost use Rattle.mq_acl.specs.Rows.{AclRow};
ghost use Rattle.mq_lint.specs.Kinds.{AreCalled, AreFirst, AreKinds, IsAlone, IsBeside, IsFirst};
ghost use Rattle.mq_lint.specs.Kinds.{called_with};
ghost use Rattle.mq_lint.specs.Left.{left_of};
ghost use Rattle.mq_lint.specs.Needless.{AllowSame, AreNeedless, DeniesNone, IsKind};
ghost use Rattle.mq_lint.specs.Needless.{is_needless, remarks_of_kinds, repeated, without};
ghost use Rattle.mq_lint.specs.NeedlessFault.{IsNeedlessFault, IsStop, IsStopIn};
ghost use Rattle.mq_lint.specs.declared.remark.RemarkKind.{RemarkKind};

use crate::called::Called;
use crate::fault::NeedlessFault;
use crate::linted::Lint;
use crate::maker::maker;
use crate::remark::{Remark, RemarkKind};
use crate::repeats::Seen;
use mq_acl::{Row, Rules, is_deny};
use mq_differences::Steps;
use std::alloc::{AllocError, Global};

// Whether the list that is left allows some clients something else without the row.
fn is_needed<'c, 'a>(
    alloc: Global,
    lint: &'c Lint<'a>,
    steps: &mut Steps,
    called: &'c Called<'a>,
    row: &'c Row,
) -> Result<bool, NeedlessFault>
    requires rows { called.now.rows.now ≡ lint.now.rows.now }
    requires inside { has_row (row_view row.now) (left_of lint.now.asked called.now) ≡ true }
    ensures needed { IfOk result (λ needed. needed ≡ true
        → IsNeeded lint.entry.now.asked (left_of lint.entry.now.asked called.entry.now) (row_view row.entry.now)) }
    ensures needless { IfOk result (λ needed. needed ≡ false → AllowSame lint.entry.now.asked.rules
        (left_of lint.entry.now.asked called.entry.now)
        (without (row_view row.entry.now) (left_of lint.entry.now.asked called.entry.now))) }
    ensures fault { IfErr result (IsStop row.entry.now.line lint.entry.now.limited) }
{
    let classes = lint.classes(alloc, row)?;
    for clients in &classes {
        let case = lint.case(alloc, called, *clients, row)?;
        if !steps.spend(lint.limited, case.work()) {
            return Err(NeedlessFault::GaveUp(row.line, case.count()));
        }
        if case.is_needed(alloc, steps)? {
            return Ok(true);
        }
    }
    Ok(false)
}

// Whether another row grants some clients something that the row denies.
fn meets_grant<'c, 'a>(
    alloc: Global,
    lint: &'c Lint<'a>,
    steps: &mut Steps,
    none: &'c Called<'a>,
    row: &'c Row,
) -> Result<bool, NeedlessFault>
    requires rows { none.now.rows.now ≡ lint.now.rows.now }
    requires none { lent_rows none.now.called.items ≡ [] }
    requires inside { has_row (row_view row.now) lint.now.asked.rows ≡ true }
    requires denies { is_deny (row_view row.now).access ≡ true }
    ensures some { IfOk result (λ met. met ≡ true
        → MeetsGrant lint.entry.now.asked.rules lint.entry.now.asked.rows (row_view row.entry.now)) }
    ensures none { IfOk result (λ met. met ≡ false
        → DeniesNone lint.entry.now.asked.rules lint.entry.now.rows.now (row_view row.entry.now)) }
    ensures fault { IfErr result (IsStop row.entry.now.line lint.entry.now.limited) }
{
    let classes = lint.classes(alloc, row)?;
    for clients in &classes {
        let case = lint.case(alloc, none, *clients, row)?;
        if !steps.spend(lint.limited, case.work()) {
            return Err(NeedlessFault::GaveUp(row.line, case.count()));
        }
        if case.meets_grant(alloc, steps)? {
            return Ok(true);
        }
    }
    Ok(false)
}

// Whether the row denies, and no row grants what it denies.
fn denies_nothing<'a>(
    alloc: Global,
    lint: &Lint<'a>,
    steps: &mut Steps,
    none: &Called<'a>,
    row: &Row,
) -> Result<bool, NeedlessFault>
    requires rows { none.now.rows.now ≡ lint.now.rows.now }
    requires none { lent_rows none.now.called.items ≡ [] }
    requires inside { has_row (row_view row.now) lint.now.asked.rows ≡ true }
    ensures nothing { IfOk result (λ nothing. nothing ≡ true
        → DeniesNone lint.entry.now.asked.rules lint.entry.now.rows.now (row_view row.now)) }
    ensures something { IfOk result (λ nothing. nothing ≡ false
        → DeniesNone lint.entry.now.asked.rules lint.entry.now.rows.now (row_view row.now) → ⊥) }
    ensures fault { IfErr result (IsStop row.now.line lint.entry.now.limited) }
{
    if !is_deny(row.access) {
        return Ok(false);
    }
    let met = meets_grant(alloc, lint, steps, none, row)?;
    Ok(!met)
}

// What is said of a row by itself that doesn't repeat another, if anything is.
fn kind_alone<'a>(
    alloc: Global,
    lint: &Lint<'a>,
    steps: &mut Steps,
    none: &Called<'a>,
    row: &Row,
) -> Result<Option<RemarkKind>, NeedlessFault>
    requires rows { none.now.rows.now ≡ lint.now.rows.now }
    requires none { lent_rows none.now.called.items ≡ [] }
    requires inside { has_row (row_view row.now) lint.now.asked.rows ≡ true }
    ensures kind { IfOk result (IsAlone lint.entry.now.asked.rules lint.entry.now.rows.now (row_view row.now)) }
    ensures fault { IfErr result (IsStop row.now.line lint.entry.now.limited) }
{
    if denies_nothing(alloc, lint, steps, none, row)? {
        return Ok(Some(RemarkKind::DeniesNothing));
    }
    if is_needed(alloc, lint, steps, none, row)? {
        return Ok(None);
    }
    Ok(Some(RemarkKind::Needless(None)))
}

// What is said by itself of the row at this place, if anything is, where this is the line that it repeats.
fn first_kind<'a>(
    alloc: Global,
    lint: &Lint<'a>,
    steps: &mut Steps,
    none: &Called<'a>,
    place: usize,
    row: &Row,
    line: Option<u64>,
) -> Result<Option<RemarkKind>, NeedlessFault>
    requires rows { none.now.rows.now ≡ lint.now.rows.now }
    requires none { lent_rows none.now.called.items ≡ [] }
    requires place { place < length lint.now.rows.now }
    requires row { row.now ≡ slice_index_or lint.now.rows.now place row.now }
    requires line { line ≡ repeated lint.now.rows.now place (row_view row.now) }
    ensures kind { IfOk result (IsFirst lint.entry.now.asked.rules lint.entry.now.rows.now place row.now) }
    ensures fault { IfErr result (IsStop row.now.line lint.entry.now.limited) }
{
    if let Some(line) = line {
        return Ok(Some(RemarkKind::Repeats(line)));
    }
    kind_alone(alloc, lint, steps, none, row)
}

fn add_kind(kinds: &mut Vec<Option<RemarkKind>>, kind: Option<RemarkKind>) -> Result<(), AllocError>
    ensures { OnOk result (kinds.new.items ≡ kinds.old.items ++ kind ∷ []) }
{
    kinds.push(kind)?;
    Ok(())
}

// What is said of each row by itself, if anything is.
fn first_kinds<'a>(
    alloc: Global,
    lint: &Lint<'a>,
    steps: &mut Steps,
    none: &Called<'a>,
) -> Result<Vec<Option<RemarkKind>>, NeedlessFault>
    requires rows { none.now.rows.now ≡ lint.now.rows.now }
    requires none { lent_rows none.now.called.items ≡ [] }
    ensures count { IfOk result (λ kinds. length kinds.items ≡ length lint.entry.now.rows.now) }
    ensures each { IfOk result (λ kinds. (place : ℕ) (row : Row) (kind : Option RemarkKind)
        → place < length lint.entry.now.rows.now → IsFirst lint.entry.now.asked.rules lint.entry.now.rows.now place
        (slice_index_or lint.entry.now.rows.now place row) (slice_index_or kinds.items place kind)) }
    ensures fault { IfErr result (IsStopIn lint.entry.now.rows.now lint.entry.now.limited) }
{
    let mut kinds = Vec::new(alloc);
    let mut seen = Seen::new(alloc);
    for (place, row) in lint.rows.iter().enumerate() {
        let line = seen.repeated(alloc, &lint.rows[..place], row)?;
        let kind = match first_kind(alloc, lint, steps, none, place, row, line) {
            Ok(kind) => kind,
            Err(fault) => return Err(fault),
        };
        add_kind(&mut kinds, kind)?;
    }
    Ok(kinds)
}

fn is_needless(kind: Option<RemarkKind>) -> bool
    ensures { result ≡ is_needless kind }
{
    matches!(kind, Some(RemarkKind::Needless(_)))
}

// Whether the list that is left allows some clients something else without the row at this place. Without one that is
// out of it already it doesn't.
fn is_needed_at<'a>(
    alloc: Global,
    lint: &Lint<'a>,
    steps: &mut Steps,
    called: &Called<'a>,
    place: usize,
    row: &Row,
) -> Result<bool, NeedlessFault>
    requires rows { called.now.rows.now ≡ lint.now.rows.now }
    requires place { place < length lint.now.rows.now }
    requires row { row.now ≡ slice_index_or lint.now.rows.now place row.now }
    ensures needed { IfOk result (λ needed. needed ≡ true
        → IsNeeded lint.entry.now.asked (left_of lint.entry.now.asked called.entry.now) (row_view row.now)) }
    ensures needless { IfOk result (λ needed. needed ≡ false → AllowSame lint.entry.now.asked.rules
        (left_of lint.entry.now.asked called.entry.now)
        (without (row_view row.now) (left_of lint.entry.now.asked called.entry.now))) }
    ensures fault { IfErr result (IsStop row.now.line lint.entry.now.limited) }
{
    if called.is_out(place) {
        return Ok(false);
    }
    let needed = is_needed(alloc, lint, steps, called, row)?;
    Ok(needed)
}

// What is said of the row at this place beside those that are called needless behind it, where this is what is said of it
// by itself.
fn kind_beside<'a>(
    alloc: Global,
    lint: &Lint<'a>,
    steps: &mut Steps,
    called: &Called<'a>,
    place: usize,
    row: &Row,
    kind: Option<RemarkKind>,
) -> Result<Option<RemarkKind>, NeedlessFault>
    requires rows { called.now.rows.now ≡ lint.now.rows.now }
    requires place { place < length lint.now.rows.now }
    requires row { row.now ≡ slice_index_or lint.now.rows.now place row.now }
    requires kind { IsFirst lint.now.asked.rules lint.now.rows.now place row.now kind }
    requires same { AllowSame lint.now.asked.rules lint.now.asked.rows
        (left_of lint.now.asked called.now) }
    ensures kind { IfOk result (IsBeside lint.entry.now.asked.rules lint.entry.now.rows.now
        (lent_rows called.entry.now.called.items) place row.now) }
    ensures fault { IfErr result (IsStop row.now.line lint.entry.now.limited) }
{
    if !is_needless(kind) {
        return Ok(kind);
    }
    if is_needed_at(alloc, lint, steps, called, place, row)? {
        return Ok(None);
    }
    Ok(kind)
}

// With the row, if it is called needless.
fn with_row<'a>(
    alloc: Global,
    called: Called<'a>,
    row: &'a Row,
    kind: Option<RemarkKind>,
) -> Result<Called<'a>, AllocError>
    ensures rows { IfOk result (λ more. more.rows.now ≡ called.entry.rows.now) }
    ensures called { IfOk result (λ more. lent_rows more.called.items
        ≡ called_with (lent_rows called.entry.called.items) (row_view row.entry.now) kind) }
{
    if !is_needless(kind) {
        return Ok(called);
    }
    called.with(alloc, row)
}

// Of the rows that are needless by themselves, from the last to the first, leaves `Needless` to each without which, and
// without those that were called so before, the list allows the same.
fn call_needless<'a>(
    alloc: Global,
    lint: &Lint<'a>,
    steps: &mut Steps,
    none: Called<'a>,
    kinds: &mut Vec<Option<RemarkKind>>,
) -> Result<Called<'a>, NeedlessFault>
    requires rows { none.rows.now ≡ lint.now.rows.now }
    requires none { lent_rows none.called.items ≡ [] }
    requires count { length kinds.old.items ≡ length lint.now.rows.now }
    requires each { AreFirst lint.now.asked.rules lint.now.rows.now kinds.old.items }
    ensures rows { IfOk result (λ called. called.rows.now ≡ lint.entry.now.rows.now) }
    ensures are { IfOk result (λ called. AreCalled lint.entry.now.asked.rules lint.entry.now.rows.now
        kinds.new.items (lent_rows called.called.items)) }
    ensures fault { IfErr result (IsStopIn lint.entry.now.rows.now lint.entry.now.limited) }
{
    let mut called = none;
    let mut place = lint.rows.len();
    while place > 0 {
        place -= 1;
        let row = &lint.rows[place];
        let kind = match kind_beside(alloc, lint, steps, &called, place, row, kinds[place]) {
            Ok(kind) => kind,
            Err(fault) => return Err(fault),
        };
        called = with_row(alloc, called, row, kind)?;
        kinds[place] = kind;
    }
    Ok(called)
}

// The same, of a row that is called needless with what makes it so.
fn with_maker<'a>(
    alloc: Global,
    lint: &Lint<'a>,
    steps: &mut Steps,
    called: &Called<'a>,
    row: &Row,
    kind: Option<RemarkKind>,
) -> Result<Option<RemarkKind>, NeedlessFault>
    requires rows { called.now.rows.now ≡ lint.now.rows.now }
    requires inside { has_row (row_view row.now) lint.now.asked.rows ≡ true }
    ensures called { IfOk result (λ made. is_needless made ≡ is_needless kind) }
    ensures kind { IfOk result (λ made. (behind : List AclRow) (place : ℕ)
        → IsBeside lint.entry.now.asked.rules lint.entry.now.rows.now behind place row.now kind
        → IsKind lint.entry.now.asked.rules lint.entry.now.rows.now
        (lent_rows called.entry.now.called.items) behind place row.now made) }
    ensures fault { IfErr result (IsStop row.now.line lint.entry.now.limited) }
{
    match kind {
        Some(RemarkKind::Needless(_)) => {
            let by = maker(alloc, lint, steps, called, row)?;
            Ok(Some(RemarkKind::Needless(by)))
        }
        _ => Ok(kind),
    }
}

// The same of each row.
fn with_makers<'a>(
    alloc: Global,
    lint: &Lint<'a>,
    steps: &mut Steps,
    called: &Called<'a>,
    kinds: &[Option<RemarkKind>],
) -> Result<Vec<Option<RemarkKind>>, NeedlessFault>
    requires rows { called.now.rows.now ≡ lint.now.rows.now }
    requires are { AreCalled lint.now.asked.rules lint.now.rows.now kinds.now
        (lent_rows called.now.called.items) }
    ensures are { IfOk result (λ all. AreKinds lint.entry.now.asked.rules lint.entry.now.rows.now all.items) }
    ensures fault { IfErr result (IsStopIn lint.entry.now.rows.now lint.entry.now.limited) }
{
    let mut all = Vec::new(alloc);
    for (place, row) in lint.rows.iter().enumerate() {
        let kind = match with_maker(alloc, lint, steps, called, row, kinds[place]) {
            Ok(kind) => kind,
            Err(fault) => return Err(fault),
        };
        add_kind(&mut all, kind)?;
    }
    Ok(all)
}

// What is said of each row, if anything is.
fn kinds_of(
    alloc: Global,
    lint: &Lint,
    steps: &mut Steps,
) -> Result<Vec<Option<RemarkKind>>, NeedlessFault>
    ensures are { IfOk result (λ all. AreKinds lint.now.asked.rules lint.now.rows.now all.items) }
    ensures fault { IfErr result (IsStopIn lint.now.rows.now lint.now.limited) }
{
    let none = Called::none(alloc, lint.rows)?;
    let mut kinds = match first_kinds(alloc, lint, steps, &none) {
        Ok(kinds) => kinds,
        Err(fault) => return Err(fault),
    };
    let called = match call_needless(alloc, lint, steps, none, &mut kinds) {
        Ok(called) => called,
        Err(fault) => return Err(fault),
    };
    with_makers(alloc, lint, steps, &called, &kinds)
}

fn remark_on(row: &Row, kind: Option<RemarkKind>) -> Option<Remark>
    ensures { result ≡ option_map (λ kind. record { line = row.now.line; kind = kind }) kind }
{
    kind.map(|kind| Remark {
        line: row.line,
        kind,
    })
}

fn remarks_of_kinds(
    alloc: Global,
    rows: &[Row],
    kinds: &[Option<RemarkKind>],
) -> Result<Vec<Remark>, AllocError>
    ensures { IfOk result (λ remarks. remarks.items ≡ remarks_of_kinds rows.now kinds.now) }
{
    rows.iter()
        .zip(kinds)
        .filter_map(|(row, kind)| remark_on(row, *kind))
        .collect(alloc)
}

/// By these rules: the lines without which the list allows the same, each by itself and all together,
/// and those that repeat another or deny what no line grants: in the order of the rows. By both sets
/// of rules each remark is about every client that a broker can have.
///
/// A step is a row that is looked at for one question, or as much work as that takes. Where the
/// steps don't suffice nothing is answered, so that an answer is always the whole one. So many as
/// `enough_steps` says always suffice.
pub fn needless(
    alloc: Global,
    rules: Rules,
    rows: &[Row],
    steps: u64,
) -> Result<Vec<Remark>, NeedlessFault>
    ensures shown { IfOk result (λ shown. AreNeedless rules rows.now shown.items) }
    ensures fault { IfErr result (IsNeedlessFault rules rows.now steps) }
{
    let lint = Lint::of(alloc, rules, rows, steps)?;
    let mut left = Steps::new(steps);
    let kinds = kinds_of(alloc, &lint, &mut left)?;
    Ok(remarks_of_kinds(alloc, rows, &kinds)?)
}
