//! Which other row makes a row needless.
ghost use Rattle.std.specs.Prelude.{◌≡◌, ◌&&◌, IfOk, IfErr, IfSome, IfNone, true, false, All, not};
ghost use Rattle.std.specs.Prelude.{Contains, [], ◌∷◌, length};
ghost use Rattle.std.specs.Option.{option_copied};
ghost use Rattle.mq_acl.specs.Access.{is_deny};
ghost use Rattle.mq_acl.specs.Views.{access_view, owner_view, row_view};
ghost use Rattle.mq_acl.specs.declared.access.Direction.{Direction};
ghost use Rattle.mq_witness.specs.Rows.{lent_rows};
ghost use Rattle.mq_witness.specs.declared.topics.Topics.TheVariants.{Open};
ghost use Rattle.mq_differences.specs.ByOwner.{is_for};
ghost use Rattle.mq_lint.specs.Needless.{AllowsNothing, IsBy, MakesNeedless};
ghost use Rattle.mq_lint.specs.Needless.{granted_access, may_make};
ghost use Rattle.mq_lint.specs.NeedlessFault.{IsStop};
ghost use Rattle.mq_lint.specs.Cases.{AddsIn, AddsNone, AddsNoneIn, Finds, granted_in, has_row};
ghost use Rattle.mq_lint.specs.Cases.{MissesRow, maker_cover, would_grant};

use crate::called::Called;
use crate::fault::NeedlessFault;
use crate::linted::Lint;
use crate::question::Question;
use mq_acl::{Access, Direction, Owner, Row, Rules, grants, is_deny};
use mq_differences::{Steps, rank};
use mq_witness::{Clients, Topics, may_overlap};
use std::alloc::{AllocError, Global};

// So many classes of clients are listed in the time of one look at a row.
const CLASSES: u64 = 32;

// The access of a row that grants what a row with this one denies, or grants.
fn granted_access(access: Access) -> Access
    ensures { access_view result ≡ granted_access (access_view access) }
{
    match access {
        Access::Deny => Access::ReadWrite,
        _ => access,
    }
}

// Whether, taken for one that grants, a row with this access grants the direction.
fn would_grant(direction: Direction, access: Access) -> bool
    ensures { result ≡ would_grant direction (access_view access) }
{
    grants(direction, granted_access(access))
}

// A direction that it does.
fn granted_in(access: Access) -> Direction
    ensures { result ≡ granted_in (access_view access) }
{
    match access {
        Access::Write => Direction::Writing,
        _ => Direction::Reading,
    }
}

// The other row, where it would have to concern whatever the row grants in the direction.
fn cover_of<'r>(
    alloc: Global,
    direction: Direction,
    other: &'r Row,
) -> Result<Vec<&'r Row>, AllocError>
    ensures { IfOk result (λ cover. lent_rows cover.items
        ≡ maker_cover direction (row_view other.entry.now)) }
{
    if !would_grant(direction, other.access) {
        return Ok(Vec::new(alloc));
    }
    Ok(vec![in alloc; other]?)
}

// Whether the other row says the same, or decides before the row.
fn may_make(rules: Rules, other: &Row, row: &Row) -> bool
    ensures { result ≡ may_make rules (row_view other.now) (row_view row.now) }
{
    let says_as = is_deny(row.access) == is_deny(other.access);
    says_as || rank(rules, other) < rank(rules, row)
}

// Whether, taken for rows that grant, the row grants clients something in this direction that the other doesn't.
fn adds_in(
    alloc: Global,
    question: &Question,
    steps: &mut Steps,
    other: &Row,
    direction: Direction,
) -> Result<bool, NeedlessFault>
    requires other { Contains question.now.asked.now.rows (row_view other.now) }
    ensures some { IfOk result (λ adds. adds ≡ true → AddsIn question.now.asked.now
        question.now.clients (row_view question.now.row.now) (row_view other.now) direction) }
    ensures none { IfOk result (λ adds. adds ≡ false → AddsNoneIn question.now.asked.now
        question.now.clients (row_view question.now.row.now) (row_view other.now) direction) }
    ensures fault { IfErr result (IsStop question.now.row.now.line question.now.limited) }
{
    if !would_grant(direction, question.row.access) {
        return Ok(false);
    }
    let cover = cover_of(alloc, direction, other)?;
    let adds = question.stands_out(alloc, steps, Topics::Open(direction), &cover)?;
    Ok(adds)
}

// Whether it does in either.
fn adds(
    alloc: Global,
    question: &Question,
    steps: &mut Steps,
    other: &Row,
) -> Result<bool, NeedlessFault>
    requires other { Contains question.now.asked.now.rows (row_view other.now) }
    ensures some { IfOk result (λ adds. adds ≡ true → (direction : Direction)
        × AddsIn question.now.asked.now question.now.clients (row_view question.now.row.now)
        (row_view other.now) direction) }
    ensures none { IfOk result (λ adds. adds ≡ false → AddsNone question.now.asked.now
        (row_view question.now.row.now) (row_view other.now) question.now.clients) }
    ensures fault { IfErr result (IsStop question.now.row.now.line question.now.limited) }
{
    if adds_in(alloc, question, steps, other, Direction::Reading)? {
        return Ok(true);
    }
    let writing = adds_in(alloc, question, steps, other, Direction::Writing)?;
    Ok(writing)
}

// Whether the other row makes the row needless.
fn makes_needless(
    alloc: Global,
    lint: &Lint,
    steps: &mut Steps,
    row: &Row,
    other: &Row,
) -> Result<bool, NeedlessFault>
    requires row { has_row (row_view row.now) lint.now.asked.rows ≡ true }
    requires other { Contains lint.now.asked.rows (row_view other.now) }
    ensures makes { IfOk result (λ makes. makes ≡ true
        → MakesNeedless lint.now.asked.rules (row_view other.now) (row_view row.now)) }
    ensures other { IfOk result (λ makes. makes ≡ false
        → MakesNeedless lint.now.asked.rules (row_view other.now) (row_view row.now) → ⊥) }
    ensures fault { IfErr result (IsStop row.now.line lint.now.limited) }
{
    if !may_make(lint.rules, other, row) {
        return Ok(false);
    }
    let classes = lint.classes(alloc, row)?;
    if !steps.spend(lint.limited, classes.len() as u64 / CLASSES) {
        return Err(NeedlessFault::GaveUp(row.line, 1));
    }
    for clients in &classes {
        let question = lint.question(*clients, row);
        if adds(alloc, &question, steps, other)? {
            return Ok(false);
        }
    }
    Ok(true)
}

// Clients who have a topic that the row concerns, of those that they may read, or write: no row that isn't for them makes
// it needless. If there are none, it allows nothing by itself.
fn concerned<'c>(
    alloc: Global,
    lint: &'c Lint,
    steps: &mut Steps,
    row: &'c Row,
) -> Result<Option<Clients<'c>>, NeedlessFault>
    requires { has_row (row_view row.now) lint.now.asked.rows ≡ true }
    ensures some { IfOk result (λ found. IfSome found (λ clients. Finds
        (Open (granted_in (row_view row.entry.now).access)) lint.entry.now.asked clients
        (row_view row.entry.now ∷ []) [])) }
    ensures allows { IfOk result (λ found. IfSome found (λ clients.
        AllowsNothing lint.entry.now.asked.rules (row_view row.entry.now) → ⊥)) }
    ensures none { IfOk result (λ found. IfNone found
        (AllowsNothing lint.entry.now.asked.rules (row_view row.entry.now))) }
    ensures fault { IfErr result (IsStop row.entry.now.line lint.entry.now.limited) }
{
    let open = Topics::Open(granted_in(row.access));
    let classes = lint.classes(alloc, row)?;
    for clients in &classes {
        let question = lint.question(*clients, row);
        if question.stands_out(alloc, steps, open, &[])? {
            return Ok(Some(*clients));
        }
    }
    Ok(None)
}

fn is_for(clients: Clients, owner: &Owner) -> bool
    ensures { result ≡ is_for clients.entry (owner_view owner.now) }
{
    match (clients, owner) {
        (_, Owner::Everyone) => true,
        (Clients::Anonymous, Owner::Anonymous) => true,
        (Clients::Named(name), Owner::Named(other)) => name == other.as_str(),
        _ => false,
    }
}

// Whether the other row may concern something that the row does.
fn may_meet(rules: Rules, row: &Row, other: &Row) -> bool
    ensures { result ≡ false → MissesRow rules (row_view row.now) (row_view other.now) }
{
    match rules {
        Rules::Own => may_overlap(row, other),
        Rules::Mosquitto => true,
    }
}

/// The line of the first row that is left and makes the row needless, if the row allows anything by itself.
pub(crate) fn maker<'a>(
    alloc: Global,
    lint: &Lint<'a>,
    steps: &mut Steps,
    called: &Called<'a>,
    row: &Row,
) -> Result<Option<u64>, NeedlessFault>
    requires rows { called.now.rows.now ≡ lint.now.rows.now }
    requires inside { has_row (row_view row.now) lint.now.asked.rows ≡ true }
    ensures by { IfOk result (IsBy lint.entry.now.asked.rules lint.entry.now.rows.now
        (lent_rows called.entry.now.called.items) (row_view row.now)) }
    ensures fault { IfErr result (IsStop row.now.line lint.entry.now.limited) }
{
    let found = concerned(alloc, lint, steps, row)?;
    let Some(clients) = found else {
        return Ok(None);
    };
    for (place, other) in lint.rows.iter().enumerate() {
        if called.is_out(place) {
            continue;
        }
        if !is_for(clients, &other.owner) {
            continue;
        }
        if !steps.spend(lint.limited, 1) {
            return Err(NeedlessFault::GaveUp(row.line, 1));
        }
        if !may_meet(lint.rules, row, other) {
            continue;
        }
        if makes_needless(alloc, lint, steps, row, other)? {
            return Ok(Some(other.line));
        }
    }
    Ok(None)
}
