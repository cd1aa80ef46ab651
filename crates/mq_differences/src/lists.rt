//! Two lists that are compared.
ghost use Rattle.std.specs.Prelude.{◌≡◌, ◌<◌, ◌+◌, ◌∷◌, [], IfOk, IfErr, true, length};
ghost use Rattle.mq_differences.specs.Faults.{IsComparisonFault, fault_of};
ghost use Rattle.mq_differences.specs.Questions.{AreLists};
ghost use Rattle.mq_differences.specs.Steps.{enough_steps};

use crate::by_owner::ByOwner;
use crate::fault::ComparisonFault;
use crate::marks::mark;
use crate::steps::enough_steps;
use mq_acl::{Row, Rules};
use mq_witness::{Asked, ListFault};
use std::alloc::{AllocError, Global};

/// Two lists that are compared, and what is asked of them.
pub(crate) struct Lists<'a> {
    /// By which both decide.
    pub rules: Rules,
    pub old: &'a [Row],
    pub new: &'a [Row],
    pub asked: Asked<'a>,
    pub old_rows: ByOwner<'a>,
    pub new_rows: ByOwner<'a>,
    /// How many user names they name.
    pub users: usize,
    /// Whether fewer steps are given than are enough.
    pub limited: bool,
}

// Opaque to callers' proofs: one step, and not one for each field (docs/explanation/gate.md).
impl Drop for Lists<'_> {
    fn drop(self) {
        let Lists {
            rules: _,
            old: _,
            new: _,
            asked: _,
            old_rows: _,
            new_rows: _,
            users: _,
            limited: _,
        } = self;
    }
}

// What is answered of a list that can't be asked, of which the old one is the first.
fn fault_of(fault: ListFault) -> ComparisonFault
    ensures { result ≡ fault_of fault }
{
    match fault {
        ListFault::Memory => ComparisonFault::Memory,
        ListFault::Line(0, line) => ComparisonFault::OldLine(line),
        ListFault::Line(_, line) => ComparisonFault::NewLine(line),
        ListFault::Mark(0, line) => ComparisonFault::OldMark(line),
        ListFault::Mark(_, line) => ComparisonFault::NewMark(line),
    }
}

fn both<'a>(alloc: Global, old: &'a [Row], new: &'a [Row]) -> Result<Vec<&'a [Row]>, AllocError>
    ensures { IfOk result (λ lists. lists.items ≡ old.entry ∷ (new.entry ∷ [])) }
{
    Ok(vec![in alloc; old, new]?)
}

impl<'a> Lists<'a> {
    /// The two lists. One with a level or a user name of more than 300 bytes is named by its line;
    /// by mosquitto's rules so is one with a mark that is a part of a level.
    pub(crate) fn of(
        alloc: Global,
        rules: Rules,
        old: &'a [Row],
        new: &'a [Row],
        steps: u64,
    ) -> Result<Lists<'a>, ComparisonFault>
        ensures old { IfOk result (λ lists. lists.old.now ≡ old.entry.now) }
        ensures new { IfOk result (λ lists. lists.new.now ≡ new.entry.now) }
        ensures lists { IfOk result AreLists }
        ensures rules { IfOk result (λ lists. lists.asked.rules ≡ rules) }
        ensures limited { IfOk result (λ lists. lists.limited ≡ true
            → steps < enough_steps (length old.entry.now + length new.entry.now)) }
        ensures fault { IfErr result (IsComparisonFault rules old.entry.now new.entry.now steps) }
    {
        let asked = match Asked::of(alloc, rules, both(alloc, old, new)?) {
            Ok(asked) => asked,
            Err(fault) => return Err(fault_of(fault)),
        };
        let users = asked.users(alloc)?.len();
        let old_rows = ByOwner::of(alloc, mark(alloc, old, new)?)?;
        let new_rows = ByOwner::of(alloc, mark(alloc, new, old)?)?;
        Ok(Lists {
            rules,
            old,
            new,
            asked,
            old_rows,
            new_rows,
            users,
            limited: steps < enough_steps(old.len().saturating_add(new.len())),
        })
    }
}
