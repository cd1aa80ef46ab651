//! Who may.
ghost use Rattle.std.specs.Prelude.{◌≡◌, ℕ, Bool, List, IfOk, IfErr, None, true, false};
ghost use Rattle.std.specs.List.{filter};
ghost use Rattle.mq_witness.specs.Limits.{has_short_levels, long_line};
ghost use Rattle.mq_differences.specs.declared.difference.Difference.{Difference};
ghost use Rattle.mq_who.specs.Faults.{IsWhoFault};
ghost use Rattle.mq_who.specs.Made.{IsMade, is_decided};
ghost use Rattle.mq_who.specs.Who.{IsListing};

use crate::fault::{WhoFault, fault_of};
use crate::made::made;
use mq_acl::{Row, Rules};
use mq_differences::{Difference, Reason, compare};
use mq_topic::{LevelText, TopicFilter};
use mq_witness::{has_short_levels, long_line};
use std::alloc::{AllocError, Global};

/// What clients may and may not read and write of the topics that a filter matches. Of what the
/// same line decides for the same class and direction, one client and topic is listed, and one more
/// where topics with `$` in front are among others.
pub struct Permissions {
    /// What the list allows. `old_reason` is the line that grants it; the new list is one that denies it.
    pub granted: Vec<Difference>,
    /// What it doesn't. `old_reason` is the line that denies it, or that none grants it; the new list allows it.
    pub refused: Vec<Difference>,
}

// Opaque to callers' proofs: one step, and not one for each field (docs/explanation/gate.md).
impl Drop for Permissions {
    fn drop(self) {
        let Permissions {
            granted: _,
            refused: _,
        } = self;
    }
}

// Whether a line decides.
fn is_decided(reason: Reason) -> bool
    ensures { result ≡ is_decided reason }
{
    matches!(reason, Reason::Deny(_) | Reason::Grant(_))
}

// What a line of the new list decides.
fn decided(alloc: Global, differences: Vec<Difference>) -> Result<Vec<Difference>, AllocError>
    ensures { IfOk result (λ all. all.items
        ≡ filter (λ d. is_decided d.new_reason) differences.items) }
{
    differences
        .into_iter()
        .filter(|d| is_decided(d.new_reason))
        .collect(alloc)
}

// What changes from the list to one that is made of a filter, where that decides.
fn changes(
    alloc: Global,
    rules: Rules,
    rows: &[Row],
    made: &[Row],
    steps: u64,
) -> Result<Vec<Difference>, WhoFault>
    ensures listing { IfOk result (λ all. (allows : Bool) (wanted : List ℕ)
        → IsMade rules allows rows.now wanted made.now
        → IsListing rules allows rows.now wanted all.items) }
    ensures fault { IfErr result (λ fault. (allows : Bool) (wanted : List ℕ)
        → IsMade rules allows rows.now wanted made.now → long_line rows.now ≡ None
        → has_short_levels wanted ≡ true → IsWhoFault rules rows.now wanted steps fault) }
{
    match compare(alloc, rules, rows, made, steps) {
        Ok(differences) => Ok(decided(alloc, differences)?),
        Err(fault) => Err(fault_of(fault)),
    }
}

/// What the list allows of what the filter matches, or what it doesn't.
pub(crate) fn listed(
    alloc: Global,
    rules: Rules,
    allows: bool,
    rows: &[Row],
    wanted: &TopicFilter,
    steps: u64,
) -> Result<Vec<Difference>, WhoFault>
    requires { has_short_levels wanted.now ≡ true }
    ensures listing { IfOk result (λ all. IsListing rules allows rows.now wanted.now all.items) }
    ensures fault { IfErr result (IsWhoFault rules rows.now wanted.now steps) }
{
    if let Some(line) = long_line(rows) {
        return Err(WhoFault::Line(line));
    }
    let made = made(alloc, rules, allows, rows, wanted)?;
    changes(alloc, rules, rows, &made, steps)
}

/// Who may, by these rules, read or write the topics that a filter matches, and who may not: the
/// clients without a user name, those of each user name that the list names, and those of all
/// others. `%c` and `%u`, as levels of the filter, are the client's own id and user name.
///
/// Who may is asked of all clients. By mosquitto's rules `pattern` lines are passed over for clients whose id or user
/// name holds `+` or `#`, so that few lists allow them what they allow others. So who may not isn't asked of those with
/// such an id, unless their user name is such a one that a line names; nor of those with such a user name that no line
/// names. A filter with `%c` or `%u` is asked of none of these.
///
/// So many steps are given to each of two comparisons of the list with one that is made of the filter. Where they don't
/// suffice the question is given up, so that an answer is always the whole one.
pub fn who_may(
    alloc: Global,
    rules: Rules,
    rows: &[Row],
    wanted: &TopicFilter,
    steps: u64,
) -> Result<Permissions, WhoFault>
    ensures granted { IfOk result (λ may.
        IsListing rules true rows.now wanted.now may.granted.items) }
    ensures refused { IfOk result (λ may.
        IsListing rules false rows.now wanted.now may.refused.items) }
    ensures fault { IfErr result (IsWhoFault rules rows.now wanted.now steps) }
{
    if !has_short_levels(wanted.text()) {
        return Err(WhoFault::Filter);
    }
    let granted = listed(alloc, rules, true, rows, wanted, steps)?;
    let refused = listed(alloc, rules, false, rows, wanted, steps)?;
    Ok(Permissions { granted, refused })
}
