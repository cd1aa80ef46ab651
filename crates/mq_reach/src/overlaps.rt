//! Rows for a client that may concern a topic that another row does.
ghost use Rattle.std.specs.Prelude.{◌≡◌, ◌||◌, ℕ, List, Option, true, IfOk, OnOk, All, Contains};
ghost use Rattle.std.specs.List.{filter, list_any};
ghost use Rattle.std.specs.Option.{option_copied};
ghost use Rattle.mq_acl.specs.Access.{concerns};
ghost use Rattle.mq_acl.specs.Rows.{AclRow};
ghost use Rattle.mq_acl.specs.RowsByOwner.{is_own};
ghost use Rattle.mq_acl.specs.Views.{row_view};
ghost use Rattle.mq_witness.specs.Rows.{lent_rows};
ghost use Rattle.mq_reach.specs.ByOwner.{AreGrouped};

use mq_acl::{ByOwner, Row};
use mq_witness::may_overlap;
use std::alloc::{AllocError, Global};

// Adds those of the rows that may concern a topic that this one does.
fn add_overlapping<'a>(
    all: &mut Vec<&'a Row>,
    row: &Row,
    rows: &[&'a Row],
) -> Result<(), AllocError>
    ensures concerns { OnOk result ((client name : List ℕ) (user : Option (List ℕ))
        → concerns client user name (row_view row.now) ≡ true
        → list_any (concerns client user name) (lent_rows all.new.items)
        ≡ (list_any (concerns client user name) (lent_rows all.old.items)
        || list_any (concerns client user name) (lent_rows rows.now))) }
    ensures among { OnOk result ((listed : List AclRow)
        → All (Contains listed) (lent_rows all.old.items)
        → All (Contains listed) (lent_rows rows.now)
        → All (Contains listed) (lent_rows all.new.items)) }
{
    for other in rows {
        if may_overlap(row, other) {
            all.push(*other)?;
        }
    }
    Ok(())
}

/// Those of the rows for a client of this user name, or without one, that may concern a topic that the row does.
pub(crate) fn overlapping<'a>(
    alloc: Global,
    by_owner: &ByOwner<&'a Row>,
    user: Option<&str>,
    row: &Row,
) -> Result<Vec<&'a Row>, AllocError>
    ensures concerns { IfOk result (λ all. (rows : List AclRow) → AreGrouped rows by_owner.now
        → (client name : List ℕ)
        → concerns client (option_copied user.entry) name (row_view row.now) ≡ true
        → list_any (concerns client (option_copied user.entry) name) (lent_rows all.items)
        ≡ list_any (concerns client (option_copied user.entry) name) rows) }
    ensures among { IfOk result (λ all. (rows : List AclRow) → AreGrouped rows by_owner.now
        → All (Contains rows) (lent_rows all.items)) }
{
    let mut all = Vec::new(alloc);
    add_overlapping(&mut all, row, by_owner.everyone())?;
    add_overlapping(&mut all, row, by_owner.own(user))?;
    Ok(all)
}

/// Of these alone those that are for the clients of this user name, or without one, and not for all.
pub(crate) fn own_overlapping<'a>(
    alloc: Global,
    by_owner: &ByOwner<&'a Row>,
    user: Option<&str>,
    row: &Row,
) -> Result<Vec<&'a Row>, AllocError>
    ensures concerns { IfOk result (λ all. (rows : List AclRow) → AreGrouped rows by_owner.now
        → (client name : List ℕ)
        → concerns client (option_copied user.entry) name (row_view row.now) ≡ true
        → list_any (concerns client (option_copied user.entry) name) (lent_rows all.items)
        ≡ list_any (concerns client (option_copied user.entry) name)
        (filter (λ r. is_own (option_copied user.entry) r.who) rows)) }
    ensures among { IfOk result (λ all. (rows : List AclRow) → AreGrouped rows by_owner.now
        → All (Contains (filter (λ r. is_own (option_copied user.entry) r.who) rows))
        (lent_rows all.items)) }
{
    let mut all = Vec::new(alloc);
    add_overlapping(&mut all, row, by_owner.own(user))?;
    Ok(all)
}
