//! A topic that the `pattern` rows of a list let a client read by mosquitto's rules.
ghost use Rattle.std.specs.Prelude.{◌≡◌, ◌⊎◌, ◌++◌, List, Option, true, false, IfOk, IfErr, IfNone, IfSome};
ghost use Rattle.std.specs.Prelude.{All, Contains};
ghost use Rattle.std.specs.List.{list_all};
ghost use Rattle.std.specs.Option.{option_copied};
ghost use Rattle.mq_acl.specs.Mosquitto.{row_covers};
ghost use Rattle.mq_acl.specs.Rows.{AclRow};
ghost use Rattle.mq_acl.specs.Views.{row_view, row_views};
ghost use Rattle.mq_acl.specs.declared.rules.Rules.TheVariants as spec_rules;
ghost use Rattle.mq_cover.specs.Remainders.{mark_passes};
ghost use Rattle.mq_witness.specs.Limits.{has_short_levels, is_short};
ghost use Rattle.mq_witness.specs.Rows.{lent_rows};
ghost use Rattle.mq_reach.specs.Filled.{IsFilled, IsPassed, IsPatternFault, PassesNone};
ghost use Rattle.mq_reach.specs.Reach.{IsListFault};

use crate::fault::ReachFault;
use crate::filled::{Client, add_filled};
use crate::granted::{asked_of, granted_topic};
use mq_acl::{Row, Rules};
use mq_topic::TopicName;
use mq_witness::{Asked, ListFault};
use std::alloc::{AllocError, Global};

fn lent(alloc: Global, rows: &[Row]) -> Result<Vec<&Row>, AllocError>
    ensures { IfOk result (λ all. lent_rows all.items ≡ row_views rows.entry.now) }
{
    let mut all = Vec::new(alloc);
    for row in rows {
        all.push(row)?;
    }
    Ok(all)
}

// Rows that are filled for a client of this user name, or without one, are asked about.
fn asked_for<'a>(
    alloc: Global,
    user: Option<&str>,
    rows: &'a [Row],
) -> Result<Asked<'a>, ReachFault>
    requires { All (IsFilled (option_copied user)) (row_views rows.now) }
    ensures rows { IfOk result (λ asked. asked.rows ≡ row_views rows.entry.now) }
    ensures fault { IfErr result (λ fault. (fault ≡ ReachFault.Memory)
        ⊎ ((fault ≡ ReachFault.User)
        × (mark_passes is_short (option_copied user.entry) ≡ false))) }
{
    match asked_of(alloc, rows) {
        Ok(asked) => Ok(asked),
        Err(ListFault::Memory) => Err(ReachFault::Memory),
        // Their levels are short.
        Err(ListFault::Line(_, _)) => Err(ReachFault::User),
        // Of rows that are asked about by our own rules there is no such fault.
        Err(ListFault::Mark(_, _)) => Err(ReachFault::Memory),
    }
}

/// A topic that the row concerns, and some `pattern` row that grants it to the client, and none of
/// its own rows that deny, nor any `pattern` row that does; or that there is none.
pub(crate) fn pattern_topic(
    alloc: Global,
    client: Client,
    row: Row,
    own_denying: &[&Row],
    denying: &[&Row],
    granting: &[&Row],
) -> Result<Option<TopicName>, ReachFault>
    requires own { list_all (λ row. has_short_levels row.filter) (lent_rows own_denying.now)
        ≡ true }
    requires denying { list_all (λ row. has_short_levels row.filter) (lent_rows denying.now)
        ≡ true }
    requires granting { list_all (λ row. has_short_levels row.filter) (lent_rows granting.now)
        ≡ true }
    ensures none { IfOk result (λ found. let user = option_copied client.entry.user in
        IfNone found (PassesNone spec_rules.Mosquitto client.entry.id.now user (row_view row)
        (row_covers client.entry.id.now user)
        (lent_rows own_denying.now ++ lent_rows denying.now) (lent_rows granting.now))) }
    ensures some { IfOk result (λ found. let user = option_copied client.entry.user in
        IfSome found (IsPassed spec_rules.Mosquitto client.entry.id.now user (row_view row)
        (row_covers client.entry.id.now user)
        (lent_rows own_denying.now ++ lent_rows denying.now) (lent_rows granting.now))) }
    ensures fault { (listed : List AclRow) → All (Contains listed) (lent_rows own_denying.now)
        → All (Contains listed) (lent_rows denying.now)
        → All (Contains listed) (lent_rows granting.now)
        → IfErr result (IsPatternFault client.entry.id.now (option_copied client.entry.user)
        (row_view row).filter listed) }
{
    if granting.is_empty() {
        return Ok(None);
    }
    let mut grants = Vec::new(alloc);
    add_filled(&mut grants, alloc, client, granting)?;
    let mut denies = Vec::new(alloc);
    add_filled(&mut denies, alloc, client, own_denying)?;
    add_filled(&mut denies, alloc, client, denying)?;
    let asked = asked_for(alloc, client.user, &denies)?;
    let granting = lent(alloc, &grants)?;
    let denying = lent(alloc, &denies)?;
    let found = granted_topic(
        alloc,
        &asked,
        Rules::Mosquitto,
        client.id,
        client.user,
        &row,
        &granting,
        &denying,
    )?;
    Ok(found)
}
