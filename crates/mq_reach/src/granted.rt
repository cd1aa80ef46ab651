//! A topic that some rows let a client read.
ghost use Rattle.std.specs.Prelude.{◌≡◌, ◌∷◌, [], Option, None, IfOk, IfErr, IfNone, IfSome, All};
ghost use Rattle.std.specs.Prelude.{Contains};
ghost use Rattle.std.specs.Option.{option_copied};
ghost use Rattle.mq_acl.specs.Access.{concerns};
ghost use Rattle.mq_acl.specs.Rows.{AclRow};
ghost use Rattle.mq_acl.specs.Views.{row_view, row_views};
ghost use Rattle.mq_witness.specs.Limits.{long_line};
ghost use Rattle.mq_witness.specs.Rows.{lent_rows};
ghost use Rattle.mq_witness.specs.Topics.{IsLimitFault};
ghost use Rattle.mq_reach.specs.Filled.{IsPassed, PassesNone};
ghost use Rattle.mq_reach.specs.Reach.{IsListFault};

use mq_acl::{Row, Rules};
use mq_topic::TopicName;
use mq_witness::{Asked, LimitFault, ListFault};
use std::alloc::Global;

/// Rows that are asked about by our own rules. One with a level or a user name of more than 300
/// bytes is named by its line.
pub(crate) fn asked_of(alloc: Global, rows: &[Row]) -> Result<Asked<'_>, ListFault>
    ensures rows { IfOk result (λ asked. asked.rows ≡ row_views rows.entry.now) }
    ensures short { IfOk result (λ _. long_line rows.entry.now ≡ None) }
    ensures fault { IfErr result (IsListFault rows.entry.now) }
{
    let Ok(lists) = vec![in alloc; rows] else {
        return Err(ListFault::Memory);
    };
    Asked::of(alloc, Rules::Own, lists)
}

/// A topic that the row concerns, and some row that grants, and none that denies; or that there is none, of those that
/// clients may read by these rules (`mq_acl::refuses`).
pub(crate) fn granted_topic<'x>(
    alloc: Global,
    asked: &Asked,
    rules: Rules,
    client: &str,
    user: Option<&str>,
    row: &'x Row,
    granting: &[&'x Row],
    denying: &[&Row],
) -> Result<Option<TopicName>, LimitFault>
    requires denying { All (Contains asked.now.rows) (lent_rows denying.now) }
    ensures none { IfOk result (λ found. IfNone found (PassesNone rules client.now
        (option_copied user.entry) (row_view row.now) (concerns client.now
        (option_copied user.entry)) (lent_rows denying.now) (lent_rows granting.now))) }
    ensures some { IfOk result (λ found. IfSome found (IsPassed rules client.now
        (option_copied user.entry) (row_view row.now) (concerns client.now
        (option_copied user.entry)) (lent_rows denying.now) (lent_rows granting.now))) }
    ensures fault { IfErr result (λ fault. (grant : AclRow)
        × Contains (lent_rows granting.now) grant × IsLimitFault client.now
        (option_copied user.entry) (row_view row.now ∷ grant ∷ []) fault) }
{
    for grant in granting {
        let must = [&*row, *grant];
        if let Some(topic) = (&*asked).find_topic(alloc, rules, &*client, user, &must, &*denying)? {
            return Ok(Some(topic));
        }
    }
    Ok(None)
}
