//! The lists that are made for one region and one client.
ghost use Rattle.std.specs.Prelude.{◌≡◌, ◌<◌, ◌||◌, ℕ, List, IfOk, OnOk, false, map};
ghost use Rattle.std.specs.Prelude.{length};
ghost use Rattle.mq_acl.specs.Views.{owner_view, row_view, row_views};
ghost use Rattle.mq_acl.specs.declared.row.Row.{Row};
ghost use Rattle.mq_rename.specs.Lists.{has_long, texts};
ghost use Rattle.mq_witness.specs.Literals.{is_among};
ghost use Rattle.mq_witness.specs.Rows.{is_name_of, is_user_of};
ghost use Rattle.mq_regions.specs.Regions.{region_levels};
ghost use Rattle.mq_through.specs.Made.{AreShort, Asks, IsClient, IsComparison, IsList, Names};
ghost use Rattle.mq_through.specs.Made.{asks_new, asks_old, spare_row};
ghost use Rattle.mq_through.specs.Needed.{AreNeeded};
ghost use Rattle.mq_through.specs.Parts.{IsPart};

use crate::comparison::Comparison;
use crate::needed::Needed;
use mq_acl::{Access, Owner, Row};
use mq_regions::{Region, new_rows, old_rows};
use mq_rename::MeetFault;
use mq_topic::TopicFilter;
use std::alloc::{AllocError, Global};

/// Whether the name is one of these.
pub(crate) fn has_user(users: &[&str], name: &str) -> bool
    ensures { result ≡ is_among name.now users.now }
{
    users.iter().any(|user| name == *user)
}

fn add_owner<'a>(users: &mut Vec<&'a str>, owner: &'a Owner) -> Result<(), AllocError>
    ensures { OnOk result ((user : List ℕ) → is_among user users.new.items
        ≡ (is_among user users.old.items || is_name_of user (owner_view owner.entry.now))) }
{
    let Owner::Named(name) = owner else {
        return Ok(());
    };
    if has_user(users, name.as_str()) {
        return Ok(());
    }
    users.push(name.as_str())?;
    Ok(())
}

/// Adds the user names that these rows are for, each once.
pub(crate) fn add_users<'a>(users: &mut Vec<&'a str>, rows: &'a [Row]) -> Result<(), AllocError>
    ensures { OnOk result ((user : List ℕ) → is_among user users.new.items
        ≡ (is_among user users.old.items || is_user_of user (row_views rows.entry.now))) }
{
    for row in rows {
        add_owner(users, &row.owner)?;
    }
    Ok(())
}

// A row that denies this user what the filter matches; it has the line 0, which no list has.
fn spare_row(alloc: Global, filter: &TopicFilter, user: &str) -> Result<Row, AllocError>
    ensures { IfOk result (λ row. row_view row ≡ spare_row filter.now user.now) }
{
    Ok(Row {
        line: 0,
        owner: Owner::Named(String::from_str(alloc, user)?),
        access: Access::Deny,
        filter: filter.clone()?,
    })
}

fn spare_rows(alloc: Global, filter: &TopicFilter, users: &[&str]) -> Result<Vec<Row>, AllocError>
    ensures { IfOk result (λ rows.
        row_views rows.items ≡ map (spare_row filter.now) (texts users.now)) }
{
    let mut rows = Vec::new(alloc);
    for user in users {
        rows.push(spare_row(alloc, filter, user)?)?;
    }
    Ok(rows)
}

// The rows, and behind them one for each user name that denies topics outside of the region: so the rows name them all,
// and the class of other user names has none of them.
fn with_users(
    alloc: Global,
    mut rows: Vec<Row>,
    region: &Region,
    users: &[&str],
) -> Result<Vec<Row>, AllocError>
    requires some { 0 < length region.now.taken.items }
    requires region { has_long (region_levels region.now) ≡ false }
    requires users { AreShort users.now }
    ensures list { IfOk result (λ all. (asks : Asks) (client : List ℕ) (list : List Row)
        → IsList region.now asks client list rows.items
        → IsList region.now asks client list all.items) }
    ensures names { IfOk result (λ all. Names users.now all.items) }
{
    let mut spares = spare_rows(alloc, region.taken[0], users)?;
    rows.append(&mut spares)?;
    Ok(rows)
}

/// Rows that decide about the region's topics as the old list does for this client.
pub(crate) fn made_of_old(
    alloc: Global,
    comparison: &Comparison,
    region: &Region,
    needed: &Needed,
    client: &str,
) -> Result<Vec<Row>, AllocError>
    requires comparison { IsComparison comparison.now }
    requires needed { AreNeeded comparison.now region.now needed.now }
    requires region { IsPart comparison.now.plan.now region.now }
    requires client { IsClient client.now }
    ensures list { IfOk result (λ made.
        IsList region.now asks_old client.now comparison.now.old.now made.items) }
    ensures names { IfOk result (λ made. Names comparison.now.users.items made.items) }
{
    match old_rows(alloc, region, client, &needed.old) {
        Ok(rows) => {
            let made = with_users(alloc, rows, region, &comparison.users)?;
            Ok(made)
        }
        Err(MeetFault::Memory) => Err(AllocError),
        Err(MeetFault::TooLong) => unreachable!(),
    }
}

/// Rows that decide about the region's topics as the new list does for this client about the names that they get.
pub(crate) fn made_of_new(
    alloc: Global,
    comparison: &Comparison,
    region: &Region,
    needed: &Needed,
    client: &str,
) -> Result<Vec<Row>, AllocError>
    requires comparison { IsComparison comparison.now }
    requires needed { AreNeeded comparison.now region.now needed.now }
    requires region { IsPart comparison.now.plan.now region.now }
    requires client { IsClient client.now }
    ensures list { IfOk result (λ made.
        IsList region.now (asks_new region.now) client.now comparison.now.new.now made.items) }
    ensures names { IfOk result (λ made. Names comparison.now.users.items made.items) }
{
    match new_rows(alloc, region, client, &needed.new) {
        Ok(rows) => {
            let made = with_users(alloc, rows, region, &comparison.users)?;
            Ok(made)
        }
        Err(MeetFault::Memory) => Err(AllocError),
        Err(MeetFault::TooLong) => unreachable!(),
    }
}
