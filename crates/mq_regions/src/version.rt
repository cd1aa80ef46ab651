//! The rows that are made of one row for the topics of a region.
ghost use Rattle.std.specs.Prelude.{◌≡◌, ◌∷◌, ◌++◌, [], true, false, codes, IfOk, IfErr, OnOk};
ghost use Rattle.std.specs.Option.{option_to_list};
ghost use Rattle.mq_topic.specs.Levels.{levels};
ghost use Rattle.mq_acl.specs.Access.{concerns};
ghost use Rattle.mq_acl.specs.RowsByOwner.{is_everyones};
ghost use Rattle.mq_acl.specs.Views.{owner_view, row_view};
ghost use Rattle.mq_rename.specs.Lists.{has_long, is_long, texts};
ghost use Rattle.mq_rename.specs.declared.fault.MeetFault.TheVariants as faults;
ghost use Rattle.mq_regions.specs.Filled.{has_level};
ghost use Rattle.mq_regions.specs.Made.{IsAsked, IsCarriedRowIfAny, IsGroup, covers_named};

use crate::carry::carry;
use crate::fill::fill;
use crate::region::RegionKind;
use crate::side::Side;
use crate::text::own_texts;
use mq_acl::{Owner, Row};
use mq_rename::MeetFault;
use mq_topic::TopicFilter;
use std::alloc::{AllocError, Global};

/// The list that rows are of, the topics that they are made for, and the client id.
#[derive(Clone, Copy)]
pub(crate) struct Asked<'a> {
    pub side: Side,
    pub kind: &'a RegionKind<'a>,
    pub client: &'a str,
}

fn clone_owner(alloc: Global, owner: &Owner) -> Result<Owner, AllocError>
    ensures { IfOk result (λ copy. owner_view copy ≡ owner_view owner.now) }
{
    match owner {
        Owner::Anonymous => Ok(Owner::Anonymous),
        Owner::Everyone => Ok(Owner::Everyone),
        Owner::Named(name) => Ok(Owner::Named(String::from_str(alloc, name.as_str())?)),
    }
}

fn push(rows: &mut Vec<Row>, row: Row) -> Result<(), AllocError>
    ensures { OnOk result (rows.new.items ≡ rows.old.items ++ row ∷ []) }
{
    rows.push(row)?;
    Ok(())
}

// The row, with this owner and the filter carried.
fn carried_row(
    alloc: Global,
    asked: &Asked,
    row: &Row,
    owner: Owner,
    filter: &TopicFilter,
) -> Result<Option<Row>, MeetFault>
    requires asked { IsAsked asked.now.kind.now asked.now.client.now }
    requires filter { has_long (levels filter.now) ≡ false }
    ensures row { IfOk result (IsCarriedRowIfAny asked.now.side asked.now.kind.now row.now
        (owner_view owner) filter.now) }
    ensures fault { IfErr result (λ fault. fault ≡ faults.Memory) }
{
    let Some(filter) = carry(alloc, asked.side, asked.kind, filter)? else {
        return Ok(None);
    };
    Ok(Some(Row {
        line: row.line,
        owner,
        access: row.access,
        filter,
    }))
}

// The row of a `topic` row, in which `%c` and `%u` are plain text.
fn topic_row(alloc: Global, asked: &Asked, row: &Row) -> Result<Option<Row>, MeetFault>
    requires asked { IsAsked asked.now.kind.now asked.now.client.now }
    requires owner { is_everyones (owner_view row.now.owner) ≡ false }
    requires filter { has_long (levels row.now.filter) ≡ false }
    ensures group { IfOk result (λ made. IsGroup asked.now.side asked.now.kind.now row.now
        (option_to_list made)
        (λ user name. concerns asked.now.client.now user name (row_view row.now))) }
    ensures fault { IfErr result (λ fault. fault ≡ faults.Memory) }
{
    let owner = clone_owner(alloc, &row.owner)?;
    carried_row(alloc, asked, row, owner, &row.filter)
}

// The row of a `pattern` row with this filter for the clients of one user name, whose text stands for `%u`.
fn named_row(
    alloc: Global,
    asked: &Asked,
    row: &Row,
    filter: &TopicFilter,
    text: &str,
) -> Result<Option<Row>, MeetFault>
    requires asked { IsAsked asked.now.kind.now asked.now.client.now }
    requires client { has_level (codes "%c") (levels filter.now) ≡ false }
    requires filter { has_long (levels filter.now) ≡ false }
    requires text { is_long text.now ≡ false }
    ensures group { IfOk result (λ made. IsGroup asked.now.side asked.now.kind.now row.now
        (option_to_list made)
        (covers_named asked.now.client.now filter.now row.now (text.now ∷ []))) }
    ensures fault { IfErr result (λ fault. fault ≡ faults.Memory) }
{
    let Some(filter) = fill(alloc, filter, "%u", text)? else {
        return Ok(None);
    };
    let owner = Owner::Named(String::from_str(alloc, text)?);
    carried_row(alloc, asked, row, owner, &filter)
}

// The rows for the clients of each of these user names.
fn named_rows(
    alloc: Global,
    asked: &Asked,
    row: &Row,
    filter: &TopicFilter,
    named: &[&str],
) -> Result<Vec<Row>, MeetFault>
    requires asked { IsAsked asked.now.kind.now asked.now.client.now }
    requires client { has_level (codes "%c") (levels filter.now) ≡ false }
    requires filter { has_long (levels filter.now) ≡ false }
    requires named { has_long (texts named.now) ≡ false }
    ensures group { IfOk result (λ made. IsGroup asked.now.side asked.now.kind.now row.now made.items
        (covers_named asked.now.client.now filter.now row.now (texts named.now))) }
    ensures fault { IfErr result (λ fault. fault ≡ faults.Memory) }
{
    let mut rows = Vec::new(alloc);
    for text in named {
        let Some(own) = named_row(alloc, asked, row, filter, text)? else {
            continue;
        };
        push(&mut rows, own)?;
    }
    Ok(rows)
}

// The rows of a `pattern` row. One stands for all clients, and leaves `%u` where it stands: it is right for each user
// name that is not a level of its own of the filters. There are others for those that are.
fn pattern_rows(alloc: Global, asked: &Asked, row: &Row) -> Result<Vec<Row>, MeetFault>
    requires asked { IsAsked asked.now.kind.now asked.now.client.now }
    requires owner { is_everyones (owner_view row.now.owner) ≡ true }
    requires filter { has_long (levels row.now.filter) ≡ false }
    ensures group { IfOk result (λ made. IsGroup asked.now.side asked.now.kind.now row.now made.items
        (λ user name. concerns asked.now.client.now user name (row_view row.now))) }
    ensures fault { IfErr result (λ fault. fault ≡ faults.Memory) }
{
    let Some(filter) = fill(alloc, &row.filter, "%c", asked.client)? else {
        return Ok(Vec::new(alloc));
    };
    let named = own_texts(alloc, asked.kind, &filter)?;
    let mut rows = named_rows(alloc, asked, row, &filter, &named)?;
    let Some(general) = carried_row(alloc, asked, row, Owner::Everyone, &filter)? else {
        return Ok(rows);
    };
    push(&mut rows, general)?;
    Ok(rows)
}

fn listed(alloc: Global, row: Option<Row>) -> Result<Vec<Row>, AllocError>
    ensures { IfOk result (λ rows. rows.items ≡ option_to_list row) }
{
    let mut rows = Vec::new(alloc);
    let Some(row) = row else {
        return Ok(rows);
    };
    rows.push(row)?;
    Ok(rows)
}

/// The rows that are made of this one: with its line and its access.
pub(crate) fn versions(alloc: Global, asked: &Asked, row: &Row) -> Result<Vec<Row>, MeetFault>
    requires asked { IsAsked asked.now.kind.now asked.now.client.now }
    requires filter { has_long (levels row.now.filter) ≡ false }
    ensures group { IfOk result (λ made. IsGroup asked.now.side asked.now.kind.now row.now made.items
        (λ user name. concerns asked.now.client.now user name (row_view row.now))) }
    ensures fault { IfErr result (λ fault. fault ≡ faults.Memory) }
{
    match row.owner {
        Owner::Everyone => pattern_rows(alloc, asked, row),
        _ => Ok(listed(alloc, topic_row(alloc, asked, row)?)?),
    }
}
