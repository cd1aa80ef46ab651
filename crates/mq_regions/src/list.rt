//! The lists of a region.
ghost use Rattle.std.specs.Prelude.{◌≡◌, ℕ, List, Bool, Option, Some, true, false, map};
ghost use Rattle.std.specs.Prelude.{IfOk, IfErr};
ghost use Rattle.mq_topic.specs.Texts.{is_name};
ghost use Rattle.mq_acl.specs.Access.{rows_allow};
ghost use Rattle.mq_acl.specs.Lines as lines;
ghost use Rattle.mq_acl.specs.Views.{row_view, row_views};
ghost use Rattle.mq_acl.specs.declared.access.Direction.{Direction};
ghost use Rattle.mq_rename.specs.Lists.{IsFault, texts};
ghost use Rattle.mq_rename.specs.declared.fault.MeetFault.TheVariants as faults;
ghost use Rattle.mq_regions.specs.Deciding.{first_line};
ghost use Rattle.mq_regions.specs.Limits.{has_long_filter, has_long_row, is_long_question};
ghost use Rattle.mq_regions.specs.Made.{IsAsked, IsMade, denial};
ghost use Rattle.mq_regions.specs.Regions.{has_mark, in_region, is_mark, name_in, region_levels};
ghost use Rattle.mq_regions.specs.Regions.{side_name};

use crate::limit::is_long_question;
use crate::region::Region;
use crate::side::Side;
use crate::version::{Asked, versions};
use mq_acl::{Access, Owner, Row};
use mq_rename::MeetFault;
use mq_topic::TopicFilter;
use std::alloc::{AllocError, Global};

// The rows that are made of these.
fn made_rows(alloc: Global, asked: &Asked, rows: &[Row]) -> Result<Vec<Row>, MeetFault>
    requires asked { IsAsked asked.now.kind.now asked.now.client.now }
    requires rows { has_long_filter rows.now ≡ false }
    ensures made { IfOk result (λ made.
        IsMade asked.now.side asked.now.kind.now asked.now.client.now rows.now made.items) }
    ensures fault { IfErr result (λ fault. fault ≡ faults.Memory) }
{
    let mut made = Vec::new(alloc);
    for row in rows {
        let mut own = versions(alloc, asked, row)?;
        made.append(&mut own)?;
    }
    Ok(made)
}

// A row that denies what the filter matches; it has the line 0, which no list has.
fn denial(filter: &TopicFilter) -> Result<Row, AllocError>
    ensures { IfOk result (λ row. row_view row ≡ denial filter.now) }
{
    Ok(Row {
        line: 0,
        owner: Owner::Everyone,
        access: Access::Deny,
        filter: filter.clone()?,
    })
}

fn denials(alloc: Global, taken: &[&TopicFilter]) -> Result<Vec<Row>, AllocError>
    ensures { IfOk result (λ rows. row_views rows.items ≡ map denial (texts taken.now)) }
{
    let mut rows = Vec::new(alloc);
    for filter in taken {
        rows.push(denial(filter)?)?;
    }
    Ok(rows)
}

fn list_rows(
    alloc: Global,
    side: Side,
    region: &Region,
    client: &str,
    rows: &[Row],
) -> Result<Vec<Row>, MeetFault>
    requires client { is_mark client.now ≡ false }
    requires region { has_mark (region_levels region.now) ≡ false }
    ensures same { IfOk result (λ made. (x n m : List ℕ) (user : Option (List ℕ))
        (p : lines.Access → Bool) → is_name n ≡ true → in_region region.now n ≡ true
        → side_name side region.now.kind n ≡ Some m
        → first_line p x user n made.items ≡ first_line p client.now user m rows.now) }
    ensures outside { IfOk result (λ made. (x n : List ℕ) (user : Option (List ℕ))
        (direction : Direction) → is_name n ≡ true → in_region region.now n ≡ false
        → rows_allow (row_views made.items) x user n direction ≡ false) }
    ensures short { IfOk result (λ made. has_long_row (row_views rows.now) ≡ false
        → has_long_row (row_views made.items) ≡ false) }
    ensures fault { IfErr result (λ fault.
        IsFault fault (is_long_question region.now client.now rows.now)) }
{
    if is_long_question(region, client, rows) {
        return Err(MeetFault::TooLong);
    }
    let asked = Asked {
        side,
        kind: &region.kind,
        client,
    };
    let mut made = made_rows(alloc, &asked, rows)?;
    let mut denied = denials(alloc, &region.taken)?;
    made.append(&mut denied)?;
    Ok(made)
}

/// Rows that decide about each topic of the region as the old list's rows do for this client. The client id is put in:
/// they decide so for each user name, or none, whichever client id they are asked about. They allow no other topic; rows
/// with the line 0 deny what earlier rules take. No row is longer than the limit of 300 bytes a level and a user name,
/// where none of the list's is.
/// Errors: `TooLong` where the client id, or a level of the region's filters or of the rows', has more than 300 bytes;
/// `Memory`.
pub fn old_rows(
    alloc: Global,
    region: &Region,
    client: &str,
    rows: &[Row],
) -> Result<Vec<Row>, MeetFault>
    requires client { is_mark client.now ≡ false }
    requires region { has_mark (region_levels region.now) ≡ false }
    ensures same { IfOk result (λ made. (x n : List ℕ) (user : Option (List ℕ))
        (p : lines.Access → Bool) → is_name n ≡ true → in_region region.now n ≡ true
        → first_line p x user n made.items ≡ first_line p client.now user n rows.now) }
    ensures outside { IfOk result (λ made. (x n : List ℕ) (user : Option (List ℕ))
        (direction : Direction) → is_name n ≡ true → in_region region.now n ≡ false
        → rows_allow (row_views made.items) x user n direction ≡ false) }
    ensures short { IfOk result (λ made. has_long_row (row_views rows.now) ≡ false
        → has_long_row (row_views made.items) ≡ false) }
    ensures fault { IfErr result (λ fault.
        IsFault fault (is_long_question region.now client.now rows.now)) }
{
    list_rows(alloc, Side::Old, region, client, rows)
}

/// Rows that decide about each topic of the region as the new list's rows do for this client about the name that the
/// topic gets; about a topic that gets none they may decide either way. The client id is put in: they decide so for each
/// user name, or none, whichever client id they are asked about. They allow no other topic; rows with the line 0 deny
/// what earlier rules take. No row is longer than the limit of 300 bytes a level and a user name, where none of the
/// list's is.
/// Errors: `TooLong` where the client id, or a level of the region's filters or of the rows', has more than 300 bytes;
/// `Memory`.
pub fn new_rows(
    alloc: Global,
    region: &Region,
    client: &str,
    rows: &[Row],
) -> Result<Vec<Row>, MeetFault>
    requires client { is_mark client.now ≡ false }
    requires region { has_mark (region_levels region.now) ≡ false }
    ensures same { IfOk result (λ made. (x n m : List ℕ) (user : Option (List ℕ))
        (p : lines.Access → Bool) → is_name n ≡ true → in_region region.now n ≡ true
        → name_in region.now n ≡ Some m
        → first_line p x user n made.items ≡ first_line p client.now user m rows.now) }
    ensures outside { IfOk result (λ made. (x n : List ℕ) (user : Option (List ℕ))
        (direction : Direction) → is_name n ≡ true → in_region region.now n ≡ false
        → rows_allow (row_views made.items) x user n direction ≡ false) }
    ensures short { IfOk result (λ made. has_long_row (row_views rows.now) ≡ false
        → has_long_row (row_views made.items) ≡ false) }
    ensures fault { IfErr result (λ fault.
        IsFault fault (is_long_question region.now client.now rows.now)) }
{
    list_rows(alloc, Side::New, region, client, rows)
}
