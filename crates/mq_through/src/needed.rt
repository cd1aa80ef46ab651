//! The rows of the lists that may decide about a region's topics.
ghost use Rattle.std.specs.Prelude.{◌≡◌, None, Ok, IfOk, false};
ghost use Rattle.mq_acl.specs.Views.{owner_view, row_view};
ghost use Rattle.mq_through.specs.Needed.{AreNeeded, IsNeededOf, IsUnmatched, IsUnneeded, asks_in};

use crate::comparison::Comparison;
use mq_acl::{Owner, Row};
use mq_regions::{Region, RegionKind};
use mq_rename::{MeetFault, meet};
use mq_topic::TopicFilter;
use mq_witness::is_pattern;
use std::alloc::{AllocError, Global};

// Of which list rows are: the old one asks about the topics, the new one about the names that they get.
#[derive(Clone, Copy)]
enum Side {
    Old,
    New,
}

/// The rows of both lists that may decide.
pub(crate) struct Needed {
    pub old: Vec<Row>,
    pub new: Vec<Row>,
}

// Opaque to callers' proofs: one step, and not one for each field (docs/explanation/gate.md).
impl Drop for Needed {
    fn drop(self) {
        let Needed { old: _, new: _ } = self;
    }
}

// Whether there may be such names.
fn may_be(met: Result<Option<TopicFilter>, MeetFault>) -> Result<bool, AllocError>
    ensures { IfOk result (λ may. may ≡ false → met ≡ Ok None) }
{
    match met {
        Ok(Some(_)) => Ok(true),
        Ok(None) => Ok(false),
        Err(MeetFault::Memory) => Err(AllocError),
        Err(MeetFault::TooLong) => Ok(true),
    }
}

// Whether the list may ask, about a topic of this kind, about a name that the filter matches.
fn may_match(
    alloc: Global,
    side: Side,
    kind: &RegionKind,
    filter: &TopicFilter,
) -> Result<bool, AllocError>
    ensures { IfOk result (λ may. may ≡ false → IsUnmatched side kind.now filter.now) }
{
    match kind {
        RegionKind::Same => Ok(true),
        RegionKind::Kept(kept) => may_be(meet(alloc, kept, filter)),
        RegionKind::Renamed(rename) => match side {
            Side::Old => may_be(rename.cut(alloc, filter)),
            Side::New => may_be(rename.back(alloc, filter)),
        },
    }
}

// Whether the row may decide. That of a `pattern` line may: its marks stand for any texts.
fn may_decide(alloc: Global, side: Side, region: &Region, row: &Row) -> Result<bool, AllocError>
    ensures { IfOk result (λ may. may ≡ false
        → IsUnneeded region.now (asks_in side region.now.kind) row.now) }
{
    if is_pattern(&row.owner) {
        return Ok(true);
    }
    let may = may_match(alloc, side, &region.kind, &row.filter)?;
    Ok(may)
}

fn copy_owner(alloc: Global, owner: &Owner) -> Result<Owner, AllocError>
    ensures { IfOk result (λ copy. owner_view copy ≡ owner_view owner.now) }
{
    match owner {
        Owner::Anonymous => Ok(Owner::Anonymous),
        Owner::Everyone => Ok(Owner::Everyone),
        Owner::Named(name) => Ok(Owner::Named(String::from_str(alloc, name.as_str())?)),
    }
}

fn copy_row(alloc: Global, row: &Row) -> Result<Row, AllocError>
    ensures line { IfOk result (λ copy. copy.line ≡ row.now.line) }
    ensures view { IfOk result (λ copy. row_view copy ≡ row_view row.now) }
{
    Ok(Row {
        line: row.line,
        owner: copy_owner(alloc, &row.owner)?,
        access: row.access,
        filter: row.filter.clone()?,
    })
}

// Those of these rows that may decide.
fn needed_of(
    alloc: Global,
    side: Side,
    region: &Region,
    rows: &[Row],
) -> Result<Vec<Row>, AllocError>
    ensures { IfOk result (λ kept.
        IsNeededOf region.now (asks_in side region.now.kind) rows.now kept.items) }
{
    let mut kept = Vec::new(alloc);
    for row in rows {
        if !may_decide(alloc, side, region, row)? {
            continue;
        }
        let copy = copy_row(alloc, row)?;
        kept.push(copy)?;
    }
    Ok(kept)
}

impl Needed {
    /// Those of this region. They don't depend on the client id, so that they are looked for once, and the lists that
    /// are made for each client id are made of them.
    pub(crate) fn of(
        alloc: Global,
        comparison: &Comparison,
        region: &Region,
    ) -> Result<Needed, AllocError>
        ensures { IfOk result (AreNeeded comparison.now region.now) }
    {
        Ok(Needed {
            old: needed_of(alloc, Side::Old, region, comparison.old)?,
            new: needed_of(alloc, Side::New, region, comparison.new)?,
        })
    }
}
