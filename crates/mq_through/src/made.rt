//! The lists that are made for a region and a client, and whether they are those of another client.
ghost use Rattle.std.specs.Prelude.{◌≡◌, ◌∷◌, [], IfOk, true};
ghost use Rattle.mq_acl.specs.Views.{row_view};
ghost use Rattle.mq_through.specs.Made.{AreAlike, DecideAlike, IsClient, IsComparison, IsMade};
ghost use Rattle.mq_through.specs.Needed.{AreNeeded};
ghost use Rattle.mq_through.specs.Parts.{IsPart};

use crate::comparison::Comparison;
use crate::idle::is_idle;
use crate::lists::{made_of_new, made_of_old};
use crate::needed::Needed;
use mq_acl::Row;
use mq_differences::same_owner;
use mq_regions::Region;
use std::alloc::{AllocError, Global};

/// The rows that are made of both lists.
pub(crate) struct Made {
    pub old: Vec<Row>,
    pub new: Vec<Row>,
}

// Opaque to callers' proofs: one step, and not one for each field (docs/explanation/gate.md).
impl Drop for Made {
    fn drop(self) {
        let Made { old: _, new: _ } = self;
    }
}

fn is_same_row(row: &Row, other: &Row) -> bool
    ensures line { result ≡ true → row.now.line ≡ other.now.line }
    ensures view { result ≡ true → row_view row.now ≡ row_view other.now }
{
    row.line == other.line
        && row.access == other.access
        && row.filter == other.filter
        && same_owner(&row.owner, &other.owner)
}

// Whether both rows are the same, or neither is about a topic of the region.
fn is_alike(alloc: Global, region: &Region, row: &Row, other: &Row) -> Result<bool, AllocError>
    ensures { IfOk result (λ alike. alike ≡ true
        → DecideAlike region.now (row.now ∷ []) (other.now ∷ [])) }
{
    if is_same_row(row, other) {
        return Ok(true);
    }
    if !is_idle(alloc, region, row)? {
        return Ok(false);
    }
    let idle = is_idle(alloc, region, other)?;
    Ok(idle)
}

fn are_alike(
    alloc: Global,
    region: &Region,
    rows: &[Row],
    others: &[Row],
) -> Result<bool, AllocError>
    ensures { IfOk result (λ alike. alike ≡ true → DecideAlike region.now rows.now others.now) }
{
    if rows.len() != others.len() {
        return Ok(false);
    }
    for place in 0..rows.len() {
        if !is_alike(alloc, region, &rows[place], &others[place])? {
            return Ok(false);
        }
    }
    Ok(true)
}

impl Made {
    /// Those of this region and this client.
    pub(crate) fn of(
        alloc: Global,
        comparison: &Comparison,
        region: &Region,
        needed: &Needed,
        client: &str,
    ) -> Result<Made, AllocError>
        requires comparison { IsComparison comparison.now }
        requires region { IsPart comparison.now.plan.now region.now }
        requires needed { AreNeeded comparison.now region.now needed.now }
        requires client { IsClient client.now }
        ensures { IfOk result (IsMade comparison.now region.now client.now) }
    {
        Ok(Made {
            old: made_of_old(alloc, comparison, region, needed, client)?,
            new: made_of_new(alloc, comparison, region, needed, client)?,
        })
    }

    /// Whether both have the same rows, with the same lines, but for such as are about no topic of the region.
    pub(crate) fn is_alike(
        &self,
        alloc: Global,
        region: &Region,
        other: &Made,
    ) -> Result<bool, AllocError>
        ensures { IfOk result (λ alike. alike ≡ true → AreAlike region.now self.now other.now) }
    {
        if !are_alike(alloc, region, &self.old, &other.old)? {
            return Ok(false);
        }
        let alike = are_alike(alloc, region, &self.new, &other.new)?;
        Ok(alike)
    }
}
