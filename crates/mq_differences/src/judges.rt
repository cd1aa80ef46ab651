//! The rows that decide.
ghost use Rattle.std.specs.Prelude.{◌≡◌, ◌++◌, ◌==◌, ◌&&◌, IfOk, OnOk};
ghost use Rattle.std.specs.List.{filter};
ghost use Rattle.mq_acl.specs.Views.{row_view};
ghost use Rattle.mq_witness.specs.Rows.{lent_rows};
ghost use Rattle.mq_differences.specs.Marks.{views_of};
ghost use Rattle.mq_differences.specs.Questions.{HasDenies, judging, ranked_marks};

use crate::marks::Marked;
use crate::ranks::{is_judge, rank};
use mq_acl::{Direction, Row, Rules, is_deny};
use std::alloc::{AllocError, Global};

/// The rows of a list that decide about a direction, for clients of one class: the first that concerns a topic does.
pub(crate) struct Judges<'a> {
    pub rows: Vec<Marked<'a>>,
    /// The places of those that deny.
    pub denies: Vec<usize>,
}

// Opaque to callers' proofs: one step, and not one for each field (docs/explanation/gate.md).
impl Drop for Judges<'_> {
    fn drop(self) {
        let Judges { rows: _, denies: _ } = self;
    }
}

// Those of one rank.
fn ranked<'a>(
    alloc: Global,
    rules: Rules,
    rows: &[Marked<'a>],
    direction: Direction,
    place: u8,
) -> Result<Vec<Marked<'a>>, AllocError>
    ensures { IfOk result (λ all. all.items ≡ ranked_marks rules direction place rows.now) }
{
    rows.iter()
        .copied()
        .filter(|m| is_judge(direction, m.row) && rank(rules, m.row) == place)
        .collect(alloc)
}

// All of them, in their order.
fn judging<'a>(
    alloc: Global,
    rules: Rules,
    rows: &[Marked<'a>],
    direction: Direction,
) -> Result<Vec<Marked<'a>>, AllocError>
    ensures { IfOk result (λ all. all.items ≡ judging rules direction rows.now) }
{
    let mut all = ranked(alloc, rules, rows, direction, 0)?;
    all.extend_from_slice(&ranked(alloc, rules, rows, direction, 1)?)?;
    all.extend_from_slice(&ranked(alloc, rules, rows, direction, 2)?)?;
    all.extend_from_slice(&ranked(alloc, rules, rows, direction, 3)?)?;
    Ok(all)
}

// The places of those that deny.
fn places_of_denies(alloc: Global, rows: &[Marked]) -> Result<Vec<usize>, AllocError>
    ensures { IfOk result (λ places. HasDenies rows.now places.items) }
{
    let mut places = Vec::new(alloc);
    for (place, m) in rows.iter().enumerate() {
        if is_deny(m.row.access) {
            places.push(place)?;
        }
    }
    Ok(places)
}

impl<'a> Judges<'a> {
    /// Those of these rows.
    pub(crate) fn of(
        alloc: Global,
        rules: Rules,
        rows: &[Marked<'a>],
        direction: Direction,
    ) -> Result<Judges<'a>, AllocError>
        ensures rows { IfOk result (λ all. all.rows.items ≡ judging rules direction rows.now) }
        ensures denies { IfOk result (λ all. HasDenies all.rows.items all.denies.items) }
    {
        let rows = judging(alloc, rules, rows, direction)?;
        let denies = places_of_denies(alloc, &rows)?;
        Ok(Judges { rows, denies })
    }
}

/// Adds the rows that are marked.
pub(crate) fn add_rows<'a>(rows: &mut Vec<&'a Row>, marked: &[Marked<'a>]) -> Result<(), AllocError>
    ensures { OnOk result (lent_rows rows.new.items
        ≡ lent_rows rows.old.items ++ views_of marked.now) }
{
    for m in marked {
        rows.push(m.row)?;
    }
    Ok(())
}
