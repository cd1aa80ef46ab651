//! Rows that are called needless.
ghost use Rattle.std.specs.Prelude.{◌≡◌, ◌<◌, ◌++◌, ◌∷◌, [], IfOk, length, map, ◌||◌};
ghost use Rattle.std.specs.Prelude.{slice_index_or};
ghost use Rattle.std.specs.List.{zip};
ghost use Rattle.mq_acl.specs.Views.{row_view};
ghost use Rattle.mq_acl.specs.declared.row.Row.{Row};
ghost use Rattle.mq_witness.specs.Rows.{lent_rows};
ghost use Rattle.mq_lint.specs.Needless.{is_among, same_row};
ghost use Rattle.mq_lint.specs.Cases.{AreOut};

use crate::same::same_row;
use mq_acl::Row;
use std::alloc::{AllocError, Global};

/// Rows of a list that are called needless. What is asked next is asked of the list without them, and without those that
/// repeat them.
pub(crate) struct Called<'a> {
    rows: &'a [Row],
    /// Those called so, the last of the list first.
    pub called: Vec<&'a Row>,
    // Whether the row at each place is one of them, or repeats one.
    out: Vec<bool>,
    ghost are_out: { AreOut rows.now (lent_rows called.items) out.items },
}

// Opaque to callers' proofs: one step, and not one for each field (docs/explanation/gate.md).
impl Drop for Called<'_> {
    fn drop(self) {
        let Called {
            rows: _,
            called: _,
            out: _,
        } = self;
    }
}

// None is out.
fn none_out(alloc: Global, rows: &[Row]) -> Result<Vec<bool>, AllocError>
    ensures { IfOk result (λ out. AreOut rows.now [] out.items) }
{
    rows.iter().map(|_| false).collect(alloc)
}

// Whether the rows are out, with one more.
fn out_with(alloc: Global, rows: &[Row], out: &[bool], row: &Row) -> Result<Vec<bool>, AllocError>
    ensures { IfOk result (λ all. all.items
        ≡ map (λ shown. shown.1 || same_row (row_view shown.0) (row_view row.now)) (zip rows.now out.now)) }
{
    rows.iter()
        .zip(out)
        .map(|(other, is_out)| *is_out || same_row(other, row))
        .collect(alloc)
}

impl<'a> Called<'a> {
    /// None of these rows.
    pub(crate) fn none(alloc: Global, rows: &'a [Row]) -> Result<Called<'a>, AllocError>
        ensures rows { IfOk result (λ called. called.rows.now ≡ rows.entry.now) }
        ensures none { IfOk result (λ called. lent_rows called.called.items ≡ []) }
    {
        let out = none_out(alloc, rows)?;
        Ok(Called {
            rows,
            called: Vec::new(alloc),
            out,
        })
    }

    /// Whether the row at this place is one of them, or repeats one.
    pub(crate) fn is_out(&self, place: usize) -> bool
        requires { place < length self.now.rows.now }
        ensures { (row : Row) → result ≡ is_among (lent_rows self.now.called.items)
            (row_view (slice_index_or self.now.rows.now place row)) }
    {
        self.out[place]
    }

    /// With one more.
    pub(crate) fn with(&self, alloc: Global, row: &'a Row) -> Result<Called<'a>, AllocError>
        ensures rows { IfOk result (λ called. called.rows.now ≡ self.now.rows.now) }
        ensures called { IfOk result (λ called. lent_rows called.called.items
            ≡ lent_rows self.now.called.items ++ row_view row.entry.now ∷ []) }
    {
        let out = out_with(alloc, self.rows, &self.out, row)?;
        let mut called = Vec::from_slice(alloc, &self.called)?;
        called.push(row)?;
        Ok(Called {
            rows: self.rows,
            called,
            out,
        })
    }
}
