//! The rows of a list, by whom they are for.
ghost use Rattle.std.specs.Prelude.{◌≡◌, [], List, IfOk};
ghost use Rattle.std.specs.List.{filter};
ghost use Rattle.mq_acl.specs.ByOwner as acl;
ghost use Rattle.mq_acl.specs.Views.{row_view, row_who};
ghost use Rattle.mq_differences.specs.ByOwner.{IsGrouped, everyones, own_rows, is_for};
ghost use Rattle.mq_differences.specs.Marks.{ArePlaced};
ghost use Rattle.mq_differences.specs.Questions.{IsList};
ghost use Rattle.mq_differences.specs.declared.marks.Marked.{Marked};

use crate::marks::{Marked, mark};
use mq_acl::Row;
use mq_witness::Clients;
use std::alloc::{AllocError, Global};

/// The rows for all clients, for those without a user name, and for those of each user name, each in their order.
#[derive(Drop)]
pub struct ByOwner<'a> {
    rows: mq_acl::ByOwner<Marked<'a>>,
}

// The rows by the user names that they are for.
fn by_user<'a>(
    alloc: Global,
    rows: Vec<Marked<'a>>,
) -> Result<mq_acl::ByOwner<Marked<'a>>, AllocError>
    ensures { IfOk result (λ all. acl.IsGrouped (λ m. row_who m.row.now) rows.entry.items all) }
{
    let mut all = mq_acl::ByOwner::new(alloc);
    for row in rows {
        all.add(row)?;
    }
    Ok(all)
}

impl<'a> ByOwner<'a> {
    /// The rows by whom they are for.
    pub(crate) fn of(alloc: Global, rows: Vec<Marked<'a>>) -> Result<ByOwner<'a>, AllocError>
        ensures { IfOk result (λ by_owner. IsGrouped rows.entry.items by_owner) }
    {
        let all = by_user(alloc, rows)?;
        Ok(ByOwner { rows: all })
    }

    /// The rows of a list by whom they are for, with none marked as one that another list has too.
    pub fn of_list(alloc: Global, rows: &'a [Row]) -> Result<ByOwner<'a>, AllocError>
        ensures { IfOk result (IsList rows.entry.now []) }
    {
        ByOwner::of(alloc, mark(alloc, rows, &[])?)
    }

    /// The rows for all clients, in the order of the list.
    pub fn everyones(&self) -> &[Marked<'a>]
        ensures { result.now ≡ everyones self.now }
    {
        self.rows.everyone()
    }

    /// The rows for these clients alone, in the order of the list.
    pub fn own(&self, clients: Clients) -> &[Marked<'a>]
        ensures { result.now ≡ own_rows clients.entry self.now }
    {
        match clients {
            Clients::Anonymous => self.rows.own(None),
            Clients::Named(name) => self.rows.own(Some(name)),
            Clients::Others => &self.rows.everyone()[..0],
        }
    }

    /// The rows for these clients, in the order of the list.
    pub(crate) fn rows_for(
        &self,
        alloc: Global,
        clients: Clients,
    ) -> Result<Vec<Marked<'a>>, AllocError>
        ensures { IfOk result (λ all. (rows : List Marked) → IsGrouped rows self.now
            → ArePlaced rows
            → all.items ≡ filter (λ m. is_for clients.entry (row_view m.row.now).who) rows) }
    {
        let mut all = Vec::from_slice(alloc, self.everyones())?;
        all.extend_from_slice(self.own(clients))?;
        all.sort_by_key(|m| m.place)?;
        Ok(all)
    }
}
