//! The rows of a list, each with whether another list is known to have one that does as much.
ghost use Rattle.std.specs.Prelude.{◌≡◌, ◌&&◌, true, false, All, IfOk, map};
ghost use Rattle.std.specs.List.{list_any};
ghost use Rattle.mq_acl.specs.Views.{access_view, owner_view, row_view, row_views, row_who};
ghost use Rattle.mq_differences.specs.Marks.{IsKept, ArePlaced, does_as_much, has_twin, grants_all};
ghost use Rattle.mq_differences.specs.Marks.{same_who};

use mq_acl::{Access, Owned, Owner, Row};
use mq_topic::LevelText;
use std::alloc::{AllocError, Global};
use std::collections::BTreeMap;

/// A row of a list.
#[derive(Clone, Copy, Drop)]
pub struct Marked<'a> {
    /// Its place, from 0.
    pub place: usize,
    /// The row.
    pub row: &'a Row,
    /// Whether the other list is known to have a row for the same clients, with the same filter, that denies if this one
    /// does, and else grants what this one grants.
    pub kept: bool,
}

impl Owned for Marked<'_> {
    ghost who = { λ m. row_who m.row.now };

    fn owner(&self) -> &Owner {
        &self.row.owner
    }
}

/// Whether rows of these owners are for the same clients.
pub fn same_owner(left: &Owner, right: &Owner) -> bool
    ensures { result ≡ same_who (owner_view left.now) (owner_view right.now) }
{
    match (left, right) {
        (Owner::Anonymous, Owner::Anonymous) => true,
        (Owner::Named(name), Owner::Named(other)) => name == other,
        (Owner::Everyone, Owner::Everyone) => true,
        _ => false,
    }
}

// Whether what grants by the first access is granted by the second.
fn grants_all(access: Access, other: Access) -> bool
    ensures { result ≡ grants_all (access_view access) (access_view other) }
{
    match access {
        Access::Deny => matches!(other, Access::Deny),
        Access::Read => matches!(other, Access::Read | Access::ReadWrite),
        Access::Write => matches!(other, Access::Write | Access::ReadWrite),
        Access::ReadWrite => matches!(other, Access::ReadWrite),
    }
}

fn does_as_much(row: &Row, other: &Row) -> bool
    ensures { result ≡ does_as_much (row_view row.now) (row_view other.now) }
{
    same_owner(&row.owner, &other.owner)
        && grants_all(row.access, other.access)
        && row.filter == other.filter
}

// What the clients and the filter of a row are looked up by.
fn key_of(alloc: Global, row: &Row) -> Result<String, AllocError> {
    let owner = match &row.owner {
        Owner::Anonymous => "",
        Owner::Named(name) => name.as_str(),
        Owner::Everyone => "\n",
    };
    let mut key = String::from_str(alloc, owner)?;
    key.push_str("\n")?;
    key.push_str(row.filter.text())?;
    Ok(key)
}

// The places of rows for the same clients with the same filter.
fn places_by_key(alloc: Global, rows: &[Row]) -> Result<BTreeMap<String, Vec<usize>>, AllocError> {
    let mut places: BTreeMap<String, Vec<usize>> = BTreeMap::new(alloc);
    for (place, row) in rows.iter().enumerate() {
        let key = key_of(alloc, row)?;
        places.entry(key)?.or_default().push(place)?;
    }
    Ok(places)
}

// Whether a row at one of the places does as much.
fn has_twin_at(rows: &[Row], places: &[usize], row: &Row) -> bool
    ensures { result ≡ true → has_twin (row_views rows.now) (row_view row.now) ≡ true }
{
    for place in places {
        if let Some(other) = rows.get(*place)
            && does_as_much(row, other)
        {
            return true;
        }
    }
    false
}

/// The rows of a list, each with whether another list is known to have one that does as much.
pub(crate) fn mark<'a>(
    alloc: Global,
    rows: &'a [Row],
    others: &[Row],
) -> Result<Vec<Marked<'a>>, AllocError>
    ensures rows { IfOk result (λ all. map (λ m. m.row.now) all.items ≡ rows.entry.now) }
    ensures placed { IfOk result (λ all. ArePlaced all.items) }
    ensures kept { IfOk result (λ all. All (IsKept (row_views others.now)) all.items) }
{
    let places = places_by_key(alloc, others)?;
    let mut all = Vec::new(alloc);
    for (place, row) in rows.iter().enumerate() {
        let key = key_of(alloc, row)?;
        let kept = match places.get(key.as_str()) {
            Some(found) => has_twin_at(others, found, row),
            None => false,
        };
        all.push(Marked { place, row, kept })?;
    }
    Ok(all)
}
