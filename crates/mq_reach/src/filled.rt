//! Rows for one client: what `pattern` rows are by mosquitto's rules with the client's texts in the
//! place of their marks.
ghost use Rattle.std.specs.Prelude.{◌≡◌, ◌⊎◌, ◌∷◌, ◌++◌, ◌||◌, ◌&&◌, ℕ, List, []};
ghost use Rattle.std.specs.Prelude.{true, false, Option, All, Contains, IfOk, IfErr, IfNone, IfSome, OnOk};
ghost use Rattle.std.specs.Prelude.{codes, string_bytes};
ghost use Rattle.std.specs.List.{list_all, list_any};
ghost use Rattle.std.specs.Option.{option_copied, unwrap_or};
ghost use Rattle.mq_topic.specs.Texts.{is_filter};
ghost use Rattle.mq_acl.specs.Access.{concerns};
ghost use Rattle.mq_acl.specs.Filled.{filled};
ghost use Rattle.mq_acl.specs.Lines.{Read};
ghost use Rattle.mq_acl.specs.Mosquitto.{filter_for, is_asked, row_covers};
ghost use Rattle.mq_acl.specs.Rows.{AclRow, who_of};
ghost use Rattle.mq_acl.specs.Views.{owner_view, row_view, row_views};
ghost use Rattle.mq_acl.specs.Words.{occurs_in};
ghost use Rattle.mq_witness.specs.Limits.{has_short_levels};
ghost use Rattle.mq_witness.specs.Rows.{lent_rows};
ghost use Rattle.mq_reach.specs.Filled.{IsFillFault, IsFilled, filled_row, is_passed_over};

use crate::fault::ReachFault;
use mq_acl::{Access, Names, Owner, Row};
use mq_topic::{LevelText, TopicFault, TopicFilter, is_plain};
use mq_witness::has_short_levels;
use std::alloc::{AllocError, Global};

/// A client, with a user name or without one.
#[derive(Clone, Copy)]
pub(crate) struct Client<'a> {
    pub id: &'a str,
    pub user: Option<&'a str>,
}

fn owner_of(alloc: Global, user: Option<&str>) -> Result<Owner, AllocError>
    ensures { IfOk result (λ owner. owner_view owner ≡ who_of (option_copied user.entry)) }
{
    match user {
        None => Ok(Owner::Anonymous),
        Some(name) => Ok(Owner::Named(String::from_str(alloc, name)?)),
    }
}

/// A row for the client that concerns just what the filter matches.
pub(crate) fn row_of(
    alloc: Global,
    user: Option<&str>,
    filter: &TopicFilter,
) -> Result<Row, AllocError>
    ensures { IfOk result (λ row. row_view row ≡ record {
      who = who_of (option_copied user.entry);
      access = Read;
      filter = filter.now;
    }) }
{
    Ok(Row {
        line: 0,
        owner: owner_of(alloc, user)?,
        access: Access::Read,
        filter: filter.clone()?,
    })
}

fn has_user_mark(filter: &str) -> bool
    ensures { result ≡ occurs_in (codes "%u") filter.now }
{
    filter.contains("%u")
}

// The text with the names in the place of its marks.
fn fill<'a>(alloc: Global, names: Names<'a>, text: &'a str) -> Result<Vec<u8>, AllocError>
    ensures { IfOk result (λ bytes. bytes.items
        ≡ filled names.entry.client.now names.entry.user.now text.now) }
{
    let mut bytes = Vec::new(alloc);
    let mut rest = text.as_bytes();
    while let Some((piece, after)) = names.split_piece(rest) {
        bytes.extend_from_slice(piece)?;
        rest = after;
    }
    Ok(bytes)
}

fn text_of(bytes: Vec<u8>) -> Result<String, ReachFault>
    ensures ok { IfOk result (λ text. string_bytes text ≡ bytes.items) }
    ensures err { IfErr result (λ fault. fault ≡ ReachFault.Memory) }
{
    match String::from_utf8(bytes) {
        Ok(text) => Ok(text),
        // What is made of texts is one.
        Err(_) => Err(ReachFault::Memory),
    }
}

// The filter with this text, if it is one and keeps to the limit.
fn short_filter(alloc: Global, text: &str) -> Result<TopicFilter, ReachFault>
    ensures filter { IfOk result (λ filter. filter ≡ text.now) }
    ensures short { IfOk result (λ filter. has_short_levels filter ≡ true) }
    ensures fault { IfErr result (λ fault. (fault ≡ ReachFault.Memory)
        ⊎ ((fault ≡ ReachFault.Pattern)
        × ((is_filter text.now && has_short_levels text.now) ≡ false))) }
{
    if !has_short_levels(text) {
        return Err(ReachFault::Pattern);
    }
    match TopicFilter::parse(alloc, text) {
        Ok(filter) => Ok(filter),
        Err(TopicFault::Memory) => Err(ReachFault::Memory),
        Err(_) => Err(ReachFault::Pattern),
    }
}

impl<'a> Client<'a> {
    // Whether a `pattern` row with this filter is asked about the client.
    fn is_asked(self, filter: &str) -> bool
        ensures { result ≡ is_asked self.entry.id.now (option_copied self.entry.user) filter.now }
    {
        match self.user {
            None => is_plain(self.id) && !has_user_mark(filter),
            Some(user) => is_plain(self.id) && is_plain(user),
        }
    }

    // Whether the row is a `pattern` row that isn't asked about the client.
    fn passes_over(self, row: &Row) -> bool
        ensures { result ≡ is_passed_over self.entry.id.now (option_copied self.entry.user)
            (row_view row.now) }
    {
        match row.owner {
            Owner::Everyone => !self.is_asked(row.filter.text()),
            _ => false,
        }
    }

    // What stands in the place of the marks of `pattern` rows.
    fn names(self) -> Names<'a>
        ensures client { result.client.now ≡ self.entry.id.now }
        ensures user { result.user.now ≡ unwrap_or (option_copied self.entry.user) [] }
    {
        Names {
            client: self.id,
            user: self.user.unwrap_or(""),
        }
    }

    // The filter of a `pattern` row for the client.
    fn filled_filter(self, alloc: Global, filter: &'a str) -> Result<TopicFilter, ReachFault>
        ensures filter { IfOk result (λ made. made ≡ filled self.entry.id.now
            (unwrap_or (option_copied self.entry.user) []) filter.now) }
        ensures short { IfOk result (λ made. has_short_levels made ≡ true) }
        ensures fault { let text = filled self.entry.id.now
            (unwrap_or (option_copied self.entry.user) []) filter.now in
            IfErr result (λ fault. (fault ≡ ReachFault.Memory) ⊎ ((fault ≡ ReachFault.Pattern)
            × ((is_filter text && has_short_levels text) ≡ false))) }
    {
        let bytes = fill(alloc, self.names(), filter)?;
        let text = text_of(bytes)?;
        short_filter(alloc, text.as_str())
    }
}

// The filter of the row for the client.
fn filter_for(alloc: Global, client: Client, row: &Row) -> Result<TopicFilter, ReachFault>
    ensures filter { IfOk result (λ made. made ≡ filter_for client.entry.id.now
        (option_copied client.entry.user) (row_view row.now)) }
    ensures short { has_short_levels (row_view row.now).filter ≡ true
        → IfOk result (λ made. has_short_levels made ≡ true) }
    ensures fault { is_passed_over client.entry.id.now (option_copied client.entry.user)
        (row_view row.now) ≡ false → IfErr result (IsFillFault client.entry.id.now
        (option_copied client.entry.user) (row_view row.now ∷ [])) }
{
    match row.owner {
        Owner::Everyone => client.filled_filter(alloc, row.filter.text()),
        _ => Ok(row.filter.clone()?),
    }
}

// The row as it is for the client, if it is asked about it.
fn filled_row(alloc: Global, client: Client, row: &Row) -> Result<Option<Row>, ReachFault>
    ensures none { IfOk result (λ made. IfNone made (is_passed_over client.entry.id.now
        (option_copied client.entry.user) (row_view row.now) ≡ true)) }
    ensures some { IfOk result (λ made. IfSome made (λ own.
        (is_passed_over client.entry.id.now (option_copied client.entry.user) (row_view row.now)
        ≡ false) × (row_view own ≡ filled_row client.entry.id.now
        (option_copied client.entry.user) (row_view row.now)))) }
    ensures short { has_short_levels (row_view row.now).filter ≡ true
        → IfOk result (λ made. IfSome made (λ own.
        IsFilled (option_copied client.entry.user) (row_view own))) }
    ensures fault { IfErr result (IsFillFault client.entry.id.now
        (option_copied client.entry.user) (row_view row.now ∷ [])) }
{
    if client.passes_over(row) {
        return Ok(None);
    }
    let filter = filter_for(alloc, client, row)?;
    Ok(Some(Row {
        line: row.line,
        owner: owner_of(alloc, client.user)?,
        access: row.access,
        filter,
    }))
}

fn push(all: &mut Vec<Row>, row: Row) -> Result<(), AllocError>
    ensures { OnOk result (all.new.items ≡ all.old.items ++ row ∷ []) }
{
    all.push(row)?;
    Ok(())
}

/// Adds the rows as they are for the client, those that are asked about it.
pub(crate) fn add_filled(
    all: &mut Vec<Row>,
    alloc: Global,
    client: Client,
    rows: &[&Row],
) -> Result<(), ReachFault>
    requires short { list_all (λ row. has_short_levels row.filter) (lent_rows rows.now) ≡ true }
    ensures covers { OnOk result ((name : List ℕ) → let user = option_copied client.entry.user in
        list_any (concerns client.entry.id.now user name) (row_views all.new.items)
        ≡ (list_any (concerns client.entry.id.now user name) (row_views all.old.items)
        || list_any (row_covers client.entry.id.now user name) (lent_rows rows.now))) }
    ensures filled { OnOk result (All (IsFilled (option_copied client.entry.user))
        (row_views all.old.items)
        → All (IsFilled (option_copied client.entry.user)) (row_views all.new.items)) }
    ensures fault { (listed : List AclRow) → All (Contains listed) (lent_rows rows.now)
        → IfErr result (IsFillFault client.entry.id.now (option_copied client.entry.user)
        listed) }
{
    for row in rows {
        let Some(own) = filled_row(alloc, client, row)? else {
            continue;
        };
        push(all, own)?;
    }
    Ok(())
}
