//! The search by mosquitto's rules.
ghost use Rattle.std.specs.Prelude.{◌≡◌, ◌++◌, IfOk, IfNone, IfSome, IsTrue, string_bytes, true};
ghost use Rattle.std.specs.List.{filter, list_all};
ghost use Rattle.mq_acl.specs.Views.{row_view};
ghost use Rattle.mq_shapes.specs.Covered.{AreEnough};
ghost use Rattle.mq_shapes.specs.Ruled.{AreElsewhere, AreKnown, AreRuled, IsElsewhere, IsRuled};
ghost use Rattle.mq_shapes.specs.Ruled.{RulesNone, has_dollar, hides, is_for, is_kept};
ghost use Rattle.mq_shapes.specs.Ruled.{known_levels, left_out};
ghost use Rattle.mq_shapes.specs.Passed.{Passes};
ghost use Rattle.mq_cover.specs.Choices.{other_at};
ghost use Rattle.mq_unify.specs.Joined.{user_view};
ghost use Rattle.mq_unify.specs.Rows.{lent_rows};

use crate::clients::Clients;
use crate::covered::{enough, hits_none, is_filled};
use crate::every::Search;
use crate::filled::{has_mark, is_pattern};
use crate::found::Found;
use mq_acl::{Row, applies};
use mq_cover::{Others, Start};
use mq_topic::{LevelText, split_first};
use std::alloc::{AllocError, Global};

pub(crate) fn has_dollar(start: Start) -> bool
    ensures { result ≡ has_dollar start }
{
    match start {
        Start::Dollar | Start::Readable | Start::Writable => true,
        _ => false,
    }
}

pub(crate) fn hides(row: &Row) -> bool
    ensures { result ≡ hides (row_view row.now) }
{
    let (first, _) = split_first(row.filter.text());
    first == "+" || first == "#"
}

fn is_for(clients: Clients<'_>, row: &Row) -> bool
    ensures { result ≡ is_for clients.entry (row_view row.now) }
{
    match clients {
        Clients::Anonymous => applies(None, &row.owner) && !has_mark(row, "%u"),
        Clients::Named(name) => applies(Some(name), &row.owner),
        Clients::Others => is_pattern(&row.owner),
    }
}

// Whether the row can concern these clients and these names.
fn is_kept(start: Start, clients: Clients<'_>, row: &Row) -> bool
    ensures { result ≡ is_kept start clients.entry (row_view row.now) }
{
    is_for(clients, row) && !(has_dollar(start) && hides(row))
}

fn are_kept(start: Start, clients: Clients<'_>, rows: &[&Row]) -> bool
    ensures { result
        ≡ list_all (λ row. is_kept start clients.entry (row_view row.now)) rows.now }
{
    rows.iter().all(|row| is_kept(start, clients, *row))
}

// The rows that can.
fn kept<'a>(
    alloc: Global,
    start: Start,
    clients: Clients<'_>,
    rows: &[&'a Row],
) -> Result<Vec<&'a Row>, AllocError>
    ensures { IfOk result (λ kept. kept.items
        ≡ filter (λ row. is_kept start clients.entry (row_view row.now)) rows.now) }
{
    rows.iter()
        .copied()
        .filter(|row| is_kept(start, clients, *row))
        .collect(alloc)
}

// Whether the row begins with a level that no such name begins with.
fn is_elsewhere(start: Start, row: &Row) -> bool
    ensures { IsTrue result → IsElsewhere start (row_view row.now) }
{
    let (first, _) = split_first(row.filter.text());
    if first == "+" || first == "#" || is_filled(is_pattern(&row.owner), first) {
        return false;
    }
    !start.fits(first)
}

// Whether one of these does.
fn some_elsewhere(start: Start, rows: &[&Row]) -> bool
    ensures { IsTrue result → AreElsewhere start (lent_rows rows.now) }
{
    for row in rows {
        if is_elsewhere(start, *row) {
            return true;
        }
    }
    false
}

/// What is looked for by mosquitto's rules, of clients whose texts have any number of levels.
#[derive(Clone, Copy, Drop)]
pub struct Ruled<'a> {
    /// The levels that stand for those that no row names.
    pub others: Others<'a>,
    /// With what the topics begin.
    pub start: Start,
    /// The user names of the rows.
    pub users: &'a [&'a str],
    /// Rows whose filters are to match the topics, whoever they are for.
    pub within: &'a [&'a Row],
    /// The rows that are to concern the client and the topic.
    pub must: &'a [&'a Row],
    /// Those that aren't.
    pub cover: &'a [&'a Row],
    ghost ready: { AreRuled others start users.now (lent_rows within.now) (lent_rows must.now)
        (lent_rows cover.now) },
}

// The rows of both lists.
pub(crate) fn joined<'a>(
    alloc: Global,
    first: &[&'a Row],
    second: &[&'a Row],
) -> Result<Vec<&'a Row>, AllocError>
    ensures { IfOk result (λ rows. rows.items ≡ first.now ++ second.now) }
{
    let mut rows = Vec::new(alloc);
    rows.extend_from_slice(first)?;
    rows.extend_from_slice(second)?;
    Ok(rows)
}

// The user names that they don't have.
fn left_out<'a>(clients: Clients<'_>, users: &'a [&'a str]) -> &'a [&'a str]
    ensures { result.now ≡ left_out clients.entry users.entry.now }
{
    match clients {
        Clients::Others => users,
        _ => &[],
    }
}

impl<'a> Ruled<'a> {
    // Whether one of the first rows covers no name that begins so.
    pub(crate) fn begins_elsewhere(&self) -> bool
        ensures { IsTrue result → AreElsewhere self.now.start
            (lent_rows self.now.within.now ++ lent_rows self.now.must.now) }
    {
        some_elsewhere(self.start, self.within) || some_elsewhere(self.start, self.must)
    }

    // Those of `cover` that can concern these clients, and may cover a name which all of these cover.
    fn rest(
        &self,
        alloc: Global,
        clients: Clients<'_>,
        must: &[&Row],
    ) -> Result<Vec<&'a Row>, AllocError>
        ensures { IfOk result (λ rows. AreEnough (lent_rows must.now)
            (filter (is_kept self.now.start clients.entry) (lent_rows self.now.cover.now))
            (lent_rows rows.items)) }
    {
        let rows = kept(alloc, self.start, clients, self.cover)?;
        enough(alloc, must, &rows)
    }

    /// A client and a topic that each of the first rows concerns and none of the others does; or that there is none. The client
    /// id and the user name may have any number of levels, but no wildcards.
    pub fn find(&self, alloc: Global, clients: Clients<'a>) -> Result<Option<Found>, AllocError>
        requires user { AreKnown self.now.others self.now.start clients }
        ensures none { IfOk result (λ found. IfNone found (RulesNone self.now.start
            self.now.users.now clients.entry (lent_rows self.now.within.now)
            (lent_rows self.now.must.now) (lent_rows self.now.cover.now))) }
        ensures some { IfOk result (λ found. IfSome found (λ found. IsRuled self.now.start
            self.now.users.now clients.entry (lent_rows self.now.within.now)
            (lent_rows self.now.must.now) (lent_rows self.now.cover.now) (string_bytes found.client) (user_view found.user)
            (string_bytes found.topic))) }
        ensures pass { IfOk result (λ found. IfSome found (λ found. Passes self.now.others
            (other_at self.now.start self.now.others) (known_levels clients.entry)
            (lent_rows self.now.within.now ++ lent_rows self.now.must.now)
            (string_bytes found.client) (user_view found.user) (string_bytes found.topic))) }
    {
        if !are_kept(self.start, clients, self.must) {
            return Ok(None);
        }
        if self.begins_elsewhere() {
            return Ok(None);
        }
        let must = joined(alloc, self.within, self.must)?;
        let cover = self.rest(alloc, clients, &must)?;
        if hits_none(&must, &cover) {
            return Ok(None);
        }
        let search = Search {
            others: self.others,
            start: self.start,
            users: left_out(clients, self.users),
            must: &must,
            cover: &cover,
        };
        match clients {
            Clients::Anonymous => search.unnamed(alloc),
            Clients::Named(name) => search.of_user(alloc, name),
            Clients::Others => search.of_others(alloc),
        }
    }
}
