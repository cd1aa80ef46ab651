//! The search over clients with a wildcard in their id or user name: by mosquitto's rules no `pattern` row is asked for them.
ghost use Rattle.std.specs.Prelude.{◌≡◌, None, IfOk, IfNone, IfSome, [], ◌++◌, map, string_bytes};
ghost use Rattle.std.specs.List.{filter, list_all};
ghost use Rattle.mq_acl.specs.Views.{row_view};
ghost use Rattle.mq_cover.specs.Choices.{other_at};
ghost use Rattle.mq_shapes.specs.Covered.{AreEnough};
ghost use Rattle.mq_shapes.specs.Found.{AreReady, HasNone, IsTopic};
ghost use Rattle.mq_shapes.specs.Filled.{row_levels};
ghost use Rattle.mq_shapes.specs.Passed.{OwnPasses, TopicPasses};
ghost use Rattle.mq_shapes.specs.Odd.{IsOdd, IsOddUser, OddNone, is_own_kept, is_own_of};
ghost use Rattle.mq_unify.specs.Joined.{user_view};
ghost use Rattle.mq_unify.specs.Rows.{lent_rows};

use crate::clients::Clients;
use crate::covered::enough;
use crate::filled::{is_pattern, row_texts};
use crate::found::{Found, Texts};
use crate::ruled::{Ruled, has_dollar, hides, joined};
use mq_acl::{Names, Row, applies};
use mq_cover::{Others, Start};
use std::alloc::{AllocError, Global};

fn is_own_of(clients: Clients<'_>, row: &Row) -> bool
    ensures { result ≡ is_own_of clients.entry (row_view row.now) }
{
    match clients {
        Clients::Anonymous => applies(None, &row.owner) && !is_pattern(&row.owner),
        Clients::Named(name) => applies(Some(name), &row.owner) && !is_pattern(&row.owner),
        Clients::Others => false,
    }
}

// Whether the row is one of the clients' own, and can cover these names.
fn is_own_kept(start: Start, clients: Clients<'_>, row: &Row) -> bool
    ensures { result ≡ is_own_kept start clients.entry (row_view row.now) }
{
    is_own_of(clients, row) && !(has_dollar(start) && hides(row))
}

fn are_own(start: Start, clients: Clients<'_>, rows: &[&Row]) -> bool
    ensures { result
        ≡ list_all (λ row. is_own_kept start clients.entry (row_view row.now)) rows.now }
{
    rows.iter().all(|row| is_own_kept(start, clients, *row))
}

fn own<'a>(
    alloc: Global,
    start: Start,
    clients: Clients<'_>,
    rows: &[&'a Row],
) -> Result<Vec<&'a Row>, AllocError>
    ensures { IfOk result (λ kept. kept.items
        ≡ filter (λ row. is_own_kept start clients.entry (row_view row.now)) rows.now) }
{
    rows.iter()
        .copied()
        .filter(|row| is_own_kept(start, clients, *row))
        .collect(alloc)
}

// The level that stands for those that no row names.
fn other<'a>(start: Start, others: Others<'a>) -> &'a str
    ensures { result.now ≡ other_at start others.entry }
{
    match start {
        Start::Dollar | Start::Readable | Start::Writable => others.dollar,
        _ => others.plain,
    }
}

// A user name of these clients; of others one that no row names.
fn some_user(alloc: Global, clients: Clients<'_>, other: &str) -> Result<Option<String>, AllocError>
    ensures { IfOk result (λ user. IsOddUser clients.entry other.now (user_view user)) }
{
    match clients {
        Clients::Anonymous => Ok(None),
        Clients::Named(name) => Ok(Some(String::from_str(alloc, name)?)),
        Clients::Others => Ok(Some(String::from_str(alloc, other)?)),
    }
}

impl<'a> Ruled<'a> {
    // A topic that each of the first rows covers as it is written, and none of these does.
    fn own_topic(
        &self,
        alloc: Global,
        must: &[&Row],
        cover: &[&Row],
    ) -> Result<Option<String>, AllocError>
        requires must { AreReady self.now.others self.now.start (lent_rows must.now) }
        requires cover { AreReady self.now.others self.now.start (lent_rows cover.now) }
        ensures none { IfOk result (λ topic. IfNone topic (HasNone self.now.start
            (lent_rows must.now) (lent_rows cover.now) [] None)) }
        ensures some { IfOk result (λ topic. IfSome topic (λ topic. IsTopic self.now.start
            (lent_rows must.now) (lent_rows cover.now) [] None
            (string_bytes topic))) }
        ensures pass { IfOk result (λ topic. IfSome topic (λ topic. TopicPasses self.now.others
            (map (row_levels [] []) (lent_rows must.now)) (string_bytes topic))) }
    {
        let names = Names {
            client: "",
            user: "",
        };
        let texts = Texts {
            must: row_texts(alloc, names, must)?,
            cover: row_texts(alloc, names, cover)?,
        };
        texts.topic(alloc, self.others, self.start)
    }

    // The clients' own rows of `cover` that may cover a name which all of these cover.
    fn own_rest(
        &self,
        alloc: Global,
        clients: Clients<'_>,
        must: &[&Row],
    ) -> Result<Vec<&'a Row>, AllocError>
        ensures { IfOk result (λ rows. AreEnough (lent_rows must.now)
            (filter (is_own_kept self.now.start clients.entry) (lent_rows self.now.cover.now))
            (lent_rows rows.items)) }
    {
        let rows = own(alloc, self.start, clients, self.cover)?;
        enough(alloc, must, &rows)
    }

    /// The same as `find` of clients whose id or user name has a `+` or a `#`.
    pub fn find_odd(&self, alloc: Global, clients: Clients<'a>) -> Result<Option<Found>, AllocError>
        ensures none { IfOk result (λ found. IfNone found (OddNone self.now.start
            self.now.users.now clients.entry (lent_rows self.now.within.now)
            (lent_rows self.now.must.now) (lent_rows self.now.cover.now))) }
        ensures some { IfOk result (λ found. IfSome found (λ found. IsOdd self.now.others
            self.now.start self.now.users.now clients.entry (lent_rows self.now.within.now)
            (lent_rows self.now.must.now) (lent_rows self.now.cover.now) (string_bytes found.client) (user_view found.user)
            (string_bytes found.topic))) }
        ensures pass { IfOk result (λ found. IfSome found (λ found. OwnPasses self.now.others
            (lent_rows self.now.within.now ++ lent_rows self.now.must.now)
            (string_bytes found.topic))) }
    {
        if !are_own(self.start, clients, self.must) {
            return Ok(None);
        }
        if self.begins_elsewhere() {
            return Ok(None);
        }
        let must = joined(alloc, self.within, self.must)?;
        let cover = self.own_rest(alloc, clients, &must)?;
        let Some(topic) = self.own_topic(alloc, &must, &cover)? else {
            return Ok(None);
        };
        let user = some_user(alloc, clients, other(self.start, self.others))?;
        Ok(Some(Found {
            client: String::from_str(alloc, "+")?,
            user,
            topic,
        }))
    }
}
