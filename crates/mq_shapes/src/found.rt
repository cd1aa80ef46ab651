//! A client of a shape, with a topic that rows ask for.
ghost use Rattle.std.specs.Prelude.{◌≡◌, ◌≤◌, ℕ, List, length, Option, IfOk, IfNone, IfSome, true, false};
ghost use Rattle.std.specs.Prelude.{string_bytes};
ghost use Rattle.std.specs.Prelude.{[]};
ghost use Rattle.std.specs.List.{list_all};
ghost use Rattle.std.specs.Option.{unwrap_or};
ghost use Rattle.mq_topic.specs.Levels.{levels};
ghost use Rattle.mq_cover.specs.Choices.{other_at};
ghost use Rattle.mq_cover.specs.Names.{are_others, ends, is_choice};
ghost use Rattle.mq_cover.specs.Paths.{levels_of};
ghost use Rattle.mq_shapes.specs.Filled.{text_levels};
ghost use Rattle.mq_shapes.specs.Found.{AreLeft, FindsNone, HasNone, IsFound, IsMatched, IsReady, IsTopic};
ghost use Rattle.mq_shapes.specs.Found.{MatchesNone, all_fit, has_name, has_texts, is_empty_name};
ghost use Rattle.mq_shapes.specs.Found.{is_listed};
ghost use Rattle.mq_shapes.specs.Passed.{ClientTopicPasses, ShapePasses, TopicPasses};
ghost use Rattle.mq_unify.specs.Clients.{user_passes};
ghost use Rattle.mq_unify.specs.Joined.{join_levels, user_view};
ghost use Rattle.mq_unify.specs.Rows.{lent_rows};

use crate::filled::row_texts;
use mq_acl::{Names, Row};
use mq_cover::{Marks, Others, Path, Remainder, Start, find};
use mq_unify::{ClientShape, General, most_general};
use std::alloc::{AllocError, Global};

/// Clients of one shape, the topics that are looked for, and the rows that are asked about them.
#[derive(Clone, Copy, Drop)]
pub struct Shaped<'a> {
    /// The levels that stand for those that no row names.
    pub others: Others<'a>,
    /// With what the topics begin.
    pub start: Start,
    /// The clients.
    pub shape: ClientShape<'a>,
    /// User names that they don't have.
    pub users: &'a [&'a str],
    /// The rows that are to cover a topic.
    pub must: &'a [&'a Row],
    /// Those that aren't.
    pub cover: &'a [&'a Row],
    ghost ready: { IsReady others start shape users.now (lent_rows must.now)
        (lent_rows cover.now) },
}

/// A client with a topic.
#[derive(Drop)]
pub struct Found {
    /// Its client id.
    pub client: String,
    /// Its user name, if it has one.
    pub user: Option<String>,
    /// The topic.
    pub topic: String,
}

// The text of the name on this path.
fn text_on(alloc: Global, path: &Path) -> Result<String, AllocError>
    ensures { IfOk result (λ text. string_bytes text ≡ join_levels (levels_of path.now)) }
{
    let mut levels = Vec::new(alloc);
    levels.extend_from_slice(&path.levels)?;
    levels.reverse();
    levels.join(alloc, "/")
}

// What is left of filters with these texts: all of them.
fn whole<'a>(alloc: Global, texts: &'a [String]) -> Result<Vec<Remainder<'a>>, AllocError>
    ensures { IfOk result (λ rs. AreLeft rs.items (text_levels texts.entry.now)) }
{
    let mut all = Vec::new(alloc);
    for text in texts {
        all.push(Remainder {
            pattern: false,
            rest: Some(text.as_str()),
        })?;
    }
    Ok(all)
}

// The filters of rows for one client.
#[derive(Drop)]
pub(crate) struct Texts {
    pub must: Vec<String>,
    pub cover: Vec<String>,
}

impl Texts {
    // A topic that each of the first matches and none of the others does.
    pub fn topic<'a>(
        &'a self,
        alloc: Global,
        others: Others<'a>,
        start: Start,
    ) -> Result<Option<String>, AllocError>
        requires others { are_others others ≡ true }
        requires front { ends start ≡ false }
        requires must { all_fit (is_choice others) (text_levels self.now.must.items) ≡ true }
        requires cover { all_fit (is_choice others) (text_levels self.now.cover.items) ≡ true }
        ensures none { IfOk result (λ topic. IfNone topic (MatchesNone start
            (text_levels self.now.must.items) (text_levels self.now.cover.items))) }
        ensures some { IfOk result (λ topic. IfSome topic (λ topic. IsMatched start
            (text_levels self.now.must.items) (text_levels self.now.cover.items)
            (string_bytes topic))) }
        ensures pass { IfOk result (λ topic. IfSome topic (λ topic. TopicPasses others.entry
            (text_levels self.now.must.items) (string_bytes topic))) }
    {
        let must = whole(alloc, &self.must)?;
        let cover = whole(alloc, &self.cover)?;
        let marks = Marks {
            client: None,
            user: None,
        };
        let Some(path) = find(alloc, marks, others, start, 200, &must, &cover)? else {
            return Ok(None);
        };
        Ok(Some(text_on(alloc, &path)?))
    }
}

// What stands in the place of marks.
fn names_of(general: &General) -> Names<'_>
    ensures client { result.client.now ≡ string_bytes general.now.client }
    ensures user { result.user.now ≡ unwrap_or (user_view general.now.user) [] }
{
    Names {
        client: general.client.as_str(),
        user: match &general.user {
            Some(user) => user.as_str(),
            None => "",
        },
    }
}

fn has_name(names: &[&str], user: &str) -> bool
    ensures { result ≡ has_name names.now user.now }
{
    names.iter().any(|name| user == *name)
}

// Whether a client has one of these user names.
fn is_listed(users: &[&str], general: &General) -> bool
    ensures { result ≡ is_listed users.now (user_view general.now.user) }
{
    match &general.user {
        Some(user) => has_name(users, user.as_str()),
        None => false,
    }
}

fn is_empty_name(user: &Option<String>) -> bool
    ensures { result ≡ is_empty_name (user_view user.now) }
{
    match user {
        Some(user) => user.is_empty(),
        None => false,
    }
}

// Whether neither its id nor its user name is empty: a broker has no such client.
fn has_texts(general: &General) -> bool
    ensures { result
        ≡ has_texts (string_bytes general.now.client) (user_view general.now.user) }
{
    !general.client.is_empty() && !is_empty_name(&general.user)
}

impl<'a> Shaped<'a> {
    // What the levels begin with that no row names.
    fn prefix(&self) -> &'a str
        ensures { result.now ≡ other_at self.now.start self.now.others }
    {
        match self.start {
            Start::Dollar | Start::Readable | Start::Writable => self.others.dollar,
            _ => self.others.plain,
        }
    }

    // A topic of this client that the rows ask for.
    fn topic_of(&self, alloc: Global, general: &General) -> Result<Option<String>, AllocError>
        requires client { list_all (is_choice self.now.others)
            (levels (string_bytes general.now.client)) ≡ true }
        requires user { user_passes (is_choice self.now.others)
            (user_view general.now.user) ≡ true }
        ensures none { IfOk result (λ topic. IfNone topic (HasNone self.now.start
            (lent_rows self.now.must.now) (lent_rows self.now.cover.now)
            (string_bytes general.now.client) (user_view general.now.user))) }
        ensures some { IfOk result (λ topic. IfSome topic (λ topic. IsTopic self.now.start
            (lent_rows self.now.must.now) (lent_rows self.now.cover.now)
            (string_bytes general.now.client) (user_view general.now.user)
            (string_bytes topic))) }
        ensures pass { IfOk result (λ topic. IfSome topic (λ topic. ClientTopicPasses
            self.now.others (lent_rows self.now.must.now) (string_bytes general.now.client)
            (user_view general.now.user) (string_bytes topic))) }
    {
        let names = names_of(general);
        let texts = Texts {
            must: row_texts(alloc, names, self.must)?,
            cover: row_texts(alloc, names, self.cover)?,
        };
        texts.topic(alloc, self.others, self.start)
    }

    /// A client of this shape whose user name isn't listed, with a topic that each of the first rows covers and none of the
    /// others does; or that there is none. The rule on names that begin with `$` is left out.
    pub fn find(&self, alloc: Global) -> Result<Option<Found>, AllocError>
        ensures none { IfOk result (λ found. IfNone found (FindsNone self.now.start self.now.shape
            self.now.users.now (lent_rows self.now.must.now)
            (lent_rows self.now.cover.now))) }
        ensures some { IfOk result (λ found. IfSome found (λ found. IsFound self.now.start
            self.now.shape self.now.users.now (lent_rows self.now.must.now)
            (lent_rows self.now.cover.now) (string_bytes found.client) (user_view found.user)
            (string_bytes found.topic))) }
        ensures pass { IfOk result (λ found. IfSome found (λ found. ShapePasses self.now.others
            (other_at self.now.start self.now.others) self.now.shape.user
            (lent_rows self.now.must.now) (string_bytes found.client) (user_view found.user)
            (string_bytes found.topic))) }
    {
        let general = most_general(alloc, self.prefix(), self.shape, self.must)?;
        let Some(general) = general else {
            return Ok(None);
        };
        if is_listed(self.users, &general) {
            return Ok(None);
        }
        if !has_texts(&general) {
            return Ok(None);
        }
        let topic = self.topic_of(alloc, &general)?;
        let Some(topic) = topic else {
            return Ok(None);
        };
        let General { client, user } = general;
        Ok(Some(Found {
            client,
            user,
            topic,
        }))
    }
}
