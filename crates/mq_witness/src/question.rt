//! A question about names that begin alike.
ghost use Rattle.std.specs.Prelude.{◌≡◌, ℕ, List, Option, true, IfOk, IfNone, IfSome, Some};
ghost use Rattle.std.specs.Prelude.{string_bytes};
ghost use Rattle.std.specs.Option.{option_copied};
ghost use Rattle.mq_cover.specs.Names.{is_choice};
ghost use Rattle.mq_cover.specs.Paths.{levels_of};
ghost use Rattle.mq_cover.specs.Remainders.{FindsNothing, mark_passes, marks_pass, marks_view};
ghost use Rattle.mq_witness.specs.Literals.{is_among};
ghost use Rattle.mq_witness.specs.Names.{start_at};
ghost use Rattle.mq_witness.specs.Ready.{CanAsk};
ghost use Rattle.mq_witness.specs.Roots.{marks_of};
ghost use Rattle.mq_witness.specs.Texts.{join_levels, level_of};
ghost use Rattle.mq_witness.specs.Tried.{is_tried_client, is_tried_user};

use crate::fresh::Fresh;
use crate::ids::level_of;
use crate::literals::{Literals, has_mark};
use crate::names::Names;
use crate::witness::Witness;
use mq_cover::{Marks, Path, Remainder, find};
use mq_topic::{TopicFault, TopicName};
use std::alloc::{AllocError, Global};

/// A client and a topic that were found.
#[derive(Drop)]
pub(crate) struct Found<'a> {
    pub client: &'a str,
    pub user: Option<&'a str>,
    pub name: TopicName,
}

/// Which of the names does each of the first filters cover, and none of the others?
#[derive(Drop)]
pub(crate) struct Question<'a> {
    pub fresh: Fresh<'a>,
    pub names: Names,
    pub must: Vec<Remainder<'a>>,
    pub cover: Vec<Remainder<'a>>,
    ghost can_ask: { CanAsk fresh names must.items cover.items },
}

impl Found<'_> {
    ghost use Rattle.mq_witness.specs.Asked.{user_view};

    /// It, with texts of its own.
    pub fn show(self, alloc: Global) -> Result<Witness, AllocError>
        ensures client { IfOk result (λ w. string_bytes w.client ≡ self.entry.client.now) }
        ensures user { IfOk result (λ w. user_view w.user ≡ option_copied self.entry.user) }
        ensures name { IfOk result (λ w. w.name ≡ self.entry.name) }
    {
        let Found { client, user, name } = self;
        let client = String::from_str(alloc, client)?;
        let user = match user {
            Some(user) => Some(String::from_str(alloc, user)?),
            None => None,
        };
        Ok(Witness { client, user, name })
    }
}

// The text of the name on this path.
fn text_on(alloc: Global, path: &Path) -> Result<String, AllocError>
    ensures { IfOk result (λ text. string_bytes text ≡ join_levels (levels_of path.now)) }
{
    let mut levels = Vec::new(alloc);
    levels.extend_from_slice(&path.levels)?;
    levels.reverse();
    levels.join(alloc, "/")
}

impl<'a> Question<'a> {
    ghost use Rattle.mq_witness.specs.Answers.{Hits, HitsOther, HitsUser, IsHit, Misses};
    ghost use Rattle.mq_witness.specs.Answers.{MissesOthers, MissesUser};

    // The client ids to try, with this level for a user name: one that stands for all others, and where one of the
    // first filters has `%c` all that another may demand for it.
    fn clients(&self, alloc: Global, user: Option<&'a str>) -> Result<Vec<&'a str>, AllocError>
        ensures { IfOk result (λ all. (c : List ℕ) → is_among c all.items
            ≡ is_tried_client self.now.fresh (option_copied user.entry) self.now.must.items c) }
    {
        let mut named = Literals::new(alloc);
        if !has_mark("%c", &self.must) {
            return named.list_behind(alloc, self.fresh.client);
        }
        named.add_mark(user)?;
        named.add_remainders(&self.must)?;
        named.list_behind(alloc, self.fresh.client)
    }

    // The user names to try, as the client ids.
    fn users(&self, alloc: Global) -> Result<Vec<&'a str>, AllocError>
        ensures { IfOk result (λ all. (u : List ℕ) → is_among u all.items
            ≡ is_tried_user self.now.fresh self.now.must.items u) }
    {
        let mut named = Literals::new(alloc);
        if !has_mark("%u", &self.must) {
            return named.list_behind(alloc, self.fresh.user);
        }
        named.add_remainders(&self.must)?;
        named.list_behind(alloc, self.fresh.user)
    }

    /// A name, where `%c` and `%u` stand for these levels, or for none; or that there is none.
    pub fn name(&self, alloc: Global, marks: Marks<'a>) -> Result<Option<TopicName>, AllocError>
        requires { marks_pass (is_choice self.now.fresh.others) (marks_view marks) ≡ true }
        ensures none { IfOk result (λ found. IfNone found (FindsNothing (start_at self.now.names)
            200 (marks_view marks.entry) self.now.must.items self.now.cover.items)) }
        ensures some { IfOk result (λ found. IfSome found
            (IsHit self.now (marks_view marks.entry))) }
    {
        let start = self.names.start();
        let others = self.fresh.others;
        let Some(path) = find(alloc, marks, others, start, 200, &self.must, &self.cover)? else {
            return Ok(None);
        };
        let text = text_on(alloc, &path)?;
        match TopicName::parse(alloc, text.as_str()) {
            Ok(name) => Ok(Some(name)),
            Err(fault) => match fault {
                TopicFault::Memory => Err(AllocError),
                _ => unreachable!(),
            },
        }
    }

    // A name for this client id and this level for a user name, or that there is none.
    fn ask(
        &self,
        alloc: Global,
        client: &'a str,
        user: Option<&'a str>,
    ) -> Result<Option<TopicName>, AllocError>
        requires { marks_pass (is_choice self.now.fresh.others)
            (marks_of client.now (option_copied user)) ≡ true }
        ensures none { IfOk result (λ found. IfNone found
            (Misses self.now client.entry.now (option_copied user.entry))) }
        ensures some { IfOk result (λ found. IfSome found
            (Hits self.now client.entry.now (option_copied user.entry))) }
    {
        let marks = Marks {
            client: Some(client),
            user,
        };
        self.name(alloc, marks)
    }

    /// A client of this user name, or without one, and a name, or that there is none for a client id that is tried.
    pub fn ask_user(
        &self,
        alloc: Global,
        user: Option<&'a str>,
    ) -> Result<Option<Found<'a>>, AllocError>
        requires { mark_passes (is_choice self.now.fresh.others) (level_of (option_copied user))
            ≡ true }
        ensures none { IfOk result (λ found. IfNone found
            (MissesUser self.now (option_copied user.entry))) }
        ensures some { IfOk result (λ found. IfSome found
            (HitsUser self.now (option_copied user.entry))) }
    {
        let level = level_of(user);
        for client in &self.clients(alloc, level)? {
            if let Some(name) = self.ask(alloc, client, level)? {
                return Ok(Some(Found { client, user, name }));
            }
        }
        Ok(None)
    }

    /// A client of a user name that isn't among these, and a name, or that there is none for a user name that is tried.
    pub fn ask_others(
        &self,
        alloc: Global,
        users: &Literals,
    ) -> Result<Option<Found<'a>>, AllocError>
        ensures none { IfOk result (λ found. IfNone found (MissesOthers self.now users.now)) }
        ensures some { IfOk result (λ found. IfSome found (HitsOther self.now users.now)) }
    {
        for user in &self.users(alloc)? {
            if users.names(user) {
                continue;
            }
            if let Some(found) = self.ask_user(alloc, Some(user))? {
                return Ok(Some(found));
            }
        }
        Ok(None)
    }
}
