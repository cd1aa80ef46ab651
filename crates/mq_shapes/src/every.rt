//! The search over clients whose texts have any number of levels.
ghost use Rattle.std.specs.Prelude.{◌≡◌, ◌&&◌, ◌≤◌, ◌<◌, ℕ, List, IfOk, IfNone, IfSome, codes, string_bytes};
ghost use Rattle.std.specs.Prelude.{[], None, Some, false};
ghost use Rattle.mq_cover.specs.Choices.{other_at};
ghost use Rattle.std.specs.List.{list_any};
ghost use Rattle.mq_topic.specs.Levels.{levels};
ghost use Rattle.mq_acl.specs.Views.{row_view};
ghost use Rattle.mq_shapes.specs.Every.{FindsNoneWith, HasNoneNamed, HasNoneOfOthers, HasNoneUnnamed};
ghost use Rattle.mq_shapes.specs.Every.{IsFoundWith, IsOfOthers, IsOfUser, has_mark, has_user_mark};
ghost use Rattle.mq_shapes.specs.Every.{with_levels};
ghost use Rattle.mq_shapes.specs.Total.{AreTried};
ghost use Rattle.mq_shapes.specs.Passed.{Passes, ShapePasses};
ghost use Rattle.mq_shapes.specs.Found.{AreAllReady, FindsNone, IsFound, IsUserReady, is_listed};
ghost use Rattle.mq_unify.specs.declared.shape.UserShape.TheVariants.{Known};
ghost use Rattle.mq_unify.specs.Joined.{user_view};
ghost use Rattle.mq_unify.specs.Rows.{lent_rows};

use crate::few::few_levels;
use crate::filled::has_mark;
use crate::found::{Found, Shaped};
use crate::total::most_total;
use mq_acl::Row;
use mq_cover::{Others, Start};
use mq_unify::{ClientShape, UserShape};
use std::alloc::{AllocError, Global};

fn any_marked(rows: &[&Row], mark: &str) -> bool
    ensures { result ≡ list_any (λ row. has_mark mark.now (row_view row.now)) rows.now }
{
    rows.iter().any(|row| has_mark(*row, mark))
}

// Whether one of the rows has this mark.
fn some_mark(rows: &[&Row], mark: &str) -> bool
    ensures { result ≡ list_any (has_mark mark.now) (lent_rows rows.now) }
{
    any_marked(rows, mark)
}

// How many levels the texts that stand for this mark have at most: no more than a topic that all rows cover, and where no row
// has the mark one is as good as more.
fn most_levels(rows: &[&Row], mark: &str) -> u8
    ensures few { result ≤ 200 }
    ensures enough { AreTried mark.now (lent_rows rows.now) result }
{
    if some_mark(rows, mark) {
        most_total(rows)
    } else {
        1
    }
}

/// The topics that are looked for, and the rows that are asked about clients.
#[derive(Clone, Copy, Drop)]
pub struct Search<'a> {
    /// The levels that stand for those that no row names.
    pub others: Others<'a>,
    /// With what the topics begin.
    pub start: Start,
    /// User names that the clients don't have.
    pub users: &'a [&'a str],
    /// The rows that are to cover a topic.
    pub must: &'a [&'a Row],
    /// Those that aren't.
    pub cover: &'a [&'a Row],
    ghost ready: { AreAllReady others start users.now (lent_rows must.now) (lent_rows cover.now) },
}

impl<'a> Search<'a> {
    // Of clients with an id of so many levels.
    fn with_levels(
        &self,
        alloc: Global,
        levels: u8,
        user: UserShape<'a>,
    ) -> Result<Option<Found>, AllocError>
        requires levels { 0 < levels }
        requires user { IsUserReady self.now.others self.now.start user }
        ensures none { IfOk result (λ found. IfNone found (FindsNone self.now.start
            (with_levels levels user.entry) self.now.users.now (lent_rows self.now.must.now)
            (lent_rows self.now.cover.now))) }
        ensures some { IfOk result (λ found. IfSome found (λ found. IsFound self.now.start
            (with_levels levels user.entry) self.now.users.now (lent_rows self.now.must.now)
            (lent_rows self.now.cover.now) (string_bytes found.client) (user_view found.user)
            (string_bytes found.topic))) }
        ensures pass { IfOk result (λ found. IfSome found (λ found. ShapePasses self.now.others
            (other_at self.now.start self.now.others) user.entry (lent_rows self.now.must.now)
            (string_bytes found.client) (user_view found.user) (string_bytes found.topic))) }
    {
        let shaped = Shaped {
            others: self.others,
            start: self.start,
            shape: ClientShape { levels, user },
            users: self.users,
            must: self.must,
            cover: self.cover,
        };
        shaped.find(alloc)
    }

    // With how many levels of an id it is enough to try.
    fn most_ids(&self, user: UserShape<'a>) -> u8
        ensures few { result ≤ 200 }
        ensures enough { ((count : ℕ) → 0 < count → count ≤ result
            → FindsNone self.now.start (with_levels count user.entry) self.now.users.now
            (lent_rows self.now.must.now) (lent_rows self.now.cover.now))
            → FindsNoneWith self.now.start user.entry self.now.users.now
            (lent_rows self.now.must.now) (lent_rows self.now.cover.now) }
    {
        let most = most_levels(self.must, "%c");
        if !some_mark(self.must, "%c") {
            return most;
        }
        match few_levels(self.must, self.cover, user) {
            Some(few) => if few < most { few } else { most },
            None => most,
        }
    }

    // Of clients with any id, and with such a user name.
    fn with_user(&self, alloc: Global, user: UserShape<'a>) -> Result<Option<Found>, AllocError>
        requires { IsUserReady self.now.others self.now.start user }
        ensures none { IfOk result (λ found. IfNone found (FindsNoneWith self.now.start user.entry
            self.now.users.now (lent_rows self.now.must.now) (lent_rows self.now.cover.now))) }
        ensures some { IfOk result (λ found. IfSome found (λ found. IsFoundWith self.now.start
            user.entry self.now.users.now (lent_rows self.now.must.now)
            (lent_rows self.now.cover.now) (string_bytes found.client) (user_view found.user)
            (string_bytes found.topic))) }
        ensures pass { IfOk result (λ found. IfSome found (λ found. ShapePasses self.now.others
            (other_at self.now.start self.now.others) user.entry (lent_rows self.now.must.now)
            (string_bytes found.client) (user_view found.user) (string_bytes found.topic))) }
    {
        for levels in 0..self.most_ids(user) {
            if let Some(found) = self.with_levels(alloc, levels + 1, user)? {
                return Ok(Some(found));
            }
        }
        Ok(None)
    }

    /// A client whose user name isn't listed, and a topic that each of the first rows covers and none of the others does; or that
    /// there is none. The id and the user name may have any number of levels, but no wildcards. The rule on names that
    /// begin with `$` is left out.
    pub fn of_others(&self, alloc: Global) -> Result<Option<Found>, AllocError>
        ensures none { IfOk result (λ found. IfNone found (HasNoneOfOthers self.now.start
            self.now.users.now (lent_rows self.now.must.now) (lent_rows self.now.cover.now))) }
        ensures some { IfOk result (λ found. IfSome found (λ found. IsOfOthers self.now.start
            self.now.users.now (lent_rows self.now.must.now) (lent_rows self.now.cover.now)
            (string_bytes found.client) (user_view found.user) (string_bytes found.topic))) }
        ensures pass { IfOk result (λ found. IfSome found (λ found. Passes self.now.others
            (other_at self.now.start self.now.others) [] (lent_rows self.now.must.now)
            (string_bytes found.client) (user_view found.user) (string_bytes found.topic))) }
    {
        for levels in 0..most_levels(self.must, "%u") {
            if let Some(found) = self.with_user(alloc, UserShape::Levels(levels + 1))? {
                return Ok(Some(found));
            }
        }
        Ok(None)
    }

    /// The same of clients with this user name, of which no level begins as those do that stand for others.
    pub fn of_user(&self, alloc: Global, name: &'a str) -> Result<Option<Found>, AllocError>
        requires ready { IsUserReady self.now.others self.now.start (Known name) }
        requires unlisted { is_listed self.now.users.now (Some name.now) ≡ false }
        ensures none { IfOk result (λ found. IfNone found (HasNoneNamed self.now.start
            name.entry.now (lent_rows self.now.must.now) (lent_rows self.now.cover.now))) }
        ensures some { IfOk result (λ found. IfSome found (λ found. IsOfUser self.now.start
            (Some name.entry.now) (lent_rows self.now.must.now) (lent_rows self.now.cover.now)
            (string_bytes found.client) (user_view found.user) (string_bytes found.topic))) }
        ensures pass { IfOk result (λ found. IfSome found (λ found. Passes self.now.others
            (other_at self.now.start self.now.others) (levels name.entry.now)
            (lent_rows self.now.must.now) (string_bytes found.client) (user_view found.user)
            (string_bytes found.topic))) }
    {
        self.with_user(alloc, UserShape::Known(name))
    }

    /// The same of clients without a user name. None of the rows may have `%u`: they aren't asked for them.
    pub fn unnamed(&self, alloc: Global) -> Result<Option<Found>, AllocError>
        requires must { list_any has_user_mark (lent_rows self.now.must.now) ≡ false }
        requires cover { list_any has_user_mark (lent_rows self.now.cover.now) ≡ false }
        ensures none { IfOk result (λ found. IfNone found (HasNoneUnnamed self.now.start
            (lent_rows self.now.must.now) (lent_rows self.now.cover.now))) }
        ensures some { IfOk result (λ found. IfSome found (λ found. IsOfUser self.now.start None
            (lent_rows self.now.must.now) (lent_rows self.now.cover.now)
            (string_bytes found.client) (user_view found.user) (string_bytes found.topic))) }
        ensures pass { IfOk result (λ found. IfSome found (λ found. Passes self.now.others
            (other_at self.now.start self.now.others) [] (lent_rows self.now.must.now)
            (string_bytes found.client) (user_view found.user) (string_bytes found.topic))) }
    {
        self.with_user(alloc, UserShape::Absent)
    }
}
