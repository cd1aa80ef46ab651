//! The texts of the most general client.
ghost use Rattle.std.specs.Prelude.{◌≡◌, ◌<◌, ◌++◌, ℕ, Bool, List, Option, IfOk, IfNone, IfSome, false, string_bytes};
ghost use Rattle.std.specs.Prelude.{true};
ghost use Rattle.mq_unify.specs.Bindings.{bindings_fit, general_text, level_fits, text_of};
ghost use Rattle.mq_unify.specs.Clients.{user_fits, user_values_fit, values_from};
ghost use Rattle.mq_unify.specs.Joined.{HasLevels, IsUserOf, join_levels, user_view};
ghost use Rattle.mq_unify.specs.General.{IsMostGeneral, IsSound};
ghost use Rattle.mq_unify.specs.Rows.{AllMade, lent_rows, row_matches};
ghost use Rattle.mq_unify.specs.Unlike.{FreshPass, fresh_text};
ghost use Rattle.std.specs.List.{list_all};

use crate::binding::{Bindings, Level};
use crate::lengths::are_apart;
use crate::rows::rows_terms;
use crate::shape::{ClientShape, UserShape};
use crate::unify::unify_all;
use mq_acl::Row;
use std::alloc::{AllocError, Global};

// The text with this number of those that no row names.
fn fresh_text(alloc: Global, prefix: &str, number: u16) -> Result<String, AllocError>
    ensures { IfOk result (λ text. string_bytes text ≡ fresh_text prefix.now number) }
{
    let number = u32::from(number) + 1;
    format!(in alloc; "{prefix}{number}")
}

// The text of a level.
fn level_text(alloc: Global, prefix: &str, level: Level) -> Result<String, AllocError>
    ensures text { IfOk result (λ text. string_bytes text
        ≡ text_of (fresh_text prefix.now) level.entry) }
    ensures passes { (test : List ℕ → Bool) → FreshPass prefix.now test
        → level_fits test level.entry ≡ true
        → test (text_of (fresh_text prefix.now) level.entry) ≡ true }
{
    match level {
        Level::Free(number) => fresh_text(alloc, prefix, number),
        Level::Known(text) => String::from_str(alloc, text),
    }
}

// The text of the level with this number.
fn number_text(
    alloc: Global,
    prefix: &str,
    bindings: &Bindings,
    number: u16,
) -> Result<String, AllocError>
    ensures text { IfOk result (λ text. string_bytes text
        ≡ general_text prefix.now bindings.now.bindings.items number) }
    ensures passes { (test : List ℕ → Bool) → FreshPass prefix.now test
        → bindings_fit test bindings.now.bindings.items ≡ true
        → test (general_text prefix.now bindings.now.bindings.items number) ≡ true }
{
    let level = bindings.level(Level::Free(number));
    level_text(alloc, prefix, level)
}

// The text of as many levels, from this one on.
fn joined(
    alloc: Global,
    prefix: &str,
    bindings: &Bindings,
    first: u8,
    count: u8,
) -> Result<String, AllocError>
    ensures text { IfOk result (λ text. 0 < count → string_bytes text ≡ join_levels
        (values_from (general_text prefix.now bindings.now.bindings.items) first count)) }
    ensures passes { IfOk result (λ _. (test : List ℕ → Bool) → FreshPass prefix.now test
        → bindings_fit test bindings.now.bindings.items ≡ true → list_all test
        (values_from (general_text prefix.now bindings.now.bindings.items) first count) ≡ true) }
{
    let mut text = number_text(alloc, prefix, bindings, u16::from(first))?;
    for place in 1..count {
        let number = u16::from(first) + u16::from(place);
        let level = number_text(alloc, prefix, bindings, number)?;
        text.push_str("/")?;
        text.push_str(level.as_str())?;
    }
    Ok(text)
}

/// A client.
#[derive(Drop)]
pub struct General {
    /// Its client id.
    pub client: String,
    /// Its user name, if it has one.
    pub user: Option<String>,
}

// The user name of these clients, with these levels.
fn user_text(
    alloc: Global,
    prefix: &str,
    bindings: &Bindings,
    shape: ClientShape,
) -> Result<Option<String>, AllocError>
    ensures text { IfOk result (λ user. HasLevels shape.entry.user
        → IsUserOf shape.entry (general_text prefix.now bindings.now.bindings.items)
        (user_view user)) }
    ensures passes { IfOk result (λ _. (test : List ℕ → Bool) → FreshPass prefix.now test
        → bindings_fit test bindings.now.bindings.items ≡ true
        → user_fits test shape.entry.user ≡ true → user_values_fit test shape.entry.user
        (general_text prefix.now bindings.now.bindings.items) shape.entry.levels ≡ true) }
{
    match shape.user {
        UserShape::Absent => Ok(None),
        UserShape::Known(name) => Ok(Some(String::from_str(alloc, name)?)),
        UserShape::Levels(count) => {
            let text = joined(alloc, prefix, bindings, shape.levels, count)?;
            Ok(Some(text))
        }
    }
}

/// The most general client of those of this shape that all of these rows can concern: for each topic of another that all of them
/// cover, it has one that stands for it. Its levels that the rows leave free begin with the prefix. None where no client of
/// this shape has such a topic. The rule on names that begin with `$` is left out.
pub fn most_general<'a>(
    alloc: Global,
    prefix: &str,
    shape: ClientShape<'a>,
    must: &[&'a Row],
) -> Result<Option<General>, AllocError>
    ensures none { IfOk result (λ found. IfNone found ((values : ℕ → List ℕ) (client : List ℕ)
        (user : Option (List ℕ)) (ls : List (List ℕ))
        → AllMade shape.entry values client user (lent_rows must.now)
        → list_all (row_matches client user ls) (lent_rows must.now) ≡ false)) }
    ensures some { IfOk result (λ found. IfSome found (λ general.
        IsSound prefix.now shape.entry (lent_rows must.now)
        → IsMostGeneral prefix.now shape.entry (lent_rows must.now)
        (string_bytes general.client) (user_view general.user))) }
{
    let terms = rows_terms(alloc, shape, must)?;
    let mut bindings = Bindings::new(alloc);
    let all = terms.as_slice();
    if are_apart(all, all) {
        return Ok(None);
    }
    if !unify_all(&mut bindings, all, all)? {
        return Ok(None);
    }
    let client = joined(alloc, prefix, &bindings, 0, shape.levels)?;
    let user = user_text(alloc, prefix, &bindings, shape)?;
    Ok(Some(General { client, user }))
}
