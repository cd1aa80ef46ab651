//! The terms of filters.
ghost use Rattle.std.specs.Prelude.{◌≡◌, ◌++◌, ℕ, List, [], ◌∷◌, Bool, IfOk, OnOk, true, Option, Some, ◌&&◌, ◌||◌, codes};
ghost use Rattle.std.specs.Option.{unwrap_or};
ghost use Rattle.mq_topic.specs.Texts.{is_plain};
ghost use Rattle.std.specs.List.{list_all};
ghost use Rattle.mq_topic.specs.Levels.{levels};
ghost use Rattle.mq_cover.specs.Remainders.{fits};
ghost use Rattle.mq_unify.specs.Clients.{HasShape, IsMadeOf, are_plain, goes_along, made, user_fits};
ghost use Rattle.mq_unify.specs.Clients.{IsMade, made_levels};
ghost use Rattle.mq_topic.specs.Matching.{level_matches, levels_match_by};
ghost use Rattle.mq_unify.specs.Terms.{terms_fit, goes_by, term_fits, matched, shape_of, variables};
ghost use Rattle.std.specs.Str.{bytes_eq};

use crate::shape::{ClientShape, UserShape};
use crate::term::{Term, Terms};
use mq_topic::{is_last_hash, split_first};
use std::alloc::{AllocError, Global};

// Adds as many variables from this one on.
fn add_variables(terms: &mut Vec<Term>, first: u8, count: u8) -> Result<(), AllocError>
    ensures { OnOk result (terms.new.items ≡ terms.old.items ++ variables first count) }
{
    for place in 0..count {
        terms.push(Term::Variable(u16::from(first) + u16::from(place)))?;
    }
    Ok(())
}

// Adds the levels of a text.
fn add_texts<'a>(terms: &mut Vec<Term<'a>>, text: &'a str) -> Result<(), AllocError>
    ensures goes { OnOk result ((values : ℕ → List ℕ) (behind : List (List ℕ) → Bool)
        (ls : List (List ℕ)) → are_plain (levels text.entry.now) ≡ true
        → goes_by values terms.new.items behind ls
        ≡ goes_by values terms.old.items (goes_along (levels text.entry.now) behind) ls) }
    ensures unlike { OnOk result ((test : List ℕ → Bool)
        → list_all test (levels text.entry.now) ≡ true
        → terms_fit test terms.old.items ≡ true → terms_fit test terms.new.items ≡ true) }
{
    let mut rest = Some(text);
    while let Some(text) = rest {
        let (level, after) = split_first(text);
        terms.push(Term::Text(level))?;
        rest = after;
    }
    Ok(())
}

// A level that is no mark.
fn plain_term<'a>(level: &'a str) -> Term<'a>
    ensures goes { (values : ℕ → List ℕ) (behind : List (List ℕ) → Bool) (ls : List (List ℕ))
        → goes_by values (result ∷ []) behind ls
        ≡ goes_along (level.entry.now ∷ []) behind ls }
    ensures unlike { (test : List ℕ → Bool)
        → (bytes_eq level.entry.now (codes "+") || test level.entry.now) ≡ true
        → term_fits test result ≡ true }
{
    if level == "+" {
        return Term::Any;
    }
    Term::Text(level)
}

// Adds a level that is no mark.
fn add_plain<'a>(terms: &mut Vec<Term<'a>>, level: &'a str) -> Result<(), AllocError>
    ensures goes { OnOk result ((values : ℕ → List ℕ) (behind : List (List ℕ) → Bool)
        (ls : List (List ℕ)) → goes_by values terms.new.items behind ls
        ≡ goes_by values terms.old.items (goes_along (level.entry.now ∷ []) behind) ls) }
    ensures unlike { OnOk result ((test : List ℕ → Bool)
        → (bytes_eq level.entry.now (codes "+") || test level.entry.now) ≡ true
        → terms_fit test terms.old.items ≡ true → terms_fit test terms.new.items ≡ true) }
{
    terms.push(plain_term(level))?;
    Ok(())
}

// Adds the levels of the client id.
fn add_client(terms: &mut Vec<Term>, shape: ClientShape) -> Result<(), AllocError>
    ensures goes { OnOk result ((values : ℕ → List ℕ) (client : List ℕ)
        (user : Option (List ℕ)) (behind : List (List ℕ) → Bool) (ls : List (List ℕ))
        → HasShape shape.entry values client user → is_plain client ≡ true
        → goes_by values terms.new.items behind ls
        ≡ goes_by values terms.old.items (goes_along (levels client) behind) ls) }
    ensures unlike { OnOk result ((test : List ℕ → Bool) → terms_fit test terms.old.items ≡ true
        → terms_fit test terms.new.items ≡ true) }
{
    add_variables(terms, 0, shape.levels)
}

// Adds the levels of the user name; where there is none, the level as it stands.
fn add_user<'a>(
    terms: &mut Vec<Term<'a>>,
    shape: ClientShape<'a>,
    level: &'a str,
) -> Result<(), AllocError>
    ensures goes { OnOk result ((values : ℕ → List ℕ) (client user : List ℕ)
        (behind : List (List ℕ) → Bool) (ls : List (List ℕ))
        → HasShape shape.entry values client (Some user) → is_plain user ≡ true
        → goes_by values terms.new.items behind ls
        ≡ goes_by values terms.old.items (goes_along (levels user) behind) ls) }
    ensures unlike { OnOk result ((test : List ℕ → Bool)
        → (bytes_eq level.entry.now (codes "+") || test level.entry.now) ≡ true
        → user_fits test shape.entry.user ≡ true
        → terms_fit test terms.old.items ≡ true → terms_fit test terms.new.items ≡ true) }
{
    match shape.user {
        UserShape::Absent => add_plain(terms, level),
        UserShape::Known(name) => add_texts(terms, name),
        UserShape::Levels(count) => add_variables(terms, shape.levels, count),
    }
}

fn is_mark(pattern: bool, level: &str, mark: &str) -> bool
    ensures { result ≡ (pattern && bytes_eq level.now mark.now) }
{
    pattern && level == mark
}

// Adds a level of a filter, which isn't a last `#`.
fn add_level<'a>(
    terms: &mut Vec<Term<'a>>,
    shape: ClientShape<'a>,
    pattern: bool,
    level: &'a str,
) -> Result<(), AllocError>
    ensures goes { OnOk result ((values : ℕ → List ℕ) (client : List ℕ)
        (user : Option (List ℕ)) (behind : List (List ℕ) → Bool) (ls : List (List ℕ))
        → IsMadeOf shape.entry pattern values client user level.entry.now
        → goes_by values terms.new.items behind ls ≡ goes_by values terms.old.items
        (goes_along (made pattern client (unwrap_or user []) level.entry.now) behind) ls) }
    ensures unlike { OnOk result ((test : List ℕ → Bool)
        → (bytes_eq level.entry.now (codes "+") || test level.entry.now) ≡ true
        → user_fits test shape.entry.user ≡ true
        → terms_fit test terms.old.items ≡ true → terms_fit test terms.new.items ≡ true) }
{
    if is_mark(pattern, level, "%c") {
        return add_client(terms, shape);
    }
    if is_mark(pattern, level, "%u") {
        return add_user(terms, shape, level);
    }
    add_plain(terms, level)
}

/// The terms of a filter of a row, which is for all clients or isn't.
pub(crate) fn terms_of<'a>(
    alloc: Global,
    shape: ClientShape<'a>,
    pattern: bool,
    filter: &'a str,
) -> Result<Terms<'a>, AllocError>
    ensures matched { IfOk result (λ terms. (values : ℕ → List ℕ) (client : List ℕ)
        (user : Option (List ℕ)) (ls : List (List ℕ))
        → IsMade shape.entry pattern values client user (levels filter.entry.now)
        → matched values ls (shape_of terms) ≡ levels_match_by level_matches
        (made_levels pattern client (unwrap_or user []) (levels filter.entry.now)) ls) }
    ensures unlike { IfOk result (λ terms. (test : List ℕ → Bool)
        → fits test (levels filter.entry.now) ≡ true
        → user_fits test shape.entry.user ≡ true
        → terms_fit test terms.fixed.items ≡ true) }
{
    let mut fixed = Vec::new(alloc);
    let mut rest = Some(filter);
    while let Some(text) = rest {
        let (level, after) = split_first(text);
        if is_last_hash(level, after) {
            return Ok(Terms {
                fixed,
                has_rest: true,
            });
        }
        add_level(&mut fixed, shape, pattern, level)?;
        rest = after;
    }
    Ok(Terms {
        fixed,
        has_rest: false,
    })
}
