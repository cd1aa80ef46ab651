//! The terms of rows.
ghost use Rattle.std.specs.Prelude.{◌≡◌, ◌&&◌, ℕ, Bool, List, Option, OnOk, IfOk, true};
ghost use Rattle.std.specs.List.{list_all};
ghost use Rattle.mq_acl.specs.RowsByOwner.{is_everyones};
ghost use Rattle.mq_acl.specs.Views.{owner_view};
ghost use Rattle.mq_unify.specs.Clients.{user_fits};
ghost use Rattle.mq_unify.specs.Rows.{AllMade, all_matched, lent_rows, row_matches, rows_fit};
ghost use Rattle.mq_unify.specs.Terms.{all_fit};

use crate::shape::ClientShape;
use crate::term::Terms;
use crate::terms::terms_of;
use mq_acl::{Owner, Row};
use mq_topic::LevelText;
use std::alloc::{AllocError, Global};

fn is_pattern(owner: &Owner) -> bool
    ensures { result ≡ is_everyones (owner_view owner.now) }
{
    matches!(owner, Owner::Everyone)
}

// Adds the terms of each of these rows.
fn add_rows<'a>(
    alloc: Global,
    terms: &mut Vec<Terms<'a>>,
    shape: ClientShape<'a>,
    rows: &[&'a Row],
) -> Result<(), AllocError>
    ensures matched { OnOk result ((values : ℕ → List ℕ) (client : List ℕ)
        (user : Option (List ℕ)) (ls : List (List ℕ))
        → AllMade shape.entry values client user (lent_rows rows.now)
        → all_matched values ls terms.new.items ≡ (all_matched values ls terms.old.items
        && list_all (row_matches client user ls) (lent_rows rows.now))) }
    ensures unlike { OnOk result ((test : List ℕ → Bool) → rows_fit test (lent_rows rows.now) ≡ true
        → user_fits test shape.entry.user ≡ true → all_fit test terms.old.items ≡ true
        → all_fit test terms.new.items ≡ true) }
{
    let Some((row, rest)) = rows.split_first() else {
        return Ok(());
    };
    let more = terms_of(alloc, shape, is_pattern(&row.owner), row.filter.text())?;
    terms.push(more)?;
    add_rows(alloc, terms, shape, rest)
}

/// The terms of each of these rows.
pub(crate) fn rows_terms<'a>(
    alloc: Global,
    shape: ClientShape<'a>,
    rows: &[&'a Row],
) -> Result<Vec<Terms<'a>>, AllocError>
    ensures matched { IfOk result (λ terms. (values : ℕ → List ℕ) (client : List ℕ)
        (user : Option (List ℕ)) (ls : List (List ℕ))
        → AllMade shape.entry values client user (lent_rows rows.now)
        → all_matched values ls terms.items
        ≡ list_all (row_matches client user ls) (lent_rows rows.now)) }
    ensures unlike { IfOk result (λ terms. (test : List ℕ → Bool)
        → rows_fit test (lent_rows rows.now) ≡ true → user_fits test shape.entry.user ≡ true
        → all_fit test terms.items ≡ true) }
{
    let mut terms = Vec::new(alloc);
    add_rows(alloc, &mut terms, shape, rows)?;
    Ok(terms)
}
