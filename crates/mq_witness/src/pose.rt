//! Rows, as a question about names that begin alike.
ghost use Rattle.std.specs.Prelude.{◌≡◌, ◌⊎◌, ◌&&◌, ◌||◌, not, Bool, true, IfOk, IfNone, IfSome};
ghost use Rattle.std.specs.Option.{option_copied};
ghost use Rattle.mq_witness.specs.Answers.{Asks};
ghost use Rattle.mq_witness.specs.Fresh.{BeginSo};
ghost use Rattle.mq_witness.specs.Names.{are_begun};
ghost use Rattle.mq_witness.specs.Ready.{NamesNone, is_front};
ghost use Rattle.mq_witness.specs.Roots.{NoneConcerned, all_begin};
ghost use Rattle.mq_witness.specs.Rows.{lent_rows};

use crate::fresh::{BothFresh, Fresh};
use crate::names::Names;
use crate::question::Question;
use crate::roots::{all_begin, cover_roots, must_roots, with_states};
use mq_acl::Row;
use mq_cover::Remainder;
use std::alloc::{AllocError, Global};

// The texts that stand for others: where a mark may stand for the first level of a name that begins with `$`, the ids
// begin so too.
fn fresh_for<'a>(fresh: BothFresh<'a>, dollar: bool, must: &[Remainder]) -> Fresh<'a>
    ensures either { (result ≡ fresh.entry.plain) ⊎ (result ≡ fresh.entry.dollar) }
    ensures begin { (front : Bool) → BeginSo front fresh.entry
        → (not (not front && dollar) || all_begin must.now) ≡ true
        → is_front result dollar must.now ≡ true }
{
    if dollar && !all_begin(must) {
        fresh.dollar
    } else {
        fresh.plain
    }
}

/// What is asked of these names, for this user name, or none; nothing where one of the first rows concerns none of them.
pub(crate) fn pose<'a>(
    alloc: Global,
    front: bool,
    fresh: BothFresh<'a>,
    user: Option<&str>,
    names: Names,
    must: &[&'a Row],
    cover: &[&'a Row],
) -> Result<Option<Question<'a>>, AllocError>
    requires plain { NamesNone fresh.plain (lent_rows must.now) (lent_rows cover.now) }
    requires dollar { NamesNone fresh.dollar (lent_rows must.now) (lent_rows cover.now) }
    requires begin { BeginSo front fresh }
    ensures none { IfOk result (λ question. IfNone question
        (NoneConcerned front (lent_rows must.now) (option_copied user.entry) (are_begun names))) }
    ensures some { IfOk result (λ question. IfSome question
        (Asks front fresh.entry (option_copied user.entry) names
        (lent_rows must.now) (lent_rows cover.now))) }
{
    let dollar = names.are_begun();
    let Some(roots) = must_roots(alloc, front, must, user, dollar)? else {
        return Ok(None);
    };
    let must = with_states(roots, names)?;
    let cover = cover_roots(alloc, front, cover, user, dollar, &must)?;
    let fresh = fresh_for(fresh, dollar, &must);
    Ok(Some(Question {
        fresh,
        names,
        must,
        cover,
    }))
}
