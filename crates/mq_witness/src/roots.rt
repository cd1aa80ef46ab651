//! The rows that have to do with a question, with all of their filters left.
ghost use Rattle.std.specs.Prelude.{◌≡◌, ℕ, Bool, List, true, false, IfOk, IfSome, IfNone, Option};
ghost use Rattle.std.specs.List.{list_all};
ghost use Rattle.std.specs.Option.{option_copied};
ghost use Rattle.mq_topic.specs.Levels.{levels};
ghost use Rattle.mq_topic.specs.Matching.{levels_match_by};
ghost use Rattle.std.specs.Prelude.{not, ◌||◌, ◌&&◌};
ghost use Rattle.mq_acl.specs.Access.{applies, concerns, begins_with_dollar, row_level_matches};
ghost use Rattle.mq_acl.specs.Views.{owner_view, row_view};
ghost use Rattle.mq_cover.specs.Remainders.{MarkLevels, covers, fits, remainder_fits};
ghost use Rattle.mq_cover.specs.Remainders.{remainders_fit};
ghost use Rattle.mq_witness.specs.Decided.{begins_with_mark, concerns_in, is_mark, may_begin};
ghost use Rattle.mq_witness.specs.Roots.{marks_of, left_begins, AreCover, AreMust, NoneConcerned};
ghost use Rattle.mq_witness.specs.Roots.{all_begin};
ghost use Rattle.mq_witness.specs.Names.{is_right, names_fit};
ghost use Rattle.mq_witness.specs.Rows.{lent_rows};

use crate::names::Names;
use crate::overlap::{may_meet, may_meet_all};
use crate::patterns::is_pattern;
use mq_acl::{Row, applies, state_filter};
use mq_cover::Remainder;
use mq_topic::{LevelText, split_first};
use std::alloc::{AllocError, Global};

fn begins_with_dollar(text: &str) -> bool
    ensures { result ≡ begins_with_dollar text.now }
{
    text.starts_with('$')
}

fn whole<'a>(row: &'a Row) -> Remainder<'a>
    ensures covers { (client name : List ℕ) (user : Option (List ℕ))
        → covers (marks_of client user) (levels name) result
        ≡ levels_match_by (row_level_matches (owner_view row.now.owner) client user)
        (levels row.now.filter) (levels name) }
    ensures fits { (p : List ℕ → Bool) → remainder_fits p result ≡ fits p (levels row.now.filter) }
    ensures begins { left_begins result.rest ≡ begins_with_dollar row.now.filter }
{
    Remainder {
        pattern: is_pattern(&row.owner),
        rest: Some(row.filter.text()),
    }
}

/// Whether some client may have a topic that both rows concern. It is quick, and takes no memory; where there is no such
/// topic it may still say that there may be one.
pub fn may_overlap(one: &Row, other: &Row) -> bool
    ensures { result ≡ false → (client name : List ℕ) (user : Option (List ℕ))
        → concerns client user name (row_view one.now) ≡ true
        → concerns client user name (row_view other.now) ≡ false }
{
    may_meet(&whole(one), &whole(other))
}

fn is_mark(level: &str) -> bool
    ensures { result ≡ is_mark level.now }
{
    level == "%c" || level == "%u"
}

/// Whether the row is for all clients, and the first level of its filter is a mark.
pub fn begins_with_mark(row: &Row) -> bool
    ensures { result ≡ begins_with_mark (row_view row.now) }
{
    let (level, _) = split_first(row.filter.text());
    is_pattern(&row.owner) && is_mark(level)
}

// Whether it may cover a name that begins with `$`.
fn may_begin(front: bool, row: &Row) -> bool
    ensures { result ≡ may_begin front (row_view row.now) }
{
    (front && begins_with_mark(row)) || begins_with_dollar(row.filter.text())
}

fn left_begins(rest: Option<&str>) -> bool
    ensures { result ≡ left_begins rest.entry }
{
    match rest {
        Some(text) => begins_with_dollar(text),
        None => false,
    }
}

/// Whether each of them begins with `$`.
pub(crate) fn all_begin(remainders: &[Remainder]) -> bool
    ensures { result ≡ all_begin remainders.now }
{
    remainders.iter().all(|r| left_begins(r.rest))
}

/// The row, with all of its filter left, where it applies to this user name, or to none, and can cover a name that
/// begins with `$`, or one that doesn't.
pub(crate) fn root<'a>(
    front: bool,
    row: &'a Row,
    user: Option<&str>,
    dollar: bool,
) -> Option<Remainder<'a>>
    ensures none { IfNone result ((client name : List ℕ) (other : Option (List ℕ))
        → applies other (row_view row.now).who
        ≡ applies (option_copied user.entry) (row_view row.now).who
        → begins_with_dollar name ≡ dollar
        → concerns_in front client other name (row_view row.now) ≡ false) }
    ensures covers { IfSome result (λ r. (client name : List ℕ) (other : Option (List ℕ))
        → applies other (row_view row.now).who
        ≡ applies (option_copied user.entry) (row_view row.now).who
        → begins_with_dollar name ≡ dollar
        → covers (marks_of client other) (levels name) r
        ≡ concerns_in front client other name (row_view row.now)) }
    ensures fits { IfSome result (λ r. (p : List ℕ → Bool)
        → remainder_fits p r ≡ fits p (levels row.now.filter)) }
    ensures begins { IfSome result (λ r. (not front && dollar) ≡ true
        → left_begins r.rest ≡ true) }
{
    if !applies(user, &row.owner) {
        return None;
    }
    if dollar && !may_begin(front, row) {
        return None;
    }
    Some(whole(row))
}

/// The roots of rows of which each has to concern a name; none where one of them can't.
pub(crate) fn must_roots<'a>(
    alloc: Global,
    front: bool,
    rows: &[&'a Row],
    user: Option<&str>,
    dollar: bool,
) -> Result<Option<Vec<Remainder<'a>>>, AllocError>
    ensures none { IfOk result (λ roots. IfNone roots
        (NoneConcerned front (lent_rows rows.now) (option_copied user.entry) dollar)) }
    ensures some { IfOk result (λ roots. IfSome roots (λ roots.
        AreMust front (lent_rows rows.now) (option_copied user.entry) dollar roots.items)) }
{
    let mut roots = Vec::new(alloc);
    for row in rows {
        let Some(root) = root(front, row, user, dollar) else {
            return Ok(None);
        };
        roots.push(root)?;
    }
    Ok(Some(roots))
}

/// These roots, with that of the filter that all of the names match, if there is one.
pub(crate) fn with_states<'a>(
    roots: Vec<Remainder<'a>>,
    names: Names,
) -> Result<Vec<Remainder<'a>>, AllocError>
    ensures covers { IfOk result (λ all. (marks : MarkLevels) (name : List ℕ)
        → list_all (covers marks (levels name)) all.items
        ≡ (is_right names name && list_all (covers marks (levels name)) roots.entry.items)) }
    ensures fit { IfOk result (λ all. (p : List ℕ → Bool) → remainders_fit p all.items
        ≡ (names_fit p names && remainders_fit p roots.entry.items)) }
    ensures begin { IfOk result (λ all. all_begin all.items ≡ all_begin roots.entry.items) }
{
    if !names.are_states() {
        return Ok(roots);
    }
    let mut all = roots;
    all.push(Remainder {
        pattern: false,
        rest: Some(state_filter()),
    })?;
    Ok(all)
}

/// The roots of rows of which none may concern a name, but for those that can't concern one that all of `must` cover.
pub(crate) fn cover_roots<'a>(
    alloc: Global,
    front: bool,
    rows: &[&'a Row],
    user: Option<&str>,
    dollar: bool,
    must: &[Remainder<'a>],
) -> Result<Vec<Remainder<'a>>, AllocError>
    ensures { IfOk result (λ roots.
        AreCover front (lent_rows rows.now) (option_copied user.entry) dollar must.now roots.items) }
{
    let mut roots = Vec::new(alloc);
    for row in rows {
        let Some(root) = root(front, row, user, dollar) else {
            continue;
        };
        if !may_meet_all(must, &root) {
            continue;
        }
        roots.push(root)?;
    }
    Ok(roots)
}
