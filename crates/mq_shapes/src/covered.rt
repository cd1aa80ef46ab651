//! Rows that cover all that another does, and rows that have no topic in common with another.
ghost use Rattle.std.specs.Prelude.{◌≡◌, ◌==◌, ◌&&◌, ◌||◌, [], ◌∷◌, Bool, IfOk, IsTrue, codes};
ghost use Rattle.std.specs.Prelude.{length, not, true};
ghost use Rattle.std.specs.Str.{bytes_eq};
ghost use Rattle.mq_topic.specs.Levels.{levels, levels_left};
ghost use Rattle.mq_topic.specs.Texts.{contains_byte, wildcards_fit};
ghost use Rattle.mq_acl.specs.Views.{row_view};
ghost use Rattle.mq_shapes.specs.Covered.{AreEnough, CoverNone, CoversAll, HitsNone, IsApart, IsOutside};
ghost use Rattle.mq_shapes.specs.Covered.{LevelCovers, LevelsApart, LevelsCover, is_filled};
ghost use Rattle.mq_unify.specs.Rows.{lent_rows};

use crate::filled::is_pattern;
use mq_acl::{Row, has_mark};
use mq_topic::{LevelText, is_last_hash, split_first};
use std::alloc::{AllocError, Global};

// Whether a level of a filter matches whatever this level of another does. `+` matches one level, and a client's text may
// have several.
fn level_covers(wide: bool, narrow: bool, other: &str, one: &str) -> bool
    requires { not (contains_byte 47 one.now) ≡ true }
    ensures { IsTrue result → LevelCovers wide narrow other.now one.now }
{
    if has_mark(one) {
        return wide == narrow && other == one;
    }
    other == "+" || other == one
}

// Whether a filter is only `+` and a last `#`, with no more `+` than another has levels, a last `#` not counted. Each of
// these makes a level or more, whatever its marks stand for: so the first matches all that the other does.
fn is_open_enough(other: &str, one: &str) -> bool
    requires one { wildcards_fit (levels one.now) ≡ true }
    ensures { IsTrue result → (wide narrow : Bool)
        → LevelsCover wide narrow (levels other.now) (levels one.now) }
{
    let mut others = Some(other);
    let mut ones = Some(one);
    while let Some(other) = others {
        let (wanted, behind) = split_first(other);
        if is_last_hash(wanted, behind) {
            return true;
        }
        let Some(one) = ones else {
            return false;
        };
        let (level, rest) = split_first(one);
        if wanted != "+" || is_last_hash(level, rest) {
            return false;
        }
        others = behind;
        ones = rest;
    }
    false
}

// Whether a filter matches all that another does: level by level, as they are written, up to a last `#`, or up to a level
// from which on it has `+` enough and a last `#`.
fn levels_cover(wide: bool, narrow: bool, other: &str, one: &str) -> bool
    requires other { wildcards_fit (levels other.now) ≡ true }
    requires one { wildcards_fit (levels one.now) ≡ true }
    ensures { IsTrue result → LevelsCover wide narrow (levels other.now) (levels one.now) }
{
    let mut others = Some(other);
    let mut ones = Some(one);
    while let Some(other) = others {
        let (wanted, behind) = split_first(other);
        if is_last_hash(wanted, behind) {
            return true;
        }
        let Some(one) = ones else {
            return false;
        };
        let (level, rest) = split_first(one);
        if is_last_hash(level, rest) || !level_covers(wide, narrow, wanted, level) {
            return is_open_enough(other, one);
        }
        others = behind;
        ones = rest;
    }
    ones.is_none()
}

// Whether a row covers all that another does.
fn covers_all(other: &Row, one: &Row) -> bool
    ensures { IsTrue result → CoversAll (row_view other.now) (row_view one.now) }
{
    let wide = is_pattern(&other.owner);
    let narrow = is_pattern(&one.owner);
    levels_cover(wide, narrow, other.filter.text(), one.filter.text())
}

// Whether some row of these covers all that the one does.
fn some_covers(cover: &[&Row], one: &Row) -> bool
    ensures { IsTrue result → HitsNone (row_view one.now ∷ []) (lent_rows cover.now) }
{
    for other in cover {
        if covers_all(*other, one) {
            return true;
        }
    }
    false
}

// Whether some row of the others covers all that one of the first does.
fn is_covered(must: &[&Row], cover: &[&Row]) -> bool
    ensures { IsTrue result → HitsNone (lent_rows must.now) (lent_rows cover.now) }
{
    for one in must {
        if some_covers(cover, *one) {
            return true;
        }
    }
    false
}

/// Whether a text of the client stands in a level of a `pattern` row, or of another.
pub(crate) fn is_filled(pattern: bool, level: &str) -> bool
    ensures { result ≡ is_filled pattern level.now }
{
    pattern && has_mark(level)
}

/// Whether just one level of a name goes with this one of a filter.
pub(crate) fn is_single(pattern: bool, level: &str, behind: Option<&str>) -> bool
    ensures { result ≡ (not (bytes_eq level.now (codes "#")
        && (length (levels_left behind.entry) == 0)) && not (is_filled pattern level.now)) }
{
    !is_last_hash(level, behind) && !is_filled(pattern, level)
}

// Whether some level of a name goes with both.
fn may_meet(wanted: &str, level: &str) -> bool
    ensures { result ≡ (bytes_eq wanted.now (codes "+") || bytes_eq level.now (codes "+")
        || bytes_eq wanted.now level.now) }
{
    wanted == "+" || level == "+" || wanted == level
}

// Whether two levels at the same place of two filters keep them from matching the same name: up to the first that may
// stand for several.
fn levels_apart(this: bool, that: bool, other: &str, one: &str) -> bool
    ensures { IsTrue result → LevelsApart this that (levels other.now) (levels one.now) }
{
    let mut others = Some(other);
    let mut ones = Some(one);
    while let Some(other) = others {
        let Some(one) = ones else {
            return false;
        };
        let (wanted, behind) = split_first(other);
        let (level, rest) = split_first(one);
        if !is_single(this, wanted, behind) || !is_single(that, level, rest) {
            return false;
        }
        if !may_meet(wanted, level) {
            return true;
        }
        others = behind;
        ones = rest;
    }
    false
}

// Whether no name is covered by both.
fn is_apart(row: &Row, one: &Row) -> bool
    ensures { IsTrue result → IsApart (row_view row.now) (row_view one.now) }
{
    let this = is_pattern(&row.owner);
    let that = is_pattern(&one.owner);
    levels_apart(this, that, row.filter.text(), one.filter.text())
}

// Whether the row has no name in common with one of these.
fn is_outside(must: &[&Row], row: &Row) -> bool
    ensures { IsTrue result → IsOutside (lent_rows must.now) (row_view row.now) }
{
    for one in must {
        if is_apart(row, *one) {
            return true;
        }
    }
    false
}

// Whether one of these has no name in common with another.
fn are_apart(rows: &[&Row]) -> bool
    ensures { IsTrue result → CoverNone (lent_rows rows.now) }
{
    for row in rows {
        if is_outside(rows, *row) {
            return true;
        }
    }
    false
}

/// Whether it is seen of the rows that no name is covered by all of the first and by none of the others.
pub(crate) fn hits_none(must: &[&Row], cover: &[&Row]) -> bool
    ensures { IsTrue result → HitsNone (lent_rows must.now) (lent_rows cover.now) }
{
    are_apart(must) || is_covered(must, cover)
}

/// The rows that may cover a name which all of the first cover.
pub(crate) fn enough<'a>(
    alloc: Global,
    must: &[&Row],
    cover: &[&'a Row],
) -> Result<Vec<&'a Row>, AllocError>
    ensures { IfOk result (λ rows. AreEnough (lent_rows must.now) (lent_rows cover.now)
        (lent_rows rows.items)) }
{
    let mut rows = Vec::new(alloc);
    for row in cover {
        if !is_outside(must, *row) {
            rows.push(*row)?;
        }
    }
    Ok(rows)
}
