//! The filters of rows with the texts of a client in the place of their marks.
ghost use Rattle.std.specs.Prelude.{◌≡◌, ◌≤◌, ◌++◌, ◌∷◌, ℕ, List, length, Option, IfOk, map, string_bytes};
ghost use Rattle.std.specs.List.{list_any};
ghost use Rattle.std.specs.Str.{bytes_eq};
ghost use Rattle.mq_topic.specs.Levels.{levels};
ghost use Rattle.mq_acl.specs.Filled.{filled};
ghost use Rattle.mq_acl.specs.RowsByOwner.{is_everyones};
ghost use Rattle.mq_acl.specs.Views.{owner_view, row_view};
ghost use Rattle.mq_shapes.specs.Every.{has_mark};
ghost use Rattle.mq_shapes.specs.Filled.{left_filled, length_left, row_levels, text_levels};
ghost use Rattle.mq_unify.specs.Rows.{lent_rows};

use mq_acl::{Names, Owner, Row};
use mq_topic::LevelText;
use std::alloc::{AllocError, Global};

// What a `%` and the text behind it begin with, the mark replaced, and what is left of it.
fn at_mark<'a>(names: Names<'a>, behind: &'a str) -> (&'a str, &'a str)
    ensures made { filled names.entry.client.now names.entry.user.now (37 ∷ behind.entry.now)
        ≡ result.0.now ++ filled names.entry.client.now names.entry.user.now result.1.now }
    ensures shorter { length result.1.now ≤ length behind.entry.now }
{
    match (behind.strip_prefix('c'), behind.strip_prefix('u')) {
        (Some(rest), _) => (names.client, rest),
        (None, Some(rest)) => (names.user, rest),
        (None, None) => ("%", behind),
    }
}

// Adds the text up to its first mark, and what stands in the place of that; answers what is left of it.
fn add_piece<'a>(
    made: &mut String,
    names: Names<'a>,
    text: &'a str,
) -> Result<Option<&'a str>, AllocError>
    ensures made { IfOk result (λ left. string_bytes made.new
        ++ left_filled names.entry.client.now names.entry.user.now left ≡ string_bytes made.old
        ++ filled names.entry.client.now names.entry.user.now text.entry.now) }
    ensures shorter { IfOk result (λ left. length_left left ≤ length text.entry.now) }
{
    let Some((before, behind)) = text.split_once('%') else {
        made.push_str(text)?;
        return Ok(None);
    };
    let (piece, left) = at_mark(names, behind);
    made.push_str(before)?;
    made.push_str(piece)?;
    Ok(Some(left))
}

// The text with the names in the place of its marks.
fn filled_text<'a>(alloc: Global, names: Names<'a>, text: &'a str) -> Result<String, AllocError>
    ensures { IfOk result (λ made. string_bytes made
        ≡ filled names.entry.client.now names.entry.user.now text.entry.now) }
{
    let mut made = String::new(alloc);
    let mut rest = Some(text);
    while let Some(left) = rest {
        rest = add_piece(&mut made, names, left)?;
    }
    Ok(made)
}

pub(crate) fn is_pattern(owner: &Owner) -> bool
    ensures { result ≡ is_everyones (owner_view owner.now) }
{
    matches!(owner, Owner::Everyone)
}

/// Whether a level of the text is this one.
pub(crate) fn has_level(text: &str, wanted: &str) -> bool
    ensures { result ≡ list_any (λ l. bytes_eq l wanted.now) (levels text.now) }
{
    text.split('/').any(|level| level == wanted)
}

/// Whether it is a `pattern` row with this mark as a level.
pub(crate) fn has_mark(row: &Row, mark: &str) -> bool
    ensures { result ≡ has_mark mark.now (row_view row.now) }
{
    is_pattern(&row.owner) && has_level(row.filter.text(), mark)
}

// The filter of the row for a client with these names.
fn row_text(alloc: Global, names: Names<'_>, row: &Row) -> Result<String, AllocError>
    ensures { IfOk result (λ text. levels (string_bytes text)
        ≡ row_levels names.entry.client.now names.entry.user.now (row_view row.now)) }
{
    if is_pattern(&row.owner) {
        return filled_text(alloc, names, row.filter.text());
    }
    String::from_str(alloc, row.filter.text())
}

/// The filters of these rows.
pub(crate) fn row_texts(
    alloc: Global,
    names: Names<'_>,
    rows: &[&Row],
) -> Result<Vec<String>, AllocError>
    ensures { IfOk result (λ texts. text_levels texts.items
        ≡ map (row_levels names.entry.client.now names.entry.user.now) (lent_rows rows.now)) }
{
    let mut texts = Vec::new(alloc);
    for row in rows {
        texts.push(row_text(alloc, names, row)?)?;
    }
    Ok(texts)
}
