//! A table of what changes, in words.
ghost use Rattle.std.specs.Prelude.{◌≡◌, ◌++◌, IfOk, OnOk, map, max, string_bytes};
ghost use Rattle.std.specs.List.{flat_map, list_all};
ghost use Rattle.mq_ask_cases.specs.ChangeRows.{access_cell, access_width, access_words};
ghost use Rattle.mq_ask_cases.specs.ChangeRows.{change_view, example_words, line_below};
ghost use Rattle.mq_ask_cases.specs.ChangeRows.{place_width, places_of, publishes_line, row_text};
ghost use Rattle.mq_ask_cases.specs.ChangeRows.{script_of, side_line, table_text, topic_words};
ghost use Rattle.mq_ask_cases.specs.ChangeRows.{widest, access_of};
ghost use Rattle.mq_ask_cases.specs.Deciding.{may_have_several, side_view};

use crate::clients::add_who;
use crate::deciding::Side;
use mq_acl::Direction;
use mq_differences::Way;
use mq_print::{Escape, add_cell, shown_lines, widened};
use std::alloc::{AllocError, Global};

/// What changes for some clients, as it is shown.
pub struct ChangeRow<'a> {
    /// The clients, as `group_text` shows them.
    pub who: String,
    /// Whether it is gained or lost.
    pub way: Way,
    /// Whether it is read or written.
    pub direction: Direction,
    /// The topic.
    pub topic: String,
    /// What decides it, each on a line of its own.
    pub sides: Vec<Side<'a>>,
    /// The file of a script, and how many of its publishes it is about, if they are counted.
    pub publishes: Option<(&'a str, String)>,
}

// Opaque to callers' proofs: one step, and not one for each field (docs/explanation/gate.md).
impl Drop for ChangeRow<'_> {
    fn drop(self) {
        let ChangeRow {
            who: _,
            way: _,
            direction: _,
            topic: _,
            sides: _,
            publishes: _,
        } = self;
    }
}

#[derive(Clone, Copy, Drop)]
struct Widths {
    access: usize,
    place: usize,
}

fn access_words(direction: Direction, way: Way) -> &'static str
    ensures { result.now ≡ access_words direction way }
{
    match (direction, way) {
        (Direction::Reading, Way::Gained) => "may now read",
        (Direction::Writing, Way::Gained) => "may now write",
        (Direction::Reading, Way::Lost) => "may no longer read",
        (Direction::Writing, Way::Lost) => "may no longer write",
    }
}

fn access_width(rows: &[ChangeRow<'_>]) -> usize
    ensures { result ≡ access_width (map change_view rows.now) }
{
    let mut width = 0;
    for row in rows {
        width = widened(width, access_words(row.direction, row.way));
    }
    width
}

// The greater of a width and those of the places of these.
fn widened_by_sides(width: usize, sides: &[Side<'_>]) -> usize
    ensures { result ≡ max width (widest (map (λ side. side.place) (map side_view sides.now))) }
{
    let mut width = width;
    for side in sides {
        width = widened(width, side.place.as_str());
    }
    width
}

// The greater of a width and those of the places of the row.
fn widened_by_row(width: usize, row: &ChangeRow<'_>) -> usize
    ensures { result ≡ max width (widest (places_of (change_view row.now))) }
{
    let width = widened_by_sides(width, &row.sides);
    match &row.publishes {
        Some((file, _)) => widened(width, *file),
        None => width,
    }
}

fn place_width(rows: &[ChangeRow<'_>]) -> usize
    ensures { result ≡ place_width (map change_view rows.now) }
{
    let mut width = 0;
    for row in rows {
        width = widened_by_row(width, row);
    }
    width
}

const GREEN: &str = "\u{1b}[32m";

const RED: &str = "\u{1b}[31m";

// What ends a colour.
const PLAIN: &str = "\u{1b}[0m";

fn add_access(
    text: &mut String,
    row: &ChangeRow<'_>,
    width: usize,
    coloured: bool,
) -> Result<(), AllocError>
    ensures { OnOk result (string_bytes text.new
        ≡ string_bytes text.old ++ access_cell coloured width (change_view row.now)) }
{
    let access = access_words(row.direction, row.way);
    if !coloured {
        return add_cell(text, access, width);
    }
    text.push_str(if row.way == Way::Gained { GREEN } else { RED })?;
    add_cell(text, access, width)?;
    text.push_str(PLAIN)
}

fn add_below(text: &mut String, place: &str, words: &str, width: usize) -> Result<(), AllocError>
    ensures { OnOk result (string_bytes text.new
        ≡ string_bytes text.old ++ line_below width place.now words.now) }
{
    text.push_str("    ")?;
    add_cell(text, place, width)?;
    text.push_str(words)?;
    text.push('\n')
}

fn add_sides(text: &mut String, sides: &[Side<'_>], width: usize) -> Result<(), AllocError>
    ensures { OnOk result (string_bytes text.new
        ≡ string_bytes text.old ++ flat_map (side_line width) (map side_view sides.now)) }
{
    for side in sides {
        add_below(text, side.place.as_str(), side.words, width)?;
    }
    Ok(())
}

fn add_publishes(text: &mut String, row: &ChangeRow<'_>, width: usize) -> Result<(), AllocError>
    ensures { OnOk result (string_bytes text.new
        ≡ string_bytes text.old ++ publishes_line width (change_view row.now).publishes) }
{
    match &row.publishes {
        Some((file, words)) => add_below(text, *file, words.as_str(), width),
        None => Ok(()),
    }
}

fn may_have_several(sides: &[Side<'_>]) -> bool
    ensures { result ≡ list_all (λ side. may_have_several (side_view side)) sides.now }
{
    sides.iter().all(|side| side.may_have_several())
}

// That the topic is one of several, if nothing decides about it alone.
fn example_words(sides: &[Side<'_>]) -> &'static str
    ensures { result.now ≡ example_words (map side_view sides.now) }
{
    if may_have_several(sides) {
        "for example "
    } else {
        ""
    }
}

// What stands behind the access: the topic, and below it what decides, and the publishes.
fn topic_words(alloc: Global, row: &ChangeRow<'_>, width: usize) -> Result<String, AllocError>
    ensures { IfOk result (λ text. string_bytes text ≡ topic_words width (change_view row.now)) }
{
    let mut text = String::from_str(alloc, example_words(&row.sides))?;
    text.push_str(row.topic.as_str())?;
    text.push('\n')?;
    add_sides(&mut text, &row.sides, width)?;
    add_publishes(&mut text, row, width)?;
    Ok(text)
}

// What comes from lists and scripts is shown as such before colours come in.
fn add_row(
    alloc: Global,
    text: &mut String,
    row: &ChangeRow<'_>,
    widths: Widths,
    coloured: bool,
) -> Result<(), AllocError>
    ensures { OnOk result (string_bytes text.new ≡ string_bytes text.old
        ++ row_text coloured widths.access widths.place (change_view row.now)) }
{
    text.push_str("  ")?;
    add_access(text, row, widths.access, coloured)?;
    let words = topic_words(alloc, row, widths.place)?;
    let shown = shown_lines(alloc, words.as_str(), Escape::Words)?;
    text.push_str(shown.as_str())
}

/// The rows, each behind a line that names its clients; what is gained is green and what is lost
/// red, if they are `coloured`.
pub fn change_table(
    alloc: Global,
    rows: &[ChangeRow<'_>],
    coloured: bool,
) -> Result<String, AllocError>
    ensures { IfOk result (λ text. string_bytes text
        ≡ table_text coloured (map change_view rows.now)) }
{
    let widths = Widths {
        access: access_width(rows),
        place: place_width(rows),
    };
    let mut text = String::new(alloc);
    let mut who = "";
    for row in rows {
        who = add_who(&mut text, who, row.who.as_str())?;
        add_row(alloc, &mut text, row, widths, coloured)?;
    }
    Ok(text)
}
