//! What a line says.
//!
//! ```text
//! plant/+hall/energy -> site/a/+hall/meters/energy     a rule: its sides
//! keep plant/notice                                    these topics keep their names
//! none plant/#                                         these have no new name
//! # all of it below a site                             a comment
//! # -> site/#                                          a rule: for all topics
//! plant/door                                           faulty: it has no arrow
//! ```
ghost use Rattle.std.specs.Prelude.{◌≡◌, ◌∷◌, Some, drop, slice_index, take};
ghost use Rattle.mq_acl.specs.Lines.{lines};
ghost use Rattle.mq_acl.specs.Views.{lines_left};
ghost use Rattle.mq_acl.specs.Words.{trimmed};
ghost use Rattle.mq_plan.specs.Lines.{arrow_place, divided, entry_of, is_arrow, is_comment, word_entry};
ghost use Rattle.mq_plan.specs.Views.{entry_view};

use mq_acl::{is_blank, split_word, trimmed};

/// What a line says, its sides as they are written.
#[derive(Clone, Copy, Drop)]
pub enum Entry<'a> {
    /// Nothing: it is empty, or a comment.
    Skipped,
    /// `FROM -> TO`.
    Renamed(&'a str, &'a str),
    /// `keep FROM`.
    Kept(&'a str),
    /// `none FROM`.
    Gone(&'a str),
    /// None of these.
    Unread,
}

/// The first line, and what follows its LF, if there is one.
pub(crate) fn split_line(text: &str) -> (&str, Option<&str>)
    ensures { lines text.now ≡ result.0.now ∷ lines_left result.1 }
{
    match text.split_once('\n') {
        Some((line, rest)) => (line, Some(rest)),
        None => (text, None),
    }
}

// The byte at this place, or 0 past the end.
fn byte_at(text: &[u8], place: usize) -> u8
    ensures { result ≡ slice_index text.now place }
{
    text.get(place).copied().unwrap_or(0)
}

// Whether the text begins with an arrow: a blank, `->`, and a blank or nothing more.
fn is_arrow(text: &[u8]) -> bool
    ensures { result ≡ is_arrow text.now }
{
    if !is_blank(byte_at(text, 0)) || byte_at(text, 1) != b'-' || byte_at(text, 2) != b'>' {
        return false;
    }
    text.len() == 3 || is_blank(byte_at(text, 3))
}

// Where the first arrow begins.
fn arrow_place(text: &str) -> Option<usize>
    ensures { result ≡ arrow_place text.now }
{
    let bytes = text.as_bytes();
    for place in 0..bytes.len() {
        if is_arrow(&bytes[place..]) {
            return Some(place);
        }
    }
    None
}

fn is_comment(text: &str) -> bool
    ensures { result ≡ is_comment text.now }
{
    if !text.starts_with('#') {
        return false;
    }
    let (first, rest) = split_word(text);
    let (second, _) = split_word(rest);
    !(first == "#" && second == "->")
}

// What a line without an arrow says.
fn word_entry<'a>(word: &str, rest: &'a str) -> Entry<'a>
    ensures { entry_view result ≡ word_entry word.now rest.entry.now }
{
    if rest.is_empty() {
        return Entry::Unread;
    }
    match word {
        "keep" => Entry::Kept(rest),
        "none" => Entry::Gone(rest),
        _ => Entry::Unread,
    }
}

// What stands before an arrow at this place, and behind it.
fn split_arrow(text: &str, place: usize) -> (&str, &str)
    requires { arrow_place text.now ≡ Some place }
    ensures left { result.0.now ≡ trimmed (take place text.entry.now) }
    ensures right { result.1.now ≡ trimmed (drop 3 (drop place text.entry.now)) }
{
    let (left, rest) = text.split_at(place);
    let (_, right) = rest.split_at(3);
    (trimmed(left), trimmed(right))
}

/// What the line says; a side may be empty, or no topic filter.
pub fn entry_of(line: &str) -> Entry<'_>
    ensures { entry_view result ≡ entry_of line.entry.now }
{
    let text = trimmed(line);
    if text.is_empty() || is_comment(text) {
        return Entry::Skipped;
    }
    if let Some(place) = arrow_place(text) {
        let (left, right) = split_arrow(text, place);
        return Entry::Renamed(left, right);
    }
    let (word, rest) = split_word(text);
    word_entry(word, rest)
}
