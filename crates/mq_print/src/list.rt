//! Access lists as they stand in files.
ghost use Rattle.std.specs.Prelude.{◌≡◌, IfOk};
ghost use Rattle.std.specs.Option.{option_map};
ghost use Rattle.std.specs.Str.{trim};
ghost use Rattle.mq_print.specs.Lists.{lent_texts, line_at, line_view, lines};
ghost use Rattle.mq_print.specs.Lists.{lines_view, list_view, shown_line};

use std::alloc::{AllocError, Global};

/// An access list: the name of its file, and its text.
#[derive(Clone, Copy, Drop)]
pub struct ListText<'a, 't> {
    /// The name of its file, as it is shown.
    pub file: &'a str,
    /// Its text.
    pub text: &'t str,
}

impl<'a, 't> ListText<'a, 't> {
    /// The line with this number, from 1, as it stands; empty where there is none.
    pub fn whole_line(self, number: u64) -> &'t str
        ensures { result.now ≡ line_at number (lines self.entry.text.now) }
    {
        let before = usize::try_from(number.saturating_sub(1)).unwrap_or(0);
        self.text.split('\n').nth(before).unwrap_or("")
    }

    /// The line with this number, without the blanks round it.
    pub fn line(self, number: u64) -> &'t str
        ensures { result.now ≡ trim (line_at number (lines self.entry.text.now)) }
    {
        self.whole_line(number).trim()
    }
}

impl<'a> ListText<'a, 'a> {
    // The line with this number, if there is one.
    pub fn line_if(self, number: Option<u64>) -> Option<Line<'a>>
        ensures { option_map line_view result
            ≡ shown_line (list_view self.entry) number }
    {
        let number = number?;
        Some(Line {
            file: self.file,
            number,
            text: self.line(number),
        })
    }
}

/// A line of a list.
#[derive(Clone, Copy, Drop)]
pub struct Line<'a> {
    /// The name of the list's file.
    pub file: &'a str,
    /// Its number, from 1.
    pub number: u64,
    /// Its text without the blanks round it.
    pub text: &'a str,
}

/// The lines of a text.
pub fn lines_of(alloc: Global, text: &str) -> Result<Vec<&str>, AllocError>
    ensures { IfOk result (λ all. lent_texts all.items ≡ lines text.entry.now) }
{
    text.split('\n').collect(alloc)
}

/// An access list of which many lines are looked up: the name of its file, and its lines.
#[derive(Clone, Copy, Drop)]
pub struct Lines<'a, 'l, 't> {
    /// The name of its file, as it is shown.
    pub file: &'a str,
    /// Its lines.
    pub lines: &'l [&'t str],
}

impl<'a, 'l, 't> Lines<'a, 'l, 't> {
    /// The line with this number, from 1, as it stands; empty where there is none.
    pub fn whole_line(self, number: u64) -> &'t str
        ensures { result.now ≡ line_at number (lent_texts self.entry.lines.now) }
    {
        let place = usize::try_from(number.saturating_sub(1)).unwrap_or(0);
        match self.lines.get(place) {
            Some(line) => *line,
            None => "",
        }
    }

    /// The line with this number, without the blanks round it.
    pub fn line(self, number: u64) -> &'t str
        ensures { result.now ≡ trim (line_at number (lent_texts self.entry.lines.now)) }
    {
        self.whole_line(number).trim()
    }
}

impl<'a> Lines<'a, 'a, 'a> {
    /// The line with this number, if there is one.
    pub fn line_if(self, number: Option<u64>) -> Option<Line<'a>>
        ensures { option_map line_view result
            ≡ shown_line (lines_view self.entry) number }
    {
        let number = number?;
        Some(Line {
            file: self.file,
            number,
            text: self.line(number),
        })
    }
}
