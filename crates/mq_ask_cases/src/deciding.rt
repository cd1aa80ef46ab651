//! What decides, as it stands in a list.
ghost use Rattle.std.specs.Prelude.{◌≡◌, IfOk};
ghost use Rattle.mq_ask_cases.specs.Deciding.{decision, has_wildcard, may_have_several, side_view};
ghost use Rattle.mq_ask_cases.specs.Deciding.{undecided_words};
ghost use Rattle.mq_print.specs.Lists.{lines_view};

use mq_differences::Reason;
use mq_print::Lines;
use std::alloc::{AllocError, Global};

/// What decides in a list.
pub struct Side<'a> {
    /// The file, with the number of the line that decides.
    pub place: String,
    /// The line, or that none allows it, or that the broker refuses it by itself.
    pub words: &'a str,
    /// Whether it is a line.
    pub is_line: bool,
}

// Opaque to callers' proofs: one step, and not one for each field (docs/explanation/gate.md).
impl Drop for Side<'_> {
    fn drop(self) {
        let Side {
            place: _,
            words: _,
            is_line: _,
        } = self;
    }
}

/// Whether there is a wildcard in a filter, or in the line that it stands in: it may match several topics.
pub fn has_wildcard(filter: &str) -> bool
    ensures { result ≡ has_wildcard filter.now }
{
    filter.as_bytes().iter().any(|b| *b == b'+' || *b == b'#')
}

impl Side<'_> {
    // Whether it decides about several topics, or is no line.
    pub fn may_have_several(&self) -> bool
        ensures { result ≡ may_have_several (side_view self.now) }
    {
        !self.is_line || has_wildcard(self.words)
    }
}

// That no line decides, in words.
fn undecided_words(reason: Reason) -> &'static str
    ensures { result.now ≡ undecided_words reason }
{
    match reason {
        Reason::Broker => "mosquitto refuses it, whatever the list says",
        _ => "no line allows it",
    }
}

/// What decides, in words.
pub fn decision<'a>(
    alloc: Global,
    lines: Lines<'a, 'a, 'a>,
    reason: Reason,
) -> Result<Side<'a>, AllocError>
    ensures { IfOk result (λ side. side_view side ≡ decision (lines_view lines.entry) reason) }
{
    let file = lines.file;
    match reason.line() {
        Some(line) => Ok(Side {
            place: format!(in alloc; "{file}:{line}")?,
            words: lines.line(line),
            is_line: true,
        }),
        None => Ok(Side {
            place: String::from_str(alloc, file)?,
            words: undecided_words(reason),
            is_line: false,
        }),
    }
}
