//! The client and the topic that show that a line doesn't hold, and the lines that decide there.
ghost use Rattle.std.specs.Option.{option_and_then, option_copied, option_map};
ghost use Rattle.std.specs.Prelude.{◌≡◌, Ok};
ghost use Rattle.mq_ask_test.specs.Objects.{bound_of, case_view, decided_in, decided_line};
ghost use Rattle.mq_ask_test.specs.Objects.{example_of, list_at};
ghost use Rattle.mq_ask_test.specs.Questions.{asked_view};
ghost use Rattle.mq_expect.specs.Files.{says_view};
ghost use Rattle.mq_expect.specs.Views.{entry_view};
ghost use Rattle.mq_print.specs.Lists.{line_view, list_view};

use crate::finding::Finding;
use crate::list::{ReadList, first_in};
use crate::verdicts::Verdict;
use mq_ask_cases::has_wildcard;
use mq_differences::{Difference, Reason};
use mq_expect::Expectation;
use mq_print::{Line, ListText};
use mq_topic::LevelText;

/// A client and a topic, with what decides in each list.
#[derive(Clone, Copy, Drop)]
pub(crate) struct Case<'v> {
    /// The client, the topic and the direction.
    pub(crate) shown: &'v Difference,
    /// What decides in the list.
    pub(crate) decided: Decided<'v>,
    /// What decides in the one that it is compared with, if it is.
    pub(crate) other: Option<Decided<'v>>,
    // Whether several topics are asked about.
    several: bool,
}

impl Case<'_> {
    /// Whether the topic is one of perhaps several.
    pub(crate) fn may_have_several(self) -> bool {
        let of_other = match self.other {
            Some(other) => other.may_have_several(),
            None => true,
        };
        self.several && self.decided.may_have_several() && of_other
    }
}

/// What decides in a list.
#[derive(Clone, Copy, Drop)]
pub(crate) struct Decided<'v> {
    pub(crate) list: ListText<'v, 'v>,
    pub(crate) reason: Reason,
}

impl<'v> Decided<'v> {
    /// The line that decides, if one does.
    pub(crate) fn line(self) -> Option<Line<'v>>
        ensures { option_map line_view result ≡ decided_line self.entry }
    {
        let number = self.reason.line()?;
        Some(Line {
            file: self.list.file,
            number,
            text: self.list.line(number),
        })
    }

    // Whether it decides about several topics, or is no line.
    fn may_have_several(self) -> bool {
        match self.line() {
            Some(line) => has_wildcard(line.text),
            None => true,
        }
    }

    /// Whether it is allowed.
    pub(crate) fn is_allowed(self) -> bool {
        matches!(self.reason, Reason::Grant(_))
    }
}

// The list of this file.
fn list_text<'v>(lists: &'v [ReadList<'v, 'v>], file: &'v str) -> ListText<'v, 'v>
    ensures { list_view result ≡ list_at lists.entry.now file.entry.now }
{
    match first_in(lists, file) {
        Some(read) => read.list,
        None => ListText { file, text: "" },
    }
}

// The file behind `at most` or `at least`.
fn bound_file<'a>(says: &Expectation<'a>) -> Option<&'a str>
    ensures { option_copied result ≡ bound_of (Ok (entry_view says.now)) }
{
    match says {
        Expectation::AtMost(file) => Some(*file),
        Expectation::AtLeast(file) => Some(*file),
        _ => None,
    }
}

// What decides in the list of this file.
fn decided_in<'v>(lists: &'v [ReadList<'v, 'v>], file: &'v str, reason: Reason) -> Decided<'v>
    ensures { decided_line result ≡ decided_in lists.entry.now file.entry.now reason }
{
    let list = list_text(lists, file);
    Decided { list, reason }
}

// What decides in the list that it is compared with, if it is.
fn decided_in_other<'v>(
    lists: &'v [ReadList<'v, 'v>],
    verdict: &'v Verdict<'v, 'v>,
    reason: Reason,
) -> Option<Decided<'v>>
    ensures { option_and_then decided_line result
        ≡ option_and_then (λ file. decided_in lists.entry.now file reason)
        (bound_of (says_view verdict.entry.now.asked.expectation.now.says)) }
{
    Some(decided_in(lists, bound_of(verdict)?, reason))
}

/// The client and the topic that show it, if some do.
pub(crate) fn case_of<'v>(
    lists: &'v [ReadList<'v, 'v>],
    verdict: &'v Verdict<'v, 'v>,
) -> Option<Case<'v>>
    ensures { case_view result ≡ example_of lists.entry.now
        (asked_view verdict.entry.now.asked) verdict.entry.now.finding }
{
    let file = verdict.asked.list?;
    match &verdict.finding {
        Finding::Fails(shown) => Some(Case {
            shown,
            decided: decided_in(lists, file, shown.old_reason),
            other: None,
            several: is_of_several(verdict),
        }),
        Finding::Differs(shown) => Some(Case {
            shown,
            decided: decided_in(lists, file, shown.new_reason),
            other: decided_in_other(lists, verdict, shown.old_reason),
            several: true,
        }),
        _ => None,
    }
}

// Whether the line is about several topics: its filter has a wildcard.
fn is_of_several(verdict: &Verdict<'_, '_>) -> bool {
    match &verdict.asked.expectation.says {
        Ok(Expectation::Claim(claim)) => has_wildcard(claim.filter.text()),
        _ => true,
    }
}

fn bound_of<'v>(verdict: &'v Verdict<'v, 'v>) -> Option<&'v str>
    ensures { option_copied result
        ≡ bound_of (says_view verdict.entry.now.asked.expectation.now.says) }
{
    match &verdict.asked.expectation.says {
        Ok(says) => bound_file(says),
        Err(_) => None,
    }
}
