//! What a line says.
//!
//! ```text
//! acl current.acl
//! guest   may not read   secret/#
//! anyone  may not write  cmd/+/set   except scada, ops
//! dash    may some read  plant/#
//! at most baseline.acl
//! ```
ghost use Rattle.std.specs.Prelude.{◌≡◌, ◌⊎◌, MatchResult, IfOk, IfErr, IsTrue, false, Ok, Err};
ghost use Rattle.std.specs.Option.{option_copied, option_map};
ghost use Rattle.mq_topic.specs.Texts.{is_shared};
ghost use Rattle.mq_acl.specs.Views.{access_view};
ghost use Rattle.mq_expect.specs.Expectations.{access_named, are_names, behind_may, bound_entry};
ghost use Rattle.mq_expect.specs.Expectations.{claim_of, entry_of, except_of, holds_of, is_anyone, is_name};
ghost use Rattle.mq_expect.specs.Expectations.{is_unshared};
ghost use Rattle.mq_expect.specs.Expectations.{keyword_entry, may_entry, whom_of};
ghost use Rattle.mq_expect.specs.Views.{Answers, whom_view};

use crate::expectation::{Claim, Expectation, Holds, Whom};
use crate::fault::ExpectationKind;
use mq_acl::{Access, has_whole_marks, split_word, trimmed};
use mq_topic::{TopicFault, TopicFilter};
use std::alloc::Global;

pub(crate) fn whom_of(word: &str) -> Whom<'_>
    ensures { whom_view result ≡ whom_of word.entry.now }
{
    match word {
        "anyone" => Whom::Anyone,
        "anonymous" => Whom::Anonymous,
        "others" => Whom::Others,
        _ => Whom::User(word),
    }
}

fn holds_of(word: &str) -> Holds
    ensures { result ≡ holds_of word.now }
{
    match word {
        "not" => Holds::Never,
        "some" => Holds::AtLeastOne,
        _ => Holds::Every,
    }
}

// What follows `may`, and `not` or `some`.
fn behind_may(rest: &str) -> &str
    ensures { result.now ≡ behind_may rest.entry.now }
{
    let (word, after) = split_word(rest);
    if word == "not" || word == "some" {
        return after;
    }
    rest
}

fn access_named(word: &str) -> Option<Access>
    ensures { option_map access_view result ≡ access_named word.now }
{
    match word {
        "read" => Some(Access::Read),
        "write" => Some(Access::Write),
        "readwrite" => Some(Access::ReadWrite),
        _ => None,
    }
}

fn is_anyone(whom: &Whom) -> bool
    ensures { result ≡ is_anyone (whom_view whom.now) }
{
    matches!(whom, Whom::Anyone)
}

// Whether it names some clients, and not all.
fn is_name(name: &str) -> bool
    ensures { result ≡ is_name name.now }
{
    let name = trimmed(name);
    !name.is_empty() && !is_anyone(&whom_of(name))
}

// Whether each piece between commas does.
fn are_names(text: &str) -> bool
    ensures { result ≡ are_names text.now }
{
    text.split(',').all(|name| is_name(name))
}

// What follows the filter.
fn except_of<'a>(whom: &Whom, rest: &'a str) -> Result<Option<&'a str>, ExpectationKind>
    ensures { MatchResult result (λ except. except_of (whom_view whom.now) rest.entry.now
        ≡ Ok (option_copied except))
        (λ kind. except_of (whom_view whom.now) rest.entry.now ≡ Err kind) }
{
    if rest.is_empty() {
        return Ok(None);
    }
    let (word, names) = split_word(rest);
    if word == "except" && is_anyone(whom) && are_names(names) {
        return Ok(Some(names));
    }
    Err(ExpectationKind::Except)
}

fn is_shared(text: &str) -> bool
    ensures { result ≡ is_shared text.now }
{
    text.starts_with("$share/")
}

fn parse_filter(alloc: Global, text: &str) -> Result<TopicFilter, ExpectationKind>
    ensures ok { IfOk result (λ filter. (filter ≡ text.now) × IsTrue (is_unshared text.now)) }
    ensures fault { IfErr result (λ kind. (kind ≡ ExpectationKind.Memory)
        ⊎ ((kind ≡ ExpectationKind.Filter) × (is_unshared text.now ≡ false))) }
{
    if is_shared(text) {
        return Err(ExpectationKind::Filter);
    }
    match TopicFilter::parse(alloc, text) {
        Ok(filter) => Ok(filter),
        Err(TopicFault::Memory) => Err(ExpectationKind::Memory),
        Err(_) => Err(ExpectationKind::Filter),
    }
}

// What follows the access word.
fn claim_of<'a>(
    alloc: Global,
    whom: Whom<'a>,
    holds: Holds,
    access: Option<Access>,
    rest: &'a str,
) -> Result<Option<Expectation<'a>>, ExpectationKind>
    ensures { Answers result (claim_of (whom_view whom.entry) holds (option_map access_view access)
        rest.entry.now) }
{
    let Some(access) = access else {
        return Err(ExpectationKind::Access);
    };
    let (topics, after) = split_word(rest);
    let filter = parse_filter(alloc, topics)?;
    if !has_whole_marks(topics) {
        return Err(ExpectationKind::Pattern);
    }
    let except = except_of(&whom, after)?;
    Ok(Some(Expectation::Claim(Claim {
        whom,
        holds,
        access,
        filter,
        except,
    })))
}

// What follows `may`.
fn may_entry<'a>(
    alloc: Global,
    whom: Whom<'a>,
    rest: &'a str,
) -> Result<Option<Expectation<'a>>, ExpectationKind>
    ensures { Answers result (may_entry (whom_view whom.entry) rest.entry.now) }
{
    let holds = holds_of(split_word(rest).0);
    let (word, after) = split_word(behind_may(rest));
    claim_of(alloc, whom, holds, access_named(word), after)
}

// What follows `at`.
fn bound_entry(rest: &str) -> Result<Option<Expectation<'_>>, ExpectationKind>
    ensures { Answers result (bound_entry rest.entry.now) }
{
    let (word, file) = split_word(rest);
    match word {
        "most" | "least" if file.is_empty() => Err(ExpectationKind::File),
        "most" => Ok(Some(Expectation::AtMost(file))),
        "least" => Ok(Some(Expectation::AtLeast(file))),
        _ => Err(ExpectationKind::Keyword),
    }
}

fn keyword_entry<'a>(
    alloc: Global,
    word: &'a str,
    rest: &'a str,
) -> Result<Option<Expectation<'a>>, ExpectationKind>
    ensures { Answers result (keyword_entry word.entry.now rest.entry.now) }
{
    let (may, claim) = split_word(rest);
    if may == "may" {
        return may_entry(alloc, whom_of(word), claim);
    }
    match word {
        "acl" if rest.is_empty() => Err(ExpectationKind::File),
        "acl" => Ok(Some(Expectation::List(rest))),
        "at" => bound_entry(rest),
        _ => Err(ExpectationKind::Keyword),
    }
}

/// What the line says, if it isn't skipped.
pub(crate) fn read_entry<'a>(
    alloc: Global,
    line: &'a str,
) -> Result<Option<Expectation<'a>>, ExpectationKind>
    ensures { Answers result (entry_of line.entry.now) }
{
    let text = trimmed(line);
    if text.is_empty() || text.starts_with('#') {
        return Ok(None);
    }
    let (word, rest) = split_word(text);
    keyword_entry(alloc, word, rest)
}
