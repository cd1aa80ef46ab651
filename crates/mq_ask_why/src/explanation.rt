//! Which lines decide whether a client may read and write a topic, in words and as JSON.
ghost use Rattle.std.specs.Prelude.{◌≡◌, ◌++◌, IfOk, OnOk, string_bytes, true};
ghost use Rattle.mq_ask_why.specs.Explained.{answers_text, deny_line, explanation_text};
ghost use Rattle.mq_ask_why.specs.Explained.{verdict_text};
ghost use Rattle.mq_print.specs.Lists.{lines_view, list_view};

use crate::answers::Answer;
use mq_acl::Direction;
use mq_ask::{AskedClient, access_word, add_client, refused_words};
use mq_differences::{Reason, Verdict};
use mq_print::{Datum, Escape, Lines, ListText, add_line, add_object, lines_of, shown_lines};
use std::alloc::{AllocError, Global};

// Adds the line that would allow it, if there is one.
fn add_grant(
    text: &mut String,
    list: ListText<'_, '_>,
    grant: Option<u64>,
) -> Result<(), AllocError> {
    let Some(line) = grant else {
        return Ok(());
    };
    text.push_str("    would be allowed by ")?;
    add_line(text, list, line)
}

fn add_words(
    text: &mut String,
    list: ListText<'_, '_>,
    direction: Direction,
    verdict: Verdict,
) -> Result<(), AllocError> {
    let verb = access_word(direction);
    let may = if verdict.is_allowed() {
        "may"
    } else {
        "may not"
    };
    write!(text, "{may} {verb}: ")?;
    match verdict.reason {
        Reason::Grant(line) => add_line(text, list, line),
        Reason::Deny(line) => {
            add_line(text, list, line)?;
            add_grant(text, list, verdict.grant)
        }
        Reason::Broker => {
            writeln!(text, "{}", refused_words(direction))?;
            add_grant(text, list, verdict.grant)
        }
        Reason::NoGrant => text.push_str("no line allows it\n"),
    }
}

// The line that denies it, if one does.
fn deny_line(reason: Reason) -> Option<u64>
    ensures { result ≡ deny_line reason }
{
    match reason {
        Reason::Deny(line) => Some(line),
        _ => None,
    }
}

fn add_json<'a>(
    alloc: Global,
    text: &mut String,
    list: Lines<'a, 'a, 'a>,
    direction: Direction,
    verdict: Verdict,
) -> Result<(), AllocError>
    ensures { OnOk result (string_bytes text.new
        ≡ string_bytes text.old ++ verdict_text (lines_view list.entry) direction verdict) }
{
    let deny = deny_line(verdict.reason);
    let mut data = vec![in alloc;
        ("access", Datum::Text(access_word(direction))),
        ("allowed", Datum::Flag(verdict.is_allowed())),
        ("deny", Datum::LineIf(list.line_if(deny))),
        ("grant", Datum::LineIf(list.line_if(verdict.grant))),
    ]?;
    if verdict.reason == Reason::Broker {
        data.push(("refused", Datum::Flag(true)))?;
    }
    add_object(alloc, text, &data)
}

/// What is asked of a list: whether this client may read and write this topic.
#[derive(Clone, Copy, Drop)]
pub struct AskedTopic<'a> {
    /// The client.
    pub client: AskedClient<'a>,
    /// The topic.
    pub topic: &'a str,
    /// A line about the client's name, if another may be meant.
    pub note: &'a str,
}

fn add_asked(text: &mut String, asked: AskedTopic<'_>) -> Result<(), AllocError> {
    add_client(text, asked.client)?;
    let AskedTopic { topic, note, .. } = asked;
    write!(text, ", topic {topic}\n{note}")
}

fn json_text(
    alloc: Global,
    list: ListText<'_, '_>,
    reading: Verdict,
    writing: Verdict,
) -> Result<String, AllocError>
    ensures { IfOk result (λ text. string_bytes text
        ≡ explanation_text (list_view list.entry) reading writing) }
{
    let lines = lines_of(alloc, list.text)?;
    let list = Lines {
        file: list.file,
        lines: lines.as_slice(),
    };
    let mut text = String::new(alloc);
    add_json(alloc, &mut text, list, Direction::Reading, reading)?;
    add_json(alloc, &mut text, list, Direction::Writing, writing)?;
    Ok(text)
}

/// The answers as JSON, one a line.
pub(crate) fn answers_text(
    alloc: Global,
    list: ListText<'_, '_>,
    answers: &[Answer<'_>],
) -> Result<String, AllocError>
    ensures { IfOk result (λ text. string_bytes text
        ≡ answers_text (list_view list.entry) answers.now) }
{
    let lines = lines_of(alloc, list.text)?;
    let list = Lines {
        file: list.file,
        lines: lines.as_slice(),
    };
    let mut text = String::new(alloc);
    for answer in answers {
        add_json(
            alloc,
            &mut text,
            list,
            answer.question.access,
            answer.verdict,
        )?;
    }
    Ok(text)
}

/// What is asked, and the answers for reading and writing, each with the line that decides it; as
/// JSON the answers alone.
pub fn explanation_text(
    alloc: Global,
    list: ListText<'_, '_>,
    asked: AskedTopic<'_>,
    reading: Verdict,
    writing: Verdict,
    json: bool,
) -> Result<String, AllocError>
    ensures { IfOk result (λ text. json ≡ true → string_bytes text
        ≡ explanation_text (list_view list.entry) reading writing) }
{
    if json {
        return json_text(alloc, list, reading, writing);
    }
    let mut text = String::new(alloc);
    add_asked(&mut text, asked)?;
    add_words(&mut text, list, Direction::Reading, reading)?;
    add_words(&mut text, list, Direction::Writing, writing)?;
    shown_lines(alloc, text.as_str(), Escape::Words)
}
