//! Whether a client with any id can be sent something, in words and as JSON.
ghost use Rattle.std.specs.Option.{option_copied};
ghost use Rattle.std.specs.Prelude.{◌≡◌, ◌++◌, IfOk, OnOk, string_bytes, true};
ghost use Rattle.mq_ask_who.specs.AnyShown.{any_text};
ghost use Rattle.mq_print.specs.Lists.{list_view};

use mq_ask::{AskedClient, add_client};
use mq_ask_cases::shown_topic;
use mq_differences::Difference;
use mq_print::{Datum, Escape, ListText, add_line, add_object, shown_lines};
use mq_topic::LevelText;
use std::alloc::{AllocError, Global};

fn add_json<'a>(
    alloc: Global,
    text: &mut String,
    list: ListText<'a, 'a>,
    about: (Option<&'a str>, &'a str),
    found: Option<&'a Difference>,
) -> Result<(), AllocError>
    ensures { OnOk result (string_bytes text.new ≡ string_bytes text.old
        ++ any_text (list_view list.entry) (option_copied about.entry.0) about.entry.1.now
        (option_copied found.entry)) }
{
    let (user, wanted) = about;
    let Some(found) = found else {
        return add_object(
            alloc,
            text,
            &[
                ("client", Datum::TextIf(None)),
                ("filter", Datum::Text(wanted)),
                ("line", Datum::LineIf(None)),
                ("placeholders", Datum::Texts(&[])),
                ("topic", Datum::TextIf(None)),
                ("user", Datum::TextIf(user)),
            ],
        );
    };
    let line = list.line_if(found.old_reason.line());
    add_object(
        alloc,
        text,
        &[
            ("client", Datum::Text(found.client.as_str())),
            ("filter", Datum::Text(wanted)),
            ("line", Datum::LineIf(line)),
            ("placeholders", Datum::Texts(&found.placeholders)),
            ("topic", Datum::Text(found.topic.text())),
            ("user", Datum::TextIf(user)),
        ],
    )
}

fn add_words(
    alloc: Global,
    text: &mut String,
    list: ListText<'_, '_>,
    about: (Option<&str>, &str),
    found: Option<&Difference>,
) -> Result<(), AllocError> {
    let (user, wanted) = about;
    add_client(text, AskedClient { id: None, user })?;
    write!(text, ": {wanted} can be sent ")?;
    let Some(found) = found else {
        return text.push_str("nothing\n");
    };
    let topic = shown_topic(alloc, found)?;
    writeln!(text, "{topic}")?;
    match found.old_reason.line() {
        Some(line) => {
            text.push_str("    ")?;
            add_line(text, list, line)
        }
        None => Ok(()),
    }
}

/// A topic that some client with this user name, or without one, can be sent for a filter, with the
/// line that allows it; or that none of them can be sent anything. `about` is the user name and the
/// filter.
pub fn any_text(
    alloc: Global,
    list: ListText<'_, '_>,
    about: (Option<&str>, &str),
    found: Option<&Difference>,
    json: bool,
) -> Result<String, AllocError>
    ensures { IfOk result (λ text. json ≡ true → string_bytes text
        ≡ any_text (list_view list.entry) (option_copied about.entry.0) about.entry.1.now
        (option_copied found.entry)) }
{
    let mut text = String::new(alloc);
    if json {
        add_json(alloc, &mut text, list, about, found)?;
        return Ok(text);
    }
    add_words(alloc, &mut text, list, about, found)?;
    shown_lines(alloc, text.as_str(), Escape::Words)
}
