//! JSON objects, one a line.
ghost use Rattle.std.specs.Prelude.{◌≡◌, ◌++◌, IfOk, OnOk, map, string_bytes};
ghost use Rattle.serde_json.specs.Data.{array, no_members, put, string};
ghost use Rattle.serde_json.specs.View.{items_of, members_view, view};
ghost use Rattle.mq_print.specs.Objects.{datum_data, exception_data, line_data, object_text};
ghost use Rattle.mq_print.specs.Objects.{text_data, with_data};
ghost use Rattle.mq_print.specs.Lists.{line_view};
ghost use Rattle.std.specs.Option.{option_copied, option_map};

use crate::escape::{Escape, shown_lines};
use crate::list::Line;
use serde_json::{Map, Value};
use std::alloc::{AllocError, Global};

/// What a client may not.
#[derive(Clone, Copy)]
pub struct Exception<'a> {
    /// Its client id.
    pub client: &'a str,
    /// The line that denies it, if one does.
    pub line: Option<Line<'a>>,
    /// The topic.
    pub topic: &'a str,
    /// Its user name, if it has one.
    pub user: Option<&'a str>,
}

/// What stands under a name; where there is none, it is null.
#[derive(Clone, Copy)]
pub enum Datum<'a> {
    /// A text.
    Text(&'a str),
    /// A text, if there is one.
    TextIf(Option<&'a str>),
    /// An array of texts.
    Texts(&'a [String]),
    /// A number.
    Number(u64),
    /// A number, if there is one.
    NumberIf(Option<u64>),
    /// True or false.
    Flag(bool),
    /// A line of a list, if there is one: its file, its number, and the line as it stands.
    LineIf(Option<Line<'a>>),
    /// An array of what clients may not, each an object.
    Exceptions(&'a [Exception<'a>]),
}

fn texts_value(alloc: Global, texts: &[String]) -> Result<Value, AllocError>
    ensures { IfOk result (λ value. view value
        ≡ array (items_of (map (λ text. string (string_bytes text)) texts.now))) }
{
    let mut values = Vec::new(alloc);
    for text in texts {
        values.push(Value::try_from_str(alloc, text.as_str())?)?;
    }
    Ok(Value::Array(values))
}

fn put(
    alloc: Global,
    members: &mut Map<String, Value>,
    name: &str,
    value: Value,
) -> Result<(), AllocError>
    ensures { OnOk result (members_view members.new.entries
        ≡ put name.now (view value) (members_view members.old.entries)) }
{
    let name = String::from_str(alloc, name)?;
    members.insert(name, value)?;
    Ok(())
}

fn put_text(
    alloc: Global,
    members: &mut Map<String, Value>,
    name: &str,
    text: &str,
) -> Result<(), AllocError>
    ensures { OnOk result (members_view members.new.entries
        ≡ put name.now (string text.now) (members_view members.old.entries)) }
{
    let text = Value::try_from_str(alloc, text)?;
    put(alloc, members, name, text)
}

fn line_or_null(alloc: Global, line: Option<Line<'_>>) -> Result<Value, AllocError>
    ensures { IfOk result (λ value. view value
        ≡ line_data (option_map line_view line.entry)) }
{
    let Some(line) = line else {
        return Ok(Value::Null);
    };
    let mut members = Map::new(alloc);
    put_text(alloc, &mut members, "file", line.file)?;
    put(alloc, &mut members, "line", Value::from(line.number))?;
    put_text(alloc, &mut members, "text", line.text)?;
    Ok(Value::Object(members))
}

fn text_or_null(alloc: Global, text: Option<&str>) -> Result<Value, AllocError>
    ensures { IfOk result (λ value. view value ≡ text_data (option_copied text.entry)) }
{
    match text {
        Some(text) => Value::try_from_str(alloc, text),
        None => Ok(Value::Null),
    }
}

fn exception_value(alloc: Global, exception: &Exception<'_>) -> Result<Value, AllocError>
    ensures { IfOk result (λ value. view value ≡ exception_data exception.now) }
{
    let line = line_or_null(alloc, exception.line)?;
    let user = text_or_null(alloc, exception.user)?;
    let mut members = Map::new(alloc);
    put_text(alloc, &mut members, "client", exception.client)?;
    put(alloc, &mut members, "line", line)?;
    put_text(alloc, &mut members, "topic", exception.topic)?;
    put(alloc, &mut members, "user", user)?;
    Ok(Value::Object(members))
}

fn exceptions_value(alloc: Global, all: &[Exception<'_>]) -> Result<Value, AllocError>
    ensures { IfOk result (λ value. view value
        ≡ array (items_of (map exception_data all.now))) }
{
    let mut values = Vec::new(alloc);
    for exception in all {
        values.push(exception_value(alloc, exception)?)?;
    }
    Ok(Value::Array(values))
}

fn datum_value(alloc: Global, datum: Datum<'_>) -> Result<Value, AllocError>
    ensures { IfOk result (λ value. view value ≡ datum_data datum.entry) }
{
    match datum {
        Datum::Text(text) | Datum::TextIf(Some(text)) => Value::try_from_str(alloc, text),
        Datum::Texts(texts) => texts_value(alloc, texts),
        Datum::Number(number) | Datum::NumberIf(Some(number)) => Ok(Value::from(number)),
        Datum::Flag(flag) => Ok(Value::Bool(flag)),
        Datum::LineIf(line) => line_or_null(alloc, line),
        Datum::Exceptions(all) => exceptions_value(alloc, all),
        Datum::TextIf(None) | Datum::NumberIf(None) => Ok(Value::Null),
    }
}

// The members with these data under their names.
fn members_of(alloc: Global, fields: &[(&str, Datum<'_>)]) -> Result<Map<String, Value>, AllocError>
    ensures { IfOk result (λ members.
        members_view members.entries ≡ with_data no_members fields.now) }
{
    let mut members = Map::new(alloc);
    for (name, datum) in fields {
        let value = datum_value(alloc, *datum)?;
        put(alloc, &mut members, name, value)?;
    }
    Ok(members)
}

/// Adds an object of these data under their names, and a line feed. The only error is that memory is refused.
pub fn add_object(
    alloc: Global,
    text: &mut String,
    fields: &[(&str, Datum<'_>)],
) -> Result<(), AllocError>
    ensures { OnOk result (string_bytes text.new
        ≡ string_bytes text.old ++ object_text (with_data no_members fields.now)) }
{
    let members = members_of(alloc, fields)?;
    let line = Value::Object(members).to_string(alloc)?;
    let shown = shown_lines(alloc, line.as_str(), Escape::Json)?;
    text.push_str(shown.as_str())?;
    text.push('\n')
}
