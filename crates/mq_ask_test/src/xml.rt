//! Texts and attributes in XML.
ghost use Rattle.std.specs.Option.{option_copied};
ghost use Rattle.std.specs.Prelude.{◌≡◌, ◌++◌, OnOk, string_bytes};
ghost use Rattle.mq_ask_test.specs.Junit.{attribute, escape_of, escaped, escaped_char};
ghost use Rattle.mq_ask_test.specs.Junit.{has_no_place, named, number_attribute, numbered, replaced};

use std::alloc::AllocError;

// XML's own marks, by their names.
fn named(c: char) -> Option<&'static str>
    ensures { option_copied result ≡ named c }
{
    match c {
        '&' => Some("&amp;"),
        '<' => Some("&lt;"),
        '>' => Some("&gt;"),
        '"' => Some("&quot;"),
        _ => None,
    }
}

fn numbered(c: char) -> Option<&'static str>
    ensures { option_copied result ≡ numbered c }
{
    match c {
        '\t' => Some("&#9;"),
        '\n' => Some("&#10;"),
        '\r' => Some("&#13;"),
        _ => None,
    }
}

// XML 1.0 has no place for these (section 2.2).
fn has_no_place(c: char) -> bool
    ensures { result ≡ has_no_place c }
{
    c < ' ' || c == '\u{fffe}' || c == '\u{ffff}'
}

fn replaced(c: char) -> Option<&'static str>
    ensures { option_copied result ≡ replaced c }
{
    if has_no_place(c) {
        Some("\u{fffd}")
    } else {
        None
    }
}

// What stands for a character in a text, or in an attribute, if it can't stand for itself.
fn escape_of(c: char, in_attribute: bool) -> Option<&'static str>
    ensures { option_copied result ≡ escape_of in_attribute c }
{
    if !in_attribute && (c == '\t' || c == '\n') {
        return None;
    }
    named(c).or(numbered(c)).or(replaced(c))
}

fn add_char(text: &mut String, c: char, in_attribute: bool) -> Result<(), AllocError>
    ensures { OnOk result (string_bytes text.new
        ≡ string_bytes text.old ++ escaped_char in_attribute c) }
{
    match escape_of(c, in_attribute) {
        Some(escape) => text.push_str(escape),
        None => text.push(c),
    }
}

/// Adds words as they stand in a text, or in an attribute.
pub(crate) fn add_escaped(
    text: &mut String,
    words: &str,
    in_attribute: bool,
) -> Result<(), AllocError>
    ensures { OnOk result (string_bytes text.new
        ≡ string_bytes text.old ++ escaped in_attribute words.now) }
{
    for c in words.chars() {
        add_char(text, c, in_attribute)?;
    }
    Ok(())
}

/// Adds an attribute.
pub(crate) fn add_attribute(text: &mut String, name: &str, value: &str) -> Result<(), AllocError>
    ensures { OnOk result (string_bytes text.new
        ≡ string_bytes text.old ++ attribute name.now value.now) }
{
    write!(text, " {name}=\"")?;
    add_escaped(text, value, true)?;
    text.push('"')
}

/// Adds an attribute that is a number.
pub(crate) fn add_number(text: &mut String, name: &str, number: u64) -> Result<(), AllocError>
    ensures { OnOk result (string_bytes text.new
        ≡ string_bytes text.old ++ number_attribute name.now number) }
{
    write!(text, " {name}=\"{number}\"")
}
