//! Texts as they are shown: nothing in them acts on a terminal or reads as something else.
ghost use Rattle.std.specs.Prelude.{◌≡◌, ◌++◌, IfOk, OnOk, not, string_bytes, true, false};
ghost use Rattle.mq_print.specs.Shown.{escape_text, is_hidden, shown, shown_char};
ghost use Rattle.mq_print.specs.declared.escape.Escape.TheVariants.{Words};

use std::alloc::{AllocError, Global};

/// How a character is written that isn't shown as it is.
#[derive(Clone, Copy, PartialEq, Eq)]
pub enum Escape {
    /// `\u{202e}`, in words.
    Words,
    /// `\u202e`, in JSON. All of these characters have four digits.
    Json,
}

// Whether a character is shown as it is: no control character (Unicode's categories Cc, Zl, Zp), no mark of direction, and
// none that has no width.
fn is_shown(c: char) -> bool
    ensures { result ≡ not (is_hidden c) }
{
    !matches!(
        c,
        '\u{0}'..='\u{1f}'
            | '\u{7f}'..='\u{9f}'
            | '\u{61c}'
            | '\u{200b}'..='\u{200f}'
            | '\u{2028}'..='\u{202e}'
            | '\u{2060}'..='\u{206f}'
            | '\u{feff}'
    )
}

fn add_escape(text: &mut String, c: char, escape: Escape) -> Result<(), AllocError>
    ensures { OnOk result (string_bytes text.new
        ≡ string_bytes text.old ++ escape_text escape c) }
{
    let code = c as u32;
    match escape {
        Escape::Words => write!(text, "\\u{{{code:x}}}"),
        Escape::Json => write!(text, "\\u{code:04x}"),
    }
}

fn add_char(text: &mut String, c: char, line_feeds: bool, escape: Escape) -> Result<(), AllocError>
    ensures { OnOk result (string_bytes text.new
        ≡ string_bytes text.old ++ shown_char line_feeds escape c) }
{
    if is_shown(c) || (line_feeds && c == '\n') {
        return text.push(c);
    }
    add_escape(text, c, escape)
}

fn escaped(
    alloc: Global,
    text: &str,
    line_feeds: bool,
    escape: Escape,
) -> Result<String, AllocError>
    ensures { IfOk result (λ it. string_bytes it ≡ shown line_feeds escape text.now) }
{
    let mut shown = String::new(alloc);
    for c in text.chars() {
        add_char(&mut shown, c, line_feeds, escape)?;
    }
    Ok(shown)
}

/// Lines as they are shown: each character but a line feed that acts on a terminal, that turns the
/// direction of writing, that parts lines, or that can't be seen is escaped.
pub fn shown_lines(alloc: Global, lines: &str, escape: Escape) -> Result<String, AllocError>
    ensures { IfOk result (λ text. string_bytes text ≡ shown true escape lines.now) }
{
    escaped(alloc, lines, true, escape)
}

/// A name as it is shown in a line: as `shown_lines` has it, and line feeds are escaped too.
pub fn shown_name(alloc: Global, name: &str) -> Result<String, AllocError>
    ensures { IfOk result (λ text. string_bytes text ≡ shown false Words name.now) }
{
    escaped(alloc, name, false, Escape::Words)
}
