//! Remarks on lines, in words and as JSON.
ghost use Rattle.std.specs.Prelude.{◌≡◌, ◌∷◌, ◌++◌, ℕ, List, [], None, Some, OnOk, codes};
ghost use Rattle.std.specs.Prelude.{map, string_bytes, true};
ghost use Rattle.mq_ask_lint.specs.Objects.{AddsObjects, all_refused, empty_said, is_remarked};
ghost use Rattle.mq_ask_lint.specs.Objects.{kind_text, other_line, refused_said, remark_said};
ghost use Rattle.mq_ask_lint.specs.Objects.{said_text, unremarked, whole_said};
ghost use Rattle.mq_print.specs.Lists.{lines_view, list_view};

use mq_acl::Rules;
use mq_ask::{Options, fault_words, reload_words, rules_owner};
use mq_lint::{Remark, RemarkKind};
use mq_print::{Datum, Escape, Lines, ListText, add_object, lines_of, shown_lines};
use std::alloc::{AllocError, Global};

const NO_MARK: &str = "a pattern line without %c and %u applies to every client";

const NO_MARK_MOSQUITTO: &str = "a pattern line without %c and %u applies to every client, \
                                 but for what its own topic lines decide";

const INDENTED: &str = "mosquitto 2.0 takes # for a comment in the first column only";

const TAB: &str = "mosquitto 2.0 separates words by spaces only, not by tabs";

const HIDDEN: &str = "characters that a terminal acts on or that can't be seen, shown as \\u{..}";

const DENIES_NOTHING: &str = "denies nothing that a line grants";

const NEEDLESS: &str = "needless: without it the list allows the same";

const EMPTY: &str = "no topic or pattern line: nothing is allowed to anybody";

const REFUSED: &str = "mosquitto 2.0 doesn't take this line";

const NOTHING: &str = "no line is faulty or odd, repeats another, denies nothing or is needless, \
                       for any client id and user name";

// The kind of what is said of a list that mosquitto doesn't take.
const NOT_TAKEN: &str = "not taken";

fn kind_name(kind: RemarkKind) -> &'static str
    ensures { result.now ≡ kind_text kind }
{
    match kind {
        RemarkKind::Fault(_) => "fault",
        RemarkKind::NoMark => "no mark",
        RemarkKind::IndentedComment => "indented comment",
        RemarkKind::Tab => "tab",
        RemarkKind::Hidden => "hidden characters",
        RemarkKind::Repeats(_) => "repeats",
        RemarkKind::DeniesNothing => "denies nothing",
        RemarkKind::Needless(_) => "needless",
    }
}

// The line that this one repeats, or that makes it needless.
fn other_line(kind: RemarkKind) -> Option<u64>
    ensures { result ≡ other_line kind }
{
    match kind {
        RemarkKind::Repeats(other) => Some(other),
        RemarkKind::Needless(by) => by,
        _ => None,
    }
}

fn no_mark(rules: Rules) -> &'static str {
    match rules {
        Rules::Own => NO_MARK,
        Rules::Mosquitto => NO_MARK_MOSQUITTO,
    }
}

fn kind_words(
    alloc: Global,
    rules: Rules,
    line: &str,
    kind: RemarkKind,
) -> Result<String, AllocError> {
    match kind {
        RemarkKind::Fault(kind) => fault_words(alloc, rules, line, kind),
        RemarkKind::NoMark => String::from_str(alloc, no_mark(rules)),
        RemarkKind::IndentedComment => String::from_str(alloc, INDENTED),
        RemarkKind::Tab => String::from_str(alloc, TAB),
        RemarkKind::Hidden => String::from_str(alloc, HIDDEN),
        RemarkKind::Repeats(other) => format!(in alloc; "repeats line {other}"),
        RemarkKind::DeniesNothing => String::from_str(alloc, DENIES_NOTHING),
        RemarkKind::Needless(None) => String::from_str(alloc, NEEDLESS),
        RemarkKind::Needless(Some(other)) => {
            format!(in alloc; "{NEEDLESS}, because of line {other}")
        }
    }
}

fn add_words(
    alloc: Global,
    text: &mut String,
    list: Lines<'_, '_, '_>,
    line: u64,
    words: &str,
) -> Result<(), AllocError> {
    let file = list.file;
    let said = list.line(line);
    let words = format!(in alloc; "{file}:{line}: {words}\n    {said}\n")?;
    let shown = shown_lines(alloc, words.as_str(), Escape::Words)?;
    text.push_str(shown.as_str())
}

// Adds what is said of the list as a whole.
fn add_of_file<'a>(
    alloc: Global,
    text: &mut String,
    file: &'a str,
    kind: &'a str,
    words: &'a str,
) -> Result<(), AllocError>
    ensures { OnOk result ((lines : List (List ℕ)) → AddsObjects
        (record { file = file.entry.now; lines = lines }) (whole_said kind.entry.now ∷ [])
        (string_bytes text.old) (string_bytes text.new)) }
{
    add_object(
        alloc,
        text,
        &[
            ("file", Datum::Text(file)),
            ("kind", Datum::Text(kind)),
            ("line", Datum::NumberIf(None)),
            ("other", Datum::NumberIf(None)),
            ("text", Datum::TextIf(None)),
            ("words", Datum::Text(words)),
        ],
    )
}

fn add_json<'a>(
    alloc: Global,
    text: &mut String,
    list: Lines<'a, 'a, 'a>,
    line: u64,
    other: Option<u64>,
    kind: &'a str,
    words: &'a str,
) -> Result<(), AllocError>
    ensures { OnOk result (string_bytes text.new ≡ string_bytes text.old
        ++ said_text (lines_view list.entry)
        (record { kind = kind.entry.now; line = Some line; other = other }) words.entry.now) }
{
    add_object(
        alloc,
        text,
        &[
            ("file", Datum::Text(list.file)),
            ("kind", Datum::Text(kind)),
            ("line", Datum::Number(line)),
            ("other", Datum::NumberIf(other)),
            ("text", Datum::Text(list.line(line))),
            ("words", Datum::Text(words)),
        ],
    )
}

fn add_remark(
    alloc: Global,
    text: &mut String,
    list: Lines<'_, '_, '_>,
    remark: Remark,
    options: Options,
) -> Result<(), AllocError>
    ensures { OnOk result (options.json ≡ true → AddsObjects (lines_view list.entry)
        (remark_said remark ∷ []) (string_bytes text.old) (string_bytes text.new)) }
{
    let line = list.whole_line(remark.line);
    let words = kind_words(alloc, options.rules, line, remark.kind)?;
    if options.json {
        let kind = kind_name(remark.kind);
        let other = other_line(remark.kind);
        return add_json(alloc, text, list, remark.line, other, kind, words.as_str());
    }
    add_words(alloc, text, list, remark.line, words.as_str())
}

fn add_all(
    alloc: Global,
    text: &mut String,
    list: Lines<'_, '_, '_>,
    remarks: &[Remark],
    options: Options,
) -> Result<(), AllocError>
    ensures { OnOk result (options.json ≡ true → AddsObjects (lines_view list.entry)
        (map remark_said remarks.now) (string_bytes text.old) (string_bytes text.new)) }
{
    for remark in remarks {
        add_remark(alloc, text, list, *remark, options)?;
    }
    Ok(())
}

/// Adds the remarks on the lines of a list, each with the text of its line; needless lines come last.
pub(crate) fn add_remarks(
    alloc: Global,
    text: &mut String,
    list: ListText<'_, '_>,
    odd: &[Remark],
    needless: &[Remark],
    options: Options,
) -> Result<(), AllocError>
    ensures { OnOk result (options.json ≡ true → AddsObjects (list_view list.entry)
        (map remark_said odd.now ++ map remark_said needless.now)
        (string_bytes text.old) (string_bytes text.new)) }
{
    let lines = lines_of(alloc, list.text)?;
    let list = Lines {
        file: list.file,
        lines: &lines,
    };
    add_all(alloc, text, list, odd, options)?;
    add_all(alloc, text, list, needless, options)
}

fn is_remarked(odd: &[Remark], line: u64) -> bool
    ensures { result ≡ is_remarked odd.now line }
{
    odd.iter().any(|remark| remark.line == line)
}

// Adds that mosquitto doesn't take a line, unless something else is remarked on it.
fn add_refused_line(
    alloc: Global,
    text: &mut String,
    list: Lines<'_, '_, '_>,
    odd: &[Remark],
    remark: Remark,
    options: Options,
) -> Result<(), AllocError>
    ensures { OnOk result (options.json ≡ true → AddsObjects (lines_view list.entry)
        (map refused_said (unremarked odd.now (remark ∷ [])))
        (string_bytes text.old) (string_bytes text.new)) }
{
    if is_remarked(odd, remark.line) {
        return Ok(());
    }
    let line = list.whole_line(remark.line);
    let why = kind_words(alloc, Rules::Mosquitto, line, remark.kind)?;
    let words = format!(in alloc; "{REFUSED}: {why}")?;
    if options.json {
        return add_json(
            alloc,
            text,
            list,
            remark.line,
            None,
            NOT_TAKEN,
            words.as_str(),
        );
    }
    add_words(alloc, text, list, remark.line, words.as_str())
}

// Adds what mosquitto does with a list that it doesn't take.
fn add_reload(alloc: Global, text: &mut String, file: &str, json: bool) -> Result<(), AllocError>
    ensures { OnOk result (json ≡ true → (lines : List (List ℕ)) → AddsObjects
        (record { file = file.now; lines = lines }) (whole_said (codes "not taken") ∷ [])
        (string_bytes text.old) (string_bytes text.new)) }
{
    let words = reload_words(alloc, file)?;
    if json {
        return add_of_file(alloc, text, file, NOT_TAKEN, words.as_str());
    }
    let shown = shown_lines(alloc, words.as_str(), Escape::Words)?;
    text.push_str(shown.as_str())?;
    text.push('\n')
}

/// Adds which lines of the list mosquitto doesn't take, if it is so of some: those on which nothing
/// else was remarked, and then what it does with such a list.
pub(crate) fn add_refused(
    alloc: Global,
    text: &mut String,
    list: ListText<'_, '_>,
    odd: &[Remark],
    refused: &[Remark],
    options: Options,
) -> Result<(), AllocError>
    ensures { OnOk result (options.json ≡ true → AddsObjects (list_view list.entry)
        (all_refused odd.now refused.now) (string_bytes text.old) (string_bytes text.new)) }
{
    if refused.is_empty() {
        return Ok(());
    }
    let lines = lines_of(alloc, list.text)?;
    let lines = Lines {
        file: list.file,
        lines: &lines,
    };
    for remark in refused {
        add_refused_line(alloc, text, lines, odd, *remark, options)?;
    }
    add_reload(alloc, text, list.file, options.json)
}

/// Adds that there is no remark on the list in this file, and by whose rules.
pub(crate) fn add_none(text: &mut String, file: &str, rules: Rules) -> Result<(), AllocError> {
    let whose = rules_owner(rules);
    writeln!(
        text,
        "{file}: nothing to remark: by {whose} rules {NOTHING} a broker can have"
    )
}

/// Adds that the list in this file has no row, and what that means.
pub(crate) fn add_empty(
    alloc: Global,
    text: &mut String,
    file: &str,
    json: bool,
) -> Result<(), AllocError>
    ensures { OnOk result (json ≡ true → (lines : List (List ℕ)) → AddsObjects
        (record { file = file.now; lines = lines }) (whole_said (codes "empty") ∷ [])
        (string_bytes text.old) (string_bytes text.new)) }
{
    if json {
        return add_of_file(alloc, text, file, "empty", EMPTY);
    }
    writeln!(text, "{file}: {EMPTY}")
}
