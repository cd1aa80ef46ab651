//! The answer to `test`: whether lists are as a file of expectations says.
ghost use Rattle.std.specs.List.{list_any};
ghost use Rattle.std.specs.Prelude.{◌≡◌, ◌≤◌, ◌++◌, ◌∷◌, [], ℕ, List, Option, All, IfOk, IfErr};
ghost use Rattle.std.specs.Prelude.{OnOk, map};
ghost use Rattle.std.specs.Str.{bytes_eq};
ghost use Rattle.mq_acl.specs.declared.rules.Rules.{Rules};
ghost use Rattle.mq_acl_args.specs.Files.{input_count};
ghost use Rattle.mq_ask.specs.Statuses.{failure_status};
ghost use Rattle.mq_ask_test.specs.declared.list.ReadList.{ReadList};
ghost use Rattle.mqroute_acl.specs.Files.{IsTextOf};
ghost use Rattle.mqroute_acl.specs.Test.{AreNamed, AreRead, IsGiven, IsNamed, IsRead, IsTested};

use crate::files::{opened_text, text_of};
use crate::report::{Report, is_read_file};
use mq_acl::Rules;
use mq_acl_args::Test;
use mq_ask::{Failure, Options, Outcome, list_failure, print_outcome};
use mq_ask_test::{ReadList, Tested, read_list, test_lists, wanted_files};
use mq_expect::read_expectations;
use mq_print::ListText;
use std::alloc::{AllocError, Global};
use std::io::{Read, Write};
use std::rt::Files;

/// The file of a list, and its text.
#[derive(Drop)]
pub(crate) struct ListFile<'a> {
    /// Its name.
    pub(crate) file: &'a str,
    /// Its text.
    pub(crate) text: String,
}

fn add_text<'t>(
    lists: &mut Vec<ListFile<'t>>,
    file: &'t str,
    text: String,
) -> Result<(), AllocError>
    ensures { OnOk result (lists.new.items
        ≡ lists.old.items ++ (record { file = file.entry; text = text } ∷ [])) }
{
    lists.push(ListFile { file, text })?;
    Ok(())
}

fn add_read<'t, 'l>(
    all: &mut Vec<ReadList<'t, 'l>>,
    read: ReadList<'t, 'l>,
) -> Result<(), AllocError>
    ensures { OnOk result (all.new.items ≡ all.old.items ++ (read.entry ∷ [])) }
{
    all.push(read)?;
    Ok(())
}

// The texts of the lists that the command line gives.
fn given_texts<'a, R: Files, I: Read>(
    rt: &R,
    alloc: Global,
    given: &[&'a str],
    input: &mut I,
) -> Result<Vec<ListFile<'a>>, Failure<'a>>
    requires { input_count (map (λ file. file.now) given.now) ≤ 1 }
    ensures ok { IfOk result (λ lists. (known : Option (List ℕ))
        → (1 ≤ input_count (map (λ file. file.now) given.now) → known ≡ I.remaining input.old)
        → All (IsGiven known) lists.items) }
    ensures kept { input_count (map (λ file. file.now) given.now) ≡ 0 → input.new ≡ input.old }
{
    let mut lists = Vec::new(alloc);
    for file in given {
        let text = text_of(rt, alloc, *file, input)?;
        add_text(&mut lists, *file, text)?;
    }
    Ok(lists)
}

fn has_file(files: &[&str], file: &str) -> bool
    ensures { result ≡ list_any (λ other. bytes_eq file.now other.now) files.now }
{
    files.iter().any(|other| file == *other)
}

// Adds the text of a list that the expectations name, unless the command line gives it.
fn add_named<'t, R: Files>(
    rt: &R,
    alloc: Global,
    given: &[&'t str],
    file: &'t str,
    lists: &mut Vec<ListFile<'t>>,
) -> Result<(), Failure<'t>>
    ensures { OnOk result ((input : Option (List ℕ))
        → AreNamed input (map (λ other. other.now) given.now) lists.old.items
        → AreNamed input (map (λ other. other.now) given.now) lists.new.items) }
{
    if has_file(given, file) {
        return Ok(());
    }
    let text = opened_text(rt, alloc, file)?;
    add_text(lists, file, text)?;
    Ok(())
}

// Adds those of the lists that the expectations name.
fn add_all_named<'t, R: Files>(
    rt: &R,
    alloc: Global,
    given: &[&'t str],
    wanted: &[&'t str],
    lists: &mut Vec<ListFile<'t>>,
) -> Result<(), Failure<'t>>
    ensures { OnOk result ((input : Option (List ℕ))
        → AreNamed input (map (λ other. other.now) given.now) lists.old.items
        → AreNamed input (map (λ other. other.now) given.now) lists.new.items) }
{
    for file in wanted {
        add_named(rt, alloc, given, *file, lists)?;
    }
    Ok(())
}

fn read_one<'t, 'l>(
    alloc: Global,
    rules: Rules,
    list: &'l ListFile<'t>,
) -> Result<ReadList<'t, 'l>, Failure<'t>>
    ensures { IfOk result (λ read. (input : Option (List ℕ)) → (given : List (List ℕ))
        → IsNamed input given list.now → IsRead rules input given read) }
{
    let list = ListText {
        file: list.file,
        text: list.text.as_str(),
    };
    match read_list(alloc, rules, list) {
        Ok(read) => Ok(read),
        Err(fault) => Err(list_failure(alloc, rules, list, fault)),
    }
}

// The lists with these texts.
fn read_all<'t, 'l>(
    alloc: Global,
    rules: Rules,
    lists: &'l [ListFile<'t>],
) -> Result<Vec<ReadList<'t, 'l>>, Failure<'t>>
    ensures { IfOk result (λ all. (input : Option (List ℕ)) → (given : List (List ℕ))
        → AreNamed input given lists.now → AreRead rules input given all.items) }
{
    let mut all = Vec::new(alloc);
    for list in lists {
        let read = read_one(alloc, rules, list)?;
        add_read(&mut all, read)?;
    }
    Ok(all)
}

// Refuses to write to a file that is read, by whatever name or link.
fn keep_apart<'t, R: Files>(
    rt: &R,
    junit: Option<&'t str>,
    expected: &str,
    given: &[&str],
    wanted: &[&str],
) -> Result<(), Failure<'t>> {
    let Some(file) = junit else {
        return Ok(());
    };
    let is_read = is_read_file(rt, file, expected)
        || given.iter().any(|list| is_read_file(rt, file, *list))
        || wanted.iter().any(|list| is_read_file(rt, file, *list));
    if is_read {
        return Err(Failure::Overwritten(file));
    }
    Ok(())
}

// The same of the texts of the lists that are given, and of those that the lines name.
fn tested<'t, R: Files, I: Read>(
    rt: &R,
    alloc: Global,
    expected: ListText<'t, 't>,
    given: &[&'t str],
    junit: Option<&'t str>,
    options: Options,
    input: &mut I,
) -> Result<Tested, Failure<'t>>
    requires { input_count (map (λ file. file.now) given.now) ≤ 1 }
    ensures ok { IfOk result (λ shown. (known : Option (List ℕ))
        → (1 ≤ input_count (map (λ file. file.now) given.now) → known ≡ I.remaining input.old)
        → IsTested options.rules known expected.entry.text.now
        (map (λ file. file.now) given.now) shown.outcome) }
    ensures kept { input_count (map (λ file. file.now) given.now) ≡ 0 → input.new ≡ input.old }
{
    let mut lists = given_texts(rt, alloc, given, input)?;
    let expectations = read_expectations(alloc, expected.text)?;
    let wanted = wanted_files(alloc, given, &expectations)?;
    keep_apart(rt, junit, expected.file, given, &wanted)?;
    add_all_named(rt, alloc, given, &wanted, &mut lists)?;
    let read = read_all(alloc, options.rules, &lists)?;
    test_lists(
        alloc,
        expected,
        given,
        &expectations,
        &read,
        junit.is_some(),
        options,
    )
}

// The same names, for a shorter life.
fn shorter<'a: 't, 't>(alloc: Global, names: &[&'a str]) -> Result<Vec<&'t str>, AllocError>
    ensures { IfOk result (λ all. map (λ name. name.now) all.items ≡ map (λ name. name.now) names.now) }
{
    let mut all = Vec::new(alloc);
    for name in names {
        all.push(*name)?;
    }
    Ok(all)
}

// The report, if one is wanted.
fn prepared<'a, R: Files>(
    rt: &R,
    alloc: Global,
    file: Option<&'a str>,
    text: Option<String>,
) -> Result<Option<Report<'a>>, Failure<'a>>
    ensures { IfErr result (λ failure. failure_status failure ≡ 3) }
{
    let (Some(file), Some(text)) = (file, text) else {
        return Ok(None);
    };
    Ok(Some(Report::prepare(rt, alloc, file, text)?))
}

// Puts the report in its place, if the answer was written, and else leaves the file as it was.
fn end_report<'a, R: Files>(
    rt: &R,
    report: Option<Report<'a>>,
    is_written: bool,
) -> Result<(), Failure<'a>>
    ensures { IfErr result (λ failure. failure_status failure ≡ 3) }
{
    let Some(report) = report else {
        return Ok(());
    };
    if is_written {
        return report.finish(rt);
    }
    report.discard(rt);
    Ok(())
}

// Writes what is said of the lines, and then the report.
fn write_tested<'a, R: Files, W: Write>(
    rt: &R,
    alloc: Global,
    junit: Option<&'a str>,
    shown: Tested,
    out: &mut W,
) -> Result<Outcome, Failure<'a>>
    ensures ok { IfOk result (λ outcome. outcome ≡ shown.outcome) }
    ensures err { IfErr result (λ failure. failure_status failure ≡ 3) }
{
    let Tested {
        text,
        junit: report,
        outcome,
    } = shown;
    let report = prepared(rt, alloc, junit, report)?;
    let written = print_outcome(out, Ok(text), outcome);
    end_report(rt, report, written.is_ok())?;
    written
}

/// Shows which lines of a file of expectations don't hold of the lists in these files; or, where
/// none is given, of those that it names. Behind that the same in JUnit's XML takes the place of a
/// file, if one is named. A file that expects nothing is a failure: it is another than was meant.
pub(crate) fn answer_test<'a, R: Files, I: Read, W: Write>(
    rt: &R,
    alloc: Global,
    asked: &Test<'a>,
    options: Options,
    input: &mut I,
    out: &mut W,
) -> Result<Outcome, Failure<'a>>
    requires { input_count (asked.now.expected.now
        ∷ map (λ file. file.now) asked.now.lists.items) ≤ 1 }
    ensures ok { IfOk result (λ outcome. (text : List ℕ)
        × IsTextOf (I.remaining input.old) asked.entry.now.expected.now text
        × IsTested options.rules (I.remaining input.old) text
        (map (λ file. file.now) asked.entry.now.lists.items) outcome) }
    ensures unread { IfErr result (λ failure. failure_status failure ≡ 2 → out.new ≡ out.old) }
    ensures kept { input_count (asked.entry.now.expected.now
        ∷ map (λ file. file.now) asked.entry.now.lists.items) ≡ 0 → input.new ≡ input.old }
{
    let text = text_of(rt, alloc, asked.expected, input)?;
    let given = shorter(alloc, asked.lists.as_slice())?;
    let said = ListText {
        file: asked.expected,
        text: text.as_str(),
    };
    match tested(rt, alloc, said, &given, asked.junit, options, input) {
        Ok(shown) => write_tested(rt, alloc, asked.junit, shown, out),
        Err(failure) => Err(Failure::of_named(alloc, failure)),
    }
}
