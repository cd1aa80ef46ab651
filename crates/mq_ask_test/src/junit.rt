//! The verdicts in JUnit's XML, which CI systems show.
ghost use Rattle.std.specs.List.{before_first};
ghost use Rattle.std.specs.Option.{option_copied};
ghost use Rattle.std.specs.Prelude.{◌≡◌, ◌==◌, ◌++◌, [], IfOk, List, OnOk, codes, count_by, false};
ghost use Rattle.std.specs.Prelude.{not, string_bytes, unwrap_or, ℕ};
ghost use Rattle.std.specs.Str.{trim};
ghost use Rattle.mq_acl.specs.declared.rules.Rules.TheVariants.{Mosquitto};
ghost use Rattle.mq_ask_test.specs.Findings.{is_holds};
ghost use Rattle.mq_ask_test.specs.Junit.{AreCases, IsSuite, attribute, case_begin, case_end};
ghost use Rattle.mq_ask_test.specs.Junit.{case_text, counts, line_attributes, properties};
ghost use Rattle.mq_ask_test.specs.Junit.{suite_begin, suite_end};
ghost use Rattle.mq_ask_test.specs.Questions.{asked_view};
ghost use Rattle.mq_print.specs.Lists.{lines_view, list_view};

use crate::list::ReadList;
use crate::text::add_why;
use crate::verdicts::Verdict;
use crate::xml::{add_attribute, add_escaped, add_number};
use mq_acl::Rules;
use mq_ask::LIMITED_TO;
use mq_print::{Escape, Lines, ListText, lines_of, shown_lines};
use std::alloc::{AllocError, Global};

fn first_line(text: &str) -> &str
    ensures { result.now ≡ before_first (λ b. b == 10) text.entry.now }
{
    match text.split_once('\n') {
        Some((first, _)) => first,
        None => text,
    }
}

fn add_message(text: &mut String, why: &str) -> Result<(), AllocError>
    ensures { OnOk result (string_bytes text.new ≡ string_bytes text.old
        ++ attribute (codes "message") (before_first (λ b. b == 10) (trim why.now))) }
{
    add_attribute(text, "message", first_line(why.trim()))
}

// Ends the case of a line that doesn't hold with why that is.
fn add_failure(text: &mut String, why: &str) -> Result<(), AllocError>
    ensures { OnOk result (string_bytes text.new
        ≡ string_bytes text.old ++ case_end false why.now) }
{
    text.push_str(">\n      <failure")?;
    add_message(text, why)?;
    text.push('>')?;
    add_escaped(text, why, false)?;
    text.push_str("</failure>\n    </testcase>\n")
}

// The list of which the line is judged, if there is one.
fn add_class(text: &mut String, list: Option<&str>) -> Result<(), AllocError>
    ensures { OnOk result (string_bytes text.new ≡ string_bytes text.old
        ++ attribute (codes "classname") (unwrap_or (option_copied list.entry) [])) }
{
    add_attribute(text, "classname", list.unwrap_or(""))
}

// The line: its text, and where it stands.
fn add_line(
    text: &mut String,
    expectations: Lines<'_, '_, '_>,
    number: u64,
) -> Result<(), AllocError>
    ensures { OnOk result (string_bytes text.new ≡ string_bytes text.old
        ++ line_attributes (lines_view expectations.entry) number) }
{
    add_attribute(text, "name", expectations.line(number))?;
    add_attribute(text, "file", expectations.file)?;
    add_number(text, "line", number)
}

fn add_case_begin(
    text: &mut String,
    expectations: Lines<'_, '_, '_>,
    verdict: &Verdict<'_, '_>,
) -> Result<(), AllocError>
    ensures { OnOk result (string_bytes text.new ≡ string_bytes text.old
        ++ case_begin (lines_view expectations.entry) (asked_view verdict.now.asked)) }
{
    text.push_str("    <testcase")?;
    add_class(text, verdict.asked.list)?;
    add_line(text, expectations, verdict.asked.expectation.line)
}

fn add_case_end(
    alloc: Global,
    text: &mut String,
    lists: &[ReadList<'_, '_>],
    verdict: &Verdict<'_, '_>,
) -> Result<(), AllocError>
    ensures { OnOk result ((why : List ℕ) × (string_bytes text.new
        ≡ string_bytes text.old ++ case_end (is_holds verdict.now.finding) why)) }
{
    if verdict.finding.holds() {
        return text.push_str("/>\n");
    }
    let mut why = String::new(alloc);
    add_why(alloc, &mut why, lists, verdict)?;
    add_failure(text, why.as_str())
}

fn add_case(
    alloc: Global,
    text: &mut String,
    expectations: Lines<'_, '_, '_>,
    lists: &[ReadList<'_, '_>],
    verdict: &Verdict<'_, '_>,
) -> Result<(), AllocError>
    ensures { OnOk result ((why : List ℕ) × (string_bytes text.new ≡ string_bytes text.old
        ++ case_text (lines_view expectations.entry) verdict.now why)) }
{
    add_case_begin(text, expectations, verdict)?;
    add_case_end(alloc, text, lists, verdict)
}

// How many of the lines don't hold.
fn failing(verdicts: &[Verdict<'_, '_>]) -> usize
    ensures { result ≡ count_by (λ v. not (is_holds v.finding)) verdicts.now }
{
    verdicts.iter().filter(|v| !v.finding.holds()).count()
}

fn add_counts(text: &mut String, verdicts: &[Verdict<'_, '_>]) -> Result<(), AllocError>
    ensures { OnOk result (string_bytes text.new ≡ string_bytes text.old ++ counts verdicts.now) }
{
    add_number(text, "tests", verdicts.len() as u64)?;
    add_number(text, "failures", failing(verdicts) as u64)?;
    text.push_str(" errors=\"0\" skipped=\"0\">\n")
}

// The element that has them all, up to its cases.
fn add_suite(text: &mut String, file: &str, verdicts: &[Verdict<'_, '_>]) -> Result<(), AllocError>
    ensures { OnOk result (string_bytes text.new
        ≡ string_bytes text.old ++ suite_begin file.now verdicts.now) }
{
    text.push_str("<?xml version=\"1.0\" encoding=\"UTF-8\"?>\n<testsuites>\n  <testsuite")?;
    add_attribute(text, "name", file)?;
    add_counts(text, verdicts)
}

fn add_limit(text: &mut String) -> Result<(), AllocError>
    ensures { OnOk result (string_bytes text.new ≡ string_bytes text.old ++ properties Mosquitto) }
{
    text.push_str("    <properties>\n      <property name=\"limited_to\"")?;
    add_attribute(text, "value", LIMITED_TO)?;
    text.push_str("/>\n    </properties>\n")
}

// Adds for which clients the verdicts are, where that isn't all.
fn add_properties(text: &mut String, rules: Rules) -> Result<(), AllocError>
    ensures { OnOk result (string_bytes text.new ≡ string_bytes text.old ++ properties rules) }
{
    match rules {
        Rules::Own => Ok(()),
        Rules::Mosquitto => add_limit(text),
    }
}

fn add_cases(
    alloc: Global,
    text: &mut String,
    expectations: Lines<'_, '_, '_>,
    lists: &[ReadList<'_, '_>],
    verdicts: &[Verdict<'_, '_>],
) -> Result<(), AllocError>
    ensures { OnOk result ((cases : List ℕ)
        × AreCases (lines_view expectations.entry) verdicts.now cases
        × (string_bytes text.new ≡ string_bytes text.old ++ cases)) }
{
    for verdict in verdicts {
        add_case(alloc, text, expectations, lists, verdict)?;
    }
    Ok(())
}

// All of it.
fn suite(
    alloc: Global,
    rules: Rules,
    expectations: Lines<'_, '_, '_>,
    lists: &[ReadList<'_, '_>],
    verdicts: &[Verdict<'_, '_>],
) -> Result<String, AllocError>
    ensures { IfOk result (λ text. (cases : List ℕ)
        × AreCases (lines_view expectations.entry) verdicts.now cases
        × (string_bytes text ≡ suite_begin expectations.entry.file.now verdicts.now
        ++ properties rules ++ cases ++ suite_end)) }
{
    let mut text = String::new(alloc);
    add_suite(&mut text, expectations.file, verdicts)?;
    add_properties(&mut text, rules)?;
    add_cases(alloc, &mut text, expectations, lists, verdicts)?;
    text.push_str("  </testsuite>\n</testsuites>\n")?;
    Ok(text)
}

/// The verdicts as a test suite: each line is a case of the list that it is judged of.
pub fn junit_text(
    alloc: Global,
    rules: Rules,
    expected: ListText<'_, '_>,
    lists: &[ReadList<'_, '_>],
    verdicts: &[Verdict<'_, '_>],
) -> Result<String, AllocError>
    ensures { IfOk result (λ text.
        IsSuite rules (list_view expected.entry) verdicts.now (string_bytes text)) }
{
    let lines = lines_of(alloc, expected.text)?;
    let expectations = Lines {
        file: expected.file,
        lines: &lines,
    };
    let text = suite(alloc, rules, expectations, lists, verdicts)?;
    shown_lines(alloc, text.as_str(), Escape::Words)
}
