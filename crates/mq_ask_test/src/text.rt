//! The verdicts, in words and as JSON.
ghost use Rattle.std.specs.Prelude.{◌≡◌, ◌++◌, IfOk, List, false, string_bytes, true, ℕ};
ghost use Rattle.mq_acl.specs.declared.rules.Rules.TheVariants.{Mosquitto};
ghost use Rattle.mq_ask.specs.Notes.{EndsWithLimit};
ghost use Rattle.mq_ask_test.specs.Objects.{AreTestObjects, AreVerdictTexts, count_members};
ghost use Rattle.mq_print.specs.Lists.{list_view};
ghost use Rattle.mq_print.specs.Objects.{object_text};

use crate::case::{Case, Decided, case_of};
use crate::finding::Finding;
use crate::list::ReadList;
use crate::objects::json_lines;
use crate::verdicts::{Verdict, holding};
use crate::words::finding_words;
use mq_acl::{Direction, Rules};
use mq_ask::add_limit;
use mq_ask_cases::{shown_topic, who_text};
use mq_print::{Escape, Lines, ListText, lines_of, shown_lines};
use std::alloc::{AllocError, Global};

fn access_words(direction: Direction, may: bool) -> &'static str {
    match (direction, may) {
        (Direction::Reading, true) => "may read",
        (Direction::Reading, false) => "may not read",
        (Direction::Writing, true) => "may write",
        (Direction::Writing, false) => "may not write",
    }
}

fn add_shown(alloc: Global, text: &mut String, case: Case<'_>) -> Result<(), AllocError> {
    let shown = case.shown;
    let access = access_words(shown.direction, case.decided.is_allowed());
    let who = who_text(alloc, &[shown])?;
    let example = if case.may_have_several() {
        "for example "
    } else {
        ""
    };
    let topic = shown_topic(alloc, shown)?;
    writeln!(text, "    {access}  {who}  {example}{topic}")
}

fn add_decided(text: &mut String, decided: Decided<'_>) -> Result<(), AllocError> {
    match decided.line() {
        Some(line) => {
            let (file, number, words) = (line.file, line.number, line.text);
            writeln!(text, "    {file}:{number}  {words}")
        }
        None => {
            let file = decided.list.file;
            writeln!(text, "    {file}  no line allows it")
        }
    }
}

fn add_case(alloc: Global, text: &mut String, case: Case<'_>) -> Result<(), AllocError> {
    add_shown(alloc, text, case)?;
    if let Some(other) = case.other {
        add_decided(text, other)?;
    }
    add_decided(text, case.decided)
}

// Whether it is the list that lacks something.
fn is_of_list(finding: &Finding<'_>) -> bool {
    matches!(finding, Finding::NoneMay(_) | Finding::Unnamed(_))
}

// Adds why the line doesn't hold.
pub(crate) fn add_why(
    alloc: Global,
    text: &mut String,
    lists: &[ReadList<'_, '_>],
    verdict: &Verdict<'_, '_>,
) -> Result<(), AllocError> {
    if let Some(case) = case_of(lists, verdict) {
        return add_case(alloc, text, case);
    }
    let Some(words) = finding_words(alloc, &verdict.finding)? else {
        return Ok(());
    };
    match verdict.asked.list {
        Some(file) if is_of_list(&verdict.finding) => writeln!(text, "    {file}  {words}"),
        _ => writeln!(text, "    {words}"),
    }
}

// Adds a line that doesn't hold.
fn add_verdict(
    alloc: Global,
    text: &mut String,
    expectations: Lines<'_, '_, '_>,
    lists: &[ReadList<'_, '_>],
    verdict: &Verdict<'_, '_>,
) -> Result<(), AllocError> {
    let number = verdict.asked.expectation.line;
    let file = expectations.file;
    let words = expectations.line(number);
    writeln!(text, "{file}:{number}: {words}")?;
    add_why(alloc, text, lists, verdict)
}

fn words(
    alloc: Global,
    rules: Rules,
    expectations: Lines<'_, '_, '_>,
    lists: &[ReadList<'_, '_>],
    verdicts: &[Verdict<'_, '_>],
) -> Result<String, AllocError> {
    let mut text = String::new(alloc);
    for verdict in verdicts.iter().filter(|v| !v.finding.holds()) {
        add_verdict(alloc, &mut text, expectations, lists, verdict)?;
    }
    let hold = holding(verdicts);
    let all = verdicts.len();
    let whose = match rules {
        Rules::Own => "",
        Rules::Mosquitto => " by mosquitto's rules",
    };
    writeln!(text, "{hold} of {all} hold{whose}")?;
    shown_lines(alloc, text.as_str(), Escape::Words)
}

// All but for which clients it is.
fn said(
    alloc: Global,
    rules: Rules,
    expectations: ListText<'_, '_>,
    lists: &[ReadList<'_, '_>],
    verdicts: &[Verdict<'_, '_>],
    json: bool,
) -> Result<String, AllocError>
    ensures { IfOk result (λ text. json ≡ true → (objects : List ℕ)
        × AreVerdictTexts lists.now (list_view expectations.entry) verdicts.now objects
        × (string_bytes text ≡ objects ++ object_text (count_members verdicts.now))) }
{
    let lines = lines_of(alloc, expectations.text)?;
    let expectations = Lines {
        file: expectations.file,
        lines: &lines,
    };
    if json {
        return json_lines(alloc, expectations, lists, verdicts);
    }
    words(alloc, rules, expectations, lists, verdicts)
}

/// The lines that don't hold, each with why, and how many do; or as JSON, all of them, one a line,
/// and then how many hold. Last it has for which clients that is.
pub fn verdicts_text(
    alloc: Global,
    rules: Rules,
    expectations: ListText<'_, '_>,
    lists: &[ReadList<'_, '_>],
    verdicts: &[Verdict<'_, '_>],
    json: bool,
) -> Result<String, AllocError>
    ensures limited { IfOk result (λ text. rules ≡ Mosquitto → json ≡ false
        → EndsWithLimit (string_bytes text)) }
    ensures objects { IfOk result (λ text. json ≡ true → AreTestObjects rules lists.now
        (list_view expectations.entry) verdicts.now (string_bytes text)) }
{
    let mut text = said(alloc, rules, expectations, lists, verdicts, json)?;
    add_limit(alloc, &mut text, rules, json)?;
    Ok(text)
}
