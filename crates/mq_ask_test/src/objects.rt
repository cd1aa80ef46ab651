//! The verdicts as JSON objects.
ghost use Rattle.std.specs.Option.{option_and_then, option_copied, option_map, option_map_or};
ghost use Rattle.std.specs.Prelude.{◌≡◌, ◌++◌, [], List, ℕ, IfOk, OnOk, Option, string_bytes};
ghost use Rattle.mq_ask.specs.Words.{access_text};
ghost use Rattle.mq_ask_test.specs.Objects.{AreVerdictTexts, case_view, count_members, example_of};
ghost use Rattle.mq_ask_test.specs.Objects.{kind_text, shown_view};
ghost use Rattle.mq_ask_test.specs.Objects.{verdict_members, verdict_text};
ghost use Rattle.mq_ask_test.specs.Questions.{asked_view};
ghost use Rattle.mq_differences.specs.Classes.{user_of};
ghost use Rattle.mq_print.specs.Lists.{lines_view};
ghost use Rattle.mq_print.specs.Objects.{object_text};

use crate::case::{Case, case_of};
use crate::finding::Finding;
use crate::list::ReadList;
use crate::verdicts::{Verdict, holding};
use crate::words::finding_words;
use mq_ask::access_word;
use mq_differences::Difference;
use mq_print::{Datum, Line, Lines, add_object};
use mq_topic::LevelText;
use std::alloc::{AllocError, Global};

fn kind_name(finding: &Finding<'_>) -> &'static str
    ensures { result.now ≡ kind_text finding.now }
{
    match finding {
        Finding::Holds => "holds",
        Finding::Fails(_) => "fails",
        Finding::Differs(_) => "differs",
        Finding::NoneMay(_) => "none may",
        Finding::Unnamed(_) => "unnamed",
        Finding::Refused(_) => "refused",
        Finding::Fault(_) => "fault",
        Finding::LongLevel => "long level",
        Finding::PartMark => "part of a level",
        Finding::NoList => "no list",
    }
}

// The client and the topic that show it, if some do, and the lines that decide.
#[derive(Clone, Copy, Drop)]
pub(crate) struct Shown<'v> {
    shown: Option<&'v Difference>,
    decided: Option<Line<'v>>,
    other: Option<Line<'v>>,
}

fn shown_in<'v>(case: Option<Case<'v>>) -> Shown<'v>
    ensures { shown_view result ≡ case_view case.entry }
{
    let Some(case) = case else {
        return Shown {
            shown: None,
            decided: None,
            other: None,
        };
    };
    Shown {
        shown: Some(case.shown),
        decided: case.decided.line(),
        other: match case.other {
            Some(other) => other.line(),
            None => None,
        },
    }
}

fn access_in<'v>(shown: Option<&'v Difference>) -> Option<&'v str>
    ensures { option_copied result
        ≡ option_map (λ d. access_text d.direction) (option_copied shown.entry) }
{
    Some(access_word(shown?.direction))
}

fn client_in(shown: Option<&Difference>) -> Option<&str>
    ensures { option_copied result
        ≡ option_map (λ d. string_bytes d.client) (option_copied shown.entry) }
{
    Some(shown?.client.as_str())
}

fn user_in(shown: Option<&Difference>) -> Option<&str>
    ensures { option_copied result
        ≡ option_and_then (λ d. user_of d.class) (option_copied shown.entry) }
{
    shown?.class.user()
}

fn topic_in(shown: Option<&Difference>) -> Option<&str>
    ensures { option_copied result ≡ option_map (λ d. d.topic) (option_copied shown.entry) }
{
    Some(shown?.topic.text())
}

fn placeholders_in(shown: Option<&Difference>) -> &[String]
    ensures { result.now
        ≡ option_map_or (λ d. d.placeholders.items) (option_copied shown.entry) [] }
{
    match shown {
        Some(difference) => &difference.placeholders,
        None => &[],
    }
}

fn add_one<'v>(
    alloc: Global,
    text: &mut String,
    expectations: Lines<'v, 'v, 'v>,
    verdict: &'v Verdict<'v, 'v>,
    shown: Shown<'v>,
    words: Option<&'v str>,
) -> Result<(), AllocError>
    ensures { OnOk result (string_bytes text.new ≡ string_bytes text.old ++ object_text
        (verdict_members (lines_view expectations.entry) (asked_view verdict.entry.now.asked)
        verdict.entry.now.finding (shown_view shown.entry) (option_copied words.entry))) }
{
    let number = verdict.asked.expectation.line;
    let difference = shown.shown;
    add_object(
        alloc,
        text,
        &[
            ("access", Datum::TextIf(access_in(difference))),
            ("client", Datum::TextIf(client_in(difference))),
            ("decided", Datum::LineIf(shown.decided)),
            ("file", Datum::Text(expectations.file)),
            ("holds", Datum::Flag(verdict.finding.holds())),
            ("kind", Datum::Text(kind_name(&verdict.finding))),
            ("line", Datum::Number(number)),
            ("list", Datum::TextIf(verdict.asked.list)),
            ("other", Datum::LineIf(shown.other)),
            ("placeholders", Datum::Texts(placeholders_in(difference))),
            ("text", Datum::Text(expectations.line(number))),
            ("topic", Datum::TextIf(topic_in(difference))),
            ("user", Datum::TextIf(user_in(difference))),
            ("words", Datum::TextIf(words)),
        ],
    )
}

fn add_verdict(
    alloc: Global,
    text: &mut String,
    expectations: Lines<'_, '_, '_>,
    lists: &[ReadList<'_, '_>],
    verdict: &Verdict<'_, '_>,
) -> Result<(), AllocError>
    ensures { OnOk result ((words : Option (List ℕ)) × (string_bytes text.new
        ≡ string_bytes text.old ++ verdict_text lists.now (lines_view expectations.entry)
        verdict.now words)) }
{
    let words = finding_words(alloc, &verdict.finding)?;
    let shown = shown_in(case_of(lists, verdict));
    add_one(alloc, text, expectations, verdict, shown, words.as_deref())
}

fn add_counts(
    alloc: Global,
    text: &mut String,
    verdicts: &[Verdict<'_, '_>],
) -> Result<(), AllocError>
    ensures { OnOk result (string_bytes text.new
        ≡ string_bytes text.old ++ object_text (count_members verdicts.now)) }
{
    add_object(
        alloc,
        text,
        &[
            ("expectations", Datum::Number(verdicts.len() as u64)),
            ("hold", Datum::Number(holding(verdicts) as u64)),
        ],
    )
}

/// The verdicts, one a line, and then how many hold.
pub(crate) fn json_lines(
    alloc: Global,
    expectations: Lines<'_, '_, '_>,
    lists: &[ReadList<'_, '_>],
    verdicts: &[Verdict<'_, '_>],
) -> Result<String, AllocError>
    ensures { IfOk result (λ text. (objects : List ℕ)
        × AreVerdictTexts lists.now (lines_view expectations.entry) verdicts.now objects
        × (string_bytes text ≡ objects ++ object_text (count_members verdicts.now))) }
{
    let mut text = String::new(alloc);
    for verdict in verdicts {
        add_verdict(alloc, &mut text, expectations, lists, verdict)?;
    }
    add_counts(alloc, &mut text, verdicts)?;
    Ok(text)
}
