//! The answer to `test`: whether lists are as a file of expectations says.
ghost use Rattle.std.specs.Prelude.{◌≡◌, ◌≢◌, [], List, All, IfOk, IsSomeAnd, None, false, map};
ghost use Rattle.std.specs.Prelude.{string_bytes, true};
ghost use Rattle.mq_acl.specs.declared.rules.Rules.{Rules};
ghost use Rattle.mq_acl.specs.declared.rules.Rules.TheVariants.{Mosquitto};
ghost use Rattle.mq_ask.specs.Notes.{EndsWithLimit};
ghost use Rattle.mq_ask_test.specs.Findings.{IsVerdict};
ghost use Rattle.mq_ask_test.specs.Junit.{IsSuite, IsSuiteShown};
ghost use Rattle.mq_ask_test.specs.Objects.{AreVerdictsShown};
ghost use Rattle.mq_ask_test.specs.Questions.{asked_view, questions};
ghost use Rattle.mq_ask_test.specs.Tested.{ShowsTested};
ghost use Rattle.mq_ask_test.specs.declared.list.ReadList.{ReadList};
ghost use Rattle.mq_expect.specs.Files.{numbered_views};
ghost use Rattle.mq_print.specs.Lists.{list_view};

use crate::fault::TestFault;
use crate::junit::junit_text;
use crate::list::ReadList;
use crate::text::verdicts_text;
use crate::verdicts::{Verdict, all_hold, judge_all};
use mq_acl::Rules;
use mq_ask::{Failure, Options, Outcome};
use mq_expect::Numbered;
use mq_print::ListText;
use std::alloc::{AllocError, Global};
use std::io::{self, ErrorKind};

// Why nothing is said of the lines of this file.
fn failure_of<'t>(expected: &'t str, fault: TestFault<'t>) -> Failure<'t> {
    match fault {
        TestFault::Memory => Failure::Memory,
        // Each that is wanted was read.
        TestFault::Missing(file) => { Failure::Read(file, io::Error::from(ErrorKind::NotFound)) }
        TestFault::Long { file, line } => Failure::Long { file, line },
        TestFault::Mark { file, line } => Failure::Mark { file, line },
        TestFault::GaveUp {
            expectation,
            file,
            row: 0,
            others,
        } => Failure::TestFilterGaveUp {
            file: expected,
            line: expectation,
            list: file,
            others,
        },
        TestFault::GaveUp {
            expectation,
            file,
            row,
            others,
        } => Failure::TestGaveUp {
            file: expected,
            line: expectation,
            list: file,
            row,
            others,
        },
    }
}

// Whether each of the lines holds.
fn outcome_of(verdicts: &[Verdict<'_, '_>]) -> Outcome
    ensures { (rules : Rules) (lists : List ReadList) → All (IsVerdict rules lists) verdicts.now
        → ShowsTested rules lists (map (λ v. asked_view v.asked) verdicts.now) result }
{
    if all_hold(verdicts) {
        return Outcome::Clear;
    }
    Outcome::Remark
}

/// What is said of the lines, and what it comes to.
#[derive(Drop)]
pub struct Tested {
    /// What is said, in words or as JSON.
    pub text: String,
    /// The same in JUnit's XML, if that is wanted.
    pub junit: Option<String>,
    /// Whether each line holds.
    pub outcome: Outcome,
}

fn junit_if(
    alloc: Global,
    junit: bool,
    rules: Rules,
    expected: ListText<'_, '_>,
    lists: &[ReadList<'_, '_>],
    verdicts: &[Verdict<'_, '_>],
) -> Result<Option<String>, AllocError>
    ensures suite { IfOk result (λ text. junit ≡ true → IsSomeAnd text (λ it. IsSuite rules
        (list_view expected.entry) verdicts.now (string_bytes it))) }
    ensures none { IfOk result (λ text. junit ≡ false → text ≡ None) }
{
    if !junit {
        return Ok(None);
    }
    let text = junit_text(alloc, rules, expected, lists, verdicts)?;
    Ok(Some(text))
}

/// Judges the lines of a file of expectations, of the lists that are given or else of those that they
/// name, and says which don't hold; in JUnit's XML too, if that is wanted. A file that expects nothing
/// is a failure: it is another than was meant.
pub fn test_lists<'t>(
    alloc: Global,
    expected: ListText<'t, 't>,
    given: &[&'t str],
    expectations: &[Numbered<'t>],
    lists: &[ReadList<'t, '_>],
    junit: bool,
    options: Options,
) -> Result<Tested, Failure<'t>>
    ensures shown { IfOk result (λ shown. ShowsTested options.rules lists.now
        (questions (map (λ file. file.now) given.now) (numbered_views expectations.now)) shown.outcome) }
    ensures some { IfOk result (λ _.
        questions (map (λ file. file.now) given.now) (numbered_views expectations.now) ≢ []) }
    ensures limited { IfOk result (λ shown. options.rules ≡ Mosquitto → options.json ≡ false
        → EndsWithLimit (string_bytes shown.text)) }
    ensures json { IfOk result (λ shown. options.json ≡ true
        → AreVerdictsShown options.rules lists.now (list_view expected.entry)
        (questions (map (λ file. file.now) given.now) (numbered_views expectations.now))
        (string_bytes shown.text)) }
    ensures junit { IfOk result (λ shown. junit ≡ true → IsSomeAnd shown.junit
        (λ text. IsSuiteShown options.rules lists.now (list_view expected.entry)
        (questions (map (λ file. file.now) given.now) (numbered_views expectations.now))
        (string_bytes text))) }
    ensures no_junit { IfOk result (λ shown. junit ≡ false → shown.junit ≡ None) }
{
    let rules = options.rules;
    let verdicts = match judge_all(alloc, rules, given, expectations, lists, options.steps) {
        Ok(verdicts) => verdicts,
        Err(fault) => return Err(failure_of(expected.file, fault)),
    };
    if verdicts.is_empty() {
        return Err(Failure::NoExpectation(expected.file));
    }
    let outcome = outcome_of(&verdicts);
    Ok(Tested {
        text: verdicts_text(alloc, rules, expected, lists, &verdicts, options.json)?,
        junit: junit_if(alloc, junit, rules, expected, lists, &verdicts)?,
        outcome,
    })
}
