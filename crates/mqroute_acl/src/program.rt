//! All of the program but its `main`.
ghost use Rattle.std.specs.Prelude.{◌≡◌, ◌≢◌, ◌≤◌, ◌⊎◌, ◌∷◌, ℕ, List, [], IfOk, IfErr, Some};
ghost use Rattle.std.specs.Prelude.{false, map, string_bytes, if◌then◌else◌, is_ok};
ghost use Rattle.std.specs.Option.{option_copied};
ghost use Rattle.mq_acl_args.specs.CommandLine.{Asked, IsFaultOf, ReadsInputOnce, asked_by};
ghost use Rattle.mq_acl_args.specs.CommandLine.{fault_of, files_of, mqroute_acl, question_view};
ghost use Rattle.mq_acl_args.specs.CommandLine.{rules_given, subcommand_of};
ghost use Rattle.mq_acl_args.specs.CommandLine.{values_of};
ghost use Rattle.mq_acl_args.specs.Files.{input_count, script_file};
ghost use Rattle.mq_ask_compare.specs.Compare.{IsCompared};
ghost use Rattle.mq_ask_why.specs.Answers.{AreAnswered};
ghost use Rattle.mq_ask_why.specs.Why.{IsExplained};
ghost use Rattle.mq_ask.specs.Statuses.{failure_status};
ghost use Rattle.mq_ask_who.specs.Who.{IsWho};
ghost use Rattle.mqroute_acl.specs.Files.{IsTextOf};
ghost use Rattle.mqroute_acl.specs.Program.{IsAnswer, IsAnswered, IsUnread, IsUnreadBy, PrintsUsage};

use crate::files::{text_of, traffic_of};
use crate::lint::answer_lint;
use crate::plan::answer_through;
use crate::reach::answer_reach;
use crate::test::answer_test;
use mq_acl_args::{Compare, Question, Request, Who, Why, WhyEach, arguments};
use mq_args::UsageFault;
use mq_ask::{FAILED, Failure, Options, Outcome, UNREADABLE, print};
use mq_ask_cases::ScriptTraffic;
use mq_ask_compare::show_changes;
use mq_ask_who::show_who;
use mq_ask_why::{show_each, show_why};
use mq_print::{ListText, shown_name};
use mq_traffic::Traffic;
use std::alloc::{AllocError, Global};
use std::io::{Read, Write};
use std::rt::Files;

// The publishes of the script that is read, if one is.
fn script_traffic<'s>(
    file: Option<&'s str>,
    traffic: &'s Option<Traffic>,
) -> Option<ScriptTraffic<'s>> {
    match (file, traffic) {
        (Some(file), Some(traffic)) => Some(ScriptTraffic { file, traffic }),
        _ => None,
    }
}

/// Of two lists, and of the publishes of a script if one is given.
fn answer_compare<'a, R: Files, I: Read, W: Write>(
    rt: &R,
    alloc: Global,
    asked: Compare<'a>,
    options: Options,
    input: &mut I,
    out: &mut W,
) -> Result<Outcome, Failure<'a>>
    requires { input_count (asked.old.now ∷ asked.new.now
        ∷ script_file (option_copied asked.script)) ≤ 1 }
    ensures ok { IfOk result (λ outcome. (old new : List ℕ)
        × IsTextOf (I.remaining input.old) asked.entry.old.now old
        × IsTextOf (I.remaining input.old) asked.entry.new.now new
        × IsCompared options.rules asked.entry.only old new outcome) }
    ensures unread { IfErr result (λ failure. failure_status failure ≡ 2 → out.new ≡ out.old) }
    ensures kept { input_count (asked.entry.old.now ∷ asked.entry.new.now
        ∷ script_file (option_copied asked.entry.script)) ≡ 0 → input.new ≡ input.old }
{
    let old_text = text_of(rt, alloc, asked.old, input)?;
    let new_text = text_of(rt, alloc, asked.new, input)?;
    let traffic = traffic_of(rt, alloc, asked.script, input)?;
    let old = ListText {
        file: asked.old,
        text: old_text.as_str(),
    };
    let new = ListText {
        file: asked.new,
        text: new_text.as_str(),
    };
    let script = script_traffic(asked.script, &traffic);
    show_changes(alloc, old, new, asked.only, script, options, out)
}

/// Of a client and a topic, and whether the status is of reading or of writing.
fn answer_why<'a, R: Files, I: Read, W: Write>(
    rt: &R,
    alloc: Global,
    asked: Why<'a>,
    options: Options,
    input: &mut I,
    out: &mut W,
) -> Result<Outcome, Failure<'a>>
    ensures ok { IfOk result (λ outcome. (text : List ℕ)
        × IsTextOf (I.remaining input.old) asked.entry.file.now text
        × IsExplained options.rules asked.entry.may text asked.entry.client.id.now
        (option_copied asked.entry.client.user) asked.entry.topic.now outcome) }
    ensures unread { IfErr result (λ failure. failure_status failure ≡ 2 → out.new ≡ out.old) }
    ensures kept { input_count (asked.entry.file.now ∷ []) ≡ 0 → input.new ≡ input.old }
{
    let text = text_of(rt, alloc, asked.file, input)?;
    let list = ListText {
        file: asked.file,
        text: text.as_str(),
    };
    show_why(
        alloc,
        list,
        asked.client,
        asked.topic,
        asked.may,
        options,
        out,
    )
}

/// Of each question of a file.
fn answer_each<'a, R: Files, I: Read, W: Write>(
    rt: &R,
    alloc: Global,
    asked: WhyEach<'a>,
    options: Options,
    input: &mut I,
    out: &mut W,
) -> Result<Outcome, Failure<'a>>
    requires { input_count (asked.file.now ∷ asked.questions.now ∷ []) ≤ 1 }
    ensures ok { IfOk result (λ outcome. (text questions : List ℕ)
        × IsTextOf (I.remaining input.old) asked.entry.file.now text
        × IsTextOf (I.remaining input.old) asked.entry.questions.now questions
        × AreAnswered options.rules text questions outcome) }
    ensures unread { IfErr result (λ failure. failure_status failure ≡ 2 → out.new ≡ out.old) }
    ensures kept { input_count (asked.entry.file.now ∷ asked.entry.questions.now ∷ []) ≡ 0
        → input.new ≡ input.old }
{
    let text = text_of(rt, alloc, asked.file, input)?;
    let questions_text = text_of(rt, alloc, asked.questions, input)?;
    let list = ListText {
        file: asked.file,
        text: text.as_str(),
    };
    let questions = ListText {
        file: asked.questions,
        text: questions_text.as_str(),
    };
    show_each(alloc, list, questions, options, out)
}

/// Of a list and a filter: who may, and how many publishes of a script if one is given.
fn answer_who<'a, R: Files, I: Read, W: Write>(
    rt: &R,
    alloc: Global,
    asked: Who<'a>,
    options: Options,
    input: &mut I,
    out: &mut W,
) -> Result<Outcome, Failure<'a>>
    ensures ok { IfOk result (λ outcome. (text : List ℕ)
        × IsTextOf (I.remaining input.old) asked.entry.file.now text
        × IsWho options.rules text asked.entry.wanted.now asked.entry.selection.access
        (option_copied asked.entry.selection.only) outcome) }
    ensures unread { IfErr result (λ failure. failure_status failure ≡ 2 → out.new ≡ out.old) }
    ensures kept { input_count (asked.entry.file.now ∷ script_file (option_copied asked.entry.script))
        ≡ 0 → input.new ≡ input.old }
{
    let text = text_of(rt, alloc, asked.file, input)?;
    let traffic = traffic_of(rt, alloc, asked.script, input)?;
    let list = ListText {
        file: asked.file,
        text: text.as_str(),
    };
    let script = script_traffic(asked.script, &traffic);
    show_who(
        alloc,
        list,
        asked.wanted,
        asked.selection,
        script,
        options,
        out,
    )
}

/// Answers what is asked for, in colours or without.
fn answer<'a, R: Files, I: Read, W: Write>(
    rt: &R,
    alloc: Global,
    request: Request<'a>,
    coloured: bool,
    input: &mut I,
    out: &mut W,
) -> Result<Outcome, Failure<'a>>
    requires { ReadsInputOnce (question_view request.question) }
    ensures ok { IfOk result (λ outcome. IsAnswer request.entry.options.rules
        (I.remaining input.old) (question_view request.entry.question) outcome) }
    ensures unread { IfErr result (λ failure. failure_status failure ≡ 2
        → IsUnread (I.remaining input.old) (question_view request.entry.question)
        (out.new ≡ out.old)) }
    ensures kept { input_count (files_of (question_view request.entry.question)) ≡ 0
        → input.new ≡ input.old }
{
    let options = Options {
        coloured,
        ..request.options
    };
    match request.question {
        Question::Compare(asked) => answer_compare(rt, alloc, asked, options, input, out),
        Question::Through(asked) => answer_through(rt, alloc, asked, options, input, out),
        Question::Why(asked) => answer_why(rt, alloc, asked, options, input, out),
        Question::WhyEach(asked) => answer_each(rt, alloc, asked, options, input, out),
        Question::Lint(files) => answer_lint(rt, alloc, files.as_slice(), options, input, out),
        Question::Reach(asked) => answer_reach(rt, alloc, asked, options, input, out),
        Question::Who(asked) => answer_who(rt, alloc, asked, options, input, out),
        Question::Test(asked) => answer_test(rt, alloc, &asked, options, input, out),
    }
}

/// Prints a text, or that there was no memory for it, and answers the exit status: the one that is
/// given, or that of want of memory. A failed write is ignored.
fn print_error<E: Write>(text: Result<String, AllocError>, status: u8, err: &mut E) -> u8
    ensures { result ≡ (if is_ok text then status else 3) }
{
    let (line, status) = match &text {
        Ok(text) => (text.as_str(), status),
        Err(_) => ("mqroute-acl: out of memory\n", FAILED),
    };
    let _ = print(err, line);
    status
}

// A failure in a line of its own, as it is shown.
fn failure_line(alloc: Global, failure: &Failure<'_>) -> Result<String, AllocError> {
    let words = format!(in alloc; "{failure}")?;
    let mut line = shown_name(alloc, words.as_str())?;
    line.push('\n')?;
    Ok(line)
}

/// Says why nothing is answered, and answers the status: 3 too where there is no memory for the text.
fn report<E: Write>(alloc: Global, failure: Failure<'_>, err: &mut E) -> u8
    ensures { (result ≡ failure_status failure.entry) ⊎ (result ≡ 3) }
{
    print_error(failure_line(alloc, &failure), failure.status(), err)
}

/// Prints help, or why the words are not understood, and answers the status.
fn report_usage<W: Write, E: Write>(
    alloc: Global,
    fault: UsageFault,
    out: &mut W,
    err: &mut E,
) -> u8
    ensures shows { PrintsUsage fault result (W.contents out.old) (W.contents out.new) }
    ensures unread { result ≡ 2 → out.new ≡ out.old }
    ensures quiet { result ≡ 0 → err.new ≡ err.old }
{
    match fault {
        UsageFault::Help(text) => match print(out, text.as_str()) {
            Ok(()) => 0,
            Err(failure) => report(alloc, failure, err),
        },
        UsageFault::Usage(text) => print_error(Ok(text), UNREADABLE, err),
        UsageFault::Memory => report(alloc, Failure::Memory, err),
    }
}

/// Runs the program: `words` are its name and its arguments, `input` is read for the file `-`,
/// answers go to `out`, in colours if they are `coloured`, and a line on `err` says what failed.
///
/// Answers the exit status: 0 where nothing is to be remarked or help was asked for, 1 where
/// something is, 2 where the words are not understood, a file can't be opened, read or understood,
/// or an answer takes more steps than are given, and 3 where a write failed or memory ran out, even
/// if only for the line on `err`.
pub(crate) fn start<R: Files, I: Read, W: Write, E: Write>(
    rt: &R,
    alloc: Global,
    words: &[String],
    coloured: bool,
    input: &mut I,
    out: &mut W,
    err: &mut E,
) -> u8
    ensures bound { result ≤ 3 }

    // Of words that are understood, a status of 0 or 1 says what is true of texts that the files
    // may have: of standard input, where its bytes are known, that is what it holds. They name it
    // once at most. Nothing is then printed on standard error.
    ensures answered { let given = map string_bytes words.now in fault_of mqroute_acl given ≡ []
        → result ≢ 2 → result ≢ 3
        → IsAnswered (rules_given (values_of (subcommand_of mqroute_acl given)))
        (I.remaining input.old) (asked_by (subcommand_of mqroute_acl given)) result }
    ensures silent { let given = map string_bytes words.now in fault_of mqroute_acl given ≡ []
        → result ≢ 2 → result ≢ 3 → err.new ≡ err.old }

    // Of words that are not understood a fault that they have is printed, or that memory ran out.
    ensures usage { let given = map string_bytes words.now in fault_of mqroute_acl given ≢ []
        → (fault : UsageFault) × IsFaultOf given (fault_of mqroute_acl given) fault
        × PrintsUsage fault result (W.contents out.old) (W.contents out.new) }

    // Standard input is left alone where no file of the question is `-`, and where the words are not understood.
    ensures kept { (question : Asked)
        → asked_by (subcommand_of mqroute_acl (map string_bytes words.now)) ≡ Some question
        → input_count (files_of question) ≡ 0 → input.new ≡ input.old }
    ensures not_understood { fault_of mqroute_acl (map string_bytes words.now) ≢ []
        → input.new ≡ input.old }

    // At a status of 2 nothing is written, but by `lint` of a list of which mosquitto doesn't take a
    // line; and beside help nothing is printed.
    ensures unread { result ≡ 2 → IsUnreadBy (I.remaining input.old)
        (asked_by (subcommand_of mqroute_acl (map string_bytes words.now))) (out.new ≡ out.old) }
    ensures quiet { fault_of mqroute_acl (map string_bytes words.now) ≢ [] → result ≢ 2
        → result ≢ 3 → err.new ≡ err.old }
{
    let request = match arguments(alloc, words) {
        Ok(request) => request,
        Err(fault) => return report_usage(alloc, fault, out, err),
    };
    match answer(rt, alloc, request, coloured, input, out) {
        Ok(outcome) => outcome.status(),
        Err(failure) => report(alloc, failure, err),
    }
}
