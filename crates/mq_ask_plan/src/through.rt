//! The answer to `compare --plan`: what changes between two lists through a plan.
ghost use Rattle.std.specs.List.{filter};
ghost use Rattle.std.specs.Prelude.{◌≡◌, IfOk, IfErr, OnOk, false, string_bytes, true};
ghost use Rattle.mq_acl.specs.declared.rules.Rules.TheVariants.{Own};
ghost use Rattle.mq_ask.specs.Statuses.{failure_status};
ghost use Rattle.mq_ask_cases.specs.Ways.{is_way};
ghost use Rattle.mq_ask_plan.specs.Objects.{AreThroughShown, asked_texts};
ghost use Rattle.mq_ask_plan.specs.Plan.{IsComparedThrough, has_way};
ghost use Rattle.mq_ask_plan.specs.Renamed.{AreRenamed};
ghost use Rattle.mq_print.specs.Lists.{list_view};

use crate::fault::PlanAnswerFault;
use crate::find::{RenamedChanges, find_renamed};
use crate::scope::PlanScope;
use crate::text::renamed_text;
use crate::words::plan_fault_words;
use mq_acl::Rules;
use mq_ask::{Failure, Options, Outcome, check_taken, list_failure, print_outcome};
use mq_ask_cases::is_way;
use mq_differences::Way;
use mq_plan::{PlanFault, PlanKind};
use mq_print::ListText;
use mq_through::{Renamed, ThroughFault};
use std::alloc::{AllocError, Global};
use std::io::Write;

/// Two lists and a plan, as they stand in files.
#[derive(Clone, Copy, Drop)]
pub struct PlanTexts<'a, 't> {
    /// The old list.
    pub old: ListText<'a, 't>,
    /// The new list.
    pub new: ListText<'a, 't>,
    /// The plan.
    pub plan: ListText<'a, 't>,
}

fn line_failure<'a>(
    alloc: Global,
    file: &'a str,
    line: u64,
    words: &str,
) -> Result<Failure<'a>, AllocError> {
    let words = String::from_str(alloc, words)?;
    Ok(Failure::Line { file, line, words })
}

fn plan_failure<'a>(
    alloc: Global,
    plan: ListText<'a, '_>,
    fault: PlanFault,
) -> Result<Failure<'a>, AllocError> {
    if fault.kind == PlanKind::Memory {
        return Ok(Failure::Memory);
    }
    let words = plan_fault_words(alloc, plan.whole_line(fault.line), fault.kind)?;
    Ok(Failure::Line {
        file: plan.file,
        line: fault.line,
        words,
    })
}

const MARK: &str = "a topic line with a level %c or %u can't be compared through a plan";

const RULE: &str = "a level of more than 300 bytes, or a level %c or %u";

const LONG_NAME: &str =
    "a topic would get a new name of more than 200 levels or 65,535 bytes, or an empty one";

fn through_failure<'a>(
    alloc: Global,
    texts: PlanTexts<'a, '_>,
    fault: ThroughFault,
) -> Result<Failure<'a>, AllocError> {
    let PlanTexts { old, new, plan } = texts;
    match fault {
        ThroughFault::Memory => Ok(Failure::Memory),
        ThroughFault::OldLine(line) => Ok(Failure::Long {
            file: old.file,
            line,
        }),
        ThroughFault::NewLine(line) => Ok(Failure::Long {
            file: new.file,
            line,
        }),
        ThroughFault::OldMark(line) => line_failure(alloc, old.file, line, MARK),
        ThroughFault::NewMark(line) => line_failure(alloc, new.file, line, MARK),
        ThroughFault::Rule(line) => line_failure(alloc, plan.file, line, RULE),
        ThroughFault::LongName(line) => line_failure(alloc, plan.file, line, LONG_NAME),
        ThroughFault::NoClient => Ok(Failure::NoClient),
        ThroughFault::GaveUp => Ok(Failure::PlanGaveUp(plan.file)),
    }
}

fn failure_of<'a>(
    alloc: Global,
    texts: PlanTexts<'a, '_>,
    fault: PlanAnswerFault,
) -> Result<Failure<'a>, AllocError> {
    match fault {
        PlanAnswerFault::Old(fault) => Ok(list_failure(alloc, Rules::Own, texts.old, fault)),
        PlanAnswerFault::New(fault) => Ok(list_failure(alloc, Rules::Own, texts.new, fault)),
        PlanAnswerFault::Plan(fault) => plan_failure(alloc, texts.plan, fault),
        PlanAnswerFault::Through(fault) => through_failure(alloc, texts, fault),
    }
}

fn find<'a>(
    alloc: Global,
    texts: PlanTexts<'a, '_>,
    steps: u64,
) -> Result<RenamedChanges, Failure<'a>>
    ensures { IfOk result (AreRenamed texts.entry.old.text.now texts.entry.new.text.now
        texts.entry.plan.text.now) }
{
    let PlanTexts { old, new, plan } = texts;
    match find_renamed(alloc, old.text, new.text, plan.text, steps) {
        Ok(changes) => Ok(changes),
        Err(fault) => Err(failure_of(alloc, texts, fault)?),
    }
}

fn has_change(renamed: &[Renamed], only: Option<Way>) -> bool
    ensures { result ≡ has_way only renamed.now }
{
    renamed.iter().any(|one| is_way(only, one.difference.way))
}

// Whether there are changes that are asked about.
fn outcome_of(renamed: &[Renamed], only: Option<Way>) -> Outcome
    ensures clear { result ≡ Outcome.Clear → has_way only renamed.now ≡ false }
    ensures remark { result ≡ Outcome.Remark → has_way only renamed.now ≡ true }
{
    if has_change(renamed, only) {
        return Outcome::Remark;
    }
    Outcome::Clear
}

// Those that are asked about.
fn asked(
    alloc: Global,
    renamed: Vec<Renamed>,
    only: Option<Way>,
) -> Result<Vec<Renamed>, AllocError>
    ensures { IfOk result (λ all. all.items
        ≡ filter (λ one. is_way only one.difference.way) renamed.items) }
{
    renamed
        .into_iter()
        .filter(|one| is_way(only, one.difference.way))
        .collect(alloc)
}

fn answer_text(
    alloc: Global,
    texts: PlanTexts<'_, '_>,
    only: Option<Way>,
    options: Options,
    renamed: Vec<Renamed>,
) -> Result<String, AllocError>
    ensures { IfOk result (λ text. options.json ≡ true → string_bytes text ≡ asked_texts only
        (list_view texts.entry.old) (list_view texts.entry.new) (list_view texts.entry.plan)
        renamed.items) }
{
    let scope = PlanScope {
        only,
        json: options.json,
        coloured: options.coloured,
    };
    let renamed = asked(alloc, renamed, only)?;
    renamed_text(alloc, scope, (texts.old, texts.new), texts.plan, renamed)
}

// By our own rules, of lists that mosquitto takes.
fn compare_texts<'a, W: Write>(
    alloc: Global,
    texts: PlanTexts<'a, '_>,
    only: Option<Way>,
    options: Options,
    out: &mut W,
) -> Result<Outcome, Failure<'a>>
    requires { options.rules ≡ Own }
    ensures ok { IfOk result (IsComparedThrough options.rules only texts.entry.old.text.now
        texts.entry.new.text.now texts.entry.plan.text.now) }
    ensures unread { IfErr result (λ failure. failure_status failure ≡ 2 → out.new ≡ out.old) }
    ensures json { OnOk result (options.json ≡ true → AreThroughShown only texts.entry.old
        texts.entry.new texts.entry.plan (W.contents out.old) (W.contents out.new)) }
{
    check_taken(alloc, texts.old)?;
    check_taken(alloc, texts.new)?;
    let changes = find(alloc, texts, options.steps)?;
    let outcome = outcome_of(&changes.renamed, only);
    let text = answer_text(alloc, texts, only, options, changes.into_renamed())?;
    print_outcome(out, Ok(text), outcome)
}

/// Shows what changes through the plan between the lists, or what is gained or lost alone, if so many
/// steps suffice to know it. It is answered by our own rules alone, and of lists that mosquitto takes.
pub fn show_through<'a, W: Write>(
    alloc: Global,
    texts: PlanTexts<'a, '_>,
    only: Option<Way>,
    options: Options,
    out: &mut W,
) -> Result<Outcome, Failure<'a>>
    ensures ok { IfOk result (IsComparedThrough options.rules only texts.entry.old.text.now
        texts.entry.new.text.now texts.entry.plan.text.now) }
    ensures unread { IfErr result (λ failure. failure_status failure ≡ 2 → out.new ≡ out.old) }
    ensures json { OnOk result (options.json ≡ true → AreThroughShown only texts.entry.old
        texts.entry.new texts.entry.plan (W.contents out.old) (W.contents out.new)) }
{
    match options.rules {
        Rules::Own => compare_texts(alloc, texts, only, options, out),
        Rules::Mosquitto => Err(Failure::PlanRules),
    }
}
