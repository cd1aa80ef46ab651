//! The answers to the questions of a file, one a line.
ghost use Rattle.std.specs.Prelude.{◌≡◌, ◌⊎◌, List, ℕ, IfErr, IfOk, OnOk};
ghost use Rattle.mq_ask.specs.Failures.{IsListFailure};
ghost use Rattle.mq_ask.specs.Statuses.{failure_status};
ghost use Rattle.mq_ask_why.specs.Answers.{AreAnswers, AreAnswered, IsQuestionFailure};
ghost use Rattle.mq_ask_why.specs.Explained.{AreShown};
ghost use Rattle.mq_ask_why.specs.Questions.{numbered_views, questions_of};

use crate::answers::{Answer, answers};
use crate::explanation::answers_text;
use crate::read::{Numbered, read_questions};
use mq_acl::Rules;
use mq_ask::{Failure, Options, Outcome, print_outcome, rows_in};
use mq_print::ListText;
use std::alloc::Global;
use std::io::Write;

/// Whether by these rules the list lets each client that these lines ask about read or write the
/// topic, and which of its lines decide it, in the order of the lines. They are those of the file
/// with this name; one that asks nothing is a failure.
pub fn explain_each<'a, 'q>(
    alloc: Global,
    rules: Rules,
    list: ListText<'a, '_>,
    file: &'a str,
    lines: &'q [Numbered],
) -> Result<Vec<Answer<'q>>, Failure<'a>>
    ensures ok { (questions : List ℕ) → numbered_views lines.entry.now ≡ questions_of questions
        → IfOk result (λ all. AreAnswers rules list.entry.text.now questions all.items) }
    ensures err { IfErr result (λ failure. IsListFailure rules list.entry failure
        ⊎ IsQuestionFailure file.entry.now lines.entry.now failure) }
{
    let rows = rows_in(alloc, rules, list)?;
    let all = answers(alloc, rules, &rows, file, lines)?;
    Ok(all)
}

/// Shows the answers to the questions of a file, each as a JSON object in a line, in the order of
/// the questions.
pub fn show_each<'a, W: Write>(
    alloc: Global,
    list: ListText<'a, '_>,
    questions: ListText<'a, '_>,
    options: Options,
    out: &mut W,
) -> Result<Outcome, Failure<'a>>
    ensures ok { IfOk result
        (AreAnswered options.rules list.entry.text.now questions.entry.text.now) }
    ensures unread { IfErr result (λ failure. failure_status failure ≡ 2 → out.new ≡ out.old) }
    ensures json { OnOk result (AreShown options.rules list.entry questions.entry.text.now
        (W.contents out.old) (W.contents out.new)) }
{
    let lines = read_questions(alloc, questions.text)?;
    let answers = explain_each(alloc, options.rules, list, questions.file, lines.as_slice())?;
    let text = answers_text(alloc, list, answers.as_slice())?;
    print_outcome(out, Ok(text), Outcome::Clear)
}
