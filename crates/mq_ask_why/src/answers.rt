//! The answers to the questions of a file.
ghost use Rattle.std.specs.Prelude.{◌≡◌, ◌++◌, ◌∷◌, [], All, IfErr, IfOk, OnOk, map};
ghost use Rattle.mq_ask_why.specs.Answers.{IsAnswered, IsQuestionFailure, asked_views, asking_views};

use crate::question::{AccessQuestion, QuestionKind};
use crate::read::Numbered;
use mq_acl::{Row, Rules};
use mq_ask::Failure;
use mq_differences::{Verdict, why};
use std::alloc::{AllocError, Global};

/// A question, and its answer.
#[derive(Clone, Copy, Drop)]
pub struct Answer<'q> {
    /// The question.
    pub question: &'q AccessQuestion,
    /// Whether the client may, and why.
    pub verdict: Verdict,
}

// What stands behind the file and the number of a line that asks nothing.
fn question_words(kind: QuestionKind) -> &'static str {
    match kind {
        QuestionKind::NotJson => "not JSON",
        QuestionKind::Topic => "the topic is not a topic name",
        _ =>
            "a question is a JSON object of client, topic, access (read or write) and, if there is one, user",
    }
}

fn answer_to<'q>(rules: Rules, rows: &[Row], question: &'q AccessQuestion) -> Answer<'q>
    ensures asked { result.question ≡ question.entry }
    ensures answered { IsAnswered rules rows.now result }
{
    let AccessQuestion {
        client,
        user,
        topic,
        access,
    } = question;
    Answer {
        question,
        verdict: why(rules, rows, client, user.as_deref(), topic, *access),
    }
}

fn add<'q>(all: &mut Vec<Answer<'q>>, answer: Answer<'q>) -> Result<(), AllocError>
    ensures { OnOk result (all.new.items ≡ all.old.items ++ (answer.entry ∷ [])) }
{
    all.push(answer)?;
    Ok(())
}

/// The answers to the questions of these lines, in their order. A line that asks nothing is a
/// failure, of the file with this name.
pub(crate) fn answers<'q, 'a>(
    alloc: Global,
    rules: Rules,
    rows: &[Row],
    file: &'a str,
    lines: &'q [Numbered],
) -> Result<Vec<Answer<'q>>, Failure<'a>>
    ensures asked { IfOk result (λ all. asked_views all.items ≡ asking_views lines.entry.now) }
    ensures answered { IfOk result (λ all. All (IsAnswered rules rows.now) all.items) }
    ensures fault { IfErr result (IsQuestionFailure file.entry.now lines.entry.now) }
{
    let mut all = Vec::new(alloc);
    for line in lines {
        match &line.asks {
            Ok(question) => add(&mut all, answer_to(rules, rows, question))?,
            Err(kind) => {
                return Err(Failure::Question {
                    file,
                    line: line.line,
                    words: question_words(*kind),
                });
            }
        }
    }
    Ok(all)
}
