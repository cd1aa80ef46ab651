//! What the lines of a file of questions ask.
ghost use Rattle.std.specs.Prelude.{◌≡◌, ◌++◌, ◌∷◌, [], IfOk, OnOk};
ghost use Rattle.mq_jsonl.specs.Reading.{is_blank as blank};
ghost use Rattle.mq_ask_why.specs.Questions.{asked_at, asks_view, numbered_views, questions_of};

use crate::question::{AccessQuestion, QuestionKind, read_question};
use std::alloc::{AllocError, Global};

/// A line that isn't blank.
#[derive(Drop)]
pub struct Numbered {
    /// Its number, from 1.
    pub line: u64,
    /// What it asks, or why it asks nothing.
    pub asks: Result<AccessQuestion, QuestionKind>,
}

fn is_blank(line: &str) -> bool
    ensures { result ≡ blank line.now }
{
    line.as_bytes()
        .iter()
        .all(|b| *b == b' ' || *b == b'\t' || *b == b'\r')
}

#[tactic(auto, using(std::proofs::lemmas::List::map_push))]
fn add(
    all: &mut Vec<Numbered>,
    line: u64,
    asks: Result<AccessQuestion, QuestionKind>,
) -> Result<(), AllocError>
    ensures { OnOk result (numbered_views all.new.items
        ≡ numbered_views all.old.items ++ ((line, asks_view asks) ∷ [])) }
{
    all.push(Numbered { line, asks })?;
    Ok(())
}

// Adds what the line asks, unless it is blank.
fn add_line(
    alloc: Global,
    all: &mut Vec<Numbered>,
    line: &str,
    number: u64,
) -> Result<(), AllocError>
    ensures { OnOk result (numbered_views all.new.items
        ≡ numbered_views all.old.items ++ asked_at number line.now) }
{
    if is_blank(line) {
        return Ok(());
    }
    match read_question(alloc, line) {
        Err(QuestionKind::Memory) => Err(AllocError),
        asks => add(all, number, asks),
    }
}

/// What the lines of the file with this text ask, in their order: each question, and each fault.
pub fn read_questions(alloc: Global, text: &str) -> Result<Vec<Numbered>, AllocError>
    ensures { IfOk result (λ all. numbered_views all.items ≡ questions_of text.now) }
{
    let mut all = Vec::new(alloc);
    let mut number = 0u64;
    for line in text.split('\n') {
        number += 1;
        add_line(alloc, &mut all, line, number)?;
    }
    Ok(all)
}
