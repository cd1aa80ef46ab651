//! What the lines of a file say.
ghost use Rattle.std.specs.Prelude.{◌≡◌, ◌++◌, ◌∷◌, [], IfOk, OnOk};
ghost use Rattle.mq_expect.specs.Expectations.{entry_of};
ghost use Rattle.mq_expect.specs.Files.{expectations_of, numbered_views, said_at, says_view};

use crate::entry::read_entry;
use crate::expectation::{Expectation, Numbered};
use crate::fault::ExpectationKind;
use std::alloc::{AllocError, Global};

#[tactic(auto, using(std::proofs::lemmas::List::map_push))]
fn add<'a>(
    all: &mut Vec<Numbered<'a>>,
    line: u64,
    says: Result<Expectation<'a>, ExpectationKind>,
) -> Result<(), AllocError>
    ensures { OnOk result (numbered_views all.new.items
        ≡ numbered_views all.old.items ++ ((line, says_view says.entry) ∷ [])) }
{
    all.push(Numbered { line, says })?;
    Ok(())
}

// Adds what the line says.
fn add_line<'a>(
    alloc: Global,
    all: &mut Vec<Numbered<'a>>,
    line: &'a str,
    number: u64,
) -> Result<(), AllocError>
    ensures { OnOk result (numbered_views all.new.items
        ≡ numbered_views all.old.items ++ said_at number (entry_of line.entry.now)) }
{
    match read_entry(alloc, line) {
        Ok(None) => Ok(()),
        Ok(Some(expectation)) => add(all, number, Ok(expectation)),
        Err(ExpectationKind::Memory) => Err(AllocError),
        Err(kind) => add(all, number, Err(kind)),
    }
}

/// What the lines of the file with this text say, in their order: each expectation, and each fault.
pub fn read_expectations<'a>(alloc: Global, text: &'a str) -> Result<Vec<Numbered<'a>>, AllocError>
    ensures { IfOk result (λ all. numbered_views all.items ≡ expectations_of text.entry.now) }
{
    let mut all = Vec::new(alloc);
    let mut number = 0u64;
    for line in text.split('\n') {
        number += 1;
        add_line(alloc, &mut all, line, number)?;
    }
    Ok(all)
}
