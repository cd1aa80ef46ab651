//! The lines of a file of expectations, each with the list that it speaks of.
ghost use Rattle.std.specs.Option.{option_copied};
ghost use Rattle.std.specs.Prelude.{◌≡◌, ◌++◌, IfOk, OnOk, Ok, map};
ghost use Rattle.mq_ask_test.specs.Questions.{asked_from, asked_of, asked_views, questions};
ghost use Rattle.mq_ask_test.specs.Questions.{list_named};
ghost use Rattle.mq_expect.specs.Files.{numbered_views, says_view};

use mq_expect::{Expectation, Numbered};
use std::alloc::{AllocError, Global};

/// A line that expects something, or has a fault.
#[derive(Clone, Copy, Drop)]
pub struct Asked<'p, 'a> {
    /// The file of the list that it speaks of, if one is named.
    pub list: Option<&'a str>,
    /// The line.
    pub expectation: &'p Numbered<'a>,
}

// The list that the line names for those behind it, if it does.
fn list_named<'a>(expectation: &Numbered<'a>) -> Option<&'a str>
    ensures { option_copied result ≡ list_named (says_view expectation.now.says) }
{
    match &expectation.says {
        Ok(Expectation::List(file)) => Some(*file),
        _ => None,
    }
}

// Adds the lines that expect something, each of the list that is named last before it.
fn add_named<'p, 'a>(
    asked: &mut Vec<Asked<'p, 'a>>,
    expectations: &'p [Numbered<'a>],
) -> Result<(), AllocError>
    ensures { OnOk result (asked_views asked.new.items
        ≡ asked_views asked.old.items ++ asked_from None (numbered_views expectations.entry.now)) }
{
    let mut list = None;
    for expectation in expectations {
        match list_named(expectation) {
            Some(file) => list = Some(file),
            None => asked.push(Asked { list, expectation })?,
        }
    }
    Ok(())
}

// Adds the lines that expect something, each of this list.
fn add_given<'p, 'a>(
    asked: &mut Vec<Asked<'p, 'a>>,
    expectations: &'p [Numbered<'a>],
    file: &'a str,
) -> Result<(), AllocError>
    ensures { OnOk result (asked_views asked.new.items
        ≡ asked_views asked.old.items ++ asked_of file.now (numbered_views expectations.entry.now)) }
{
    for expectation in expectations {
        if list_named(expectation).is_none() {
            asked.push(Asked {
                list: Some(file),
                expectation,
            })?;
        }
    }
    Ok(())
}

/// The lines that expect something of the lists in these files, list by list; or, where none is given, of those that the
/// lines name.
pub(crate) fn asked_of<'p, 'a>(
    alloc: Global,
    given: &[&'a str],
    expectations: &'p [Numbered<'a>],
) -> Result<Vec<Asked<'p, 'a>>, AllocError>
    ensures { IfOk result (λ asked. asked_views asked.items
        ≡ questions (map (λ file. file.now) given.entry.now) (numbered_views expectations.entry.now)) }
{
    let mut asked = Vec::new(alloc);
    if given.is_empty() {
        add_named(&mut asked, expectations)?;
        return Ok(asked);
    }
    for file in given {
        add_given(&mut asked, expectations, *file)?;
    }
    Ok(asked)
}
