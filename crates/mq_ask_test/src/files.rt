//! The files of lists that a file of expectations names.
ghost use Rattle.std.specs.List.{filter_map, list_any};
ghost use Rattle.std.specs.Option.{option_copied, option_to_list};
ghost use Rattle.std.specs.Prelude.{◌≡◌, IfOk, OnOk, fold};
ghost use Rattle.std.specs.Str.{bytes_eq};
ghost use Rattle.mq_ask_test.specs.Files.{added, file_named, files_named, once, texts};
ghost use Rattle.mq_expect.specs.Files.{numbered_views, says_view};

use mq_expect::{Expectation, Numbered};
use std::alloc::{AllocError, Global};

// The file that a line names, if it does. Where lists are given, one behind `acl` isn't wanted.
fn file_named<'a>(given: bool, line: &Numbered<'a>) -> Option<&'a str>
    ensures { option_copied result ≡ file_named given (says_view line.now.says) }
{
    match &line.says {
        Ok(Expectation::List(file)) if !given => Some(*file),
        Ok(Expectation::AtMost(file)) => Some(*file),
        Ok(Expectation::AtLeast(file)) => Some(*file),
        _ => None,
    }
}

fn has_file(files: &[&str], file: &str) -> bool
    ensures { result ≡ list_any (λ other. bytes_eq file.now other.now) files.now }
{
    files.iter().any(|other| file == *other)
}

// Adds a file, unless it is there.
#[tactic(auto, using(crate::proofs::FileLemmas::any_texts))]
fn add<'a>(files: &mut Vec<&'a str>, file: &'a str) -> Result<(), AllocError>
    ensures { OnOk result (texts files.new.items ≡ added (texts files.old.items) file.now) }
{
    if has_file(files, file) {
        return Ok(());
    }
    files.push(file)?;
    Ok(())
}

fn add_given<'a>(files: &mut Vec<&'a str>, given: &[&'a str]) -> Result<(), AllocError>
    ensures { OnOk result (texts files.new.items
        ≡ fold added (texts files.old.items) (texts given.now)) }
{
    for file in given {
        add(files, *file)?;
    }
    Ok(())
}

fn add_line<'a>(
    files: &mut Vec<&'a str>,
    given: bool,
    line: &Numbered<'a>,
) -> Result<(), AllocError>
    ensures { OnOk result (texts files.new.items ≡ fold added (texts files.old.items)
        (option_to_list (file_named given (says_view line.now.says)))) }
{
    match file_named(given, line) {
        Some(file) => add(files, file),
        None => Ok(()),
    }
}

fn add_named<'a>(
    files: &mut Vec<&'a str>,
    given: bool,
    expectations: &[Numbered<'a>],
) -> Result<(), AllocError>
    ensures { OnOk result (texts files.new.items ≡ fold added (texts files.old.items)
        (filter_map (λ line. file_named given line.1) (numbered_views expectations.now))) }
{
    for line in expectations {
        add_line(files, given, line)?;
    }
    Ok(())
}

/// The files of the lists that are wanted to judge the expectations, each once: those that are
/// given, and then those that lines name, in their order. Where some are given, those behind `acl`
/// aren't wanted.
pub fn wanted_files<'a>(
    alloc: Global,
    given: &[&'a str],
    expectations: &[Numbered<'a>],
) -> Result<Vec<&'a str>, AllocError>
    ensures { IfOk result (λ files. texts files.items
        ≡ once (files_named (texts given.now) (numbered_views expectations.now))) }
{
    let mut files = Vec::new(alloc);
    add_given(&mut files, given)?;
    add_named(&mut files, !given.is_empty(), expectations)?;
    Ok(files)
}
