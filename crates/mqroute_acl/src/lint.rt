//! The answer to `lint`, of files.
ghost use Rattle.std.specs.Prelude.{◌≡◌, ◌≤◌, ◌⊎◌, IfOk, IfErr, false, map};
ghost use Rattle.mq_ask.specs.Statuses.{failure_status};
ghost use Rattle.mq_acl_args.specs.Files.{input_count, is_input};
ghost use Rattle.mqroute_acl.specs.Lint.{AreLinted, AreTaken, IsLintedFile, SaysWhetherAllTaken};
ghost use Rattle.mqroute_acl.specs.Lint.{SomeIsRefused, first_refused};

use crate::files::text_of;
use mq_ask::{Failure, Options, Outcome, print_outcome};
use mq_ask_lint::{Linted, add_lint};
use mq_print::ListText;
use std::alloc::Global;
use std::io::{Read, Write};
use std::rt::Files;

/// What is said of the lists of files.
#[derive(Clone, Copy, Drop)]
struct LintedFiles<'a> {
    outcome: Outcome,
    // The first file of which mosquitto doesn't take the list, if there is one.
    refused: Option<&'a str>,
}

// Of one file.
fn lint_file<'a, R: Files, I: Read>(
    rt: &R,
    alloc: Global,
    file: &'a str,
    options: Options,
    input: &mut I,
    answer: &mut String,
) -> Result<Linted, Failure<'a>>
    ensures ok { IfOk result (IsLintedFile options.rules (I.remaining input.old) file.entry.now) }
    ensures kept { is_input file.entry.now ≡ false → input.new ≡ input.old }
{
    let text = text_of(rt, alloc, file, input)?;
    let list = ListText {
        file,
        text: text.as_str(),
    };
    add_lint(alloc, list, options, answer)
}

// The first file of which mosquitto doesn't take the list, if it is so of one before or of this.
fn first_refused<'a>(before: Option<&'a str>, file: &'a str, is_taken: bool) -> Option<&'a str>
    ensures { result ≡ first_refused before.entry file.entry is_taken }
{
    match before {
        Some(first) => Some(first),
        None if is_taken => None,
        None => Some(file),
    }
}

// Of each file, in their order.
fn lint_files<'a, R: Files, I: Read>(
    rt: &R,
    alloc: Global,
    files: &[&'a str],
    options: Options,
    input: &mut I,
    answer: &mut String,
) -> Result<LintedFiles<'a>, Failure<'a>>
    requires { input_count (map (λ file. file.now) files.now) ≤ 1 }
    ensures ok { IfOk result (λ linted. AreLinted options.rules (I.remaining input.old)
        (map (λ file. file.now) files.now) linted.outcome) }
    ensures taken { IfOk result (λ linted. SaysWhetherAllTaken (I.remaining input.old)
        (map (λ file. file.now) files.now) linted.refused) }
    ensures kept { input_count (map (λ file. file.now) files.now) ≡ 0 → input.new ≡ input.old }
{
    let mut outcome = Outcome::Clear;
    let mut refused = None;
    for file in files {
        let linted = lint_file(rt, alloc, *file, options, input, answer)?;
        outcome = outcome.and(linted.outcome);
        refused = first_refused(refused, *file, linted.is_taken);
    }
    Ok(LintedFiles { outcome, refused })
}

/// Shows what is odd or needless in the lists of these files, and which lines mosquitto doesn't take.
/// If there is one, that is a failure behind all that is shown.
pub(crate) fn answer_lint<'a, R: Files, I: Read, W: Write>(
    rt: &R,
    alloc: Global,
    files: &[&'a str],
    options: Options,
    input: &mut I,
    out: &mut W,
) -> Result<Outcome, Failure<'a>>
    requires { input_count (map (λ file. file.now) files.now) ≤ 1 }
    ensures ok { IfOk result (λ outcome. AreLinted options.rules (I.remaining input.old)
        (map (λ file. file.now) files.now) outcome
        × AreTaken (I.remaining input.old) (map (λ file. file.now) files.now)) }
    ensures unread { IfErr result (λ failure. failure_status failure ≡ 2
        → (out.new ≡ out.old)
        ⊎ SomeIsRefused (I.remaining input.old) (map (λ file. file.now) files.now)) }
    ensures kept { input_count (map (λ file. file.now) files.now) ≡ 0 → input.new ≡ input.old }
{
    let mut answer = String::new(alloc);
    let linted = lint_files(rt, alloc, files, options, input, &mut answer)?;
    let outcome = print_outcome(out, Ok(answer), linted.outcome)?;
    match linted.refused {
        Some(file) => Err(Failure::Linted(file)),
        None => Ok(outcome),
    }
}
