//! The texts of the lists that a question is about, and the publishes of scripts.
ghost use Rattle.std.specs.Prelude.{◌≡◌, IfOk, IfSome, false, string_bytes};
ghost use Rattle.mq_acl_args.specs.Files.{input_count, is_input as is_dash, script_file};
ghost use Rattle.std.specs.Option.{option_copied};
ghost use Rattle.mqroute_acl.specs.Files.{IsTextOf};

use crate::list_file::{FileFault, read_text};
use crate::traffic::find_traffic;
use mq_acl_args::is_input;
use mq_ask::Failure;
use mq_traffic::Traffic;
use std::alloc::Global;
use std::fs;
use std::io::Read;
use std::rt::Files;

// Why the file of a list gives no text.
fn failure_of<'a>(file: &'a str, fault: FileFault) -> Failure<'a> {
    match fault {
        FileFault::Read(error) => Failure::Read(file, error),
        FileFault::TooLong => Failure::TooLong(file),
        FileFault::Utf8(line) => Failure::Utf8 { file, line },
        FileFault::Memory => Failure::Memory,
    }
}

fn text_in<'a, R: Read + Drop>(
    alloc: Global,
    file: &'a str,
    reader: R,
) -> Result<String, Failure<'a>>
    ensures { IfOk result (λ text. IfSome (R.remaining reader) (λ bytes.
        string_bytes text ≡ bytes)) }
{
    match read_text(alloc, reader) {
        Ok(text) => Ok(text),
        Err(fault) => Err(failure_of(file, fault)),
    }
}

/// The text of a file, whatever its name.
pub(crate) fn opened_text<'a, R: Files>(
    rt: &R,
    alloc: Global,
    file: &'a str,
) -> Result<String, Failure<'a>> {
    match fs::open(rt, file) {
        Ok(opened) => text_in(alloc, file, opened),
        Err(error) => Err(Failure::of_io(file, error)),
    }
}

/// The text of the file of an access list, which is standard input where it is `-`.
pub(crate) fn text_of<'a, R: Files, I: Read>(
    rt: &R,
    alloc: Global,
    file: &'a str,
    input: &mut I,
) -> Result<String, Failure<'a>>
    ensures ok { IfOk result (λ text.
        IsTextOf (I.remaining input.old) file.entry.now (string_bytes text)) }

    // Another file leaves the input alone.
    ensures kept { is_dash file.entry.now ≡ false → input.new ≡ input.old }
{
    if is_input(file) {
        return text_in(alloc, file, &mut *input);
    }
    opened_text(rt, alloc, file)
}

// The publishes of a script in a file, whatever its name.
fn opened_traffic<'a, R: Files>(
    rt: &R,
    alloc: Global,
    script: &'a str,
) -> Result<Traffic, Failure<'a>> {
    match fs::open(rt, script) {
        Ok(opened) => find_traffic(alloc, script, opened),
        Err(error) => Err(Failure::of_io(script, error)),
    }
}

/// The publishes of a script, if one is given, which is standard input where it is `-`.
pub(crate) fn traffic_of<'a, R: Files, I: Read>(
    rt: &R,
    alloc: Global,
    script: Option<&'a str>,
    input: &mut I,
) -> Result<Option<Traffic>, Failure<'a>>
    // Another file, and no script, leaves the input alone.
    ensures { input_count (script_file (option_copied script.entry)) ≡ 0 → input.new ≡ input.old }
{
    let Some(script) = script else {
        return Ok(None);
    };
    if is_input(script) {
        return Ok(Some(find_traffic(alloc, script, &mut *input)?));
    }
    Ok(Some(opened_traffic(rt, alloc, script)?))
}
