//! All of the program but its `main`.
ghost use Rattle.std.specs.Prelude.{◌≡◌, ◌≢◌, ◌≤◌, ◌⊎◌, [], ℕ, List, Some, None, Ok};
ghost use Rattle.std.specs.Prelude.{if◌then◌else◌};
ghost use Rattle.std.specs.Prelude.{OnOk, OnErr, IfOk, IsOk, IfErr, IsTrue, is_ok, map, option_map};
ghost use Rattle.std.specs.Prelude.{string_bytes, codes};
ghost use Rattle.std.specs.Io.KnownBytes.{Appends};
ghost use Rattle.mq_world.specs.World.{World, empty_world, ruled, within};
ghost use Rattle.mq_world.specs.Views.{limits_of};
ghost use Rattle.mq_router.specs.StandsFor.{StandsFor};
ghost use Rattle.mq_cli.specs.AclFile.{IsAnswerTo};
ghost use Rattle.mq_args.specs.Usage.{IsFaultOf};
ghost use Rattle.mq_cli.specs.CommandLine.{faults_in, given, rules_given, IsGiven};
ghost use Rattle.mq_run.specs.Ending.{AppendsSome};
ghost use Rattle.mq_run.specs.Output.{output};
ghost use Rattle.mq_cli.specs.Program.{script_file, failure_status, limits_by, limits_given};
ghost use Rattle.mq_cli.specs.Program.{PrintsUsage};
ghost use Rattle.mq_cli.specs.Program.{BeginsWith, BeginsIn, IsScript, AnswersScript, AnswersAll};
ghost use Rattle.mq_cli.specs.Program.{WritesFront};

use crate::acl_file::read_acl_by;
use crate::command_line::{Options, arguments};
use crate::failure::{Failure, UNREADABLE};
use mq_acl::{Acl, Rules};
use mq_args::UsageFault;
use mq_router::Router;
use mq_run::{
    RUN_FAILED, RunFault, RunOptions, Sink, Source, StdSource, Summary, exit_status, flush,
    run_with, write_all,
};
use mq_world::Limits;
use std::alloc::{AllocError, Global};
use std::fs;
use std::rt::Files;

/// Opens a file; lack of memory is an error of its own.
fn open<'a, R: Files>(
    rt: &R,
    file: &'a str,
    failure: Failure<'a>,
) -> Result<StdSource<R::File>, Failure<'a>>
    ensures { IfErr result (λ shown. (shown ≡ failure.entry) ⊎ (shown ≡ Failure.Memory)) }
{
    match fs::open(rt, file) {
        Ok(opened) => Ok(StdSource::new(opened)),
        Err(error) => Err(failure.of_open(&error)),
    }
}

/// The access list in a file, by these rules.
fn acl_in<'a, R: Files>(
    rt: &R,
    alloc: Global,
    rules: Rules,
    file: &'a str,
) -> Result<Acl, Failure<'a>>
    ensures { IfOk result (λ acl. (text : List ℕ) × IsAnswerTo rules text (Ok acl)) }
{
    let mut source = open(rt, file, Failure::AclRead(file))?;
    match read_acl_by(alloc, rules, &mut source) {
        Ok(acl) => Ok(acl),
        Err(fault) => Err(Failure::of_acl(file, fault)),
    }
}

/// The access list in the file that the options name, if they name one.
fn access_list<'a, R: Files>(
    rt: &R,
    alloc: Global,
    options: &'a Options,
) -> Result<Option<Acl>, Failure<'a>>
    ensures ok { IfOk result (λ access. BeginsWith options.now.rules
        (option_map string_bytes options.now.acl_file) access) }
    ensures none { options.now.acl_file ≡ None → IsOk result }
{
    match &options.acl_file {
        Some(file) => Ok(Some(acl_in(rt, alloc, options.rules, file.as_str())?)),
        None => Ok(None),
    }
}

/// The limits that the options set.
fn limits(options: &Options) -> Limits
    ensures { limits_of result ≡ limits_by options.now.max_retained options.now.max_queued }
{
    Limits {
        retained: options.max_retained,
        queued: options.max_queued.unwrap_or(Limits::new().queued),
    }
}

/// The file of the script. A script that is not a file is read from the input.
fn script_of(options: &Options) -> Option<&str>
    ensures { option_map (λ t. t.now) result
        ≡ script_file (option_map string_bytes options.now.script) }
{
    match &options.script {
        Some(file) if file.as_str() != "-" => Some(file.as_str()),
        _ => None,
    }
}

/// Runs the script that a source gives.
fn run_source<'a, S: Source, W: Sink>(
    alloc: Global,
    router: Router,
    unbuffered: bool,
    source: &mut S,
    out: &mut W,
) -> Result<Summary, Failure<'a>>
    ensures ok { (w : World) (before : List ℕ) → StandsFor router w → W.taken out.old ≡ Some before
        → IfOk result (λ summary.
        (script : List ℕ) × IsScript None (S.to_come source.old) script
        × AnswersScript w script before (W.taken out.new) summary) }
    ensures prefix { (w : World) → StandsFor router w
        → WritesFront w None (S.to_come source.old) (W.taken out.old) (W.taken out.new) }
    ensures err { IfErr result (λ failure. failure_status failure ≡ 3) }
    ensures flushed { OnOk result (W.flushed out.new ≡ W.taken out.new) }
    ensures unbuffered { IsTrue unbuffered → S.failures source.new ≢ S.failures source.old
        → W.flushed out.new ≡ W.taken out.new }
{
    let options = RunOptions {
        unbuffered,
        ..RunOptions::new()
    };
    match run_with(alloc, router, options, source, out) {
        Ok(summary) => Ok(summary),
        Err(fault) => Err(Failure::of_run(fault)),
    }
}

/// Runs the script that is in a file.
fn run_file<'a, R: Files, W: Sink>(
    rt: &R,
    alloc: Global,
    router: Router,
    file: &'a str,
    unbuffered: bool,
    out: &mut W,
) -> Result<Summary, Failure<'a>>
    ensures ok { (w : World) (before : List ℕ) → StandsFor router w → W.taken out.old ≡ Some before
        → IfOk result (λ summary.
        (script : List ℕ) × AnswersScript w script before (W.taken out.new) summary) }
    ensures prefix { (w : World) → StandsFor router w
        → (script : List ℕ) × AppendsSome (W.taken out.old) (W.taken out.new) (output w script) }

    // Only a script that can't be opened has another status than the run's, and then nothing is written.
    ensures err { IfErr result (λ failure. (failure ≡ Failure.Script file.entry)
        × (out.new ≡ out.old)
        ⊎ (failure_status failure ≡ 3)) }
    ensures flushed { OnOk result (W.flushed out.new ≡ W.taken out.new) }
{
    let mut source = open(rt, file, Failure::Script(file))?;
    run_source(alloc, router, unbuffered, &mut source, out)
}

/// Runs the script that the options ask for, with their access list, rules and limits.
fn run_options<'a, R: Files, S: Source, W: Sink>(
    rt: &R,
    alloc: Global,
    options: &'a Options,
    input: &mut S,
    out: &mut W,
) -> Result<Summary, Failure<'a>>
    ensures ok { (before : List ℕ) → W.taken out.old ≡ Some before → IfOk result (λ summary.
        (w : World) × BeginsIn options.now.rules (option_map string_bytes options.now.acl_file)
        (limits_by options.now.max_retained options.now.max_queued) w
        × (script : List ℕ) × IsScript (script_file (option_map string_bytes options.now.script))
        (S.to_come input.old) script
        × AnswersScript w script before (W.taken out.new) summary) }
    ensures prefix { (w : World)
        × BeginsIn options.now.rules (option_map string_bytes options.now.acl_file)
        (limits_by options.now.max_retained options.now.max_queued) w
        × WritesFront w (script_file (option_map string_bytes options.now.script))
        (S.to_come input.old)
        (W.taken out.old) (W.taken out.new) }
    ensures err { options.now.acl_file ≡ None
        → script_file (option_map string_bytes options.now.script) ≡ None
        → IfErr result (λ failure. failure_status failure ≡ 3) }
    ensures unread { (file : List ℕ) → script_file (option_map string_bytes options.now.script)
        ≡ Some file
        → input.new ≡ input.old }
    ensures unreadable { IfErr result (λ failure. failure_status failure ≡ 2
        → (input.new ≡ input.old) × (out.new ≡ out.old)) }
    ensures flushed { OnOk result (W.flushed out.new ≡ W.taken out.new) }
    ensures unbuffered { IsTrue options.now.unbuffered → S.failures input.new ≢ S.failures input.old
        → W.flushed out.new ≡ W.taken out.new }
{
    let access = access_list(rt, alloc, options)?;
    let router = Router::with_limits(alloc, access, limits(options)).with_rules(options.rules);
    match script_of(options) {
        Some(file) => run_file(rt, alloc, router, file, options.unbuffered, out),
        None => run_source(alloc, router, options.unbuffered, input, out),
    }
}

/// Writes all of a text at once.
fn print<W: Sink>(writer: &mut W, text: &str) -> Result<(), RunFault>
    ensures ok { OnOk result (Appends (W.taken writer.old) (W.taken writer.new) text.now) }
    ensures err { OnErr result (AppendsSome (W.taken writer.old) (W.taken writer.new) text.now) }
    ensures flushed { OnOk result (W.flushed writer.new ≡ W.taken writer.new) }
{
    write_all(writer, text.as_bytes())?;
    flush(writer)
}

/// Prints a text, or that there was no memory for it, and answers the exit status: the one that is
/// given, or that of want of memory. A failed write is ignored.
fn print_error<E: Sink>(text: Result<String, AllocError>, status: u8, err: &mut E) -> u8
    ensures { result ≡ (if is_ok text then status else 3) }
{
    let (line, status) = match &text {
        Ok(text) => (text.as_str(), status),
        Err(_) => ("mqroute: out of memory\n", RUN_FAILED),
    };
    let _ = print(err, line);
    status
}

/// Says why the program ends, and answers its status: 3 too where there is no memory for the text.
fn report<E: Sink>(alloc: Global, failure: Failure<'_>, err: &mut E) -> u8
    ensures bound { result ≤ 3 }
    ensures status { (result ≡ failure_status failure.entry) ⊎ (result ≡ 3) }
{
    let text = format!(in alloc; "mqroute: {failure}\n");
    print_error(text, failure.status(), err)
}

/// Prints help, or why the words are not understood, and answers the status.
fn report_usage<W: Sink, E: Sink>(alloc: Global, fault: UsageFault, out: &mut W, err: &mut E) -> u8
    ensures bound { result ≤ 3 }
    ensures shows { PrintsUsage fault result (W.taken out.old) (W.taken out.new)
        (W.flushed out.new) }
    ensures unreadable { result ≡ 2 → out.new ≡ out.old }
    ensures quiet { result ≡ 0 → err.new ≡ err.old }
{
    match fault {
        UsageFault::Help(text) => match print(out, text.as_str()) {
            Ok(()) => 0,
            Err(fault) => report(alloc, Failure::of_run(fault), err),
        },
        UsageFault::Usage(text) => print_error(Ok(text), UNREADABLE, err),
        UsageFault::Memory => report(alloc, Failure::Memory, err),
    }
}

/// Runs the program: `words` are its name and its arguments, a script that is not a file is read
/// from `input`, answers go to `out`, and a line on `err` says what failed. The access list is read
/// before the script is opened. Answers the exit status: 0 where every line was accepted or help
/// was asked for, 1 where a line was refused, 2 where the words are not understood, the script
/// can't be opened, or the access list can't be read or understood, and 3 where the run or the
/// printing of help failed, or memory ran out, even if only for the line on `err`.
pub fn start<R: Files, S: Source, W: Sink, E: Sink>(
    rt: &R,
    alloc: Global,
    words: &[String],
    input: &mut S,
    out: &mut W,
    err: &mut E,
) -> u8
    ensures bound { result ≤ 3 }

    // Where the words are understood and name no file, and the bytes of input and output are known, all of the input is
    // answered, under the limits and the rules in the words, unless the run failed.
    ensures answered { (script before : List ℕ) → let given_words = map string_bytes words.now in
        faults_in given_words ≡ [] → given (codes "acl-file") given_words ≡ None
        → script_file (given (codes "script") given_words) ≡ None
        → S.to_come input.old ≡ Some script → W.taken out.old ≡ Some before
        → result ≢ 3 → AnswersAll (ruled (rules_given given_words)
        (within (limits_given given_words) empty_world)) script before (W.taken out.new) result }

    // Where they may name files, a status of 0 or 1 says the same of some script, which is the input's where no file is
    // named, and of the world that the access list, the rules and the limits make.
    ensures with_files { (before : List ℕ) → let given_words = map string_bytes words.now in
        faults_in given_words ≡ [] → W.taken out.old ≡ Some before → result ≢ 2 → result ≢ 3
        → (w : World) × BeginsIn (rules_given given_words) (given (codes "acl-file") given_words)
        (limits_given given_words) w
        × (script : List ℕ) × IsScript (script_file (given (codes "script") given_words))
        (S.to_come input.old) script
        × AnswersAll w script before (W.taken out.new) result }

    // Whatever the status, what was written is a front of the answers to such a script in such a world.
    ensures prefix { let given_words = map string_bytes words.now in
        faults_in given_words ≡ []
        → (w : World) × BeginsIn (rules_given given_words) (given (codes "acl-file") given_words)
        (limits_given given_words) w
        × WritesFront w (script_file (given (codes "script") given_words)) (S.to_come input.old)
        (W.taken out.old) (W.taken out.new) }

    // A script in a file leaves the input alone.
    ensures unread { (file : List ℕ)
        → script_file (given (codes "script") (map string_bytes words.now)) ≡ Some file
        → input.new ≡ input.old }

    // At a status of 2 nothing was read from the input, and nothing written.
    ensures unreadable { result ≡ 2 → (input.new ≡ input.old) × (out.new ≡ out.old) }

    // With `--unbuffered` the answers so far are handed on before each read: where one of the input fails, all that was
    // written has been.
    ensures unbuffered { IsGiven (codes "unbuffered") (map string_bytes words.now)
        → S.failures input.new ≢ S.failures input.old → W.flushed out.new ≡ W.taken out.new }

    // Of words that are not understood a fault that they have is printed, or that memory ran out:
    // of help the status is 0, or 3 where it can't be written, of another fault 2, and of a lack of
    // memory 3.
    ensures usage { let given_words = map string_bytes words.now in
        faults_in given_words ≢ []
        → (input.new ≡ input.old)
        × ((fault : UsageFault) × IsFaultOf (faults_in given_words) fault
        × PrintsUsage fault result (W.taken out.old) (W.taken out.new) (W.flushed out.new)) }

    // At a status of 0 or 1 all that was written is handed on, and nothing is printed.
    ensures flushed { result ≢ 2 → result ≢ 3 → W.flushed out.new ≡ W.taken out.new }
    ensures quiet { result ≢ 2 → result ≢ 3 → err.new ≡ err.old }
{
    let options = match arguments(alloc, words) {
        Ok(options) => options,
        Err(fault) => return report_usage(alloc, fault, out, err),
    };
    match run_options(rt, alloc, &options, input, out) {
        Ok(summary) => exit_status(&Ok(summary)),
        Err(failure) => report(alloc, failure, err),
    }
}
