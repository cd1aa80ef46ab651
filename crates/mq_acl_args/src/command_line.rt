//! The command line.
ghost use Rattle.std.specs.Prelude.{◌≡◌, List, [], false, map, string_bytes, IfOk};
ghost use Rattle.std.specs.Prelude.{OnOk, IfErr};
ghost use Rattle.clap.specs.Words.{Text, Kinds, app_of, fault_of, subcommand_of};
ghost use Rattle.clap.specs.Words.{subcommand_rows_of, FailsBy, HasKind, kind_of};
ghost use Rattle.clap.specs.declared.builder.command.Command.TheViews.{out-Command as fields_of};
ghost use Rattle.mq_acl_args.specs.CommandLine.{mqroute_acl, app_for};
ghost use Rattle.mq_acl_args.specs.CommandLine.{versioned, wanting, with_apps};
ghost use Rattle.mq_acl_args.specs.CommandLine.{asked_by, AreGiven, CanNotBeAsked, IsGivenBy};
ghost use Rattle.mq_acl_args.specs.CommandLine.{IsFaultOf};

use crate::help::{
    ABOUT, ACCESS_HELP, AFTER_HELP, ANY_HELP, CLIENT_HELP, COMPARE_ABOUT, COMPARE_AFTER_HELP,
    EXCEPT_HELP, EXPECTED_HELP, FILE_HELP, FILES_HELP, FILTER_HELP, JSON_HELP, JUNIT_HELP,
    LINT_ABOUT, LINT_AFTER_HELP, LISTS_HELP, MAY_HELP, NEW_HELP, OLD_HELP, PLAN_HELP,
    PUBLISHES_HELP, QUESTIONS_HELP, REACH_ABOUT, REACH_AFTER_HELP, RULES_HELP, SCRIPT_HELP,
    STEPS_HELP, SUBSCRIBER_HELP, TEST_ABOUT, TEST_AFTER_HELP, TOPIC_HELP, USER_HELP, VERSION,
    WANTED_HELP, WAY_HELP, WHO_ABOUT, WHO_AFTER_HELP, WHY_ABOUT, WHY_AFTER_HELP,
};
use crate::request::{Request, request_in};
use crate::unknown::{unknown_access, unknown_rules, unknown_way};
use clap::error::ErrorKind;
use clap::{ArgMatches, Command, Error};
use mq_args::{Argument, ArgumentKind, UsageFault, described, with_arguments};
use std::alloc::{AllocError, Global};

// Said of words of `reach` that ask nothing and that `clap` takes all the same.
const NO_QUESTION: &str = "\
error: reach takes CLIENT and FILTER, or --any FILTER, or --script SCRIPT without --user

For more information, try 'mqroute-acl reach --help'.
";

// The same of `compare`.
const PLAN_AND_SCRIPT: &str = "\
error: compare takes --plan or --script, but not both

For more information, try 'mqroute-acl compare --help'.
";

// The same of `why`.
const NO_TOPIC: &str = "\
error: why takes CLIENT and TOPIC, or --questions QUESTIONS without --user and --may

For more information, try 'mqroute-acl why --help'.
";

// Said of words that name standard input more than once.
const INPUT_TWICE: &str = "\
error: standard input can be only one of the files: - stands more than once

For more information, try 'mqroute-acl --help'.
";

// A subcommand with its arguments, in the order of help.
struct Subcommand<'a> {
    name: &'a str,
    about: &'a str,
    after_help: &'a str,
    arguments: &'a [Argument<'a>],
}

impl<'a> Subcommand<'a> {
    // In the words of `clap`.
    fn command(&self, alloc: Global) -> Result<Command<'a>, AllocError>
        ensures app { IfOk result (λ c. app_of c ≡ app_for self.now) }
        ensures local { IfOk result (λ c. (fields_of c).has_globals ≡ false) }
    {
        let named = described(alloc, self.name, self.about, self.after_help);
        with_arguments(alloc, named, self.arguments)
    }
}

// `compare OLD NEW [--plan PLAN] [--only WAY] [--script SCRIPT] [--steps N] [--rules RULES] [--json]`
const COMPARE: Subcommand<'static> = Subcommand {
    name: "compare",
    about: COMPARE_ABOUT,
    after_help: COMPARE_AFTER_HELP,
    arguments: &[
        Argument("OLD", ArgumentKind::Required, OLD_HELP),
        Argument("json", ArgumentKind::Flag, JSON_HELP),
        Argument("NEW", ArgumentKind::Required, NEW_HELP),
        Argument("plan", ArgumentKind::Option("PLAN"), PLAN_HELP),
        Argument("only", ArgumentKind::Option("WAY"), WAY_HELP),
        Argument("script", ArgumentKind::Option("SCRIPT"), PUBLISHES_HELP),
        Argument("steps", ArgumentKind::Number, STEPS_HELP),
        Argument("rules", ArgumentKind::Option("RULES"), RULES_HELP),
    ],
};

// `why LIST [CLIENT] [TOPIC] [--user NAME] [--may ACCESS] [--questions QUESTIONS] [--rules RULES] [--json]`
const WHY: Subcommand<'static> = Subcommand {
    name: "why",
    about: WHY_ABOUT,
    after_help: WHY_AFTER_HELP,
    arguments: &[
        Argument("LIST", ArgumentKind::Required, FILE_HELP),
        Argument("json", ArgumentKind::Flag, JSON_HELP),
        Argument("CLIENT", ArgumentKind::Optional("CLIENT"), CLIENT_HELP),
        Argument("TOPIC", ArgumentKind::Optional("TOPIC"), TOPIC_HELP),
        Argument("user", ArgumentKind::Option("NAME"), USER_HELP),
        Argument("may", ArgumentKind::Option("ACCESS"), MAY_HELP),
        Argument(
            "questions",
            ArgumentKind::Option("QUESTIONS"),
            QUESTIONS_HELP,
        ),
        Argument("rules", ArgumentKind::Option("RULES"), RULES_HELP),
    ],
};

// `lint LIST.. [--steps N] [--rules RULES] [--json]`
const LINT: Subcommand<'static> = Subcommand {
    name: "lint",
    about: LINT_ABOUT,
    after_help: LINT_AFTER_HELP,
    arguments: &[
        Argument("LIST", ArgumentKind::Several, FILES_HELP),
        Argument("json", ArgumentKind::Flag, JSON_HELP),
        Argument("steps", ArgumentKind::Number, STEPS_HELP),
        Argument("rules", ArgumentKind::Option("RULES"), RULES_HELP),
    ],
};

// `reach LIST [CLIENT] [FILTER] [--any FILTER] [--user NAME] [--script SCRIPT] [--steps N] [--rules RULES] [--json]`
const REACH: Subcommand<'static> = Subcommand {
    name: "reach",
    about: REACH_ABOUT,
    after_help: REACH_AFTER_HELP,
    arguments: &[
        Argument("LIST", ArgumentKind::Required, FILE_HELP),
        Argument("json", ArgumentKind::Flag, JSON_HELP),
        Argument("CLIENT", ArgumentKind::Optional("CLIENT"), SUBSCRIBER_HELP),
        Argument("FILTER", ArgumentKind::Optional("FILTER"), FILTER_HELP),
        Argument("any", ArgumentKind::Option("FILTER"), ANY_HELP),
        Argument("user", ArgumentKind::Option("NAME"), USER_HELP),
        Argument("script", ArgumentKind::Option("SCRIPT"), SCRIPT_HELP),
        Argument("steps", ArgumentKind::Number, STEPS_HELP),
        Argument("rules", ArgumentKind::Option("RULES"), RULES_HELP),
    ],
};

// `who LIST FILTER [--access ACCESS] [--except USERS] [--script SCRIPT] [--steps N] [--rules RULES] [--json]`
const WHO: Subcommand<'static> = Subcommand {
    name: "who",
    about: WHO_ABOUT,
    after_help: WHO_AFTER_HELP,
    arguments: &[
        Argument("LIST", ArgumentKind::Required, FILE_HELP),
        Argument("json", ArgumentKind::Flag, JSON_HELP),
        Argument("FILTER", ArgumentKind::Required, WANTED_HELP),
        Argument("access", ArgumentKind::Option("ACCESS"), ACCESS_HELP),
        Argument(
            "except",
            ArgumentKind::Renamed("USERS", "only"),
            EXCEPT_HELP,
        ),
        Argument("script", ArgumentKind::Option("SCRIPT"), PUBLISHES_HELP),
        Argument("steps", ArgumentKind::Number, STEPS_HELP),
        Argument("rules", ArgumentKind::Option("RULES"), RULES_HELP),
    ],
};

// `test EXPECTED [LIST..] [--junit JUNIT] [--steps N] [--rules RULES] [--json]`
const TEST: Subcommand<'static> = Subcommand {
    name: "test",
    about: TEST_ABOUT,
    after_help: TEST_AFTER_HELP,
    arguments: &[
        Argument("EXPECTED", ArgumentKind::Required, EXPECTED_HELP),
        Argument("json", ArgumentKind::Flag, JSON_HELP),
        Argument("LIST", ArgumentKind::Any, LISTS_HELP),
        Argument("junit", ArgumentKind::Option("JUNIT"), JUNIT_HELP),
        Argument("steps", ArgumentKind::Number, STEPS_HELP),
        Argument("rules", ArgumentKind::Option("RULES"), RULES_HELP),
    ],
};

// The command that needs one of these subcommands, with `--version`.
fn wanting_one_of<'a>(
    alloc: Global,
    command: Command<'a>,
    subcommands: &[Subcommand<'a>],
) -> Result<Command<'a>, AllocError>
    ensures { IfOk result (λ c. app_of c
        ≡ with_apps (wanting (versioned (app_of command.entry))) (map app_for subcommands.now)) }
{
    let versioned = command.version(VERSION);
    let mut command = versioned.subcommand_required(true);
    for subcommand in subcommands {
        command = command.subcommand(subcommand.command(alloc)?)?;
    }
    Ok(command)
}

fn command<'a>(alloc: Global) -> Result<Command<'a>, AllocError>
    ensures { IfOk result (λ c. app_of c ≡ mqroute_acl) }
{
    let named = described(alloc, "mqroute-acl", ABOUT, AFTER_HELP);
    wanting_one_of(alloc, named, &[COMPARE, WHY, LINT, REACH, WHO, TEST])
}

fn matches_in<'a>(alloc: Global, words: &'a [String]) -> Result<ArgMatches<'a>, Error>
    ensures rows { IfOk result (λ m. subcommand_rows_of m
        ≡ subcommand_of mqroute_acl (map string_bytes words.entry.now)) }
    ensures kinds { FailsBy (fault_of mqroute_acl (map string_bytes words.entry.now)) result }
{
    let command = command(alloc)?;
    command.try_get_matches_from(words)
}

// Says why what is asked can't be asked.
fn usage_of(alloc: Global, text: &str) -> UsageFault
    ensures { (words : List Text) → (kinds : Kinds)
        → CanNotBeAsked (asked_by (subcommand_of mqroute_acl words))
        → IsFaultOf words kinds result }
{
    match String::from_str(alloc, text) {
        Ok(text) => UsageFault::Usage(text),
        Err(_) => UsageFault::Memory,
    }
}

// What is said of words of this subcommand that ask nothing.
fn no_question_words(matches: &ArgMatches<'_>) -> &'static str {
    match matches.subcommand() {
        Some(("compare", _)) => PLAN_AND_SCRIPT,
        Some(("why", _)) => NO_TOPIC,
        _ => NO_QUESTION,
    }
}

// Says why what is asked by these values is nothing: a word is unknown, or there is no question.
fn no_question(alloc: Global, matches: &ArgMatches<'_>) -> UsageFault
    ensures { (words : List Text) → (kinds : Kinds)
        → CanNotBeAsked (asked_by (subcommand_of mqroute_acl words))
        → IsFaultOf words kinds result }
{
    if let Some(word) = unknown_rules(matches) {
        return UsageFault::of_value(alloc, word, "--rules <RULES>", "own, mosquitto");
    }
    if let Some(word) = unknown_way(matches) {
        return UsageFault::of_value(alloc, word, "--only <WAY>", "gained, lost");
    }
    match unknown_access(matches) {
        Some((word, option)) => UsageFault::of_value(alloc, word, option, "read, write"),
        None => usage_of(alloc, no_question_words(matches)),
    }
}

// What the values that `clap` took ask.
fn asked<'a>(alloc: Global, matches: &ArgMatches<'a>) -> Result<Request<'a>, UsageFault>
    ensures ok { IfOk result (IsGivenBy (subcommand_rows_of matches.now)) }
    ensures err { IfErr result (λ fault. (words : List Text) → (kinds : Kinds)
        → subcommand_rows_of matches.now ≡ subcommand_of mqroute_acl words
        → IsFaultOf words kinds fault) }
{
    let Some(request) = request_in(alloc, matches)? else {
        return Err(no_question(alloc, matches));
    };
    if request.question.input_count() > 1 {
        return Err(usage_of(alloc, INPUT_TWICE));
    }
    Ok(request)
}

// The version, which is printed as help is.
fn version_fault(alloc: Global, error: &Error) -> UsageFault
    ensures { kind_of error.now ≡ ErrorKind.DisplayVersion → (words : List Text)
        → (kinds : Kinds) → HasKind kinds error.now → IsFaultOf words kinds result }
{
    match error.to_string(alloc) {
        Ok(text) => UsageFault::Help(text),
        Err(_) => UsageFault::Memory,
    }
}

// Why `clap` didn't take the words.
fn usage_fault(alloc: Global, error: &Error) -> UsageFault
    ensures { (words : List Text) → (kinds : Kinds) → HasKind kinds error.now
        → IsFaultOf words kinds result }
{
    match error.kind() {
        ErrorKind::DisplayVersion => version_fault(alloc, error),
        _ => UsageFault::of(alloc, error),
    }
}

/// What the words of a command line ask for; the first of them is the program's name.
pub fn arguments<'a>(alloc: Global, words: &'a [String]) -> Result<Request<'a>, UsageFault>
    ensures ok { IfOk result (AreGiven (map string_bytes words.entry.now)) }
    ensures no_fault { OnOk result (fault_of mqroute_acl (map string_bytes words.entry.now) ≡ []) }
    ensures err { let given = map string_bytes words.entry.now in
        IfErr result (IsFaultOf given (fault_of mqroute_acl given)) }
{
    match matches_in(alloc, words) {
        Ok(matches) => asked(alloc, &matches),
        Err(error) => Err(usage_fault(alloc, &error)),
    }
}
