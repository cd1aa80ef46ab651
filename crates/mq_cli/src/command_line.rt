//! The command line.
ghost use Rattle.std.specs.Prelude.{◌≡◌, List, [], map, option_map, string_bytes, IfOk};
ghost use Rattle.std.specs.Prelude.{OnOk, IfErr, Some, None};
ghost use Rattle.clap.specs.Words.{app_of, rows_of, found_of, matches_of, fault_of};
ghost use Rattle.clap.specs.Words.{Text, FailsBy, IsAmong, Kinds};
ghost use Rattle.mq_args.specs.Usage.{IsFaultOf};
ghost use Rattle.mq_acl.specs.AccessLists.{rules_named};
ghost use Rattle.mq_cli.specs.CommandLine.{mqroute, AreGiven, faults_in, rules_asked};

use clap::error::ErrorKind;
use clap::{ArgMatches, Command, Error};
use mq_acl::Rules;
use mq_args::{Argument, ArgumentKind, UsageFault, described, with_arguments};
use std::alloc::{AllocError, Global};

const ABOUT: &str = "Answers a script of MQTT 5.0 routing commands, line by line";

const ACL_FILE_HELP: &str = "Begin with this access list, in mosquitto's form";

const RULES_HELP: &str =
    "By whose rules access lists decide: own, or mosquitto, which an operator gives (own)";

const MAX_RETAINED_HELP: &str = "Let up to N messages be retained (no limit)";

const MAX_QUEUED_HELP: &str = "Let up to N copies wait for a client (1000)";

const UNBUFFERED_HELP: &str = "Write each line's answers before the next is read";

const SCRIPT_HELP: &str = "The script; absent or -, standard input";

const AFTER_HELP: &str = "\
Each line of a script is a JSON object, such as
  {\"do\":\"connect\",\"client\":\"a\"}
  {\"do\":\"subscribe\",\"client\":\"a\",\"filter\":\"t/#\",\"qos\":1}
  {\"do\":\"publish\",\"client\":\"a\",\"topic\":\"t/1\",\"payload\":\"x\"}

The commands and their fields, those in brackets optional:
  connect      client [user] [clean] [session_expiry]
  disconnect   client
  subscribe    client filter [qos] [no_local] [rap] [handling] [id]
  unsubscribe  client filter
  publish      client topic [payload] [qos] [retain] [expiry]
  acl          [text]
  advance      seconds
  stat

A filter $share/NAME/FILTER is a shared subscription: the clients that share
FILTER under NAME take turns. A client that connects with a session_expiry
finds its subscriptions, and the copies that wait for it, when it comes back
within these seconds with \"clean\":false.

An accepted line is answered by a line for each copy of its message and a
closing line, a refused line by one line that says why.

Exit status:
  0  every line was accepted
  1  some line was refused
  2  the arguments aren't understood, the script can't be opened, or the access
     list can't be opened, read or understood
  3  a read of the script failed (a directory can be opened, but not read), a
     write failed, the script is too long, or memory ran out

Example:
  mqroute --acl-file current.acl script.jsonl";

/// What the command line asks for.
#[derive(Debug)]
pub struct Options {
    /// The file of the access list.
    pub acl_file: Option<String>,
    /// By whose rules access lists are read, and decide.
    pub rules: Rules,
    /// How many messages may be retained; without it, any number.
    pub max_retained: Option<u32>,
    /// How many copies may wait for a client that is away; without it, 1,000.
    pub max_queued: Option<u32>,
    /// Whether the answers so far are written before each read of the script.
    pub unbuffered: bool,
    /// The file of the script.
    pub script: Option<String>,
}

// Opaque to callers' proofs: one step, and not one for each field (docs/explanation/gate.md).
impl Drop for Options {
    fn drop(self) {
        let Options {
            acl_file: _,
            rules: _,
            max_retained: _,
            max_queued: _,
            unbuffered: _,
            script: _,
        } = self;
    }
}

/// `mqroute [--acl-file FILE] [--rules RULES] [--max-retained N] [--max-queued N] [--unbuffered] [SCRIPT]`.
fn command<'a>(alloc: Global) -> Result<Command<'a>, AllocError>
    ensures { IfOk result (λ c. app_of c ≡ mqroute) }
{
    let named = described(alloc, "mqroute", ABOUT, AFTER_HELP);
    with_arguments(
        alloc,
        named,
        &[
            Argument("acl-file", ArgumentKind::Option("FILE"), ACL_FILE_HELP),
            Argument("rules", ArgumentKind::Option("RULES"), RULES_HELP),
            Argument("max-retained", ArgumentKind::Number, MAX_RETAINED_HELP),
            Argument("max-queued", ArgumentKind::Number, MAX_QUEUED_HELP),
            Argument("unbuffered", ArgumentKind::Flag, UNBUFFERED_HELP),
            Argument("script", ArgumentKind::Optional("SCRIPT"), SCRIPT_HELP),
        ],
    )
}

fn matches_in<'a>(alloc: Global, words: &'a [String]) -> Result<ArgMatches<'a>, Error>
    ensures rows { IfOk result (λ m. rows_of (found_of m)
        ≡ matches_of mqroute (map string_bytes words.entry.now)) }
    ensures kinds { FailsBy (fault_of mqroute (map string_bytes words.entry.now)) result }
{
    let command = command(alloc)?;
    command.try_get_matches_from(words)
}

fn copied(alloc: Global, text: Option<&str>) -> Result<Option<String>, AllocError>
    ensures { IfOk result (λ o. option_map string_bytes o ≡ option_map (λ t. t.now) text.entry) }
{
    match text {
        Some(text) => Ok(Some(String::from_str(alloc, text)?)),
        None => Ok(None),
    }
}

fn rules_of(alloc: Global, word: &str) -> Result<Rules, UsageFault>
    ensures ok { IfOk result (λ rules. Some rules ≡ rules_named word.now) }
    ensures err { IfErr result (λ fault. (rules_named word.now ≡ None)
        × ((kinds : Kinds) → IsAmong ErrorKind.InvalidValue kinds → IsFaultOf kinds fault)) }
{
    match Rules::named(word) {
        Some(rules) => Ok(rules),
        None => Err(UsageFault::of_value(alloc, word, "--rules <RULES>", "own, mosquitto")),
    }
}

// The rules in the values that `clap` took.
fn rules_in(alloc: Global, matches: &ArgMatches<'_>) -> Result<Rules, UsageFault>
    ensures ok { IfOk result (λ rules. (words : List Text)
        → rows_of (found_of matches.now) ≡ matches_of mqroute words
        → Some rules ≡ rules_asked words) }
    ensures err { IfErr result (λ fault. (words : List Text)
        → rows_of (found_of matches.now) ≡ matches_of mqroute words → fault_of mqroute words ≡ []
        → IsFaultOf (faults_in words) fault) }
{
    match matches.get_str("rules") {
        Some(word) => rules_of(alloc, word),
        None => Ok(Rules::Own),
    }
}

// The options in these values, with the rules in them.
fn options_by(alloc: Global, matches: &ArgMatches<'_>, rules: Rules) -> Result<Options, UsageFault>
    ensures ok { IfOk result (λ options. (words : List Text)
        → rows_of (found_of matches.now) ≡ matches_of mqroute words
        → Some rules ≡ rules_asked words → AreGiven words options) }
    ensures err { IfErr result (λ fault. fault ≡ UsageFault.Memory) }
{
    let acl_file = copied(alloc, matches.get_str("acl-file"))?;
    let script = copied(alloc, matches.get_str("script"))?;
    Ok(Options {
        acl_file,
        rules,
        max_retained: matches.get_one("max-retained"),
        max_queued: matches.get_one("max-queued"),
        unbuffered: matches.get_one("unbuffered").unwrap_or(false),
        script,
    })
}

// The options in the values that `clap` took.
fn options_in(alloc: Global, matches: &ArgMatches<'_>) -> Result<Options, UsageFault>
    ensures ok { IfOk result (λ options. (words : List Text)
        → rows_of (found_of matches.now) ≡ matches_of mqroute words → AreGiven words options) }
    ensures err { IfErr result (λ fault. (words : List Text)
        → rows_of (found_of matches.now) ≡ matches_of mqroute words → fault_of mqroute words ≡ []
        → IsFaultOf (faults_in words) fault) }
{
    match rules_in(alloc, matches) {
        Ok(rules) => options_by(alloc, matches, rules),
        Err(fault) => Err(fault),
    }
}

/// The options in the words of a command line, of which the first is the program's name.
pub fn arguments(alloc: Global, words: &[String]) -> Result<Options, UsageFault>
    ensures ok { IfOk result (AreGiven (map string_bytes words.now)) }
    ensures no_fault { OnOk result (faults_in (map string_bytes words.now) ≡ []) }
    ensures err { IfErr result (IsFaultOf (faults_in (map string_bytes words.now))) }
{
    match matches_in(alloc, words) {
        Ok(matches) => options_in(alloc, &matches),
        Err(error) => Err(UsageFault::of(alloc, &error)),
    }
}
