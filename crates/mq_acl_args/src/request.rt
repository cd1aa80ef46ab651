//! What the command line asks for.
ghost use Rattle.std.specs.Prelude.{◌≡◌, [], Some, IfOk, codes, map, option_map, unwrap_or};
ghost use Rattle.std.specs.Option.{option_copied};
ghost use Rattle.clap.specs.Words.{all_of, first_of, rows_of, found_of, subcommand_rows_of};
ghost use Rattle.mq_acl_args.specs.CommandLine.{question_view, asked, GivesAsked};
ghost use Rattle.mq_acl_args.specs.CommandLine.{all_asked, any_asked, compare_asked};
ghost use Rattle.mq_acl_args.specs.CommandLine.{compare_asked_by, each_asked, lint_asked, one_asked, through_asked};
ghost use Rattle.mq_acl_args.specs.CommandLine.{reach_asked_by, rules_asked, some_asked};
ghost use Rattle.mq_acl_args.specs.CommandLine.{access_asked, steps_given, way_asked, way_named};
ghost use Rattle.mq_acl_args.specs.CommandLine.{test_asked_by};
ghost use Rattle.mq_acl_args.specs.CommandLine.{topic_asked, who_asked_by, why_asked_by};

use crate::question::{Compare, Question, Reach, Subscriptions, Test, Through, Who, Why, WhyEach};
use clap::ArgMatches;
use mq_acl::{Direction, Rules};
use mq_ask::{Client, Options, Selection, access_named};
use mq_differences::Way;
use std::alloc::{AllocError, Global};

/// What the command line asks for.
#[derive(Drop)]
pub struct Request<'a> {
    /// The question.
    pub question: Question<'a>,
    /// How it is answered.
    pub options: Options,
}

/// How many steps may be taken where nothing is said of them: some ten seconds.
const USUAL_STEPS: u32 = 200_000_000;

// The value with this id.
pub(crate) fn value<'a>(matches: &ArgMatches<'a>, id: &str) -> Option<&'a str>
    ensures { option_copied result ≡ first_of id.now (rows_of (found_of matches.now)) }
{
    matches.get_str(id)
}

pub(crate) fn way_named(word: &str) -> Option<Way>
    ensures { result ≡ way_named word.now }
{
    match word {
        "gained" => Some(Way::Gained),
        "lost" => Some(Way::Lost),
        _ => None,
    }
}

// Whether it is asked of one way alone, if the word for it is known.
fn way_in(matches: &ArgMatches<'_>) -> Option<Option<Way>>
    ensures { result ≡ way_asked (rows_of (found_of matches.now)) }
{
    let Some(word) = value(matches, "only") else {
        return Some(None);
    };
    match way_named(word) {
        Some(way) => Some(Some(way)),
        None => None,
    }
}

// Of two lists alone.
fn compare_lists_in<'a>(matches: &ArgMatches<'a>) -> Option<Question<'a>>
    ensures { let rows = rows_of (found_of matches.now) in option_map question_view result
        ≡ compare_asked (first_of (codes "OLD") rows) (first_of (codes "NEW") rows)
        (way_asked rows) (first_of (codes "script") rows) }
{
    match (
        value(matches, "OLD"),
        value(matches, "NEW"),
        way_in(matches),
    ) {
        (Some(old), Some(new), Some(only)) => Some(Question::Compare(Compare {
            old,
            new,
            only,
            script: value(matches, "script"),
        })),
        _ => None,
    }
}

// Through a plan: no script stands beside it.
fn through_in<'a>(matches: &ArgMatches<'a>, plan: &'a str) -> Option<Question<'a>>
    ensures { let rows = rows_of (found_of matches.now) in option_map question_view result
        ≡ through_asked (first_of (codes "OLD") rows) (first_of (codes "NEW") rows)
        (way_asked rows) (first_of (codes "script") rows) plan.entry.now }
{
    match (
        value(matches, "OLD"),
        value(matches, "NEW"),
        way_in(matches),
        value(matches, "script"),
    ) {
        (Some(old), Some(new), Some(only), None) => Some(Question::Through(Through {
            old,
            new,
            plan,
            only,
        })),
        _ => None,
    }
}

fn compare_in<'a>(matches: &ArgMatches<'a>) -> Option<Question<'a>>
    ensures { option_map question_view result
        ≡ compare_asked_by (rows_of (found_of matches.now)) }
{
    match value(matches, "plan") {
        None => compare_lists_in(matches),
        Some(plan) => through_in(matches, plan),
    }
}

// Whether it is asked of reading or of writing alone, if the word for it is known, which this option has.
fn access_in(matches: &ArgMatches<'_>, id: &str) -> Option<Option<Direction>>
    ensures { result ≡ access_asked id.now (rows_of (found_of matches.now)) }
{
    let Some(word) = value(matches, id) else {
        return Some(None);
    };
    match access_named(word) {
        Some(direction) => Some(Some(direction)),
        None => None,
    }
}

// Of one client and topic.
fn why_one_in<'a>(matches: &ArgMatches<'a>) -> Option<Question<'a>>
    ensures { let rows = rows_of (found_of matches.now) in option_map question_view result
        ≡ topic_asked (first_of (codes "LIST") rows) (first_of (codes "CLIENT") rows)
        (first_of (codes "user") rows) (first_of (codes "TOPIC") rows)
        (access_asked (codes "may") rows) }
{
    let user = value(matches, "user");
    match (
        value(matches, "LIST"),
        value(matches, "CLIENT"),
        value(matches, "TOPIC"),
        access_in(matches, "may"),
    ) {
        (Some(file), Some(id), Some(topic), Some(may)) => Some(Question::Why(Why {
            file,
            client: Client { id, user },
            topic,
            may,
        })),
        _ => None,
    }
}

// Of each question of a file: no client, topic, user name and access stand beside it.
fn why_each_in<'a>(matches: &ArgMatches<'a>, questions: &'a str) -> Option<Question<'a>>
    ensures { let rows = rows_of (found_of matches.now) in option_map question_view result
        ≡ each_asked (first_of (codes "LIST") rows) (first_of (codes "CLIENT") rows)
        (first_of (codes "user") rows) (first_of (codes "TOPIC") rows)
        (first_of (codes "may") rows) questions.entry.now }
{
    match (
        value(matches, "LIST"),
        value(matches, "CLIENT"),
        value(matches, "user"),
        value(matches, "TOPIC"),
        value(matches, "may"),
    ) {
        (Some(file), None, None, None, None) => {
            Some(Question::WhyEach(WhyEach { file, questions }))
        }
        _ => None,
    }
}

fn why_in<'a>(matches: &ArgMatches<'a>) -> Option<Question<'a>>
    ensures { option_map question_view result ≡ why_asked_by (rows_of (found_of matches.now)) }
{
    match value(matches, "questions") {
        None => why_one_in(matches),
        Some(questions) => why_each_in(matches, questions),
    }
}

fn lint_in<'a>(alloc: Global, matches: &ArgMatches<'a>) -> Result<Option<Question<'a>>, AllocError>
    ensures { IfOk result (λ question. option_map question_view question
        ≡ lint_asked (all_of (codes "LIST") (rows_of (found_of matches.now)))) }
{
    match matches.get_strs("LIST") {
        Some(files) => {
            let files = Vec::from_slice(alloc, files)?;
            Ok(Some(Question::Lint(files)))
        }
        None => Ok(None),
    }
}

// Of one subscription.
fn reach_one_in<'a>(matches: &ArgMatches<'a>, user: Option<&'a str>) -> Option<Question<'a>>
    ensures { let rows = rows_of (found_of matches.now) in option_map question_view result
        ≡ one_asked (first_of (codes "LIST") rows) (first_of (codes "CLIENT") rows)
        (first_of (codes "FILTER") rows) (option_copied user.entry) }
{
    match (
        value(matches, "LIST"),
        value(matches, "CLIENT"),
        value(matches, "FILTER"),
    ) {
        (Some(file), Some(id), Some(filter)) => {
            let client = Client { id, user };
            let subscriptions = Subscriptions::Of { client, filter };
            Some(Question::Reach(Reach {
                file,
                subscriptions,
            }))
        }
        _ => None,
    }
}

// Of clients with any id: no client, filter and script stand beside it.
fn reach_any_in<'a>(
    matches: &ArgMatches<'a>,
    user: Option<&'a str>,
    wanted: &'a str,
) -> Option<Question<'a>>
    ensures { let rows = rows_of (found_of matches.now) in option_map question_view result
        ≡ any_asked (first_of (codes "LIST") rows) (first_of (codes "CLIENT") rows)
        (first_of (codes "FILTER") rows) (option_copied user.entry) (first_of (codes "script") rows)
        wanted.entry.now }
{
    let subscriptions = Subscriptions::OfAny { user, wanted };
    match (
        value(matches, "LIST"),
        value(matches, "CLIENT"),
        value(matches, "FILTER"),
        value(matches, "script"),
    ) {
        (Some(file), None, None, None) => Some(Question::Reach(Reach {
            file,
            subscriptions,
        })),
        _ => None,
    }
}

// Of the subscriptions of a script: no client, filter and user name stand beside it.
fn reach_all_in<'a>(
    matches: &ArgMatches<'a>,
    user: Option<&'a str>,
    script: &'a str,
) -> Option<Question<'a>>
    ensures { let rows = rows_of (found_of matches.now) in option_map question_view result
        ≡ all_asked (first_of (codes "LIST") rows) (first_of (codes "CLIENT") rows)
        (first_of (codes "FILTER") rows) (option_copied user.entry) script.entry.now }
{
    match (
        value(matches, "LIST"),
        value(matches, "CLIENT"),
        value(matches, "FILTER"),
        user,
    ) {
        (Some(file), None, None, None) => Some(Question::Reach(Reach {
            file,
            subscriptions: Subscriptions::In(script),
        })),
        _ => None,
    }
}

// Of one subscription, or of those of a script.
fn reach_some_in<'a>(matches: &ArgMatches<'a>, user: Option<&'a str>) -> Option<Question<'a>>
    ensures { let rows = rows_of (found_of matches.now) in option_map question_view result
        ≡ some_asked (first_of (codes "LIST") rows) (first_of (codes "CLIENT") rows)
        (first_of (codes "FILTER") rows) (option_copied user.entry) (first_of (codes "script") rows) }
{
    match value(matches, "script") {
        None => reach_one_in(matches, user),
        Some(script) => reach_all_in(matches, user, script),
    }
}

fn reach_in<'a>(matches: &ArgMatches<'a>) -> Option<Question<'a>>
    ensures { option_map question_view result ≡ reach_asked_by (rows_of (found_of matches.now)) }
{
    let user = value(matches, "user");
    match value(matches, "any") {
        None => reach_some_in(matches, user),
        Some(wanted) => reach_any_in(matches, user, wanted),
    }
}

fn who_in<'a>(matches: &ArgMatches<'a>) -> Option<Question<'a>>
    ensures { option_map question_view result ≡ who_asked_by (rows_of (found_of matches.now)) }
{
    let except = value(matches, "except");
    match (
        value(matches, "LIST"),
        value(matches, "FILTER"),
        access_in(matches, "access"),
    ) {
        (Some(file), Some(wanted), Some(access)) => Some(Question::Who(Who {
            file,
            wanted,
            selection: Selection {
                access,
                only: except,
            },
            script: value(matches, "script"),
        })),
        _ => None,
    }
}

// The lists that are given, if some are.
fn lists_in<'a>(alloc: Global, matches: &ArgMatches<'a>) -> Result<Vec<&'a str>, AllocError>
    ensures { IfOk result (λ lists. map (λ file. file.now) lists.items
        ≡ unwrap_or (all_of (codes "LIST") (rows_of (found_of matches.now))) []) }
{
    match matches.get_strs("LIST") {
        Some(lists) => Vec::from_slice(alloc, lists),
        None => Ok(Vec::new(alloc)),
    }
}

fn test_in<'a>(alloc: Global, matches: &ArgMatches<'a>) -> Result<Option<Question<'a>>, AllocError>
    ensures { IfOk result (λ question. option_map question_view question
        ≡ test_asked_by (rows_of (found_of matches.now))) }
{
    let Some(expected) = value(matches, "EXPECTED") else {
        return Ok(None);
    };
    let lists = lists_in(alloc, matches)?;
    Ok(Some(Question::Test(Test {
        expected,
        lists,
        junit: value(matches, "junit"),
    })))
}

fn question_in<'a>(
    alloc: Global,
    name: &str,
    matches: &ArgMatches<'a>,
) -> Result<Option<Question<'a>>, AllocError>
    ensures { IfOk result (λ question. option_map question_view question
        ≡ asked name.now (rows_of (found_of matches.now))) }
{
    match name {
        "compare" => Ok(compare_in(matches)),
        "why" => Ok(why_in(matches)),
        "lint" => lint_in(alloc, matches),
        "reach" => Ok(reach_in(matches)),
        "who" => Ok(who_in(matches)),
        "test" => test_in(alloc, matches),
        _ => Ok(None),
    }
}

// How many steps may be taken.
fn steps_in(matches: &ArgMatches<'_>) -> u64
    ensures { result ≡ steps_given (rows_of (found_of matches.now)) }
{
    u64::from(matches.get_one("steps").unwrap_or(USUAL_STEPS))
}

// By whose rules, if the word for them is known: by mosquitto's where there is none.
fn rules_in(matches: &ArgMatches<'_>) -> Option<Rules>
    ensures { result ≡ rules_asked (rows_of (found_of matches.now)) }
{
    match value(matches, "rules") {
        Some(word) => Rules::named(word),
        None => Some(Rules::Mosquitto),
    }
}

// The same, with how it is answered.
fn request_of<'a>(
    alloc: Global,
    name: &str,
    matches: &ArgMatches<'a>,
) -> Result<Option<Request<'a>>, AllocError>
    ensures { IfOk result (GivesAsked (Some (name.now, rows_of (found_of matches.now)))) }
{
    let Some(rules) = rules_in(matches) else {
        return Ok(None);
    };
    let options = Options {
        json: matches.get_flag("json"),
        steps: steps_in(matches),
        rules,
        coloured: false,
    };
    match question_in(alloc, name, matches)? {
        Some(question) => Ok(Some(Request { question, options })),
        None => Ok(None),
    }
}

/// What is asked for by the values of a command line, if anything is.
pub(crate) fn request_in<'a>(
    alloc: Global,
    matches: &ArgMatches<'a>,
) -> Result<Option<Request<'a>>, AllocError>
    ensures { IfOk result (GivesAsked (subcommand_rows_of matches.now)) }
{
    match matches.subcommand() {
        Some((name, values)) => request_of(alloc, name, values),
        None => Ok(None),
    }
}
