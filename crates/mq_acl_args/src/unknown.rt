//! Words of a command line that `clap` takes and that are unknown.
use crate::request::{value, way_named};
use clap::ArgMatches;
use mq_acl::Rules;
use mq_ask::access_named;

/// The word for the rules in the values of a command line, if it is unknown.
pub(crate) fn unknown_rules<'a>(matches: &ArgMatches<'a>) -> Option<&'a str> {
    let (_, values) = matches.subcommand()?;
    let word = value(values, "rules")?;
    match Rules::named(word) {
        Some(_) => None,
        None => Some(word),
    }
}

// The option of a subcommand that is of reading or of writing.
fn access_option(name: &str) -> Option<(&'static str, &'static str)> {
    match name {
        "who" => Some(("access", "--access <ACCESS>")),
        "why" => Some(("may", "--may <ACCESS>")),
        _ => None,
    }
}

/// The word that is to be `read` or `write` in the values of a command line, if it is unknown, and its option.
pub(crate) fn unknown_access<'a>(matches: &ArgMatches<'a>) -> Option<(&'a str, &'static str)> {
    let (name, values) = matches.subcommand()?;
    let (id, option) = access_option(name)?;
    let word = value(values, id)?;
    match access_named(word) {
        Some(_) => None,
        None => Some((word, option)),
    }
}

/// The word of `compare --only` in the values of a command line, if it is unknown.
pub(crate) fn unknown_way<'a>(matches: &ArgMatches<'a>) -> Option<&'a str> {
    let (name, values) = matches.subcommand()?;
    if name != "compare" {
        return None;
    }
    let word = value(values, "only")?;
    match way_named(word) {
        Some(_) => None,
        None => Some(word),
    }
}
