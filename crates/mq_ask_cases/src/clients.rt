//! Whom differences concern.
ghost use Rattle.std.specs.Option.{option_copied};
ghost use Rattle.std.specs.List.{join_by, list_any};
ghost use Rattle.std.specs.Prelude.{◌≡◌, ◌++◌, ◌==◌, ◌∷◌, [], IfOk, OnOk, codes, map, string_bytes};
ghost use Rattle.std.specs.Prelude.{if◌then◌else◌, take};
ghost use Rattle.mq_ask_cases.specs.ChangeRows.{who_line};
ghost use Rattle.mq_ask_cases.specs.Clients.{group_text, is_of_none, is_of_others};
ghost use Rattle.mq_ask_cases.specs.Clients.{more_words, named_user, user_names, users_part};
ghost use Rattle.mq_ask_cases.specs.Clients.{users_words, who_parts, who_text, with_part};
ghost use Rattle.mq_ask_cases.specs.Clients.{none_part, others_part, with_parts};
ghost use Rattle.mq_print.specs.Lists.{lent_texts};

use crate::placeholders::has_placeholder;
use mq_differences::{Class, Difference, Group};
use mq_print::{Escape, shown_lines};
use std::alloc::{AllocError, Global};

/// How many user names are shown in a row.
const MOST_NAMES: usize = 4;

// Whether it is of clients without a user name.
fn is_of_none(difference: &Difference) -> bool
    ensures { result ≡ is_of_none difference.now }
{
    matches!(difference.class, Class::Anonymous)
}

// Whether it is of user names that no line is for: a level of the one that it shows stands for others.
fn is_of_others(difference: &Difference) -> bool
    ensures { result ≡ is_of_others difference.now }
{
    match &difference.class {
        Class::Others(name) => has_placeholder(difference, name.as_str()),
        _ => false,
    }
}

// The user name that it is of, for itself: a line is for it, or names it as a level.
fn named_user(difference: &Difference) -> Option<&str>
    ensures { option_copied result ≡ named_user difference.entry.now }
{
    if is_of_others(difference) {
        return None;
    }
    difference.class.user()
}

// Adds the user name that it is of, for itself.
fn add_user<'a>(names: &mut Vec<&'a str>, difference: &'a Difference) -> Result<(), AllocError>
    ensures { OnOk result (lent_texts names.new.items
        ≡ lent_texts names.old.items ++ user_names (difference.entry.now ∷ [])) }
{
    if let Some(name) = named_user(difference) {
        names.push(name)?;
    }
    Ok(())
}

// The user names that they are of, each for itself.
fn names<'a>(alloc: Global, all: &[&'a Difference]) -> Result<Vec<&'a str>, AllocError>
    ensures { IfOk result (λ names. lent_texts names.items
        ≡ user_names (map (λ d. d.now) all.now)) }
{
    let mut names = Vec::new(alloc);
    for one in all {
        add_user(&mut names, one)?;
    }
    Ok(names)
}

fn add_part(text: &mut String, part: &str) -> Result<(), AllocError>
    ensures { OnOk result (string_bytes text.new ≡ with_part (string_bytes text.old) part.now) }
{
    if !text.is_empty() {
        text.push_str("; ")?;
    }
    text.push_str(part)
}

// The names that are shown.
fn first_names<'n, 'a>(names: &'n [&'a str]) -> &'n [&'a str]
    ensures { result.now ≡ take 4 names.entry.now }
{
    names.get(..MOST_NAMES).unwrap_or(names)
}

fn add_name(text: &mut String, place: usize, name: &str) -> Result<(), AllocError>
    ensures { OnOk result (string_bytes text.new ≡ string_bytes text.old
        ++ ((if place == 0 then [] else codes ", ") ++ name.now)) }
{
    if place > 0 {
        text.push_str(", ")?;
    }
    text.push_str(name)
}

fn add_list(text: &mut String, names: &[&str]) -> Result<(), AllocError>
    ensures { OnOk result (string_bytes text.new ≡ string_bytes text.old
        ++ join_by (λ name. name) (codes ", ") (lent_texts names.now)) }
{
    for (place, name) in names.iter().enumerate() {
        add_name(text, place, name)?;
    }
    Ok(())
}

// Adds how many names there are beside those.
fn add_more(text: &mut String, count: usize) -> Result<(), AllocError>
    ensures { OnOk result (string_bytes text.new ≡ string_bytes text.old ++ more_words count) }
{
    if count <= MOST_NAMES {
        return Ok(());
    }
    let more = count - MOST_NAMES;
    write!(text, " and {more} more")
}

fn add_names(text: &mut String, names: &[&str]) -> Result<(), AllocError>
    ensures { OnOk result (string_bytes text.new
        ≡ with_part (string_bytes text.old) (users_words (lent_texts names.now))) }
{
    let one = names.len() == 1;
    add_part(text, if one { "user " } else { "users " })?;
    add_list(text, first_names(names))?;
    add_more(text, names.len())
}

fn add_users(alloc: Global, text: &mut String, all: &[&Difference]) -> Result<(), AllocError>
    ensures { OnOk result (string_bytes text.new ≡ with_parts (string_bytes text.old)
        (users_part (user_names (map (λ d. d.now) all.now)))) }
{
    let names = names(alloc, all)?;
    if names.is_empty() {
        return Ok(());
    }
    add_names(text, &names)
}

fn has_none(all: &[&Difference]) -> bool
    ensures { result ≡ list_any (λ d. is_of_none d.now) all.now }
{
    all.iter().any(|one| is_of_none(one))
}

fn add_none(text: &mut String, all: &[&Difference]) -> Result<(), AllocError>
    ensures { OnOk result (string_bytes text.new
        ≡ with_parts (string_bytes text.old) (none_part (map (λ d. d.now) all.now))) }
{
    if has_none(all) {
        return add_part(text, "no user name");
    }
    Ok(())
}

fn has_others(all: &[&Difference]) -> bool
    ensures { result ≡ list_any (λ d. is_of_others d.now) all.now }
{
    all.iter().any(|one| is_of_others(one))
}

fn add_others(text: &mut String, all: &[&Difference]) -> Result<(), AllocError>
    ensures { OnOk result (string_bytes text.new
        ≡ with_parts (string_bytes text.old) (others_part (map (λ d. d.now) all.now))) }
{
    if has_others(all) {
        return add_part(text, "other users");
    }
    Ok(())
}

fn add_classes(alloc: Global, text: &mut String, all: &[&Difference]) -> Result<(), AllocError>
    ensures { OnOk result (string_bytes text.new ≡ with_parts (string_bytes text.old)
        (who_parts (map (λ d. d.now) all.now))) }
{
    add_none(text, all)?;
    add_users(alloc, text, all)?;
    add_others(text, all)
}

/// Adds whom the rows that follow are about, if those before are about others.
pub fn add_who<'a>(text: &mut String, before: &str, who: &'a str) -> Result<&'a str, AllocError>
    ensures same { IfOk result (λ it. it.now ≡ who.entry.now) }
    ensures added { OnOk result (string_bytes text.new
        ≡ string_bytes text.old ++ who_line before.now who.entry.now) }
{
    if who != before {
        writeln!(text, "{who}")?;
    }
    Ok(who)
}

/// The clients of these, in words, as they are shown.
pub fn who_text(alloc: Global, all: &[&Difference]) -> Result<String, AllocError>
    ensures { IfOk result (λ text. string_bytes text ≡ who_text (map (λ d. d.now) all.now)) }
{
    let mut text = String::new(alloc);
    add_classes(alloc, &mut text, all)?;
    shown_lines(alloc, text.as_str(), Escape::Words)
}

/// The clients of a group, in words, as they are shown.
pub fn group_text(alloc: Global, group: &Group) -> Result<String, AllocError>
    ensures { IfOk result (λ text. string_bytes text ≡ group_text group.now) }
{
    let mut all = vec![in alloc; &group.first]?;
    for other in &group.others {
        all.push(other)?;
    }
    who_text(alloc, &all)
}
