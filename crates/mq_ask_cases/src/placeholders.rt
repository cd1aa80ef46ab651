//! The placeholders of a difference, as they are shown: `<level>`, `<client id>`, `<user>`; and `<client id 2>` of an id that has
//! several levels.
ghost use Rattle.std.specs.Option.{option_copied};
ghost use Rattle.std.specs.Prelude.{◌≡◌, ◌++◌, ◌==◌, [], IfOk, OnOk, codes, string_bytes};
ghost use Rattle.std.specs.Prelude.{if◌then◌else◌};
ghost use Rattle.mq_ask_cases.specs.Placeholders.{AddsClient, IsQuoted, IsShownTopic, is_placeholder};
ghost use Rattle.mq_ask_cases.specs.Placeholders.{has_placeholder, is_user, kind_of, kind_words};
ghost use Rattle.mq_ask_cases.specs.Placeholders.{level_words, number_in, other_user, part_of};
ghost use Rattle.mq_ask_cases.specs.Placeholders.{placeholder_words, topic_words, user_words};

use mq_differences::{Class, Difference, has_text};
use mq_topic::{LevelText, TopicName};
use std::alloc::{AllocError, Global};

// Whether the text is a placeholder: it stands for any that no line names.
fn is_placeholder(difference: &Difference, text: &str) -> bool
    ensures { result ≡ is_placeholder difference.now text.now }
{
    has_text(&difference.placeholders, text)
}

// What a placeholder stands for, of which a level of the topic is one.
#[derive(Clone, Copy)]
enum Kind {
    Level,
    ClientId,
    User,
    // Its user name is its client id.
    Both,
    // One of several levels of the client id, counted from one.
    ClientLevel(usize),
    // So of the user name.
    UserLevel(usize),
}

// Whether the text is the user name, if there is one.
fn is_user(difference: &Difference, text: &str) -> bool
    ensures { result ≡ is_user difference.now text.now }
{
    match difference.class.user() {
        Some(user) => user == text,
        None => false,
    }
}

// Which level of the text it is, counted from one.
fn number_in(text: &str, level: &str) -> Option<usize>
    ensures { result ≡ number_in text.now level.now }
{
    let place = text.split('/').position(|other| level == other)?;
    Some(place + 1)
}

// The user name, if it is one that no line names.
fn other_user(difference: &Difference) -> Option<&str>
    ensures { option_copied result ≡ other_user difference.now }
{
    match &difference.class {
        Class::Others(name) => Some(name.as_str()),
        _ => None,
    }
}

// What a level stands for that is neither the client id nor the user name.
fn part_of(difference: &Difference, text: &str) -> Kind
    ensures { result ≡ part_of difference.now text.now }
{
    if let Some(number) = number_in(difference.client.as_str(), text) {
        return Kind::ClientLevel(number);
    }
    let Some(user) = other_user(difference) else {
        return Kind::Level;
    };
    match number_in(user, text) {
        Some(number) => Kind::UserLevel(number),
        None => Kind::Level,
    }
}

fn kind_of(difference: &Difference, text: &str) -> Kind
    ensures { result ≡ kind_of difference.now text.now }
{
    let is_client = text == difference.client.as_str();
    let is_user = is_user(difference, text);
    match (is_client, is_user) {
        (true, true) => Kind::Both,
        (true, false) => Kind::ClientId,
        (false, true) => Kind::User,
        (false, false) => part_of(difference, text),
    }
}

fn add_kind(text: &mut String, kind: Kind) -> Result<(), AllocError>
    ensures { OnOk result (string_bytes text.new ≡ string_bytes text.old ++ kind_words kind) }
{
    match kind {
        Kind::Level => text.push_str("level"),
        Kind::ClientId => text.push_str("client id"),
        Kind::User => text.push_str("user"),
        Kind::Both => text.push_str("client id and user"),
        Kind::ClientLevel(number) => write!(text, "client id {number}"),
        Kind::UserLevel(number) => write!(text, "user {number}"),
    }
}

fn add_placeholder(text: &mut String, kind: Kind, hidden: bool) -> Result<(), AllocError>
    ensures { OnOk result (string_bytes text.new
        ≡ string_bytes text.old ++ placeholder_words kind hidden) }
{
    text.push_str(if hidden { "<$" } else { "<" })?;
    add_kind(text, kind)?;
    text.push_str(">")
}

// Adds the level, or what it stands for.
fn add_shown(
    text: &mut String,
    difference: &Difference,
    place: usize,
    level: &str,
) -> Result<(), AllocError>
    ensures { OnOk result (string_bytes text.new
        ≡ string_bytes text.old ++ level_words difference.now place level.now) }
{
    if !is_placeholder(difference, level) {
        return text.push_str(level);
    }
    let kind = kind_of(difference, level);
    // a client id or a user name stands for those alone that begin with `$` only at the front of a topic
    let matters = place == 0 || matches!(kind, Kind::Level);
    add_placeholder(text, kind, matters && level.starts_with('$'))
}

// The text in quotes.
fn quoted(alloc: Global, text: &str) -> Result<String, AllocError>
    ensures { IfOk result (λ quoted. IsQuoted text.now (string_bytes quoted)) }
{
    format!(in alloc; "{text:?}")
}

fn add_quoted(text: &mut String, quoted: &str) -> Result<(), AllocError>
    ensures { OnOk result (string_bytes text.new
        ≡ string_bytes text.old ++ codes "  client id: " ++ quoted.now) }
{
    text.push_str("  client id: ")?;
    text.push_str(quoted)
}

// Adds a level, behind a `/` unless it is the first.
fn add_level(
    text: &mut String,
    difference: &Difference,
    place: usize,
    level: &str,
) -> Result<(), AllocError>
    ensures { OnOk result (string_bytes text.new ≡ string_bytes text.old
        ++ ((if place == 0 then [] else codes "/") ++ level_words difference.now place level.now)) }
{
    if place > 0 {
        text.push_str("/")?;
    }
    add_shown(text, difference, place, level)
}

// Adds the levels of a text, with what they stand for in their places.
fn add_levels(text: &mut String, difference: &Difference, whole: &str) -> Result<(), AllocError>
    ensures { OnOk result (string_bytes text.new
        ≡ string_bytes text.old ++ topic_words difference.now whole.now) }
{
    for (place, level) in whole.split('/').enumerate() {
        add_level(text, difference, place, level)?;
    }
    Ok(())
}

/// Adds this topic, with what its levels stand for in their places.
pub fn add_topic(
    text: &mut String,
    difference: &Difference,
    topic: &TopicName,
) -> Result<(), AllocError>
    ensures { OnOk result (string_bytes text.new
        ≡ string_bytes text.old ++ topic_words difference.now topic.now) }
{
    add_levels(text, difference, topic.text())
}

/// Whether a level of the text stands for others.
pub(crate) fn has_placeholder(difference: &Difference, text: &str) -> bool
    ensures { result ≡ has_placeholder difference.now text.now }
{
    text.split('/')
        .any(|level| is_placeholder(difference, level))
}

// Adds a name behind these words, with what its levels stand for.
fn add_parts(
    text: &mut String,
    words: &str,
    difference: &Difference,
    name: &str,
) -> Result<(), AllocError>
    ensures { OnOk result (string_bytes text.new
        ≡ string_bytes text.old ++ words.now ++ topic_words difference.now name.now) }
{
    text.push_str(words)?;
    add_levels(text, difference, name)
}

/// Adds the client id where it isn't any: the levels of which it is made, or the id itself.
pub fn add_client_id(text: &mut String, difference: &Difference) -> Result<(), AllocError>
    ensures { OnOk result (AddsClient difference.now (string_bytes text.old)
        (string_bytes text.new)) }
{
    let client = difference.client.as_str();
    if is_placeholder(difference, client) {
        return Ok(());
    }
    if has_placeholder(difference, client) {
        return add_parts(text, "  client id: ", difference, client);
    }
    let quoted = quoted(*text.allocator(), client)?;
    add_quoted(text, quoted.as_str())
}

// Adds a user name that no line names, where it is made of levels.
fn add_user(text: &mut String, difference: &Difference) -> Result<(), AllocError>
    ensures { OnOk result (string_bytes text.new
        ≡ string_bytes text.old ++ user_words difference.now) }
{
    let Some(user) = other_user(difference) else {
        return Ok(());
    };
    if is_placeholder(difference, user) || !has_placeholder(difference, user) {
        return Ok(());
    }
    add_parts(text, "  user: ", difference, user)
}

/// The topic of a difference, and the client id and the user name where they aren't any.
pub fn shown_topic(alloc: Global, difference: &Difference) -> Result<String, AllocError>
    ensures { IfOk result (λ text. IsShownTopic difference.now (string_bytes text)) }
{
    let mut text = String::new(alloc);
    add_topic(&mut text, difference, &difference.topic)?;
    add_client_id(&mut text, difference)?;
    add_user(&mut text, difference)?;
    Ok(text)
}
