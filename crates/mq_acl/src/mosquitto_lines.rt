//! What a line of an access list says, as mosquitto 2.0 reads it.
ghost use Rattle.std.specs.Prelude.{◌≡◌, MatchResult, IfOk, Ok, Err, true};
ghost use Rattle.std.specs.List.{before_first, position_or_len, prefix_len};
ghost use Rattle.mq_acl.specs.Lines.{topic_entry};
ghost use Rattle.mq_acl.specs.MosquittoLines.{access_then_topic, behind_word, filled_entry};
ghost use Rattle.mq_acl.specs.MosquittoLines.{is_space, is_white, mosquitto_entry, user_entry};
ghost use Rattle.mq_acl.specs.MosquittoLines.{word_entry};
ghost use Rattle.mq_acl.specs.Views.{Answers, access_topic_view};
ghost use Rattle.mq_acl.specs.Words.{without_leading, without_trailing};

use crate::access::Access;
use crate::entry::{Entry, access_named, parse_topic};
use crate::fault::AclKind;
use std::alloc::Global;

fn is_white(byte: u8) -> bool
    ensures { result ≡ is_white byte }
{
    byte == b' ' || (9 <= byte && byte <= 13)
}

fn space_len(text: &str) -> usize
    ensures { result ≡ prefix_len is_space text.now }
{
    text.bytes().take_while(|byte| *byte == b' ').count()
}

fn white_len(text: &str) -> usize
    ensures { result ≡ prefix_len is_white text.now }
{
    text.bytes().take_while(|byte| is_white(*byte)).count()
}

fn word_len(text: &str) -> usize
    ensures { result ≡ position_or_len is_space text.now }
{
    text.bytes().take_while(|byte| *byte != b' ').count()
}

fn without_spaces(text: &str) -> &str
    ensures { result.now ≡ without_leading is_space text.now }
{
    let count = space_len(text);
    text.split_at(count).1
}

fn without_white(text: &str) -> &str
    ensures { result.now ≡ without_leading is_white text.now }
{
    let count = white_len(text);
    text.split_at(count).1
}

fn without_white_end(text: &str) -> &str
    ensures { result.now ≡ without_trailing is_white text.now }
{
    let bytes = text.as_bytes();
    let mut end = bytes.len();
    while end > 0 && is_white(bytes[end - 1]) {
        end -= 1;
    }
    text.split_at(end).0
}

// The first word, and what follows it.
fn split_word(text: &str) -> (&str, &str)
    ensures word { result.0.now ≡ before_first is_space text.now }
    ensures rest { result.1.now ≡ behind_word text.now }
{
    let count = word_len(text);
    text.split_at(count)
}

// The access and the topic that follow the keyword.
fn split_access(rest: &str) -> Result<(Access, &str), AclKind>
    ensures { MatchResult result
        (λ parts. access_then_topic rest.now ≡ Ok (access_topic_view parts))
        (λ kind. access_then_topic rest.now ≡ Err kind) }
{
    if rest.is_empty() {
        return Err(AclKind::Topic);
    }
    let (word, topic) = split_word(rest);
    if topic.is_empty() {
        return Ok((Access::ReadWrite, rest));
    }
    match access_named(word) {
        Some(access) => Ok((access, without_white(topic))),
        None => Err(AclKind::Access),
    }
}

fn topic_entry<'a>(alloc: Global, rest: &str) -> Result<Entry<'a>, AclKind>
    ensures { Answers result (topic_entry (access_then_topic rest.now)) }
{
    let (access, topic) = split_access(rest)?;
    let filter = parse_topic(alloc, topic)?;
    Ok(Entry::Topic(access, filter))
}

fn pattern_entry<'a>(alloc: Global, rest: &str) -> Result<Entry<'a>, AclKind>
    ensures { Answers result (filled_entry (access_then_topic rest.now)) }
{
    let (access, topic) = split_access(rest)?;
    let filter = parse_topic(alloc, topic)?;
    Ok(Entry::Pattern(access, filter))
}

fn user_entry(name: &str) -> Result<Entry<'_>, AclKind>
    ensures { Answers result (user_entry name.now) }
{
    if name.is_empty() {
        return Err(AclKind::User);
    }
    Ok(Entry::User(name))
}

fn word_entry<'a>(alloc: Global, word: &str, rest: &'a str) -> Result<Entry<'a>, AclKind>
    ensures { Answers result (word_entry word.now rest.now) }
{
    match word {
        "topic" => topic_entry(alloc, without_spaces(rest)),
        "pattern" => pattern_entry(alloc, without_spaces(rest)),
        "user" => user_entry(without_white(rest)),
        _ => Err(AclKind::Keyword),
    }
}

/// What the line says.
pub(crate) fn read_entry<'a>(alloc: Global, line: &'a str) -> Result<Entry<'a>, AclKind>
    ensures { Answers result (mosquitto_entry line.now) }
{
    if line.starts_with('#') {
        return Ok(Entry::Skipped);
    }
    let text = without_spaces(without_white_end(line));
    if text.is_empty() {
        return Ok(Entry::Skipped);
    }
    let (word, rest) = split_word(text);
    word_entry(alloc, word, rest)
}
