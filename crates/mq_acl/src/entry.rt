ghost use Rattle.std.specs.Prelude.{◌≡◌, ◌⊎◌, MatchResult, IfOk, IfErr, IsTrue, false, Ok, Err};
ghost use Rattle.std.specs.List.{list_all};
ghost use Rattle.std.specs.Option.{option_map};
ghost use Rattle.mq_topic.specs.Levels.{levels};
ghost use Rattle.mq_topic.specs.Texts.{is_filter};
ghost use Rattle.mq_acl.specs.Lines.{entry_of, keyword_entry, topic_entry, pattern_entry};
ghost use Rattle.mq_acl.specs.Lines.{access_and_topic, access_named, is_pattern_level};
ghost use Rattle.mq_acl.specs.Views.{Answers, access_view, access_topic_view};

use crate::access::Access;
use crate::fault::AclKind;
use crate::words::{has_mark, split_word, trimmed};
use mq_topic::{TopicFault, TopicFilter};
use std::alloc::Global;

// What a line says, where it has no fault.
#[derive(Drop)]
pub(crate) enum Entry<'a> {
    Skipped,
    User(&'a str),
    Topic(Access, TopicFilter),
    Pattern(Access, TopicFilter),
}

pub(crate) fn access_named(word: &str) -> Option<Access>
    ensures { option_map access_view result ≡ access_named word.now }
{
    match word {
        "read" => Some(Access::Read),
        "write" => Some(Access::Write),
        "readwrite" => Some(Access::ReadWrite),
        "deny" => Some(Access::Deny),
        _ => None,
    }
}

// The access and the topic that follow the keyword.
fn split_access(rest: &str) -> Result<(Access, &str), AclKind>
    ensures { MatchResult result (λ parts. access_and_topic rest.now ≡ Ok (access_topic_view parts))
        (λ kind. access_and_topic rest.now ≡ Err kind) }
{
    if rest.is_empty() {
        return Err(AclKind::Topic);
    }
    let (word, topic) = split_word(rest);
    if word.len() == rest.len() {
        return Ok((Access::ReadWrite, rest));
    }
    match access_named(word) {
        Some(access) => Ok((access, topic)),
        None => Err(AclKind::Access),
    }
}

fn is_pattern_level(level: &str) -> bool
    ensures { result ≡ is_pattern_level level.now }
{
    !has_mark(level) || level == "%c" || level == "%u"
}

/// Whether each `%c` and `%u` in a filter is a whole level.
pub fn has_whole_marks(topic: &str) -> bool
    ensures { result ≡ list_all is_pattern_level (levels topic.now) }
{
    topic.split('/').all(|level| is_pattern_level(level))
}

pub(crate) fn parse_topic(alloc: Global, topic: &str) -> Result<TopicFilter, AclKind>
    ensures ok { IfOk result (λ filter. (filter ≡ topic.now) × IsTrue (is_filter topic.now)) }
    ensures fault { IfErr result (λ kind. (kind ≡ AclKind.Memory)
        ⊎ ((kind ≡ AclKind.Topic) × (is_filter topic.now ≡ false))) }
{
    match TopicFilter::parse(alloc, topic) {
        Ok(filter) => Ok(filter),
        Err(TopicFault::Memory) => Err(AclKind::Memory),
        Err(_) => Err(AclKind::Topic),
    }
}

fn topic_entry<'a>(alloc: Global, rest: &str) -> Result<Entry<'a>, AclKind>
    ensures { Answers result (topic_entry (access_and_topic rest.now)) }
{
    let (access, topic) = split_access(rest)?;
    let filter = parse_topic(alloc, topic)?;
    Ok(Entry::Topic(access, filter))
}

fn pattern_entry<'a>(alloc: Global, rest: &str) -> Result<Entry<'a>, AclKind>
    ensures { Answers result (pattern_entry (access_and_topic rest.now)) }
{
    let (access, topic) = split_access(rest)?;
    let filter = parse_topic(alloc, topic)?;
    if !has_whole_marks(topic) {
        return Err(AclKind::Pattern);
    }
    Ok(Entry::Pattern(access, filter))
}

fn keyword_entry<'a>(alloc: Global, word: &str, rest: &'a str) -> Result<Entry<'a>, AclKind>
    ensures { Answers result (keyword_entry word.now rest.now) }
{
    match word {
        "topic" => topic_entry(alloc, rest),
        "pattern" => pattern_entry(alloc, rest),
        "user" if rest.is_empty() => Err(AclKind::User),
        "user" => Ok(Entry::User(rest)),
        _ => Err(AclKind::Keyword),
    }
}

// What the line says.
pub(crate) fn read_entry<'a>(alloc: Global, line: &'a str) -> Result<Entry<'a>, AclKind>
    ensures { Answers result (entry_of line.now) }
{
    let text = trimmed(line);
    if text.is_empty() || text.starts_with('#') {
        return Ok(Entry::Skipped);
    }
    let (word, rest) = split_word(text);
    keyword_entry(alloc, word, rest)
}
