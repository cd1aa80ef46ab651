//! A topic as short as it is read easily.
ghost use Rattle.std.specs.Option.{option_copied};
ghost use Rattle.std.specs.Prelude.{◌≡◌, IfOk, IfSome, true};
ghost use Rattle.mq_acl.specs.Views.{row_views};
ghost use Rattle.mq_reach.specs.Reach.{Reads, list_by};

use mq_acl::{Direction, Row, Rules};
use mq_ask::Client;
use mq_differences::why;
use mq_topic::{LevelText, TopicFault, TopicFilter, TopicName, matches};
use std::alloc::{AllocError, Global};

// What is tried in the place of long levels.
const SHORT: [&str; 4] = ["x", "xx", "xxx", "xxxx"];

// The topic with this level in the place of each of more than 300 bytes.
fn with_short(alloc: Global, topic: &str, short: &str) -> Result<String, AllocError> {
    let mut text = String::new(alloc);
    for (place, level) in topic.split('/').enumerate() {
        if place > 0 {
            text.push('/')?;
        }
        text.push_str(if level.len() > 300 { short } else { level })?;
    }
    Ok(text)
}

// Whether the filter matches the topic, and these rows let the client read it.
fn is_read(
    rules: Rules,
    rows: &[Row],
    client: Client<'_>,
    filter: &TopicFilter,
    topic: &TopicName,
) -> bool
    ensures { result ≡ true → Reads (list_by rules (row_views rows.now)) client.entry.id.now
        (option_copied client.entry.user) filter.now topic.now }
{
    matches(filter, topic)
        && why(
            rules,
            rows,
            client.id,
            client.user,
            topic,
            Direction::Reading,
        )
        .is_allowed()
}

// The topic with this text, if it is one that the client may read, and the filter matches.
fn read_topic(
    alloc: Global,
    rules: Rules,
    rows: &[Row],
    client: Client<'_>,
    filter: &TopicFilter,
    text: &str,
) -> Result<Option<TopicName>, AllocError>
    ensures { IfOk result (λ found. IfSome found (Reads (list_by rules (row_views rows.now)) client.entry.id.now
        (option_copied client.entry.user) filter.now)) }
{
    match TopicName::parse(alloc, text) {
        Ok(topic) if is_read(rules, rows, client, filter, &topic) => Ok(Some(topic)),
        Err(TopicFault::Memory) => Err(AllocError),
        _ => Ok(None),
    }
}

/// A topic that by these rules the client may read by these rows, and the filter matches, where
/// this one is such: with a short level in the place of each placeholder, which is longer than any
/// that is named, unless that is another.
pub(crate) fn shown_topic(
    alloc: Global,
    rules: Rules,
    rows: &[Row],
    client: Client<'_>,
    filter: &TopicFilter,
    topic: TopicName,
) -> Result<TopicName, AllocError>
    ensures { IfOk result (λ shown. Reads (list_by rules (row_views rows.now)) client.entry.id.now
        (option_copied client.entry.user) filter.now topic
        → Reads (list_by rules (row_views rows.now)) client.entry.id.now
        (option_copied client.entry.user) filter.now shown) }
{
    for short in SHORT {
        let text = with_short(alloc, topic.text(), short)?;
        if let Some(shown) = read_topic(alloc, rules, rows, client, filter, text.as_str())? {
            return Ok(shown);
        }
    }
    Ok(topic)
}
