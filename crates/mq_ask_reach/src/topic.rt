//! What a subscription can be sent, in words and as JSON.
ghost use Rattle.std.specs.Option.{option_copied};
ghost use Rattle.std.specs.Prelude.{◌≡◌, ◌++◌, IfOk, OnOk, string_bytes, true};
ghost use Rattle.mq_ask_reach.specs.Objects.{topic_object};

use mq_ask::{AskedClient, add_client};
use mq_print::{Datum, Escape, add_object, shown_lines};
use mq_topic::{LevelText, TopicName};
use std::alloc::{AllocError, Global};

fn add_json(
    alloc: Global,
    text: &mut String,
    subscription: &str,
    topic: Option<&str>,
) -> Result<(), AllocError>
    ensures { OnOk result (string_bytes text.new ≡ string_bytes text.old
        ++ topic_object subscription.now (option_copied topic.entry)) }
{
    add_object(
        alloc,
        text,
        &[
            ("filter", Datum::Text(subscription)),
            ("topic", Datum::TextIf(topic)),
        ],
    )
}

/// What is asked of a list: whether this client's subscription can be sent something.
#[derive(Clone, Copy, Drop)]
pub struct AskedFilter<'a> {
    /// The client.
    pub client: AskedClient<'a>,
    /// The subscription: a topic filter, or `$share/NAME/FILTER`.
    pub subscription: &'a str,
    /// A line about the client's name, if another may be meant.
    pub note: &'a str,
}

fn add_words(
    text: &mut String,
    asked: AskedFilter<'_>,
    topic: Option<&str>,
) -> Result<(), AllocError> {
    add_client(text, asked.client)?;
    let subscription = asked.subscription;
    write!(text, ": {subscription} can be sent ")?;
    text.push_str(topic.unwrap_or("nothing"))?;
    let note = asked.note;
    write!(text, "\n{note}")
}

fn text_of(found: &Option<TopicName>) -> Option<&str>
    ensures { option_copied result ≡ found.now }
{
    Some(found.as_ref()?.text())
}

/// A topic that the subscription can be sent, or that there is none.
pub fn topic_text(
    alloc: Global,
    asked: AskedFilter<'_>,
    found: &Option<TopicName>,
    json: bool,
) -> Result<String, AllocError>
    ensures { IfOk result (λ text. json ≡ true
        → string_bytes text ≡ topic_object asked.entry.subscription.now found.entry.now) }
{
    let topic = text_of(found);
    let mut text = String::new(alloc);
    if json {
        add_json(alloc, &mut text, asked.subscription, topic)?;
        return Ok(text);
    }
    add_words(&mut text, asked, topic)?;
    shown_lines(alloc, text.as_str(), Escape::Words)
}
