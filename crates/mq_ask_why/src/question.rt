//! A question of a file of questions.
//!
//! ```text
//! {"client":"meter-17","user":"meter","topic":"plant/hall-1/energy","access":"write"}
//! {"client":"guest","topic":"plant/hall-1/energy","access":"read"}     without a user name
//! ```
ghost use Rattle.std.specs.Prelude.{◌≡◌, ◌⊎◌, IfErr, IfOk, None, Some, codes, false, option_and_then};
ghost use Rattle.std.specs.Prelude.{option_map, string_bytes};
ghost use Rattle.std.specs.Option.{option_copied};
ghost use Rattle.mq_ask.specs.Words.{access_named};
ghost use Rattle.mq_ask_why.specs.Questions.{Gives, asked_in, asking_of, member_count, text_in};
ghost use Rattle.mq_ask_why.specs.Questions.{wanted_count, with_name};
ghost use Rattle.mq_ask_why.specs.Texts.{texts_view};
ghost use Rattle.mq_topic.specs.Texts.{is_name};
ghost use Rattle.serde_json.specs.Read.{read};
ghost use Rattle.serde_json.specs.View.{view};

use mq_acl::Direction;
use mq_ask::access_named;
use mq_topic::{TopicFault, TopicName};
use serde_json::Value;
use std::alloc::{AllocError, Global};

/// Whether a client may read a topic, or write it.
#[derive(Drop)]
pub struct AccessQuestion {
    /// The client id.
    pub client: String,
    /// Its user name, if it has one.
    pub user: Option<String>,
    /// The topic.
    pub topic: TopicName,
    /// Whether it is read or written.
    pub access: Direction,
}

/// Why a line asks nothing.
#[derive(Clone, Copy, PartialEq, Eq)]
pub enum QuestionKind {
    /// It is not JSON text.
    NotJson,
    /// It is no object, one of `client`, `topic` and `access` is missing or isn't as it has to be,
    /// `user` is no text, or there is another member.
    Members,
    /// The topic is not a topic name.
    Topic,
    /// There was no memory. No line is at fault.
    Memory,
}

impl From<AllocError> for QuestionKind {
    ghost use Rattle.std.specs.Prelude.{◌≡◌};
    ghost use Rattle.mq_ask_why.specs.declared.question.QuestionKind.TheVariants.{Memory};

    ghost from_gives = { λ _ kind. kind ≡ Memory };

    fn from(_: AllocError) -> Self {
        QuestionKind::Memory
    }
}

/// The texts of the members of a question.
#[derive(Clone, Copy, Drop)]
pub(crate) struct Texts<'v> {
    client: &'v str,
    user: Option<&'v str>,
    topic: &'v str,
    access: Direction,
}

// The text under a name, if there is one.
fn text_under<'v>(value: &'v Value, name: &str) -> Option<&'v str>
    ensures { option_copied result ≡ text_in name.now (view value.now) }
{
    value.get(name).and_then(Value::as_str)
}

// Whether it is asked of reading or of writing.
fn access_under(value: &Value) -> Option<Direction>
    ensures { result ≡ option_and_then access_named (text_in (codes "access") (view value.now)) }
{
    access_named(text_under(value, "access")?)
}

// How many members an object has.
fn member_count(value: &Value) -> usize
    ensures { result ≡ member_count (view value.now) }
{
    match value.as_object() {
        Some(members) => members.len(),
        None => 0,
    }
}

fn wanted_count(user: Option<&str>) -> usize
    ensures { result ≡ wanted_count (option_copied user.entry) }
{
    match user {
        None => 3,
        Some(_) => 4,
    }
}

// What the members ask, if they are all there and no other is.
fn texts_of<'v>(value: &'v Value) -> Option<Texts<'v>>
    ensures { option_map texts_view result ≡ asked_in (view value.now) }
{
    let user = text_under(value, "user");
    match (
        text_under(value, "client"),
        text_under(value, "topic"),
        access_under(value),
    ) {
        (Some(client), Some(topic), Some(access)) if member_count(value) == wanted_count(user) => {
            Some(Texts {
                client,
                user,
                topic,
                access,
            })
        }
        _ => None,
    }
}

fn topic_of(alloc: Global, text: &str) -> Result<TopicName, QuestionKind>
    ensures ok { IfOk result (λ name. name ≡ text.now) }
    ensures err { IfErr result (λ kind. (kind ≡ QuestionKind.Memory)
        ⊎ ((kind ≡ QuestionKind.Topic) × (is_name text.now ≡ false))) }
{
    match TopicName::parse(alloc, text) {
        Ok(name) => Ok(name),
        Err(TopicFault::Memory) => Err(QuestionKind::Memory),
        Err(_) => Err(QuestionKind::Topic),
    }
}

fn user_of(alloc: Global, user: Option<&str>) -> Result<Option<String>, AllocError>
    ensures { IfOk result (λ text. option_map string_bytes text ≡ option_copied user.entry) }
{
    match user {
        Some(user) => Ok(Some(String::from_str(alloc, user)?)),
        None => Ok(None),
    }
}

// The question of these texts, if the topic is one.
fn question_of(alloc: Global, texts: Texts<'_>) -> Result<AccessQuestion, QuestionKind>
    ensures { Gives result (with_name (Some (texts_view texts.entry))) }
{
    let topic = topic_of(alloc, texts.topic)?;
    Ok(AccessQuestion {
        client: String::from_str(alloc, texts.client)?,
        user: user_of(alloc, texts.user)?,
        topic,
        access: texts.access,
    })
}

fn value_of(alloc: Global, line: &str) -> Result<Value, QuestionKind>
    ensures ok { IfOk result (λ value. read line.now ≡ Some (view value)) }
    ensures err { IfErr result (λ kind. (kind ≡ QuestionKind.Memory)
        ⊎ ((kind ≡ QuestionKind.NotJson) × (read line.now ≡ None))) }
{
    match Value::from_str(alloc, line) {
        Ok(value) => Ok(value),
        Err(error) if error.is_memory() => Err(QuestionKind::Memory),
        Err(_) => Err(QuestionKind::NotJson),
    }
}

/// What a line asks.
pub(crate) fn read_question(alloc: Global, line: &str) -> Result<AccessQuestion, QuestionKind>
    ensures { Gives result (asking_of line.now) }
{
    let value = value_of(alloc, line)?;
    match texts_of(&value) {
        Some(texts) => question_of(alloc, texts),
        None => Err(QuestionKind::Members),
    }
}
