//! The answer to `why`.
ghost use Rattle.std.specs.Option.{option_copied};
ghost use Rattle.std.specs.Prelude.{◌≡◌, ◌⊎◌, ℕ, List, Option, IfOk, IfErr, OnOk, false, true};
ghost use Rattle.mq_acl.specs.declared.rules.Rules.{Rules};
ghost use Rattle.mq_ask.specs.Failures.{IsListFailure};
ghost use Rattle.mq_ask.specs.Statuses.{failure_status};
ghost use Rattle.mq_ask_why.specs.Explained.{IsShown};
ghost use Rattle.mq_ask_why.specs.Why.{Explains, IsExplained, IsTopicFailure};
ghost use Rattle.mq_differences.specs.Reasons.{is_grant};

use crate::explanation::{AskedTopic, explanation_text};
use mq_acl::{Direction, Rules};
use mq_ask::{AskedClient, Client, Failure, Options, Outcome, name_note, print_outcome, rows_in};
use mq_differences::{Verdict, why};
use mq_print::ListText;
use mq_topic::{TopicFault, TopicName};
use std::alloc::{AllocError, Global};
use std::io::Write;

/// Whether a client may read and write a topic, and why.
#[derive(Clone, Copy, Drop)]
pub struct Explanation {
    /// Whether it may read the topic.
    pub reading: Verdict,
    /// Whether it may write it.
    pub writing: Verdict,
}

fn topic_name(alloc: Global, text: &str) -> Result<TopicName, Failure<'_>>
    ensures ok { IfOk result (λ name. name ≡ text.entry.now) }
    ensures err { IfErr result (λ failure. (failure ≡ Failure.Memory)
        ⊎ IsTopicFailure text.entry.now failure) }
{
    match TopicName::parse(alloc, text) {
        Ok(name) => Ok(name),
        Err(TopicFault::Memory) => Err(Failure::Memory),
        Err(_) => Err(Failure::Topic(text)),
    }
}

/// Whether by these rules this client may read and write the topic with this text by the list, and which of its lines
/// decide it.
pub fn explain<'a>(
    alloc: Global,
    rules: Rules,
    list: ListText<'a, '_>,
    client: Client<'a>,
    topic: &'a str,
) -> Result<Explanation, Failure<'a>>
    ensures ok { IfOk result (Explains rules list.entry.text.now client.entry.id.now
        (option_copied client.entry.user) topic.entry.now) }
    ensures err { IfErr result (λ failure. IsListFailure rules list.entry failure
        ⊎ IsTopicFailure topic.entry.now failure) }
{
    let name = topic_name(alloc, topic)?;
    let rows = rows_in(alloc, rules, list)?;
    Ok(Explanation {
        reading: why(
            rules,
            &rows,
            client.id,
            client.user,
            &name,
            Direction::Reading,
        ),
        writing: why(
            rules,
            &rows,
            client.id,
            client.user,
            &name,
            Direction::Writing,
        ),
    })
}

// Whether it is allowed.
fn whether(verdict: Verdict) -> Outcome
    ensures clear { result ≡ Outcome.Clear → is_grant verdict.reason ≡ true }
    ensures remark { result ≡ Outcome.Remark → is_grant verdict.reason ≡ false }
{
    if verdict.is_allowed() {
        return Outcome::Clear;
    }
    Outcome::Remark
}

// Whether the client may, where that is asked.
fn outcome_of(explanation: &Explanation, may: Option<Direction>) -> Outcome
    ensures { (rules : Rules) (text client topic : List ℕ) (user : Option (List ℕ))
        → Explains rules text client user topic explanation.now
        → IsExplained rules may text client user topic result }
{
    match may {
        None => Outcome::Clear,
        Some(Direction::Reading) => whether(explanation.reading),
        Some(Direction::Writing) => whether(explanation.writing),
    }
}

/// Shows whether this client may read and write the topic, and why, which is the status where it is
/// asked of one of them.
pub fn show_why<'a, W: Write>(
    alloc: Global,
    list: ListText<'a, '_>,
    client: Client<'a>,
    topic: &'a str,
    may: Option<Direction>,
    options: Options,
    out: &mut W,
) -> Result<Outcome, Failure<'a>>
    ensures ok { IfOk result (IsExplained options.rules may list.entry.text.now client.entry.id.now
        (option_copied client.entry.user) topic.entry.now) }
    ensures unread { IfErr result (λ failure. failure_status failure ≡ 2 → out.new ≡ out.old) }
    ensures json { OnOk result (options.json ≡ true → IsShown options.rules list.entry
        client.entry.id.now (option_copied client.entry.user) topic.entry.now
        (W.contents out.old) (W.contents out.new)) }
{
    let explanation = explain(alloc, options.rules, list, client, topic)?;
    let outcome = outcome_of(&explanation, may);
    let note = name_note(alloc, list, AskedClient::of(client), options)?;
    let asked = AskedTopic {
        client: AskedClient::of(client),
        topic,
        note: note.as_str(),
    };
    let Explanation { reading, writing } = explanation;
    let text = explanation_text(alloc, list, asked, reading, writing, options.json)?;
    print_outcome(out, Ok(text), outcome)
}
