//! The answer to `reach`.
ghost use Rattle.std.specs.Option.{option_copied};
ghost use Rattle.std.specs.Prelude.{◌≡◌, ◌⊎◌, ℕ, List, IfOk, IfErr, OnOk, Some, None, IsTrue};
ghost use Rattle.std.specs.Prelude.{false, true};
ghost use Rattle.mq_acl.specs.Views.{row_views};
ghost use Rattle.mq_ask.specs.Failures.{IsListFailure};
ghost use Rattle.mq_ask.specs.Lists.{AreRows};
ghost use Rattle.mq_ask.specs.Statuses.{failure_status};
ghost use Rattle.mq_ask_reach.specs.Objects.{IsTopicWritten};
ghost use Rattle.mq_ask_reach.specs.Reach.{IsReach, IsReached, IsWordFailure};
ghost use Rattle.mq_reach.specs.Reach.{list_by};
ghost use Rattle.mq_topic.specs.Texts.{filter_part, is_name, is_subscription};

use crate::short_topic::shown_topic;
use crate::topic::{AskedFilter, topic_text};
use mq_acl::{Row, Rules};
use mq_ask::{AskedClient, Client, Failure, Options, Outcome, name_note, print_outcome, rows_in};
use mq_print::ListText;
use mq_reach::{Reach, ReachFault};
use mq_topic::{LevelText, SubFilter, TopicFault, TopicFilter, TopicName};
use mq_witness::ListFault;
use std::alloc::Global;
use std::io::Write;

fn filter_in(alloc: Global, subscription: &str) -> Result<TopicFilter, Failure<'_>>
    ensures ok { IfOk result (λ filter. filter ≡ filter_part subscription.entry.now) }
    ensures err { IfErr result (λ failure. (failure ≡ Failure.Memory)
        ⊎ ((failure ≡ Failure.Filter subscription.entry)
        × (is_subscription subscription.entry.now ≡ false))) }
{
    match SubFilter::parse(alloc, subscription) {
        Ok(parts) => Ok(parts.filter),
        Err(TopicFault::Memory) => Err(Failure::Memory),
        Err(_) => Err(Failure::Filter(subscription)),
    }
}

fn reach_of<'a, 'r>(
    alloc: Global,
    rules: Rules,
    list: ListText<'a, '_>,
    rows: &'r [Row],
) -> Result<Reach<'r>, Failure<'a>>
    requires { AreRows rules list.text.now rows.now }
    ensures ok { IfOk result (λ reach. reach ≡ list_by rules (row_views rows.entry.now)) }
    ensures err { IfErr result (IsListFailure rules list.entry) }
{
    match Reach::new(alloc, rules, rows) {
        Ok(reach) => Ok(reach),
        Err(ListFault::Memory) => Err(Failure::Memory),
        Err(ListFault::Line(_, line)) => Err(Failure::Long {
            file: list.file,
            line,
        }),
        Err(ListFault::Mark(_, line)) => Err(Failure::Mark {
            file: list.file,
            line,
        }),
    }
}

// A topic that the filter matches and that these rows, which are the list's, let the client read.
fn topic_in<'a>(
    alloc: Global,
    rules: Rules,
    list: ListText<'a, '_>,
    rows: &[Row],
    client: Client<'a>,
    filter: &TopicFilter,
) -> Result<Option<TopicName>, Failure<'a>>
    requires { AreRows rules list.text.now rows.now }
    ensures ok { IfOk result (λ found. (subscription : List ℕ)
        → filter.now ≡ filter_part subscription → IsReach rules list.entry.text.now
        client.entry.id.now (option_copied client.entry.user) subscription found) }
    ensures err { IfErr result (λ failure. (subscription : List ℕ)
        → filter.now ≡ filter_part subscription → IsListFailure rules list.entry failure
        ⊎ IsWordFailure rules list.entry.text.now client.entry.id.now (option_copied client.entry.user)
        subscription failure) }
{
    let reach = reach_of(alloc, rules, list, rows)?;
    match reach.topic(alloc, client.id, client.user, filter) {
        Ok(None) => Ok(None),
        Ok(Some(topic)) => {
            let shown = shown_topic(alloc, rules, rows, client, filter, topic)?;
            Ok(Some(shown))
        }
        Err(ReachFault::Memory) => Err(Failure::Memory),
        Err(ReachFault::Pattern) => Err(Failure::LongPattern),
        Err(_) => Err(Failure::LongWord),
    }
}

/// A topic that by these rules a subscription of this client can be sent by the list, or that there
/// is none. A subscription is a topic filter, or `$share/NAME/FILTER`.
pub fn find_topic<'a>(
    alloc: Global,
    rules: Rules,
    list: ListText<'a, '_>,
    client: Client<'a>,
    subscription: &'a str,
) -> Result<Option<TopicName>, Failure<'a>>
    ensures ok { IfOk result (IsReach rules list.entry.text.now client.entry.id.now
        (option_copied client.entry.user) subscription.entry.now) }
    ensures err { IfErr result (λ failure. IsListFailure rules list.entry failure
        ⊎ IsWordFailure rules list.entry.text.now client.entry.id.now (option_copied client.entry.user)
        subscription.entry.now failure) }
{
    let filter = filter_in(alloc, subscription)?;
    let rows = rows_in(alloc, rules, list)?;
    topic_in(alloc, rules, list, &rows, client, &filter)
}

// Whether there is a topic.
fn outcome_of(found: &Option<TopicName>) -> Outcome
    ensures clear { result ≡ Outcome.Clear
        → (topic : List ℕ) × (found.now ≡ Some topic) × IsTrue (is_name topic) }
    ensures remark { result ≡ Outcome.Remark → found.now ≡ None }
{
    match found {
        None => Outcome::Remark,
        Some(topic) => {
            let _text = topic.text();
            Outcome::Clear
        }
    }
}

/// Shows a topic that a subscription of this client can be sent, or that it can receive nothing.
pub fn show_reach<'a, W: Write>(
    alloc: Global,
    list: ListText<'a, '_>,
    client: Client<'a>,
    subscription: &'a str,
    options: Options,
    out: &mut W,
) -> Result<Outcome, Failure<'a>>
    ensures ok { IfOk result (IsReached options.rules list.entry.text.now client.entry.id.now
        (option_copied client.entry.user) subscription.entry.now) }
    ensures unread { IfErr result (λ failure. failure_status failure ≡ 2 → out.new ≡ out.old) }
    ensures json { OnOk result (options.json ≡ true
        → IsTopicWritten options.rules list.entry.text.now client.entry.id.now
        (option_copied client.entry.user) subscription.entry.now
        (W.contents out.old) (W.contents out.new)) }
{
    let found = find_topic(alloc, options.rules, list, client, subscription)?;
    let outcome = outcome_of(&found);
    let note = name_note(alloc, list, AskedClient::of(client), options)?;
    let asked = AskedFilter {
        client: AskedClient::of(client),
        subscription,
        note: note.as_str(),
    };
    let text = topic_text(alloc, asked, &found, options.json)?;
    print_outcome(out, Ok(text), outcome)
}
