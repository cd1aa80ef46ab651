//! The subscriptions of a script that can receive nothing, in words and as JSON.
ghost use Rattle.std.specs.Prelude.{◌≡◌, ◌++◌, List, ℕ, IfOk, OnOk, string_bytes, true};
ghost use Rattle.mq_ask_reach.specs.Objects.{subscription_object, unreached_text};
ghost use Rattle.mq_reach.specs.Search.{AreCounted};
ghost use Rattle.mq_reach.specs.Tracked.{subscription_view, subscription_views};

use mq_print::{Datum, add_cell, add_object, shown_name, widened};
use mq_reach::{Counts, Findings, Subscription};
use std::alloc::{AllocError, Global};

// A subscription in words.
struct SubscriptionRow {
    place: String,
    client: String,
    user: String,
    filter: String,
}

// Opaque to callers' proofs: one step, and not one for each field (docs/explanation/gate.md).
impl Drop for SubscriptionRow {
    fn drop(self) {
        let SubscriptionRow {
            place: _,
            client: _,
            user: _,
            filter: _,
        } = self;
    }
}

#[derive(Clone, Copy, Drop)]
struct Widths {
    place: usize,
    client: usize,
    user: usize,
}

fn row_of(
    alloc: Global,
    script: &str,
    subscription: &Subscription,
) -> Result<SubscriptionRow, AllocError> {
    let line = subscription.line;
    let user = match &subscription.user {
        Some(user) => format!(in alloc; "user {user}")?,
        None => String::from_str(alloc, "no user name")?,
    };
    let place = format!(in alloc; "{script}:{line}")?;
    Ok(SubscriptionRow {
        place: shown_name(alloc, place.as_str())?,
        client: shown_name(alloc, subscription.client.as_str())?,
        user: shown_name(alloc, user.as_str())?,
        filter: shown_name(alloc, subscription.filter.as_str())?,
    })
}

fn widths_of(rows: &[SubscriptionRow]) -> Widths {
    let mut widths = Widths {
        place: 0,
        client: 0,
        user: 0,
    };
    for row in rows {
        widths.place = widened(widths.place, row.place.as_str());
        widths.client = widened(widths.client, row.client.as_str());
        widths.user = widened(widths.user, row.user.as_str());
    }
    widths
}

fn add_row(text: &mut String, row: &SubscriptionRow, widths: Widths) -> Result<(), AllocError> {
    add_cell(text, row.place.as_str(), widths.place)?;
    add_cell(text, row.client.as_str(), widths.client)?;
    add_cell(text, row.user.as_str(), widths.user)?;
    text.push_str(row.filter.as_str())?;
    text.push('\n')
}

fn add_faulty(text: &mut String, script: &str, counts: Counts) -> Result<(), AllocError> {
    let faulty = counts.faulty;
    match counts.first_faulty {
        None => Ok(()),
        Some(first) if faulty == 1 => writeln!(text, "1 invalid line skipped: {script}:{first}"),
        Some(first) => writeln!(
            text,
            "{faulty} invalid lines skipped, the first is {script}:{first}"
        ),
    }
}

fn table(alloc: Global, script: &str, findings: &Findings) -> Result<String, AllocError> {
    let mut rows = Vec::new(alloc);
    for subscription in &findings.unreached {
        rows.push(row_of(alloc, script, subscription)?)?;
    }
    let widths = widths_of(&rows);
    let mut text = String::new(alloc);
    for row in &rows {
        add_row(&mut text, row, widths)?;
    }
    let script = shown_name(alloc, script)?;
    add_faulty(&mut text, script.as_str(), findings.counts)?;
    let unreached = findings.unreached.len();
    let all = findings.counts.subscriptions;
    writeln!(
        text,
        "{unreached} of {all} subscriptions can receive nothing"
    )?;
    Ok(text)
}

fn add_subscription<'a>(
    alloc: Global,
    text: &mut String,
    script: &'a str,
    subscription: &'a Subscription,
) -> Result<(), AllocError>
    ensures { OnOk result (string_bytes text.new ≡ string_bytes text.old
        ++ subscription_object script.entry.now (subscription_view subscription.entry.now)) }
{
    let user = subscription.user.as_deref();
    add_object(
        alloc,
        text,
        &[
            ("client", Datum::Text(subscription.client.as_str())),
            ("file", Datum::Text(script)),
            ("filter", Datum::Text(subscription.filter.as_str())),
            ("line", Datum::Number(subscription.line)),
            ("user", Datum::TextIf(user)),
        ],
    )
}

fn json_lines(alloc: Global, script: &str, findings: &Findings) -> Result<String, AllocError>
    ensures { (lines : List (List ℕ)) → AreCounted lines findings.entry.now.counts
        → IfOk result (λ text. string_bytes text ≡ unreached_text script.entry.now lines
        (subscription_views findings.entry.now.unreached.items)) }
{
    let mut text = String::new(alloc);
    for subscription in &findings.unreached {
        add_subscription(alloc, &mut text, script, subscription)?;
    }
    let counts = findings.counts;
    let unreached = findings.unreached.len() as u64;
    add_object(
        alloc,
        &mut text,
        &[
            ("first_invalid_line", Datum::NumberIf(counts.first_faulty)),
            ("invalid_lines", Datum::Number(counts.faulty)),
            ("receive_nothing", Datum::Number(unreached)),
            ("subscriptions", Datum::Number(counts.subscriptions)),
        ],
    )?;
    Ok(text)
}

/// The subscriptions that can receive nothing of the script with this name, one a line, then the
/// lines that are not commands, and the number of all subscriptions.
pub fn subscriptions_text(
    alloc: Global,
    script: &str,
    findings: &Findings,
    json: bool,
) -> Result<String, AllocError>
    ensures { (lines : List (List ℕ)) → AreCounted lines findings.entry.now.counts
        → IfOk result (λ text. json ≡ true → string_bytes text ≡ unreached_text script.entry.now
        lines (subscription_views findings.entry.now.unreached.items)) }
{
    if json {
        return json_lines(alloc, script, findings);
    }
    table(alloc, script, findings)
}
