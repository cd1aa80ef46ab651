//! What lists and plans name.
ghost use Rattle.std.specs.Prelude.{◌≡◌, codes};
ghost use Rattle.std.specs.List.{list_any};
ghost use Rattle.std.specs.Option.{option_copied};
ghost use Rattle.std.specs.Str.{bytes_eq};
ghost use Rattle.mq_topic.specs.Levels.{levels};
ghost use Rattle.mq_topic.specs.Matching.{is_wildcard};
ghost use Rattle.mq_topic.specs.Texts.{contains_byte};
ghost use Rattle.mq_acl.specs.Views.{owner_view, row_view, row_views};
ghost use Rattle.mq_witness.specs.Clients.{can_be_id};
ghost use Rattle.mq_witness.specs.Literals.{is_literal_in};
ghost use Rattle.mq_witness.specs.Rows.{is_name_of, row_names, rows_name};
ghost use Rattle.mq_through.specs.Clients.{ask_client, can_be_tried, is_named};
ghost use Rattle.mq_through.specs.Named.{asks_client, plan_names, right_names, rule_names};

use crate::check::is_mark;
use crate::comparison::Comparison;
use mq_acl::{Owner, Row};
use mq_plan::{Plan, PlanRule};
use mq_rename::Rename;
use mq_topic::LevelText;

pub(crate) fn is_wildcard(level: &str) -> bool
    ensures { result ≡ is_wildcard level.now }
{
    level == "+" || level == "#"
}

fn has_byte(text: &str, byte: u8) -> bool
    ensures { result ≡ contains_byte byte text.now }
{
    text.bytes().any(|other| other == byte)
}

fn can_be_id(text: &str) -> bool
    ensures { result ≡ can_be_id text.now }
{
    !text.is_empty() && text.len() <= 65_535 && !has_byte(text, 0)
}

/// Whether the text is no mark, and can be a client id.
pub(crate) fn can_be_tried(text: &str) -> bool
    ensures { result ≡ can_be_tried text.now }
{
    !is_mark(text) && can_be_id(text)
}

// Whether the text is a level of the filter's text, and no wildcard.
fn is_literal_in(text: &str, filter: &str) -> bool
    ensures { result ≡ is_literal_in text.now (levels filter.now) }
{
    filter
        .split('/')
        .any(|level| text == level && !is_wildcard(level))
}

fn is_name_of(text: &str, owner: &Owner) -> bool
    ensures { result ≡ is_name_of text.now (owner_view owner.now) }
{
    match owner {
        Owner::Named(name) => text == name.as_str(),
        _ => false,
    }
}

fn row_names(text: &str, row: &Row) -> bool
    ensures { result ≡ row_names text.now (row_view row.now) }
{
    is_literal_in(text, row.filter.text()) || is_name_of(text, &row.owner)
}

fn has_name(text: &str, rows: &[Row]) -> bool
    ensures { result ≡ list_any (λ row. row_names text.now (row_view row)) rows.now }
{
    rows.iter().any(|row| row_names(text, row))
}

fn rows_name(text: &str, rows: &[Row]) -> bool
    ensures { result ≡ rows_name text.now (row_views rows.now) }
{
    has_name(text, rows)
}

fn right_names(text: &str, rename: Option<&Rename>) -> bool
    ensures { result ≡ right_names text.now (option_copied rename.entry) }
{
    match rename {
        Some(rename) => is_literal_in(text, rename.right().text()),
        None => false,
    }
}

fn rule_names(text: &str, rule: &PlanRule) -> bool
    ensures { result ≡ rule_names text.now rule.now }
{
    is_literal_in(text, rule.left().text()) || right_names(text, rule.rename())
}

fn plan_names(text: &str, plan: &Plan) -> bool
    ensures { result ≡ plan_names text.now plan.now }
{
    plan.rules().iter().any(|rule| rule_names(text, rule))
}

/// Whether a list or the plan names the text.
pub(crate) fn is_named(comparison: &Comparison, text: &str) -> bool
    ensures { result ≡ is_named comparison.now text.now }
{
    if rows_name(text, comparison.old) {
        return true;
    }
    if rows_name(text, comparison.new) {
        return true;
    }
    plan_names(text, comparison.plan)
}

fn has_client_level(filter: &str) -> bool
    ensures { result ≡ list_any (bytes_eq (codes "%c")) (levels filter.now) }
{
    filter.split('/').any(|level| "%c" == level)
}

fn asks_client(row: &Row) -> bool
    ensures { result ≡ asks_client (row_view row.now) }
{
    match row.owner {
        Owner::Everyone => has_client_level(row.filter.text()),
        _ => false,
    }
}

fn has_asking(rows: &[Row]) -> bool
    ensures { result ≡ list_any (λ row. asks_client (row_view row)) rows.now }
{
    rows.iter().any(|row| asks_client(row))
}

fn rows_ask(rows: &[Row]) -> bool
    ensures { result ≡ list_any asks_client (row_views rows.now) }
{
    has_asking(rows)
}

/// Whether a `pattern` row has the client id as a level.
pub(crate) fn ask_client(comparison: &Comparison) -> bool
    ensures { result ≡ ask_client comparison.now }
{
    rows_ask(comparison.old) || rows_ask(comparison.new)
}
