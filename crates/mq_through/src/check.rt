//! What lists and plans have to keep to.
ghost use Rattle.std.specs.Prelude.{◌≡◌, ℕ, IfNone, IfSome};
ghost use Rattle.std.specs.Option.{option_copied};
ghost use Rattle.mq_topic.specs.Levels.{levels};
ghost use Rattle.mq_acl.specs.Views.{owner_view};
ghost use Rattle.mq_rename.specs.Lists.{has_long};
ghost use Rattle.mq_regions.specs.Regions.{has_mark, is_mark};
ghost use Rattle.mq_through.specs.Checks.{AreFit, has_topic_mark, is_unfit};
ghost use Rattle.mq_through.specs.Checks.{is_unfit_right, is_unfit_side, marked_line, unfit_line};
ghost use Rattle.mq_through.specs.Faults.{IsThroughFault};

use crate::fault::ThroughFault;
use mq_acl::{Owner, Row};
use mq_plan::{Plan, PlanRule};
use mq_rename::Rename;
use mq_topic::{LevelText, TopicFilter};
use mq_witness::long_line;

pub(crate) fn is_mark(text: &str) -> bool
    ensures { result ≡ is_mark text.now }
{
    text == "%c" || text == "%u"
}

pub(crate) fn has_mark(text: &str) -> bool
    ensures { result ≡ has_mark (levels text.now) }
{
    text.split('/').any(|level| is_mark(level))
}

fn has_long(text: &str) -> bool
    ensures { result ≡ has_long (levels text.now) }
{
    text.split('/').any(|level| level.len() > 300)
}

fn has_topic_mark(owner: &Owner, filter: &TopicFilter) -> bool
    ensures { result ≡ has_topic_mark (owner_view owner.now) filter.now }
{
    match owner {
        Owner::Anonymous => has_mark(filter.text()),
        Owner::Named(name) => has_mark(filter.text()) || is_mark(name.as_str()),
        Owner::Everyone => false,
    }
}

// The line of the first row of a `topic` line with a mark.
fn marked_line(rows: &[Row]) -> Option<u64>
    ensures { result ≡ marked_line rows.now }
{
    let row = rows
        .iter()
        .find(|row| has_topic_mark(&row.owner, &row.filter))?;
    Some(row.line)
}

fn is_unfit_side(filter: &TopicFilter) -> bool
    ensures { result ≡ is_unfit_side filter.now }
{
    has_long(filter.text()) || has_mark(filter.text())
}

fn is_unfit_right(rename: Option<&Rename>) -> bool
    ensures { result ≡ is_unfit_right (option_copied rename.entry) }
{
    match rename {
        Some(rename) => is_unfit_side(rename.right()),
        None => false,
    }
}

fn is_unfit(rule: &PlanRule) -> bool
    ensures { result ≡ is_unfit rule.now }
{
    is_unfit_side(rule.left()) || is_unfit_right(rule.rename())
}

// The line of the first rule with a side that isn't fit.
fn unfit_line(plan: &Plan) -> Option<u64>
    ensures { result ≡ unfit_line plan.now }
{
    let rule = plan.rules().iter().find(|rule| is_unfit(rule))?;
    Some(rule.line)
}

/// What keeps the lists and the plan from being compared, if anything does.
pub(crate) fn first_fault(plan: &Plan, old: &[Row], new: &[Row]) -> Option<ThroughFault>
    ensures none { IfNone result (AreFit plan.now old.now new.now) }
    ensures some { IfSome result (λ fault. (steps : ℕ)
        → IsThroughFault plan.now old.now new.now steps fault) }
{
    if let Some(line) = long_line(old) {
        return Some(ThroughFault::OldLine(line));
    }
    if let Some(line) = long_line(new) {
        return Some(ThroughFault::NewLine(line));
    }
    if let Some(line) = marked_line(old) {
        return Some(ThroughFault::OldMark(line));
    }
    if let Some(line) = marked_line(new) {
        return Some(ThroughFault::NewMark(line));
    }
    if let Some(line) = unfit_line(plan) {
        return Some(ThroughFault::Rule(line));
    }
    None
}
