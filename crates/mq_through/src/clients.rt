//! The client ids that are tried.
ghost use Rattle.std.specs.Prelude.{◌≡◌, ◌||◌, ◌&&◌, not, ℕ, List, IfOk, OnOk, false};
ghost use Rattle.std.specs.List.{list_any};
ghost use Rattle.std.specs.Option.{option_copied};
ghost use Rattle.std.specs.Str.{bytes_eq};
ghost use Rattle.mq_topic.specs.Levels.{levels};
ghost use Rattle.mq_topic.specs.Matching.{is_wildcard};
ghost use Rattle.mq_acl.specs.Views.{owner_view, row_view, row_views};
ghost use Rattle.mq_rename.specs.Lists.{has_long, is_long};
ghost use Rattle.mq_regions.specs.Limits.{has_long_row, is_long_row, is_long_who};
ghost use Rattle.mq_witness.specs.Literals.{is_among};
ghost use Rattle.mq_witness.specs.Rows.{is_name_of};
ghost use Rattle.mq_through.specs.Checks.{AreFit, is_unfit, is_unfit_right};
ghost use Rattle.mq_through.specs.Clients.{AreFresh, StandForAll, can_be_tried, has_tried};
ghost use Rattle.mq_through.specs.Clients.{right_tries, row_tries, rule_tries};
ghost use Rattle.mq_through.specs.Made.{IsComparison};
ghost use Rattle.mq_through.specs.Tried.{AreClients};

use crate::comparison::Comparison;
use crate::fresh::Fresh;
use crate::lists::has_user;
use crate::named::{can_be_tried, is_wildcard};
use mq_acl::{Owner, Row};
use mq_plan::{Plan, PlanRule};
use mq_rename::Rename;
use mq_topic::{LevelText, split_first};
use std::alloc::{AllocError, Global};

// Adds the text, if it can be a client id that isn't there yet.
fn add_text<'a>(clients: &mut Vec<&'a str>, text: &'a str) -> Result<(), AllocError>
    requires { is_long text.now ≡ false }
    ensures clients { OnOk result (AreClients clients.old.items → AreClients clients.new.items) }
    ensures among { OnOk result ((l : List ℕ) → is_among l clients.new.items
        ≡ (is_among l clients.old.items || (bytes_eq l text.entry.now
        && can_be_tried text.entry.now))) }
{
    if !can_be_tried(text) {
        return Ok(());
    }
    if has_user(clients, text) {
        return Ok(());
    }
    clients.push(text)?;
    Ok(())
}

// Adds a level, if it is no wildcard.
fn add_level<'a>(clients: &mut Vec<&'a str>, level: &'a str) -> Result<(), AllocError>
    requires { is_long level.now ≡ false }
    ensures clients { OnOk result (AreClients clients.old.items → AreClients clients.new.items) }
    ensures among { OnOk result ((l : List ℕ) → is_among l clients.new.items
        ≡ (is_among l clients.old.items || (bytes_eq l level.entry.now
        && (not (is_wildcard level.entry.now) && can_be_tried level.entry.now)))) }
{
    if is_wildcard(level) {
        return Ok(());
    }
    add_text(clients, level)
}

// Adds the levels of the filter's text.
fn add_levels<'a>(clients: &mut Vec<&'a str>, filter: &'a str) -> Result<(), AllocError>
    requires { has_long (levels filter.now) ≡ false }
    ensures clients { OnOk result (AreClients clients.old.items → AreClients clients.new.items) }
    ensures among { OnOk result ((l : List ℕ) → is_among l clients.new.items
        ≡ (is_among l clients.old.items || has_tried l (levels filter.entry.now))) }
{
    let mut rest = Some(filter);
    while let Some(text) = rest {
        let (level, after) = split_first(text);
        add_level(clients, level)?;
        rest = after;
    }
    Ok(())
}

// Adds the user name of a row, if it has one.
fn add_owner<'a>(clients: &mut Vec<&'a str>, owner: &'a Owner) -> Result<(), AllocError>
    requires { is_long_who (owner_view owner.now) ≡ false }
    ensures clients { OnOk result (AreClients clients.old.items → AreClients clients.new.items) }
    ensures among { OnOk result ((l : List ℕ) → is_among l clients.new.items
        ≡ (is_among l clients.old.items || (is_name_of l (owner_view owner.entry.now)
        && can_be_tried l))) }
{
    let Owner::Named(name) = owner else {
        return Ok(());
    };
    add_text(clients, name.as_str())
}

fn add_row<'a>(clients: &mut Vec<&'a str>, row: &'a Row) -> Result<(), AllocError>
    requires { is_long_row (row_view row.now) ≡ false }
    ensures clients { OnOk result (AreClients clients.old.items → AreClients clients.new.items) }
    ensures among { OnOk result ((l : List ℕ) → is_among l clients.new.items
        ≡ (is_among l clients.old.items || row_tries l (row_view row.entry.now))) }
{
    add_levels(clients, row.filter.text())?;
    add_owner(clients, &row.owner)?;
    Ok(())
}

// Adds the levels of the rows, and their user names.
fn add_rows<'a>(clients: &mut Vec<&'a str>, rows: &'a [Row]) -> Result<(), AllocError>
    requires { has_long_row (row_views rows.now) ≡ false }
    ensures clients { OnOk result (AreClients clients.old.items → AreClients clients.new.items) }
    ensures among { OnOk result ((l : List ℕ) → is_among l clients.new.items
        ≡ (is_among l clients.old.items || list_any (row_tries l) (row_views rows.entry.now))) }
{
    for row in rows {
        add_row(clients, row)?;
    }
    Ok(())
}

fn add_right<'a>(clients: &mut Vec<&'a str>, rename: Option<&'a Rename>) -> Result<(), AllocError>
    requires { is_unfit_right (option_copied rename) ≡ false }
    ensures clients { OnOk result (AreClients clients.old.items → AreClients clients.new.items) }
    ensures among { OnOk result ((l : List ℕ) → is_among l clients.new.items
        ≡ (is_among l clients.old.items || right_tries l (option_copied rename.entry))) }
{
    let Some(rename) = rename else {
        return Ok(());
    };
    add_levels(clients, rename.right().text())
}

fn add_rule<'a>(clients: &mut Vec<&'a str>, rule: &'a PlanRule) -> Result<(), AllocError>
    requires { is_unfit rule.now ≡ false }
    ensures clients { OnOk result (AreClients clients.old.items → AreClients clients.new.items) }
    ensures among { OnOk result ((l : List ℕ) → is_among l clients.new.items
        ≡ (is_among l clients.old.items || rule_tries l rule.entry.now)) }
{
    add_levels(clients, rule.left().text())?;
    add_right(clients, rule.rename())?;
    Ok(())
}

// Adds the levels of the sides.
fn add_rules<'a>(clients: &mut Vec<&'a str>, rules: &'a [PlanRule]) -> Result<(), AllocError>
    requires { list_any is_unfit rules.now ≡ false }
    ensures clients { OnOk result (AreClients clients.old.items → AreClients clients.new.items) }
    ensures among { OnOk result ((l : List ℕ) → is_among l clients.new.items
        ≡ (is_among l clients.old.items || list_any (rule_tries l) rules.entry.now)) }
{
    for rule in rules {
        add_rule(clients, rule)?;
    }
    Ok(())
}

// The texts that a list or the plan names, if the client id is asked about.
fn add_named<'a>(
    clients: &mut Vec<&'a str>,
    plan: &'a Plan,
    old: &'a [Row],
    new: &'a [Row],
) -> Result<(), AllocError>
    requires { AreFit plan.now old.now new.now }
    ensures clients { OnOk result (AreClients clients.old.items → AreClients clients.new.items) }
    ensures among { OnOk result ((l : List ℕ) → is_among l clients.new.items
        ≡ (is_among l clients.old.items || list_any (row_tries l) (row_views old.entry.now)
        || list_any (row_tries l) (row_views new.entry.now)
        || list_any (rule_tries l) plan.entry.now)) }
{
    add_rows(clients, old)?;
    add_rows(clients, new)?;
    add_rules(clients, plan.rules())?;
    Ok(())
}

/// The client ids that stand for all: `plan`, `old` and `new` are those of the comparison.
pub(crate) fn clients<'a>(
    alloc: Global,
    comparison: &Comparison,
    fresh: &'a Fresh,
    plan: &'a Plan,
    old: &'a [Row],
    new: &'a [Row],
) -> Result<Vec<&'a str>, AllocError>
    requires comparison { IsComparison comparison.now }
    requires fresh { AreFresh comparison.now fresh.now }
    requires plan { plan.now ≡ comparison.now.plan.now }
    requires old { old.now ≡ comparison.now.old.now }
    requires new { new.now ≡ comparison.now.new.now }
    ensures clients { IfOk result (λ all. AreClients all.items) }
    ensures stand { IfOk result (λ all. StandForAll comparison.now.plan.now comparison.now.old.now
        comparison.now.new.now all.items) }
{
    match fresh {
        Fresh::Any(any) => {
            let clients = vec![in alloc; any.as_str()]?;
            Ok(clients)
        }
        Fresh::Each(plain, dollar) => {
            let mut clients = vec![in alloc; plain.as_str(), dollar.as_str()]?;
            add_named(&mut clients, plan, old, new)?;
            Ok(clients)
        }
    }
}
