//! The rules of a plan's text.
ghost use Rattle.std.specs.Prelude.{◌≡◌, ◌++◌, IfOk, OnOk, None, []};
ghost use Rattle.std.specs.Option.{option_to_list};
ghost use Rattle.mq_acl.specs.Lines.{lines};
ghost use Rattle.mq_plan.specs.Pairs.{rename_fault, renaming};
ghost use Rattle.mq_plan.specs.Rules.{entry_act, entry_fault, fault_at, faults_in, rule_at, rules_in};
ghost use Rattle.mq_plan.specs.Views.{entry_view};

use crate::fault::Side;
use crate::line::{Entry, entry_of, split_line};
use crate::places::places;
use crate::rule::{Act, PlanRule};
use crate::side::plain_filter;
use mq_rename::Rename;
use std::alloc::{AllocError, Global};

// How topics are renamed by sides without a fault.
fn rename_of(alloc: Global, left: &str, right: &str) -> Result<Rename, AllocError>
    requires { rename_fault left.now right.now ≡ None }
    ensures { IfOk result (λ rename. rename ≡ renaming left.now right.now) }
{
    let places = places(alloc, left, right)?;
    let left = plain_filter(alloc, Side::Left, left)?;
    let right = plain_filter(alloc, Side::Right, right)?;
    Ok(Rename::new(left, right, places).unwrap())
}

// What becomes of topics by a line without a fault, if it says so.
fn entry_act(alloc: Global, entry: Entry) -> Result<Option<Act>, AllocError>
    requires { entry_fault (entry_view entry) ≡ None }
    ensures { IfOk result (λ act. act ≡ entry_act (entry_view entry.entry)) }
{
    Ok(match entry {
        Entry::Renamed(left, right) => Some(Act::Renamed(rename_of(alloc, left, right)?)),
        Entry::Kept(left) => Some(Act::Kept(plain_filter(alloc, Side::Left, left)?)),
        Entry::Gone(left) => Some(Act::Gone(plain_filter(alloc, Side::Left, left)?)),
        _ => None,
    })
}

// Adds the line's rule, if it says one.
fn add_rule(
    alloc: Global,
    rules: &mut Vec<PlanRule>,
    line: u64,
    text: &str,
) -> Result<(), AllocError>
    requires { fault_at (line, text.now) ≡ None }
    ensures { OnOk result (rules.new.items
        ≡ rules.old.items ++ option_to_list (rule_at (line, text.now))) }
{
    if let Some(act) = entry_act(alloc, entry_of(text))? {
        rules.push(PlanRule { line, act })?;
    }
    Ok(())
}

/// The rules of a text without a fault, in the order of their lines.
pub(crate) fn rules_in(alloc: Global, text: &str) -> Result<Vec<PlanRule>, AllocError>
    requires { faults_in (lines text.now) ≡ [] }
    ensures { IfOk result (λ rules. rules.items ≡ rules_in (lines text.now)) }
{
    let mut rules = Vec::new(alloc);
    let mut number = 0u64;
    let mut rest = Some(text);
    while let Some(text) = rest {
        let (line, after) = split_line(text);
        number += 1;
        add_rule(alloc, &mut rules, number, line)?;
        rest = after;
    }
    Ok(rules)
}
