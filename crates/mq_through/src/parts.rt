//! The regions of a plan.
ghost use Rattle.std.specs.Prelude.{◌≡◌, ◌++◌, ◌∷◌, ◌&&◌, ℕ, List, [], IfOk, IfNone, IfSome, OnOk, map, not};
ghost use Rattle.std.specs.Prelude.{true, false, Some, None};
ghost use Rattle.std.specs.List.{list_any};
ghost use Rattle.mq_rename.specs.Lists.{texts};
ghost use Rattle.mq_plan.specs.Names.{left_of, name_by, new_name, takes};
ghost use Rattle.mq_plan.specs.declared.rule.PlanRule.{PlanRule};
ghost use Rattle.mq_regions.specs.Regions.{in_kind, is_taken};
ghost use Rattle.mq_through.specs.Checks.{unfit_line};
ghost use Rattle.mq_through.specs.Parts.{AreParts, IsKindOf, IsOfPlan, Widens, in_parts};
ghost use Rattle.mq_through.specs.Parts.{AreSpares, rights_of};

use crate::spares::Spares;
use mq_plan::{Act, Plan, PlanRule};
use mq_regions::{Region, RegionKind};
use mq_topic::TopicFilter;
use std::alloc::{AllocError, Global};

// What becomes of the topics that the rule is about, if they get new names.
fn kind_of(rule: &PlanRule) -> Option<RegionKind<'_>>
    ensures none { IfNone result ((topic : List ℕ) → name_by rule.entry.now topic ≡ None) }
    ensures some { IfSome result (IsKindOf rule.entry.now) }
{
    match &rule.act {
        Act::Renamed(rename) => Some(RegionKind::Renamed(rename)),
        Act::Kept(filter) => Some(RegionKind::Kept(filter)),
        Act::Gone(_) => None,
    }
}

fn lefts<'p>(alloc: Global, rules: &'p [PlanRule]) -> Result<Vec<&'p TopicFilter>, AllocError>
    ensures { IfOk result (λ all. texts all.items ≡ map left_of rules.entry.now) }
{
    rules.iter().map(|rule| rule.left()).collect(alloc)
}

// Adds the right sides of the rules that rename.
fn add_rights<'p>(taken: &mut Vec<&'p TopicFilter>, rules: &'p [PlanRule]) -> Result<(), AllocError>
    ensures { OnOk result (texts taken.new.items
        ≡ texts taken.old.items ++ rights_of rules.entry.now) }
{
    for rule in rules {
        let Some(rename) = rule.rename() else {
            continue;
        };
        taken.push(rename.right())?;
    }
    Ok(())
}

// A region from which one filter takes topics.
fn without<'p>(
    alloc: Global,
    filter: &'p TopicFilter,
    kind: RegionKind<'p>,
) -> Result<Region<'p>, AllocError>
    ensures taken { IfOk result (λ region.
        texts region.taken.items ≡ filter.entry.now ∷ []) }
    ensures kind { IfOk result (λ region. region.kind ≡ kind.entry) }
{
    let taken = vec![in alloc; filter]?;
    Ok(Region { taken, kind })
}

// Adds the region of the topics of the kind that aren't taken; where none are, two regions that have them all.
fn add_part<'p>(
    alloc: Global,
    parts: &mut Vec<Region<'p>>,
    taken: Vec<&'p TopicFilter>,
    kind: RegionKind<'p>,
    spares: &'p Spares,
) -> Result<(), AllocError>
    requires { AreSpares spares.now }
    ensures widens { OnOk result ((plan : List PlanRule)
        → IsOfPlan plan (texts taken.entry.items) kind.entry
        → Widens plan parts.old.items parts.new.items) }
    ensures has { OnOk result ((topic : List ℕ)
        → (not (is_taken (texts taken.entry.items) topic) && in_kind kind.entry topic) ≡ true
        → in_parts parts.new.items topic ≡ true) }
{
    if taken.is_empty() {
        parts.push(without(alloc, &spares.dollar, kind)?)?;
        parts.push(without(alloc, &spares.plain, kind)?)?;
        return Ok(());
    }
    parts.push(Region { taken, kind })?;
    Ok(())
}

// Adds the topics that the rule is about, but for those that the rules before it take.
fn add_rule<'p>(
    alloc: Global,
    parts: &mut Vec<Region<'p>>,
    before: &'p [PlanRule],
    rule: &'p PlanRule,
    spares: &'p Spares,
) -> Result<(), AllocError>
    requires { AreSpares spares.now }
    ensures widens { OnOk result ((plan after : List PlanRule) → unfit_line plan ≡ None
        → plan ≡ before.entry.now ++ (rule.entry.now ∷ after)
        → Widens plan parts.old.items parts.new.items) }
    ensures has { OnOk result ((topic name : List ℕ)
        → list_any (takes topic) before.entry.now ≡ false → takes topic rule.entry.now ≡ true
        → name_by rule.entry.now topic ≡ Some name
        → in_parts parts.new.items topic ≡ true) }
{
    let Some(kind) = kind_of(rule) else {
        return Ok(());
    };
    let taken = lefts(alloc, before)?;
    add_part(alloc, parts, taken, kind, spares)?;
    Ok(())
}

// Adds the topics that no rule is about and that the plan doesn't take for its own.
fn add_rest<'p>(
    alloc: Global,
    parts: &mut Vec<Region<'p>>,
    rules: &'p [PlanRule],
    spares: &'p Spares,
) -> Result<(), AllocError>
    requires { AreSpares spares.now }
    ensures widens { OnOk result (unfit_line rules.entry.now ≡ None
        → Widens rules.entry.now parts.old.items parts.new.items) }
    ensures has { OnOk result ((topic name : List ℕ)
        → list_any (takes topic) rules.entry.now ≡ false
        → new_name rules.entry.now topic ≡ Some name
        → in_parts parts.new.items topic ≡ true) }
{
    let mut taken = lefts(alloc, rules)?;
    add_rights(&mut taken, rules)?;
    add_part(alloc, parts, taken, RegionKind::Same, spares)?;
    Ok(())
}

/// The regions of the plan: each topic that has a new name is in one of them.
pub(crate) fn parts<'p>(
    alloc: Global,
    plan: &'p Plan,
    spares: &'p Spares,
) -> Result<Vec<Region<'p>>, AllocError>
    requires fit { unfit_line plan.now ≡ None }
    requires spares { AreSpares spares.now }
    ensures { IfOk result (λ all. AreParts plan.entry.now all.items) }
{
    let rules = plan.rules();
    let mut parts = Vec::new(alloc);
    for place in 0..rules.len() {
        add_rule(alloc, &mut parts, &rules[..place], &rules[place], spares)?;
    }
    add_rest(alloc, &mut parts, rules, spares)?;
    Ok(parts)
}
