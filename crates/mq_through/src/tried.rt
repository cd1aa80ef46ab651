//! What changes for the client ids that are tried.
ghost use Rattle.std.specs.Prelude.{◌≡◌, ◌+◌, ℕ, List, All, IfOk, IfErr, OnOk, false, length, true};
ghost use Rattle.std.specs.Option.{option_copied};
ghost use Rattle.mq_acl.specs.Views.{row_views};
ghost use Rattle.mq_acl.specs.declared.row.Row.{Row};
ghost use Rattle.mq_acl.specs.declared.rules.Rules.TheVariants as rules;
ghost use Rattle.mq_differences.specs.Differences.{IsReal, ShowsAll};
ghost use Rattle.mq_differences.specs.Faults.{IsComparisonFault};
ghost use Rattle.mq_differences.specs.declared.class.Class.{Class};
ghost use Rattle.mq_regions.specs.Limits.{has_long_row};
ghost use Rattle.mq_through.specs.Faults.{IsThroughFault};
ghost use Rattle.mq_through.specs.Made.{HasRule, IsClient, IsComparison, IsNameFault, IsRenamed};
ghost use Rattle.mq_through.specs.Made.{IsCompareStop, IsMade, IsStop, class_in};
ghost use Rattle.mq_through.specs.Needed.{AreNeeded};
ghost use Rattle.mq_through.specs.Parts.{AreParts, IsPart};
ghost use Rattle.mq_through.specs.Through as through;
ghost use Rattle.mq_through.specs.Tried.{AreClients, Grows, IsLastMade, IsTried, ShowsChangesIn};
ghost use Rattle.mq_through.specs.Tried.{ShowsTried, ShowsTriedIn};

use crate::comparison::Comparison;
use crate::fault::ThroughFault;
use crate::like::add;
use crate::lists::has_user;
use crate::made::Made;
use crate::needed::Needed;
use crate::placeholders::unnamed_texts;
use crate::renamed::Renamed;
use mq_acl::{Row, Rules};
use mq_differences::{Class, ComparisonFault, Difference, compare};
use mq_regions::Region;
use std::alloc::{AllocError, Global};
use std::mem;

fn class_of_user(users: &[&str], name: String) -> Class
    ensures { result ≡ class_in users.now (Class.User name) }
{
    if has_user(users, name.as_str()) {
        Class::User(name)
    } else {
        Class::Others(name)
    }
}

// The class in the lists that are compared: a user name that only the made rows are for is one of others.
fn class_in(users: &[&str], class: Class) -> Class
    ensures { result ≡ class_in users.now class }
{
    match class {
        Class::User(name) => class_of_user(users, name),
        other => other,
    }
}

// What is said where lists without long rows can't be compared.
fn stop(fault: ComparisonFault) -> ThroughFault
    requires { IsCompareStop fault }
    ensures { (old new : List Row) (steps : ℕ) → IsComparisonFault rules.Own old new steps fault
        → IsStop (length old + length new) steps result }
{
    match fault {
        ComparisonFault::Memory => ThroughFault::Memory,
        ComparisonFault::GaveUp(_, _, _) => ThroughFault::GaveUp,
        ComparisonFault::OldLine(_) => unreachable!(),
        ComparisonFault::NewLine(_) => unreachable!(),
        ComparisonFault::OldMark(_) => unreachable!(),
        ComparisonFault::NewMark(_) => unreachable!(),
    }
}

// Where the made lists differ; they have no long rows.
fn differences(
    alloc: Global,
    old: &[Row],
    new: &[Row],
    steps: u64,
) -> Result<Vec<Difference>, ThroughFault>
    requires old { has_long_row (row_views old.now) ≡ false }
    requires new { has_long_row (row_views new.now) ≡ false }
    ensures every { IfOk result (λ all. ShowsAll rules.Own old.now new.now all.items) }
    ensures real { IfOk result (λ all. All (IsReal rules.Own old.now new.now) all.items) }
    ensures fault { IfErr result (IsStop (length old.now + length new.now) steps) }
{
    match compare(alloc, Rules::Own, old, new, steps) {
        Ok(all) => Ok(all),
        Err(fault) => Err(stop(fault)),
    }
}

// The difference, of this client, with the new name of its topic.
fn renamed(
    alloc: Global,
    comparison: &Comparison,
    client: &str,
    mut difference: Difference,
) -> Result<Renamed, ThroughFault>
    requires { HasRule comparison.now.plan.now difference.topic }
    ensures renamed { IfOk result (IsRenamed comparison.now.plan.now comparison.now.old.now
        comparison.now.new.now client.now comparison.now.users.items difference) }
    ensures fault { IfErr result (IsNameFault comparison.now.plan.now difference.topic) }
{
    let plan = comparison.plan;
    let rule = plan.rule_line(&difference.topic);
    let Some(new_topic) = plan.new_name(alloc, &difference.topic)? else {
        return match rule {
            Some(line) => Err(ThroughFault::LongName(line)),
            None => unreachable!(),
        };
    };
    let user = difference.class.user();
    let placeholders = unnamed_texts(alloc, comparison, client, user, &difference.topic)?;
    difference.placeholders = placeholders;
    difference.client = String::from_str(alloc, client)?;
    let class = mem::replace(&mut difference.class, Class::Anonymous);
    difference.class = class_in(&comparison.users, class);
    Ok(Renamed {
        difference,
        new_topic,
        rule,
    })
}

// Adds what changes for this client in the region, by these lists.
fn add_client(
    alloc: Global,
    found: &mut Vec<Renamed>,
    comparison: &Comparison,
    region: &Region,
    client: &str,
    made: &Made,
) -> Result<(), ThroughFault>
    requires comparison { IsComparison comparison.now }
    requires region { IsPart comparison.now.plan.now region.now }
    requires client { IsClient client.now }
    requires made { IsMade comparison.now region.now client.now made.now }
    ensures grows { OnOk result (Grows comparison.now.plan.now comparison.now.old.now
        comparison.now.new.now found.old.items found.new.items) }
    ensures shown { OnOk result (ShowsChangesIn comparison.now.plan.now comparison.now.old.now
        comparison.now.new.now region.now client.now found.new.items) }
    ensures fault { IfErr result (IsThroughFault comparison.now.plan.now comparison.now.old.now
        comparison.now.new.now comparison.now.steps) }
{
    for difference in differences(alloc, &made.old, &made.new, comparison.steps)? {
        let renamed = renamed(alloc, comparison, client, difference)?;
        add(found, renamed)?;
    }
    Ok(())
}

// Whether the lists that were made last, for another client, decide in the region as these do.
fn is_last(
    alloc: Global,
    region: &Region,
    last: Option<&Made>,
    made: &Made,
) -> Result<bool, AllocError>
    ensures { IfOk result (λ is. is ≡ true
        → IsLastMade region.now (option_copied last.entry) made.now) }
{
    let Some(last) = last else {
        return Ok(false);
    };
    let alike = last.is_alike(alloc, region, made)?;
    Ok(alike)
}

// Adds what changes for the next client in the region. Where the lists that are made for it decide as
// the last ones do, that was added.
fn add_next(
    alloc: Global,
    found: &mut Vec<Renamed>,
    comparison: &Comparison,
    region: &Region,
    needed: &Needed,
    client: &str,
    last: Option<&Made>,
) -> Result<Made, ThroughFault>
    requires comparison { IsComparison comparison.now }
    requires region { IsPart comparison.now.plan.now region.now }
    requires needed { AreNeeded comparison.now region.now needed.now }
    requires client { IsClient client.now }
    requires last { IsTried comparison.now region.now (option_copied last) found.old.items }
    ensures grows { OnOk result (Grows comparison.now.plan.now comparison.now.old.now
        comparison.now.new.now found.old.items found.new.items) }
    ensures shown { OnOk result (ShowsChangesIn comparison.now.plan.now comparison.now.old.now
        comparison.now.new.now region.now client.now found.new.items) }
    ensures made { IfOk result (IsMade comparison.now region.now client.now) }
    ensures fault { IfErr result (IsThroughFault comparison.now.plan.now comparison.now.old.now
        comparison.now.new.now comparison.now.steps) }
{
    let made = Made::of(alloc, comparison, region, needed, client)?;
    if is_last(alloc, region, last, &made)? {
        return Ok(made);
    }
    add_client(alloc, found, comparison, region, client, &made)?;
    Ok(made)
}

// Adds what changes for these clients in the region.
fn add_region(
    alloc: Global,
    found: &mut Vec<Renamed>,
    comparison: &Comparison,
    region: &Region,
    clients: &[&str],
) -> Result<(), ThroughFault>
    requires comparison { IsComparison comparison.now }
    requires region { IsPart comparison.now.plan.now region.now }
    requires clients { AreClients clients.now }
    ensures grows { OnOk result (Grows comparison.now.plan.now comparison.now.old.now
        comparison.now.new.now found.old.items found.new.items) }
    ensures shown { OnOk result (ShowsTriedIn comparison.now.plan.now comparison.now.old.now
        comparison.now.new.now region.now clients.now found.new.items) }
    ensures fault { IfErr result (IsThroughFault comparison.now.plan.now comparison.now.old.now
        comparison.now.new.now comparison.now.steps) }
{
    let needed = Needed::of(alloc, comparison, region)?;
    let mut last: Option<Made> = None;
    for client in clients {
        let made = add_next(
            alloc,
            found,
            comparison,
            region,
            &needed,
            client,
            last.as_ref(),
        )?;
        last = Some(made);
    }
    Ok(())
}

/// What changes for these clients.
pub(crate) fn compare_tried(
    alloc: Global,
    comparison: &Comparison,
    regions: &[Region],
    clients: &[&str],
) -> Result<Vec<Renamed>, ThroughFault>
    requires comparison { IsComparison comparison.now }
    requires regions { AreParts comparison.now.plan.now regions.now }
    requires clients { AreClients clients.now }
    ensures real { IfOk result (λ all. All (through.IsReal comparison.now.plan.now
        comparison.now.old.now comparison.now.new.now) all.items) }
    ensures once { IfOk result (λ all. through.AreApart all.items) }
    ensures shown { IfOk result (λ all. ShowsTried comparison.now.plan.now comparison.now.old.now
        comparison.now.new.now clients.now all.items) }
    ensures fault { IfErr result (IsThroughFault comparison.now.plan.now comparison.now.old.now
        comparison.now.new.now comparison.now.steps) }
{
    let mut found = Vec::new(alloc);
    for region in regions {
        add_region(alloc, &mut found, comparison, region, clients)?;
    }
    Ok(found)
}
