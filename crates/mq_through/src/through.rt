//! What changes through a plan.
ghost use Rattle.std.specs.Prelude.{◌≡◌, [], All, IfOk, IfErr};
ghost use Rattle.mq_through.specs.Checks.{AreFit};
ghost use Rattle.mq_through.specs.Faults.{IsThroughFault};
ghost use Rattle.mq_through.specs.Made.{IsComparison};
ghost use Rattle.mq_through.specs.Through.{AreApart, IsQuestion, IsReal, Question, ShowsAll};
ghost use Rattle.mq_through.specs.Through.{ShowsOthers, new_allows, old_allows};

use crate::check::first_fault;
use crate::clients::clients;
use crate::comparison::Comparison;
use crate::fault::ThroughFault;
use crate::fresh::Fresh;
use crate::lists::add_users;
use crate::parts::parts;
use crate::renamed::Renamed;
use crate::spares::Spares;
use crate::tried::compare_tried;
use mq_acl::Row;
use mq_plan::Plan;
use std::alloc::{AllocError, Global};

// The lists and the plan, with the user names that the lists have rows for.
fn comparison<'a>(
    alloc: Global,
    plan: &'a Plan,
    old: &'a [Row],
    new: &'a [Row],
    steps: u64,
) -> Result<Comparison<'a>, AllocError>
    requires { AreFit plan.now old.now new.now }
    ensures is { IfOk result IsComparison }
    ensures plan { IfOk result (λ c. c.plan.now ≡ plan.entry.now) }
    ensures old { IfOk result (λ c. c.old.now ≡ old.entry.now) }
    ensures new { IfOk result (λ c. c.new.now ≡ new.entry.now) }
    ensures steps { IfOk result (λ c. c.steps ≡ steps) }
{
    let mut users = Vec::new(alloc);
    add_users(&mut users, old)?;
    add_users(&mut users, new)?;
    Ok(Comparison {
        plan,
        old,
        new,
        users,
        steps,
    })
}

// What changes, of lists and a plan without a fault.
fn changes(alloc: Global, comparison: &Comparison) -> Result<Vec<Renamed>, ThroughFault>
    requires { IsComparison comparison.now }
    ensures real { IfOk result (λ all. All (IsReal comparison.now.plan.now comparison.now.old.now
        comparison.now.new.now) all.items) }
    ensures once { IfOk result (λ all. AreApart all.items) }
    ensures every { IfOk result (λ all. ShowsAll comparison.now.plan.now comparison.now.old.now
        comparison.now.new.now all.items) }
    ensures others { IfOk result (λ all. All (ShowsOthers comparison.now.plan.now
        comparison.now.old.now comparison.now.new.now) all.items) }
    ensures fault { IfErr result (IsThroughFault comparison.now.plan.now comparison.now.old.now
        comparison.now.new.now comparison.now.steps) }
{
    let spares = Spares::new(alloc)?;
    let regions = parts(alloc, comparison.plan, &spares)?;
    let fresh = Fresh::find(alloc, comparison)?;
    let clients = clients(
        alloc,
        comparison,
        &fresh,
        comparison.plan,
        comparison.old,
        comparison.new,
    )?;
    let all = compare_tried(alloc, comparison, &regions, &clients)?;
    Ok(all)
}

/// Where the new list, about the new name of a topic, decides otherwise than the old one about the topic: for each
/// client and user name, what it may read and write no longer, and what it may now. The rules are our own. A topic
/// without a new name isn't compared. Of what the same lines decide, in the lists and in the plan, one topic is shown,
/// and one more where topics with `$` in front are among others; of clients that differ in their ids alone, one.
///
/// So many steps are given to each comparison of two lists: one is made for each rule and client id, and one more by the
/// first rule. Where they don't suffice the comparison is given up, so that an answer is always the whole one.
pub fn compare_through(
    alloc: Global,
    plan: &Plan,
    old: &[Row],
    new: &[Row],
    steps: u64,
) -> Result<Vec<Renamed>, ThroughFault>
    ensures every { IfOk result (λ all. ShowsAll plan.now old.now new.now all.items) }
    ensures real { IfOk result (λ all. All (IsReal plan.now old.now new.now) all.items) }
    ensures once { IfOk result (λ all. AreApart all.items) }
    ensures same { IfOk result (λ all. all.items ≡ [] → (q : Question) → IsQuestion plan.now q
        → old_allows old.now q ≡ new_allows new.now q) }
    ensures others { IfOk result (λ all. All (ShowsOthers plan.now old.now new.now) all.items) }
    ensures fault { IfErr result (IsThroughFault plan.now old.now new.now steps) }
{
    if let Some(fault) = first_fault(plan, old, new) {
        return Err(fault);
    }
    let comparison = comparison(alloc, plan, old, new, steps)?;
    changes(alloc, &comparison)
}
