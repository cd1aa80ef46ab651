//! What changes between two lists through a plan, of their texts.
ghost use Rattle.std.specs.Prelude.{◌≡◌, IfOk, IfErr};
ghost use Rattle.mq_ask_plan.specs.Renamed.{AreRenamed, IsAnswerFault};

use crate::fault::PlanAnswerFault;
use mq_acl::{Row, Rules, read_rows_by};
use mq_plan::Plan;
use mq_through::{Renamed, compare_through};
use std::alloc::Global;

/// Two lists, a plan, and what changes.
pub struct RenamedChanges {
    /// The rows of the old list.
    pub old: Vec<Row>,
    /// The rows of the new list.
    pub new: Vec<Row>,
    /// The plan.
    pub plan: Plan,
    /// What changes.
    pub renamed: Vec<Renamed>,
}

// Opaque to callers' proofs: one step, and not one for each field (docs/explanation/gate.md).
impl Drop for RenamedChanges {
    fn drop(self) {
        let RenamedChanges {
            old: _,
            new: _,
            plan: _,
            renamed: _,
        } = self;
    }
}

impl RenamedChanges {
    /// What changes.
    pub fn into_renamed(self) -> Vec<Renamed>
        ensures { result ≡ self.renamed }
    {
        let RenamedChanges {
            old: _,
            new: _,
            plan: _,
            renamed,
        } = self;
        renamed
    }
}

/// What changes through the plan with this text between the lists with these texts, by our own
/// rules. Each comparison of the topics of one rule for one client id has so many steps.
pub fn find_renamed(
    alloc: Global,
    old: &str,
    new: &str,
    plan: &str,
    steps: u64,
) -> Result<RenamedChanges, PlanAnswerFault>
    ensures ok { IfOk result (AreRenamed old.entry.now new.entry.now plan.entry.now) }
    ensures err { IfErr result (IsAnswerFault old.entry.now new.entry.now plan.entry.now steps) }
{
    let old = match read_rows_by(alloc, Rules::Own, old) {
        Ok(rows) => rows,
        Err(fault) => return Err(PlanAnswerFault::Old(fault)),
    };
    let new = match read_rows_by(alloc, Rules::Own, new) {
        Ok(rows) => rows,
        Err(fault) => return Err(PlanAnswerFault::New(fault)),
    };
    let plan = match Plan::read(alloc, plan) {
        Ok(plan) => plan,
        Err(fault) => return Err(PlanAnswerFault::Plan(fault)),
    };
    match compare_through(alloc, &plan, &old, &new, steps) {
        Ok(renamed) => Ok(RenamedChanges {
            old,
            new,
            plan,
            renamed,
        }),
        Err(fault) => Err(PlanAnswerFault::Through(fault)),
    }
}
