use mq_acl::AclFault;
use mq_plan::PlanFault;
use mq_through::ThroughFault;

/// Why two lists aren't compared through a plan.
#[derive(Clone, Copy)]
pub enum PlanAnswerFault {
    /// A line of the old list has a fault, or there was no memory.
    Old(AclFault),
    /// A line of the new list has one.
    New(AclFault),
    /// A line of the plan has one.
    Plan(PlanFault),
    /// They can't be compared.
    Through(ThroughFault),
}
