//! Two lists and a plan.
use mq_acl::Row;
use mq_plan::Plan;

/// What is compared.
pub(crate) struct Comparison<'a> {
    pub plan: &'a Plan,
    pub old: &'a [Row],
    pub new: &'a [Row],
    /// The user names that the lists have rows for.
    pub users: Vec<&'a str>,
    /// How many steps each comparison of a region and a client may take.
    pub steps: u64,
}

// Opaque to callers' proofs: one step, and not one for each field (docs/explanation/gate.md).
impl Drop for Comparison<'_> {
    fn drop(self) {
        let Comparison {
            plan: _,
            old: _,
            new: _,
            users: _,
            steps: _,
        } = self;
    }
}
