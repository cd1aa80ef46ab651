use mq_differences::Way;

/// How an answer is shown.
#[derive(Clone, Copy, Drop)]
pub struct PlanScope {
    /// Of which differences alone, if not of all.
    pub only: Option<Way>,
    /// As JSON, one object a line.
    pub json: bool,
    /// Whether what is gained is green, and what is lost red.
    pub coloured: bool,
}
