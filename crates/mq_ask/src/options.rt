//! How a question is answered.
use mq_acl::Rules;

/// How a question is answered.
#[derive(Clone, Copy, Drop)]
pub struct Options {
    /// Whether the answer is to be JSON.
    pub json: bool,
    /// How many steps may be taken to compare lists, or to know which lines are needless.
    pub steps: u64,
    /// By whose rules lists are read, and decide.
    pub rules: Rules,
    /// Whether the answer is to be in colours, as on a terminal.
    pub coloured: bool,
}
