/// A side of a rule.
#[derive(Clone, Copy, PartialEq, Eq)]
pub enum Side {
    /// What stands before the arrow, or behind `keep` or `none`.
    Left,
    /// What stands behind the arrow.
    Right,
}

/// What is wrong with a line of a plan (the faults are our own). A level is given by its side and
/// its place there, counted from 0.
#[derive(Clone, Copy, PartialEq, Eq)]
pub enum PlanKind {
    /// It is neither `FROM -> TO` nor `keep FROM` nor `none FROM`.
    Rule,
    /// The side is missing.
    Missing { side: Side },
    /// The side has more than 200 levels, or a level of more than 300 bytes.
    Long { side: Side },
    /// The level begins with `+`, and what follows is not a name of letters, digits, `-` and `_`.
    Capture { side: Side, level: usize },
    /// The level is `%c` or `%u`.
    Mark { side: Side, level: usize },
    /// The level makes the side no topic filter: a `+` within it, a `#` that isn't the whole last level, or U+0000.
    Side { side: Side, level: usize },
    /// The name of this level of the left side stands there more than once.
    Twice { level: usize },
    /// So many levels of each side are `+` without a name, and it isn't plain which stands for which: there are fewer or
    /// more on the right than on the left, or some level has a name.
    Unnamed { left: usize, right: usize },
    /// This level of the right side, a `+` with a name or a `#`, doesn't stand on the left.
    Unbound { level: usize },
    /// The right side begins with `+` or `#`.
    Front,
    /// There was no memory. No line is at fault.
    Memory,
}

/// The first faulty line of a plan.
#[derive(Clone, Copy, PartialEq, Eq)]
pub struct PlanFault {
    /// The number of the line, from 1; 0 for lack of memory.
    pub line: u64,
    /// What is wrong with it.
    pub kind: PlanKind,
}
