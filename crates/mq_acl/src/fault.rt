/// What is wrong with a line of an access list (our own rules, since mosquitto.conf(5) names no faults).
#[derive(Clone, Copy, Debug, PartialEq, Eq)]
pub enum AclKind {
    /// The first word is none of `topic`, `pattern` and `user`.
    Keyword,
    /// Several words follow the keyword, and the first is none of `read`, `write`, `readwrite` and `deny`.
    Access,
    /// The topic is missing, or no valid topic filter.
    Topic,
    /// The user name is missing.
    User,
    /// `%c` or `%u` stands in a `pattern` line and is not a whole level.
    Pattern,
    /// There was no memory. No line is at fault.
    Memory,
}

/// The first faulty line of an access list.
#[derive(Clone, Copy, Debug, PartialEq, Eq)]
pub struct AclFault {
    /// The number of the line, from 1; 0 for lack of memory.
    pub line: u64,
    /// What is wrong with it.
    pub kind: AclKind,
}
