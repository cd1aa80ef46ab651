use mq_acl::AclKind;

/// What is odd about a line of an access list.
#[derive(Clone, Copy, PartialEq, Eq)]
pub enum RemarkKind {
    /// The line is faulty.
    Fault(AclKind),
    /// A `pattern` line without `%c` and `%u`: it is for all clients alike. Mosquitto warns of it.
    NoMark,
    /// Blanks stand before a comment's `#`. Mosquitto 2.0 takes `#` for a comment in the first column alone.
    IndentedComment,
    /// A tab parts two words, or stands before the first. Mosquitto 2.0 cuts words at spaces alone.
    Tab,
    /// The line has characters that a terminal acts on, or that can't be seen: control characters but
    /// the tab, marks of direction, separators of lines, characters without width. Blanks and CRs
    /// behind it don't count.
    Hidden,
    /// The line says the same as an earlier one: for the same clients, with the same access and the
    /// same filter. The other line is the first that does.
    Repeats(u64),
    /// The line denies, and no line grants to any client what it denies. It may be there to guard.
    DeniesNothing,
    /// Without the line, and those that repeat it, the list allows the same to every client, and so it
    /// does without all lines of which this is said. The other line, where one is named, is the first
    /// that stays and alone makes it so; where none is, it takes several.
    Needless(Option<u64>),
}

/// A remark on a line of an access list.
#[derive(Clone, Copy, PartialEq, Eq)]
pub struct Remark {
    /// The number of the line, from 1.
    pub line: u64,
    /// What is odd about it.
    pub kind: RemarkKind,
}
