use std::alloc::AllocError;

/// Why two lists can't be compared through a plan. Lines are counted from 1.
#[derive(Clone, Copy, PartialEq, Eq)]
pub enum ThroughFault {
    /// There was no memory.
    Memory,
    /// The row with this line of the old list has a level, or a user name, of more than 300 bytes.
    OldLine(u64),
    /// So has the row with this line of the new list.
    NewLine(u64),
    /// The `topic` line with this number of the old list has a level, or a user name, `%c` or `%u`. It is plain text
    /// there, and would be a mark in the rows that are made.
    OldMark(u64),
    /// So has the one of the new list.
    NewMark(u64),
    /// A side of the rule on this line of the plan has a level of more than 300 bytes, or a level `%c` or `%u`.
    Rule(u64),
    /// By the rule on this line some topic gets no new name, since that would have too many bytes or levels, or none.
    LongName(u64),
    /// A `pattern` line has the client id as a level, and each of the 290 texts that are tried for all other client ids
    /// is named by a list or the plan.
    NoClient,
    /// The steps don't suffice.
    GaveUp,
}

impl From<AllocError> for ThroughFault {
    ghost use Rattle.std.specs.Prelude.{◌≡◌};
    ghost use Rattle.mq_through.specs.declared.fault.ThroughFault.TheVariants.{Memory};

    ghost from_gives = { λ _ fault. fault ≡ Memory };

    fn from(_: AllocError) -> Self {
        ThroughFault::Memory
    }
}
