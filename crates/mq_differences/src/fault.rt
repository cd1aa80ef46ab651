use std::alloc::AllocError;

/// Which of two lists.
#[derive(Clone, Copy, PartialEq, Eq)]
pub enum Side {
    /// The old one.
    Old,
    /// The new one.
    New,
}

/// Why two lists can't be compared.
#[derive(Clone, Copy, PartialEq, Eq)]
pub enum ComparisonFault {
    /// There was no memory.
    Memory,
    /// The row with this line of the old list has a level, or a user name, of more than 300 bytes.
    OldLine(u64),
    /// So has the row with this line of the new list.
    NewLine(u64),
    /// By mosquitto's rules the `pattern` row with this line of the old list has a mark that is a part of a level.
    OldMark(u64),
    /// So has the row with this line of the new list.
    NewMark(u64),
    /// The steps don't suffice: when they were spent, it was to be known what the row with this
    /// line of this list changes, which has to be seen against so many others.
    GaveUp(Side, u64, u64),
}

impl From<AllocError> for ComparisonFault {
    ghost use Rattle.std.specs.Prelude.{◌≡◌};
    ghost use Rattle.mq_differences.specs.declared.fault.ComparisonFault.TheVariants.{Memory};

    ghost from_gives = { λ _ fault. fault ≡ Memory };

    fn from(_: AllocError) -> Self {
        ComparisonFault::Memory
    }
}
