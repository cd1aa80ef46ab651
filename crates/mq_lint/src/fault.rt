use std::alloc::AllocError;

/// Why the needless lines of a list aren't known.
#[derive(Clone, Copy, PartialEq, Eq)]
pub enum NeedlessFault {
    /// There was no memory.
    Memory,
    /// The row with this line has a level, or a user name, of more than 300 bytes.
    Line(u64),
    /// By mosquitto's rules: the `pattern` row with this line has a mark that is a part of a level.
    Mark(u64),
    /// The steps don't suffice: when they were spent, it was to be known whether the row with this line is needed, which
    /// has to be seen against so many others.
    GaveUp(u64, u64),
}

impl From<AllocError> for NeedlessFault {
    ghost use Rattle.std.specs.Prelude.{◌≡◌};
    ghost use Rattle.mq_lint.specs.declared.fault.NeedlessFault.TheVariants.{Memory};

    ghost from_gives = { λ _ fault. fault ≡ Memory };

    fn from(_: AllocError) -> Self {
        NeedlessFault::Memory
    }
}
