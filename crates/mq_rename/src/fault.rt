use std::alloc::AllocError;

/// Why a filter isn't made. With no level of more than 300 bytes each fits: 200 of them and the slashes between are at
/// most 60,199 bytes.
#[derive(Clone, Copy, PartialEq, Eq)]
pub enum MeetFault {
    /// There was no memory.
    Memory,
    /// The text would have more than 65,535 bytes; a level of more than 300 bytes is among those that it is made of.
    TooLong,
}

impl From<AllocError> for MeetFault {
    ghost use Rattle.std.specs.Prelude.{◌≡◌};
    ghost use Rattle.mq_rename.specs.declared.fault.MeetFault.TheVariants.{Memory};

    ghost from_gives = { λ _ fault. fault ≡ Memory };

    fn from(_: AllocError) -> Self {
        MeetFault::Memory
    }
}
