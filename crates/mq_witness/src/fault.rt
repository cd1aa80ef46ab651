use std::alloc::AllocError;

/// Why lists can't be asked.
#[derive(Clone, Copy, PartialEq, Eq)]
pub enum ListFault {
    /// There was no memory.
    Memory,
    /// The list at the first number, counted from 0, has a row with a level, or a user name, of more than 300 bytes,
    /// and its line is the second: a topic name made of such levels could be too long.
    Line(usize, u64),
    /// By mosquitto's rules the list at the first number has a `pattern` row with a mark that is a
    /// part of a level, and its line is the second.
    Mark(usize, u64),
}

impl From<AllocError> for ListFault {
    ghost use Rattle.std.specs.Prelude.{◌≡◌};
    ghost use Rattle.mq_witness.specs.declared.fault.ListFault.TheVariants.{Memory};

    ghost from_gives = { λ _ fault. fault ≡ Memory };

    fn from(_: AllocError) -> Self {
        ListFault::Memory
    }
}

/// Why no topic is known of one client. A topic name made of levels of more than 300 bytes could be too long.
#[derive(Clone, Copy, PartialEq, Eq)]
pub enum LimitFault {
    /// There was no memory.
    Memory,
    /// The client id has more than 300 bytes.
    Client,
    /// The user name has more than 300 bytes.
    User,
    /// A row that has to concern the topic has a level of more than 300 bytes.
    Row,
}

impl From<AllocError> for LimitFault {
    ghost use Rattle.std.specs.Prelude.{◌≡◌};
    ghost use Rattle.mq_witness.specs.declared.fault.LimitFault.TheVariants.{Memory};

    ghost from_gives = { λ _ fault. fault ≡ Memory };

    fn from(_: AllocError) -> Self {
        LimitFault::Memory
    }
}
