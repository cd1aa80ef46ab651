use mq_witness::LimitFault;
use std::alloc::AllocError;

/// Why it isn't known what a filter reaches. A topic name made of levels of more than 300 bytes could be too long.
#[derive(Clone, Copy, PartialEq, Eq)]
pub enum ReachFault {
    /// There was no memory.
    Memory,
    /// The client id has more than 300 bytes.
    Client,
    /// The user name has more than 300 bytes.
    User,
    /// The filter has a level of more than 300 bytes.
    Filter,
    /// By mosquitto's rules: a `pattern` row has a level of more than 300 bytes, or is not a topic
    /// filter, with the texts of the client in the place of its marks.
    Pattern,
}

impl From<AllocError> for ReachFault {
    ghost use Rattle.std.specs.Prelude.{◌≡◌};
    ghost use Rattle.mq_reach.specs.declared.fault.ReachFault.TheVariants.{Memory};

    ghost from_gives = { λ _ fault. fault ≡ Memory };

    fn from(_: AllocError) -> Self {
        ReachFault::Memory
    }
}

impl From<LimitFault> for ReachFault {
    ghost use Rattle.std.specs.Prelude.{◌≡◌};
    ghost use Rattle.mq_reach.specs.Reach.{reach_fault};

    ghost from_gives = { λ limit fault. fault ≡ reach_fault limit };

    // The only row that is not of the list is the filter's.
    fn from(fault: LimitFault) -> Self {
        match fault {
            LimitFault::Memory => ReachFault::Memory,
            LimitFault::Client => ReachFault::Client,
            LimitFault::User => ReachFault::User,
            LimitFault::Row => ReachFault::Filter,
        }
    }
}
