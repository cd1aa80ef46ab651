ghost use Rattle.std.specs.Prelude.{◌≡◌};
ghost use Rattle.mq_who.specs.Faults.{fault_of};

use mq_differences::ComparisonFault;
use std::alloc::AllocError;

/// Why it can't be said who may.
#[derive(Clone, Copy, PartialEq, Eq)]
pub enum WhoFault {
    /// There was no memory.
    Memory,
    /// The filter has a level of more than 300 bytes.
    Filter,
    /// By mosquitto's rules the filter has a mark, `%c` or `%u`, that is a part of a level.
    FilterMark,
    /// The row with this line has a level, or a user name, of more than 300 bytes.
    Line(u64),
    /// By mosquitto's rules the `pattern` row with this line has a mark that is a part of a level.
    Mark(u64),
    /// The steps don't suffice: when they were spent, it was to be known what the row with this
    /// line allows, or the filter itself where it is 0, which has to be seen against so many
    /// others.
    GaveUp(u64, u64),
}

impl From<AllocError> for WhoFault {
    ghost use Rattle.std.specs.Prelude.{◌≡◌};
    ghost use Rattle.mq_who.specs.declared.fault.WhoFault.TheVariants.{Memory};

    ghost from_gives = { λ _ fault. fault ≡ Memory };

    fn from(_: AllocError) -> Self {
        WhoFault::Memory
    }
}

/// What is said of a list that can't be compared with one that was made of a filter without long levels.
pub(crate) fn fault_of(fault: ComparisonFault) -> WhoFault
    ensures { result ≡ fault_of fault }
{
    match fault {
        ComparisonFault::Memory => WhoFault::Memory,
        ComparisonFault::OldLine(line) | ComparisonFault::NewLine(line) => WhoFault::Line(line),
        ComparisonFault::OldMark(line) => WhoFault::Mark(line),
        ComparisonFault::NewMark(_) => WhoFault::FilterMark,
        ComparisonFault::GaveUp(_, line, others) => WhoFault::GaveUp(line, others),
    }
}
