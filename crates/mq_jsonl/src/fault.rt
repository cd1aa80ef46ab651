ghost use Rattle.std.specs.Prelude.{◌≡◌};
ghost use Rattle.mq_jsonl.specs.declared.fault.LineFault.TheVariants.{Memory};

use std::alloc::AllocError;

/// Why a line is not a command: the first of these whose condition holds. `Memory` may stand in place of any answer.
#[derive(Clone, Copy, Debug, PartialEq, Eq)]
pub enum LineFault {
    /// The line has more than 1,048,576 bytes.
    LineTooLong,
    /// The line is not JSON text.
    BadJson,
    /// The value is not an object, or its `do` is missing or names no command.
    BadCommand,
    /// A field is missing, is of another kind, is out of range, or is none of the command's.
    BadField,
    /// There was no memory.
    Memory,
}

impl From<AllocError> for LineFault {
    ghost from_gives = { λ _ fault. fault ≡ Memory };

    fn from(_: AllocError) -> LineFault {
        LineFault::Memory
    }
}
