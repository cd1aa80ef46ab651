use std::alloc::AllocError;

/// Why nothing is said of the lines of a file of expectations.
#[derive(Clone, Copy, Drop, PartialEq, Eq)]
pub enum TestFault<'a> {
    /// There was no memory.
    Memory,
    /// The list of this file is wanted, and isn't among those that were read.
    Missing(&'a str),
    /// The row with this line of the list in this file has a level, or a user name, of more than 300 bytes.
    Long {
        file: &'a str,
        line: u64,
    },
    /// By mosquitto's rules the `pattern` row with this line of the list in this file has a mark
    /// that is a part of a level.
    Mark {
        file: &'a str,
        line: u64,
    },
    /// The steps don't suffice for the line `expectation`: when they were spent, it was to be known
    /// what the row with the line `row` of the list in this file allows, or the filter of that line
    /// where it is 0, which has to be seen against so many others.
    GaveUp {
        expectation: u64,
        file: &'a str,
        row: u64,
        others: u64,
    },
}

impl From<AllocError> for TestFault<'_> {
    ghost use Rattle.std.specs.Prelude.{◌≡◌};
    ghost use Rattle.mq_ask_test.specs.declared.fault.TestFault.TheVariants.{Memory};

    ghost from_gives = { λ _ fault. fault ≡ Memory };

    fn from(_: AllocError) -> Self {
        TestFault::Memory
    }
}
