//! How a run ends.
ghost use Rattle.std.specs.Prelude.{◌≡◌, ◌+◌, ◌^◌, ◌<◌, ◌≤◌, if◌then◌else◌};
ghost use Rattle.mq_run.specs.Status.{status_of};

use std::alloc::AllocError;
use thiserror::Error;

/// What a run has read.
#[derive(Clone, Copy, Debug, PartialEq, Eq)]
pub struct Summary {
    /// How many lines, blank ones counted.
    pub lines: u64,
    /// How many of them were refused.
    pub refused: u64,
}

impl Summary {
    /// One line more.
    pub(crate) fn with_line(self, is_refused: bool) -> Summary
        requires lines { self.lines + 1 < 2 ^ 64 }
        requires refused { self.refused ≤ self.lines }
        ensures { result ≡ record {
          lines = self.lines + 1;
          refused = self.refused + (if is_refused then 1 else 0);
        } }
    {
        Summary {
            lines: self.lines + 1,
            refused: self.refused + u64::from(is_refused),
        }
    }
}

/// Why a run ended before its script did.
#[derive(Clone, Copy, Debug, PartialEq, Eq, Error)]
#[error("{:?}", self)]
pub enum RunFault {
    /// The reader failed.
    Read,
    /// The writer failed, or took nothing.
    Write,
    /// The script has more bytes than it may have: of `run`, more than 4,294,967,296.
    TooMuch,
    /// There was no memory.
    Memory,
}

impl From<AllocError> for RunFault {
    ghost use Rattle.std.specs.Prelude.{◌≡◌};
    ghost use Rattle.mq_run.specs.declared.outcome.RunFault.TheVariants.{Memory};

    ghost from_gives = { λ _ fault. fault ≡ Memory };

    fn from(_: AllocError) -> RunFault {
        RunFault::Memory
    }
}

/// The exit status where the run failed or memory ran out.
pub const RUN_FAILED: u8 = 3;

/// The exit status of the program: 0 where every line was accepted, 1 where one was refused, and 3 where the run failed.
pub fn exit_status(outcome: &Result<Summary, RunFault>) -> u8
    ensures { result ≡ status_of outcome.now }
{
    match outcome {
        Ok(summary) if summary.refused == 0 => 0,
        Ok(_) => 1,
        Err(_) => RUN_FAILED,
    }
}
