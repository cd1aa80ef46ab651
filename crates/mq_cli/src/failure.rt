ghost use Rattle.std.specs.Prelude.{◌≡◌, ◌≢◌, ◌⊎◌, ◌↔◌};
ghost use Rattle.std.specs.IoError.{error_kind};
ghost use Rattle.mq_cli.specs.Program.{failure_status};

use crate::acl_file::AclFileFault;
use mq_acl::{AclFault, AclKind};
use mq_run::{RUN_FAILED, RunFault};
use std::io::{self, ErrorKind};
use thiserror::Error;

/// The exit status where the words are not understood, the script can't be opened, or the access list can't be read or
/// understood.
pub const UNREADABLE: u8 = 2;

/// Why the program ends before its script does.
#[derive(Clone, Copy, Debug, Error)]
pub(crate) enum Failure<'a> {
    #[error("cannot read access list {0}")]
    AclRead(&'a str),
    #[error("access list {0} is too long")]
    AclTooLong(&'a str),
    #[error("access list {0} is not UTF-8")]
    AclUtf8(&'a str),
    #[error("access list {file} line {line}: {kind:?}")]
    AclLine {
        file: &'a str,
        line: u64,
        kind: AclKind,
    },
    #[error("cannot open script {0}")]
    Script(&'a str),
    #[error("read fault")]
    Read,
    #[error("write fault")]
    Write,
    #[error("script too long")]
    TooMuch,
    #[error("out of memory")]
    Memory,
}

impl<'a> Failure<'a> {
    /// The exit status.
    pub(crate) fn status(self) -> u8
        ensures { result ≡ failure_status self.entry }
    {
        match self {
            Failure::Read | Failure::Write | Failure::TooMuch | Failure::Memory => RUN_FAILED,
            _ => UNREADABLE,
        }
    }

    /// Why a run ended.
    pub(crate) fn of_run(fault: RunFault) -> Failure<'a>
        ensures { failure_status result ≡ 3 }
    {
        match fault {
            RunFault::Read => Failure::Read,
            RunFault::Write => Failure::Write,
            RunFault::TooMuch => Failure::TooMuch,
            RunFault::Memory => Failure::Memory,
        }
    }

    /// Why a file gives no access list.
    pub(crate) fn of_acl(file: &'a str, fault: AclFileFault) -> Failure<'a>
        ensures { (failure_status result ≡ 3) ↔ (fault ≡ AclFileFault.Memory) }
    {
        match fault {
            AclFileFault::Read => Failure::AclRead(file),
            AclFileFault::TooLong => Failure::AclTooLong(file),
            AclFileFault::Utf8 => Failure::AclUtf8(file),
            AclFileFault::Line(AclFault { line, kind }) => Failure::AclLine { file, line, kind },
            AclFileFault::Memory => Failure::Memory,
        }
    }

    /// Why a file can't be opened: there was no memory, or this failure.
    pub(crate) fn of_open(self, error: &io::Error) -> Failure<'a>
        ensures memory { error_kind error.now ≡ ErrorKind.OutOfMemory → result ≡ Failure.Memory }
        ensures other { error_kind error.now ≢ ErrorKind.OutOfMemory → result ≡ self.entry }
        ensures shown { (result ≡ self.entry) ⊎ (result ≡ Failure.Memory) }
    {
        match error.kind() {
            ErrorKind::OutOfMemory => Failure::Memory,
            _ => self,
        }
    }
}
