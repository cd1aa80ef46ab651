ghost use Rattle.std.specs.Prelude.{◌≡◌, ◌⊎◌};
ghost use Rattle.mq_ask.specs.Statuses.{failure_status};

use std::alloc::{AllocError, Global};
use std::io::{self, ErrorKind};
use thiserror::Error;

/// The exit status where the words are not understood, or a file can't be opened, read or understood.
pub const UNREADABLE: u8 = 2;

/// The exit status where a write failed or memory ran out.
pub const FAILED: u8 = 3;

fn plural(count: u64) -> &'static str {
    if count == 1 { "" } else { "s" }
}

/// Why the program answers nothing, as it is printed: behind the line that has the fault, or behind the program's name.
#[derive(Debug, Drop, Error)]
pub enum Failure<'a> {
    /// The file of a list or of a script can't be opened or read.
    #[error("mqroute-acl: {0}: {1}")]
    Read(&'a str, io::Error),
    /// The file of a list has more than 16,777,216 bytes.
    #[error("mqroute-acl: {0}: more than 16,777,216 bytes")]
    TooLong(&'a str),
    /// A line of a list has a byte that makes it no text.
    #[error("{file}:{line}: not UTF-8")]
    Utf8 {
        file: &'a str,
        line: u64,
    },
    /// A line of a list has a fault.
    #[error("{file}:{line}: {words}")]
    Line {
        file: &'a str,
        line: u64,
        words: String,
    },
    /// The file of a list is another one: what it is.
    #[error("{0}: {1}")]
    Foreign(&'a str, &'static str),
    /// By our own rules: mosquitto doesn't take a line of a list, in words.
    #[error("{file}:{line}: {words}")]
    NotTaken {
        file: &'a str,
        line: u64,
        words: String,
    },
    /// What is said of the lines of the lists was printed; mosquitto doesn't take the list in this file.
    #[error("mqroute-acl: {0}: mosquitto doesn't take this list")]
    Linted(&'a str),
    /// A level or the user name of a line has over 300 bytes.
    #[error("{file}:{line}: a level or a user name of more than 300 bytes")]
    Long {
        file: &'a str,
        line: u64,
    },
    /// By mosquitto's rules a question that isn't answered of a `pattern` line with a mark that is a part of a level.
    #[error("{file}:{line}: %c and %u must be whole levels in a question by mosquitto's rules")]
    Mark {
        file: &'a str,
        line: u64,
    },
    /// By mosquitto's rules: with the client's texts in the place of its marks a `pattern` line has a level of over 300
    /// bytes, or is not a topic filter.
    #[error("mqroute-acl: with the client's texts for %c and %u a pattern line has a level of more than 300 bytes or is not a topic filter")]
    LongPattern,
    /// The client id, the user name or a level of the filter has over 300 bytes.
    #[error("mqroute-acl: a client id, a user name or a level of more than 300 bytes")]
    LongWord,
    /// The steps don't suffice: so many rows have to be seen together with the one on this line.
    #[error("mqroute-acl: {file}: gave up: line {line} and {others} other{s} overlap in too many ways", s = plural(*.others))]
    GaveUp {
        file: &'a str,
        line: u64,
        others: u64,
    },
    /// By mosquitto's rules a filter with a mark that is a part of a level.
    #[error("mqroute-acl: {0:?}: %c and %u must be whole levels in a question by mosquitto's rules")]
    FilterMark(&'a str),
    /// The steps don't suffice: so many rows have to be seen together with the filter.
    #[error("mqroute-acl: {file}: gave up: the filter and {others} line{s} overlap in too many ways", s = plural(*.others))]
    FilterGaveUp {
        file: &'a str,
        others: u64,
    },
    /// The steps don't suffice for this line of a file of expectations: so many rows have to be
    /// seen together with one of a list.
    #[error("{file}:{line}: gave up: line {row} of {list} and {others} other{s} overlap in too many ways", s = plural(*.others))]
    TestGaveUp {
        file: &'a str,
        line: u64,
        list: &'a str,
        row: u64,
        others: u64,
    },
    /// The steps don't suffice for this line: so many rows of a list have to be seen together with its filter.
    #[error("{file}:{line}: gave up: the filter and {others} line{s} of {list} overlap in too many ways", s = plural(*.others))]
    TestFilterGaveUp {
        file: &'a str,
        line: u64,
        list: &'a str,
        others: u64,
    },
    /// No line of a file of expectations expects anything.
    #[error("mqroute-acl: {0}: no line expects anything")]
    NoExpectation(&'a str),
    /// A line of a file of questions asks nothing, in words.
    #[error("{file}:{line}: {words}")]
    Question {
        file: &'a str,
        line: u64,
        words: &'static str,
    },
    /// As it is printed: of a file that a file of expectations names.
    #[error("{0}")]
    OfNamed(String),
    /// No line of the list is for the user.
    #[error("mqroute-acl: {file}: no line names user {user}")]
    NoUser {
        file: &'a str,
        user: &'a str,
    },
    /// Each of the 290 texts that are tried for all other client ids is named by a list or the plan.
    #[error("mqroute-acl: the lists and the plan name each of the 290 texts that are tried for other client ids")]
    NoClient,
    /// The steps don't suffice to compare two lists through this plan.
    #[error("mqroute-acl: {0}: gave up: lines overlap in too many ways")]
    PlanGaveUp(&'a str),
    /// Two lists are compared through a plan by our own rules alone.
    #[error("mqroute-acl: compare --plan answers by mqroute's own rules only: give --rules own")]
    PlanRules,
    /// The file that is to be written is one that is read.
    #[error("mqroute-acl: {0}: --junit would overwrite it")]
    Overwritten(&'a str),
    /// The file can't be written.
    #[error("mqroute-acl: {0}: {1}")]
    Unwritten(&'a str, io::Error),
    /// What is to be a topic is not a topic name.
    #[error("mqroute-acl: {0:?} is not a topic name")]
    Topic(&'a str),
    /// What is to be a filter is not a topic filter.
    #[error("mqroute-acl: {0:?} is not a topic filter")]
    Filter(&'a str),
    /// The script has more than 4,294,967,296 bytes.
    #[error("mqroute-acl: {0}: more than 4,294,967,296 bytes")]
    LongScript(&'a str),
    /// The client id, the user name or a level of the filter of a subscription of the script has over 300 bytes.
    #[error("{file}:{line}: a client id, a user name or a level of more than 300 bytes")]
    LongSubscription {
        file: &'a str,
        line: u64,
    },
    /// No line of a script is a command.
    #[error("mqroute-acl: {file}: no line of {lines} is a command")]
    NoCommand {
        file: &'a str,
        lines: u64,
    },
    /// No line of a script is a command, and it begins as a log does.
    #[error("mqroute-acl: {file}: no line of {lines} is a command; it looks like a log: see mqroute-log-to-script(1)")]
    Log {
        file: &'a str,
        lines: u64,
    },
    /// A write failed.
    #[error("mqroute-acl: write fault")]
    Write,
    /// There was no memory.
    #[error("mqroute-acl: out of memory")]
    Memory,
}

impl From<AllocError> for Failure<'_> {
    ghost use Rattle.std.specs.Prelude.{◌≡◌};
    ghost use Rattle.mq_ask.specs.declared.failure.Failure.TheVariants.{Memory};

    ghost from_gives = { λ _ failure. failure ≡ Memory };

    fn from(_: AllocError) -> Self {
        Failure::Memory
    }
}

impl<'a> Failure<'a> {
    /// The exit status.
    pub fn status(&self) -> u8
        ensures { result ≡ failure_status self.now }
    {
        match self {
            Failure::Write | Failure::Memory | Failure::Unwritten(..) => FAILED,
            _ => UNREADABLE,
        }
    }

    /// The same as it is shown, where the names in it don't live as long as those of the command line.
    pub fn of_named(alloc: Global, failure: Failure<'_>) -> Failure<'a>
        ensures { (failure_status result ≡ failure_status failure.entry) ⊎ (result ≡ Failure.Memory) }
    {
        match failure {
            Failure::Write | Failure::Unwritten(..) => Failure::Write,
            Failure::Memory => Failure::Memory,
            other => match format!(in alloc; "{other}") {
                Ok(text) => Failure::OfNamed(text),
                Err(_) => Failure::Memory,
            },
        }
    }

    /// Why a file can't be opened or read.
    pub fn of_io(file: &'a str, error: io::Error) -> Failure<'a>
        ensures { (result ≡ Failure.Memory) ⊎ (result ≡ Failure.Read file.entry error) }
    {
        match error.kind() {
            ErrorKind::OutOfMemory => Failure::Memory,
            _ => Failure::Read(file, error),
        }
    }
}
