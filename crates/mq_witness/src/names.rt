//! Names by how they begin.
ghost use Rattle.std.specs.Prelude.{◌≡◌};
ghost use Rattle.mq_witness.specs.Names.{are_begun, are_states, has_states, names_begun, names_of};
ghost use Rattle.mq_witness.specs.Names.{names_readable, start_at};

use crate::topics::Topics;
use mq_acl::{Direction, Rules};
use mq_cover::Start;

/// Which names a question is about.
#[derive(Clone, Copy, Drop)]
pub(crate) enum Names {
    /// Those that begin with no `$`.
    Plain,
    /// Those that do.
    Dollar,
    /// Of these, those that mosquitto may let clients read.
    Readable,
    /// Of these, those that it may let clients write, but for the states of bridges.
    Writable,
    /// The states of bridges.
    States,
}

/// Whether the states of bridges are among these topics, of those that begin with `$`, or of the others.
pub(crate) fn has_states(dollar: bool, topics: Topics) -> bool
    ensures { result ≡ has_states dollar topics }
{
    match (dollar, topics) {
        (true, Topics::Open(Direction::Writing)) => true,
        _ => false,
    }
}

impl Names {
    /// Those that begin with `$`, or the others.
    pub fn begun(dollar: bool) -> Names
        ensures { result ≡ names_begun dollar }
    {
        match dollar {
            true => Names::Dollar,
            false => Names::Plain,
        }
    }

    /// Of these topics, those that begin with `$`, or the others, but for the states of bridges.
    pub fn of(dollar: bool, topics: Topics) -> Names
        ensures { result ≡ names_of dollar topics }
    {
        match (dollar, topics) {
            (false, _) => Names::Plain,
            (true, Topics::All) => Names::Dollar,
            (true, Topics::Open(Direction::Reading)) => Names::Readable,
            (true, Topics::Open(Direction::Writing)) => Names::Writable,
        }
    }

    /// Of those that begin with `$`, the ones that clients may read by these rules.
    pub fn readable(rules: Rules) -> Names
        ensures { result ≡ names_readable rules }
    {
        match rules {
            Rules::Own => Names::Dollar,
            Rules::Mosquitto => Names::Readable,
        }
    }

    /// Whether they begin with `$`.
    pub fn are_begun(self) -> bool
        ensures { result ≡ are_begun self }
    {
        match self {
            Names::Plain => false,
            _ => true,
        }
    }

    /// Whether they are the states of bridges.
    pub fn are_states(self) -> bool
        ensures { result ≡ are_states self }
    {
        match self {
            Names::States => true,
            _ => false,
        }
    }

    /// Where a walk over them starts.
    pub fn start(self) -> Start
        ensures { result ≡ start_at self }
    {
        match self {
            Names::Plain => Start::Plain,
            Names::Dollar | Names::States => Start::Dollar,
            Names::Readable => Start::Readable,
            Names::Writable => Start::Writable,
        }
    }
}
