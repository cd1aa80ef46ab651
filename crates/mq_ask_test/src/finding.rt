//! What comes of a line.
ghost use Rattle.std.specs.Prelude.{◌≡◌};
ghost use Rattle.mq_ask_test.specs.Findings.{is_holds};

use mq_acl::Direction;
use mq_differences::Difference;
use mq_expect::ExpectationKind;

/// What comes of a line of a file of expectations.
#[derive(Drop)]
pub enum Finding<'a> {
    /// It holds, for each client and topic that is asked about (`mq_who::Judgement` says of a claim which clients these
    /// are; of two lists that are compared it is all).
    Holds,
    /// What it says of clients isn't so of this client and topic: `old_reason` is the line of the list that decides.
    Fails(Difference),
    /// The list allows what the one behind `at most` doesn't, or not what the one behind `at least`
    /// does: `new_reason` is the line of the list that decides, `old_reason` that of the other one.
    Differs(Difference),
    /// One topic at least is expected to be allowed, and none is in this direction.
    NoneMay(Direction),
    /// No line of the list names this user.
    Unnamed(&'a str),
    /// Each client is to be allowed topics that mosquitto refuses to let clients read or write in
    /// this direction, whatever the list says.
    Refused(Direction),
    /// The line has a fault.
    Fault(ExpectationKind),
    /// Its filter has a level of more than 300 bytes.
    LongLevel,
    /// By mosquitto's rules its filter has a mark that is a part of a level.
    PartMark,
    /// No list is given, and no line before it names one.
    NoList,
}

impl Finding<'_> {
    /// Whether the line holds.
    pub fn holds(&self) -> bool
        ensures { result ≡ is_holds self.now }
    {
        matches!(self, Finding::Holds)
    }
}
