use crate::fault::ExpectationKind;
use mq_acl::Access;
use mq_topic::TopicFilter;

/// Clients of which something is expected.
#[derive(Clone, Copy, Drop, PartialEq, Eq)]
pub enum Whom<'a> {
    /// `anyone`: all clients.
    Anyone,
    /// `anonymous`: those without a user name.
    Anonymous,
    /// `others`: those of all user names that no line of the list names.
    Others,
    /// Those of this user name.
    User(&'a str),
}

/// How much of what a filter matches is expected to be allowed.
#[derive(Clone, Copy, PartialEq, Eq)]
pub enum Holds {
    /// `may`: every topic.
    Every,
    /// `may some`: one of them at least.
    AtLeastOne,
    /// `may not`: none.
    Never,
}

/// What some clients may, or may not.
#[derive(Drop)]
pub struct Claim<'a> {
    /// Of which clients.
    pub whom: Whom<'a>,
    /// How much of it.
    pub holds: Holds,
    /// Whether they read or write, or both.
    pub access: Access,
    /// Which topics: as in a `pattern` line `%c` and `%u` are the client's own id and user name.
    pub filter: TopicFilter,
    /// The names behind `except`, between commas; none where nobody is excepted.
    pub except: Option<&'a str>,
}

/// What a line says.
#[derive(Drop)]
pub enum Expectation<'a> {
    /// `acl FILE`: the list of which the lines behind it speak.
    List(&'a str),
    /// `at most FILE`: the list allows nothing that the one in this file doesn't.
    AtMost(&'a str),
    /// `at least FILE`: it allows all that the one in this file does.
    AtLeast(&'a str),
    /// What some clients may, or may not.
    Claim(Claim<'a>),
}

/// A line that says something.
#[derive(Drop)]
pub struct Numbered<'a> {
    /// Its number, from 1.
    pub line: u64,
    /// What it says, or what is wrong with it.
    pub says: Result<Expectation<'a>, ExpectationKind>,
}
