//! The questions that a command line asks.
ghost use Rattle.std.specs.Prelude.{◌≡◌};
ghost use Rattle.mq_acl_args.specs.CommandLine.{files_of, question_view, reach_view};
ghost use Rattle.mq_acl_args.specs.Files.{input_count};

use crate::files::{input_in, inputs_among};
use mq_acl::Direction;
use mq_ask::{Client, Selection};
use mq_differences::Way;

/// Which subscriptions it is asked about.
#[derive(Clone, Copy, Drop)]
pub enum Subscriptions<'a> {
    /// One of a client.
    Of {
        client: Client<'a>,
        /// The filter, or a shared subscription.
        filter: &'a str,
    },
    /// One of clients with any id.
    OfAny {
        /// Their user name, if they have one.
        user: Option<&'a str>,
        /// The filter.
        wanted: &'a str,
    },
    /// All of a script, in this file.
    In(&'a str),
}

impl Subscriptions<'_> {
    // How many files of the question are standard input, beside this list.
    fn input_count(&self, file: &str) -> usize
        ensures { result ≡ input_count (files_of (reach_view file.now self.now)) }
    {
        match self {
            Subscriptions::Of { .. } => inputs_among(&[file]),
            Subscriptions::OfAny { .. } => inputs_among(&[file]),
            Subscriptions::In(script) => inputs_among(&[file, *script]),
        }
    }
}

/// What one list allows and the other doesn't.
#[derive(Clone, Copy, Drop)]
pub struct Compare<'a> {
    /// The file of the old list.
    pub old: &'a str,
    /// The file of the new one.
    pub new: &'a str,
    /// Which differences alone are shown, if not all.
    pub only: Option<Way>,
    /// The file of a script whose publishes are counted, if one is given.
    pub script: Option<&'a str>,
}

/// The same through a plan: of a topic by the old list, and of its new name by the new one.
#[derive(Clone, Copy, Drop)]
pub struct Through<'a> {
    /// The file of the old list.
    pub old: &'a str,
    /// The file of the new one.
    pub new: &'a str,
    /// The file of the plan.
    pub plan: &'a str,
    /// Which differences alone are shown, if not all.
    pub only: Option<Way>,
}

/// Which lines decide whether a client may read and write a topic.
#[derive(Clone, Copy, Drop)]
pub struct Why<'a> {
    /// The file of the list.
    pub file: &'a str,
    pub client: Client<'a>,
    pub topic: &'a str,
    /// Whether it may is the status, of reading or of writing.
    pub may: Option<Direction>,
}

/// The same of each question of a file.
#[derive(Clone, Copy, Drop)]
pub struct WhyEach<'a> {
    /// The file of the list.
    pub file: &'a str,
    /// The file of the questions.
    pub questions: &'a str,
}

/// Whether subscriptions can be sent anything.
#[derive(Clone, Copy, Drop)]
pub struct Reach<'a> {
    /// The file of the list.
    pub file: &'a str,
    pub subscriptions: Subscriptions<'a>,
}

/// Who may read or write what a filter matches.
#[derive(Clone, Copy, Drop)]
pub struct Who<'a> {
    /// The file of the list.
    pub file: &'a str,
    /// The filter.
    pub wanted: &'a str,
    /// Of whom it is shown.
    pub selection: Selection<'a>,
    /// The file of a script whose publishes are counted, if one is given.
    pub script: Option<&'a str>,
}

/// Whether lists are as is expected of them.
#[derive(Drop)]
pub struct Test<'a> {
    /// The file of what is expected.
    pub expected: &'a str,
    /// The files of the lists, if others than those that it names are meant.
    pub lists: Vec<&'a str>,
    /// The file to write the same to as JUnit's XML, if one is wanted.
    pub junit: Option<&'a str>,
}

/// A question to access lists, each in a file.
#[derive(Drop)]
pub enum Question<'a> {
    Compare(Compare<'a>),
    Through(Through<'a>),
    Why(Why<'a>),
    WhyEach(WhyEach<'a>),
    /// Which lines of these files have a fault or change nothing.
    Lint(Vec<&'a str>),
    Reach(Reach<'a>),
    Who(Who<'a>),
    Test(Test<'a>),
}

impl Question<'_> {
    /// How many of its files are standard input.
    pub(crate) fn input_count(&self) -> usize
        ensures { result ≡ input_count (files_of (question_view self.now)) }
    {
        match self {
            Question::Compare(asked) => {
                inputs_among(&[asked.old, asked.new]) + input_in(asked.script)
            }
            Question::Through(asked) => inputs_among(&[asked.old, asked.new, asked.plan]),
            Question::Why(asked) => inputs_among(&[asked.file]),
            Question::WhyEach(asked) => inputs_among(&[asked.file, asked.questions]),
            Question::Lint(files) => inputs_among(files.as_slice()),
            Question::Reach(asked) => asked.subscriptions.input_count(asked.file),
            Question::Who(asked) => inputs_among(&[asked.file]) + input_in(asked.script),
            Question::Test(asked) => {
                inputs_among(&[asked.expected]) + inputs_among(asked.lists.as_slice())
            }
        }
    }
}
