//! How many lines a script has, and of what kind.
ghost use Rattle.std.specs.Prelude.{◌≡◌, ◌+◌, ◌^◌, ◌<◌, ◌≤◌};
ghost use Rattle.mq_reach.specs.Counts.{counted};

/// How many lines a script has.
#[derive(Clone, Copy, PartialEq, Eq)]
pub struct Counts {
    /// All lines, blank ones too.
    pub lines: u64,
    /// Those that are commands.
    pub commands: u64,
    /// Those of them that make a subscription, or replace one.
    pub subscriptions: u64,
    /// Those that are not commands, and not blank.
    pub faulty: u64,
    /// The number of the first of these.
    pub first_faulty: Option<u64>,
}

/// What a line is counted as.
#[derive(Clone, Copy, PartialEq, Eq)]
pub(crate) enum LineKind {
    Subscription,
    /// Another command.
    Command,
    NoCommand,
    Blank,
}

impl Counts {
    pub(crate) fn new() -> Counts
        ensures { result ≡ record {
          lines = 0;
          commands = 0;
          subscriptions = 0;
          faulty = 0;
          first_faulty = None;
        } }
    {
        Counts {
            lines: 0,
            commands: 0,
            subscriptions: 0,
            faulty: 0,
            first_faulty: None,
        }
    }

    /// One line more.
    pub(crate) fn with_line(self, kind: LineKind) -> Counts
        requires lines { self.lines + 1 < 2 ^ 64 }
        requires commands { self.commands ≤ self.lines }
        requires subscriptions { self.subscriptions ≤ self.lines }
        requires faulty { self.faulty ≤ self.lines }
        ensures { result ≡ counted self kind }
    {
        let lines = self.lines + 1;
        match kind {
            LineKind::Subscription => Counts {
                lines,
                commands: self.commands + 1,
                subscriptions: self.subscriptions + 1,
                ..self
            },
            LineKind::Command => Counts {
                lines,
                commands: self.commands + 1,
                ..self
            },
            LineKind::NoCommand => Counts {
                lines,
                faulty: self.faulty + 1,
                first_faulty: self.first_faulty.or(Some(lines)),
                ..self
            },
            LineKind::Blank => Counts { lines, ..self },
        }
    }
}
