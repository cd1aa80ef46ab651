ghost use Rattle.std.specs.Prelude.{◌≡◌};
ghost use Rattle.mq_ask.specs.Statuses.{outcome_status, worse};

/// What a question that was answered comes to.
#[derive(Clone, Copy, Drop, PartialEq, Eq)]
pub enum Outcome {
    /// Nothing is to be remarked.
    Clear,
    /// Lists differ, a line is remarked on, or a subscription can receive nothing.
    Remark,
}

impl Outcome {
    /// The exit status.
    pub fn status(self) -> u8
        ensures { result ≡ outcome_status self }
    {
        match self {
            Outcome::Clear => 0,
            Outcome::Remark => 1,
        }
    }

    /// What both of two answers come to: nothing is to be remarked only where nothing is in either.
    pub fn and(self, other: Outcome) -> Outcome
        ensures { result ≡ worse self other }
    {
        match self {
            Outcome::Clear => other,
            Outcome::Remark => Outcome::Remark,
        }
    }
}
