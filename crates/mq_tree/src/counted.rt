ghost use Rattle.std.specs.Prelude.{◌≡◌, ℕ};
ghost use Rattle.mq_topic.specs.Prefixes.{capped};

/// A value that holds some number of things.
pub trait Counted {
    /// How many.
    ghost count_of: { Self → ℕ };

    /// How many, at most `u64::MAX`.
    fn count(&self) -> u64
        ensures { result ≡ capped (count_of self.now) };
}
