//! Which members of groups a message may be sent to.
ghost use Rattle.std.specs.Prelude.{◌≡◌, ℕ, Bool, List};

/// A test of client ids. Of each group the first member that passes is served.
pub trait ClientTest {
    /// Whether the client passes.
    ghost passes: { Self → List ℕ → Bool };

    /// Whether the client passes.
    fn passes(&self, client: &str) -> bool
        ensures { result ≡ passes self.now client.now };
}
