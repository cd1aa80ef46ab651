ghost use Rattle.std.specs.Prelude.{◌≡◌};
ghost use Rattle.mq_world.specs.World.{default_limits};
ghost use Rattle.mq_world.specs.Views.{limits_of};

/// How much a router keeps for clients.
#[derive(Clone, Copy, Debug, PartialEq, Eq)]
pub struct Limits {
    /// How many messages may be retained; without a number there is no limit.
    pub retained: Option<u32>,
    /// How many copies may wait for a client that is away; with 0 none waits.
    pub queued: u32,
}

impl Limits {
    /// No limit on retained messages, and 1,000 copies that wait for a client.
    pub fn new() -> Limits
        ensures { limits_of result ≡ default_limits }
    {
        Limits {
            retained: None,
            queued: 1_000,
        }
    }
}
