//! The router's clock.
ghost use Rattle.std.specs.Prelude.{◌≡◌, ◌≤◌, ◌<◌, ◌+◌, ◌-◌, ◌^◌, IfSome, IfNone};
ghost use Rattle.mq_world.specs.Clock.{last_moment, deadline_of, time_left};
ghost use Rattle.mq_world.specs.Sessions.{session_end};

/// The moment, in seconds from the start: at most 1,000,000,000,000.
#[derive(Clone, Copy)]
pub struct Clock {
    pub moment: u64,
    ghost within: { moment ≤ last_moment },
}

const LAST_MOMENT: u64 = 1_000_000_000_000;

impl Clock {
    pub fn start() -> Clock
        ensures { result.moment ≡ 0 }
    {
        Clock { moment: 0 }
    }

    /// The clock some seconds later, unless that is past the last moment.
    pub fn later(self, seconds: u64) -> Option<Clock>
        ensures some { IfSome result (λ clock. clock.moment ≡ self.moment + seconds) }
        ensures none { IfNone result (last_moment < self.moment + seconds) }
    {
        if seconds > LAST_MOMENT - self.moment {
            return None;
        }
        Some(Clock {
            moment: self.moment + seconds,
        })
    }

    /// The moment at which a message that is published now expires.
    pub fn deadline(self, expiry: Option<u32>) -> Option<u64>
        ensures value { result ≡ deadline_of self.moment expiry }
        ensures near { IfSome result (λ deadline. deadline < self.moment + 2 ^ 32) }
    {
        match expiry {
            None => None,
            Some(seconds) => Some(self.moment + seconds as u64),
        }
    }

    /// The end of a session whose connection ends now: the greatest interval stands for ever.
    pub fn session_end(self, interval: u32) -> Option<u64>
        ensures { result ≡ session_end self.moment interval }
    {
        if interval == u32::MAX {
            return None;
        }
        Some(self.moment + interval as u64)
    }

    /// What is left until a deadline, if there is one.
    pub fn time_left(self, deadline: Option<u64>) -> Option<u32>
        requires { IfSome deadline (λ d. d < self.moment + 2 ^ 32) }
        ensures { result ≡ time_left self.moment deadline }
    {
        match deadline {
            None => None,
            Some(deadline) => Some(self.left(deadline)),
        }
    }

    // What is left until a deadline.
    fn left(self, deadline: u64) -> u32
        requires { deadline < self.moment + 2 ^ 32 }
        ensures { result ≡ deadline - self.moment }
    {
        deadline.saturating_sub(self.moment) as u32
    }
}
