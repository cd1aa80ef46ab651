//! Readers and writers that implement `Source` and `Sink` and misbehave where they are set to. Each fails once, and
//! then goes on as if nothing had happened.
ghost use Rattle.std.specs.Prelude.{◌≡◌, ◌+◌, ◌||◌, ℕ, List, Option, None, IsTrue, false};
ghost use Rattle.std.specs.Prelude.{if◌then◌else◌};

use mq_run::{DeviceFault, Sink, Source};

/// A reader that gives at most `most` bytes a call, and fails at the call after `calls` others.
#[derive(Drop)]
pub(crate) struct Script<'a> {
    rest: &'a [u8],
    most: usize,
    calls: usize,
    failed: bool,
    /// How many bytes were given.
    pub(crate) given: usize,
}

impl<'a> Script<'a> {
    pub(crate) fn new(rest: &'a [u8], most: usize) -> Self {
        Script::failing(rest, most, usize::MAX)
    }

    pub(crate) fn failing(rest: &'a [u8], most: usize, calls: usize) -> Self {
        Script {
            rest,
            most: most.max(1),
            calls,
            failed: false,
            given: 0,
        }
    }
}

impl<'a> Source for Script<'a> {
    ghost to_come = { λ _. None };

    ghost failures = { λ s. if s.failed then 1 else 0 };

    fn read(&mut self, buf: &mut [u8]) -> Result<usize, DeviceFault> {
        if self.calls == 0 && !self.failed {
            self.failed = true;
            return Err(DeviceFault);
        }
        self.calls = self.calls.saturating_sub(1);
        let n = buf.len().min(self.rest.len()).min(self.most);
        let (front, back) = self.rest.split_at(n);
        buf[..n].copy_from_slice(front);
        self.rest = back;
        self.given = self.given.saturating_add(n);
        Ok(n)
    }
}

/// A reader that gives spaces without end.
#[derive(Drop)]
pub(crate) struct Spaces;

impl Source for Spaces {
    ghost to_come = { λ _. None };

    ghost failures = { λ _. 0 };

    fn read(&mut self, buf: &mut [u8]) -> Result<usize, DeviceFault> {
        buf.fill(b' ');
        Ok(buf.len())
    }
}

/// How a writer fails.
#[derive(Clone, Copy, PartialEq, Eq)]
pub(crate) enum Trouble {
    /// A write answers an error.
    Write,
    /// A write takes no byte.
    Stall,
    /// A flush answers an error.
    Flush,
}

/// Trouble that comes once, at the call after `calls` others.
#[derive(Drop)]
struct Countdown {
    calls: usize,
    failed: bool,
}

impl Countdown {
    // Whether trouble is due at this call.
    fn is_due(&mut self) -> bool
        ensures failed { self.new.failed ≡ (self.old.failed || result) }
        ensures once { IsTrue result → self.old.failed ≡ false }
    {
        if self.failed {
            return false;
        }
        if self.calls > 0 {
            self.calls -= 1;
            return false;
        }
        self.failed = true;
        true
    }
}

/// A writer that takes at most `most` bytes a call and compares them with what is wanted. It is in trouble at the call
/// of that kind after `calls` others.
#[derive(Drop)]
pub(crate) struct Page<'a> {
    rest: &'a [u8],
    most: usize,
    trouble: Trouble,
    countdown: Countdown,
    // Whether the bytes taken are the first ones of what is wanted.
    is_same: bool,
    taken: usize,
    flushes: usize,
    flushed: usize,
}

impl<'a> Page<'a> {
    pub(crate) fn new(wanted: &'a [u8], most: usize) -> Self {
        Page::failing(wanted, most, Trouble::Write, usize::MAX)
    }

    pub(crate) fn failing(rest: &'a [u8], most: usize, trouble: Trouble, calls: usize) -> Self {
        Page {
            rest,
            most,
            trouble,
            countdown: Countdown {
                calls,
                failed: false,
            },
            is_same: true,
            taken: 0,
            flushes: 0,
            flushed: 0,
        }
    }

    /// How many bytes were taken, if they are the first ones of what is wanted; how often it was flushed; and how many
    /// bytes it had taken at the last flush.
    pub(crate) fn seen(&self) -> (Option<usize>, usize, usize) {
        let taken = if self.is_same { Some(self.taken) } else { None };
        (taken, self.flushes, self.flushed)
    }

    fn take(&mut self, bytes: &[u8])
        ensures { self.new.countdown ≡ self.old.countdown }
    {
        match self.rest.strip_prefix(bytes) {
            Some(rest) => self.rest = rest,
            None => self.is_same = false,
        }
        self.taken = self.taken.saturating_add(bytes.len());
    }
}

impl<'a> Sink for Page<'a> {
    ghost taken = { λ _. None };

    ghost flushed = { λ _. None };

    ghost failures = { λ s. if s.countdown.failed then 1 else 0 };

    fn write(&mut self, buf: &[u8]) -> Result<usize, DeviceFault> {
        if buf.is_empty() {
            return Ok(0);
        }
        if self.trouble != Trouble::Flush && self.countdown.is_due() {
            return match self.trouble {
                Trouble::Stall => Ok(0),
                _ => Err(DeviceFault),
            };
        }
        let n = buf.len().min(self.most.max(1));
        self.take(&buf[..n]);
        Ok(n)
    }

    fn flush(&mut self) -> Result<(), DeviceFault> {
        if self.trouble == Trouble::Flush && self.countdown.is_due() {
            return Err(DeviceFault);
        }
        self.flushes = self.flushes.saturating_add(1);
        self.flushed = self.taken;
        Ok(())
    }
}
