ghost use Rattle.std.specs.Prelude.{◌≡◌, ℕ, ◌+◌, ◌≤◌, List, length, IfOk, OnOk, Option};
ghost use Rattle.std.specs.Io.KnownBytes.{Keeps, ReadConsumes, WriteAppends};
ghost use Rattle.mq_run.specs.Failures.{failed, write_failed};

/// A device has failed. It says no more.
#[derive(Clone, Copy, Debug, Drop, PartialEq, Eq)]
pub struct DeviceFault;

/// Where bytes come from.
pub trait Source {
    /// The bytes that are to come, where they are known.
    ghost to_come: { Self → Option (List ℕ) };

    /// How many calls failed.
    ghost failures: { Self → ℕ };

    /// Reads at most as many bytes as `buf` has, to its front, and answers how many. It answers 0 only where nothing is
    /// to come, or `buf` is empty. A call that fails gives no byte.
    fn read(&mut self, buf: &mut [u8]) -> Result<usize, DeviceFault>
        ensures bound { IfOk result (λ n. n ≤ length buf.new) }
        ensures bytes { ReadConsumes (to_come self.old) (to_come self.new) result buf.new }
        ensures counted { failures self.new ≡ failures self.old + failed result };
}

/// Where bytes go.
pub trait Sink {
    /// The bytes that were taken, where they are known.
    ghost taken: { Self → Option (List ℕ) };

    /// The bytes that were taken when they were last handed on, where they are known.
    ghost flushed: { Self → Option (List ℕ) };

    /// How many calls failed.
    ghost failures: { Self → ℕ };

    /// Takes bytes from the front of `buf`, and answers how many. To take none of at least one counts as a failure. A
    /// call that fails takes no byte.
    fn write(&mut self, buf: &[u8]) -> Result<usize, DeviceFault>
        ensures bound { IfOk result (λ n. n ≤ length buf.now) }
        ensures bytes { WriteAppends (taken self.old) (taken self.new) result buf.now }
        ensures counted { failures self.new ≡ failures self.old
            + write_failed result (length buf.now) };

    /// Hands on what it has taken.
    fn flush(&mut self) -> Result<(), DeviceFault>
        ensures bytes { Keeps (taken self.old) (taken self.new) }
        ensures flushed { OnOk result (flushed self.new ≡ taken self.new) }
        ensures counted { failures self.new ≡ failures self.old + failed result };
}
