ghost use Rattle.std.specs.Prelude.{◌≡◌};
ghost use Rattle.mq_run.specs.Wrapped.{reader_of, source_failures, writer_of, sink_failures};
ghost use Rattle.mq_run.specs.Wrapped.{flushed_contents};

use crate::devices::count::Count;
use crate::devices::device::{DeviceFault, Sink, Source};
use std::io::{Read, Write};
use std::snapshot::Snapshot;

/// A source over a reader. It passes on one call each.
#[derive(Drop)]
pub struct StdSource<R> {
    inner: R,
    failed: Count,
}

impl<R: Read> StdSource<R> {
    pub fn new(inner: R) -> Self
        ensures { reader_of result ≡ inner }
    {
        StdSource {
            inner,
            failed: Count::new(),
        }
    }

    pub fn into_inner(self) -> R
        ensures { result ≡ reader_of self }
    {
        let StdSource { inner, failed: _ } = self;
        inner
    }
}

impl<R: Read> Source for StdSource<R> {
    ghost to_come = { λ s. R.remaining (reader_of s) };

    ghost failures = { λ s. source_failures s };

    fn read(&mut self, buf: &mut [u8]) -> Result<usize, DeviceFault> {
        match self.inner.read(buf) {
            Ok(n) => Ok(n),
            Err(_) => {
                self.failed.tick();
                Err(DeviceFault)
            }
        }
    }
}

/// A sink over a writer. It passes on one call each.
#[derive(Drop)]
pub struct StdSink<W> {
    inner: W,
    /// The writer as it was after its last flush, for contracts alone.
    flushed: Option<Snapshot<W>>,
    failed: Count,
}

impl<W: Write> StdSink<W> {
    pub fn new(inner: W) -> Self
        ensures { writer_of result ≡ inner }
    {
        StdSink {
            inner,
            flushed: None,
            failed: Count::new(),
        }
    }

    pub fn into_inner(self) -> W
        ensures { result ≡ writer_of self }
    {
        let StdSink {
            inner,
            flushed: _,
            failed: _,
        } = self;
        inner
    }
}

impl<W: Write> Sink for StdSink<W> {
    ghost taken = { λ s. W.contents (writer_of s) };

    ghost flushed = { λ s. flushed_contents W.contents s };

    ghost failures = { λ s. sink_failures s };

    fn write(&mut self, buf: &[u8]) -> Result<usize, DeviceFault> {
        match self.inner.write(buf) {
            Ok(n) => {
                if n == 0 && !buf.is_empty() {
                    self.failed.tick();
                }
                Ok(n)
            }
            Err(_) => {
                self.failed.tick();
                Err(DeviceFault)
            }
        }
    }

    fn flush(&mut self) -> Result<(), DeviceFault> {
        match self.inner.flush() {
            Ok(()) => {
                self.flushed = Some(Snapshot::of(&self.inner));
                Ok(())
            }
            Err(_) => {
                self.failed.tick();
                Err(DeviceFault)
            }
        }
    }
}
