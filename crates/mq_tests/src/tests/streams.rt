//! The wrappers of std's streams: each passes on one call, and a call that is interrupted isn't made again.
use mq_cli::{DeviceFault, Sink, Source, StdSink, StdSource};
use std::io::{self, ErrorKind, Read, Write};

/// A stream whose first call is interrupted; each later one gives or takes all that it may.
#[derive(Drop)]
struct Interrupted {
    was_interrupted: bool,
}

impl Interrupted {
    fn new() -> Self {
        Interrupted {
            was_interrupted: false,
        }
    }

    fn call(&mut self) -> io::Result<()> {
        if self.was_interrupted {
            return Ok(());
        }
        self.was_interrupted = true;
        Err(io::Error::from(ErrorKind::Interrupted))
    }
}

impl Read for Interrupted {
    fn read(&mut self, buf: &mut [u8]) -> io::Result<usize> {
        self.call()?;
        Ok(buf.len())
    }
}

impl Write for Interrupted {
    fn write(&mut self, buf: &[u8]) -> io::Result<usize> {
        self.call()?;
        Ok(buf.len())
    }

    fn flush(&mut self) -> io::Result<()> {
        self.call()
    }
}

#[test]
fn interrupted_reads(rt: HostRuntime) {
    let mut source = StdSource::new(Interrupted::new());
    let mut piece = [0; 4];
    let calls = (source.read(&mut piece), source.read(&mut piece));
    assert!(rt; calls == (Err(DeviceFault), Ok(4)));
}

#[test]
fn interrupted_writes(rt: HostRuntime) {
    let mut sink = StdSink::new(Interrupted::new());
    let calls = (sink.write(b"a"), sink.write(b"a"));
    assert!(rt; calls == (Err(DeviceFault), Ok(1)));
}

#[test]
fn interrupted_flushes(rt: HostRuntime) {
    let mut sink = StdSink::new(Interrupted::new());
    let flushed = sink.flush();
    assert!(rt; flushed == Err(DeviceFault) && sink.into_inner().was_interrupted);
}
