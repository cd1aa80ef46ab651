//! A script that is read line by line.
use crate::traffic::Traffic;
use mq_jsonl::{LineFeeder, PIECE, SCRIPT_LIMIT};
use std::alloc::{AllocError, Global};
use std::io::{self, ErrorKind, Read};

/// Why a script isn't read to its end.
#[derive(Drop)]
pub enum TrafficFault {
    /// The reader failed.
    Read(io::Error),
    /// The script has more than 4,294,967,296 bytes.
    TooLong,
    /// There was no memory.
    Memory,
}

impl From<AllocError> for TrafficFault {
    ghost use Rattle.std.specs.Prelude.{◌≡◌};
    ghost use Rattle.mq_traffic.specs.declared.reading.TrafficFault.TheVariants.{Memory};

    ghost from_gives = { λ _ fault. fault ≡ Memory };

    fn from(_: AllocError) -> Self {
        TrafficFault::Memory
    }
}

impl From<io::Error> for TrafficFault {
    fn from(error: io::Error) -> Self {
        match error.kind() {
            ErrorKind::OutOfMemory => TrafficFault::Memory,
            _ => TrafficFault::Read(error),
        }
    }
}

// Takes bytes of the script, and the lines that they end.
fn take(
    traffic: &mut Traffic,
    alloc: Global,
    feeder: &mut LineFeeder,
    bytes: &[u8],
) -> Result<(), AllocError> {
    let mut rest = bytes;
    'lines: while let Some(others) = feeder.take_line(rest)? {
        traffic.take_line(alloc, feeder.line())?;
        rest = others;
    }
    Ok(())
}

// Reads the script, and takes its whole lines.
fn read_lines<R: Read>(
    traffic: &mut Traffic,
    alloc: Global,
    feeder: &mut LineFeeder,
    reader: &mut R,
    piece: &mut [u8],
) -> Result<(), TrafficFault> {
    for _ in 0..u64::MAX {
        let n = match reader.read(piece) {
            Ok(n) => n,
            Err(error) => match error.kind() {
                ErrorKind::Interrupted => continue,
                _ => return Err(TrafficFault::from(error)),
            },
        };
        if n == 0 {
            return Ok(());
        }
        if !feeder.admit(n) {
            return Err(TrafficFault::TooLong);
        }
        take(traffic, alloc, feeder, &piece[..n])?;
    }
    Ok(())
}

/// Reads a script: its publishes, by their topics. A line that is not a command is skipped.
pub fn read_traffic<R: Read + Drop>(alloc: Global, reader: R) -> Result<Traffic, TrafficFault> {
    let mut reader = reader;
    let mut piece = vec![in alloc; 0u8; PIECE]?;
    let mut traffic = Traffic::new(alloc);
    let mut feeder = LineFeeder::new(alloc, SCRIPT_LIMIT);
    read_lines(
        &mut traffic,
        alloc,
        &mut feeder,
        &mut reader,
        piece.as_mut_slice(),
    )?;
    if feeder.has_last_piece() {
        traffic.take_line(alloc, feeder.line())?;
    }
    Ok(traffic)
}
