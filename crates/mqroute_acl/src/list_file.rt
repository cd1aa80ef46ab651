//! The file of an access list.
ghost use Rattle.std.specs.Prelude.{◌≡◌, ◌≤◌, ℕ, List, IfOk, IfErr, IfSome, IsUtf8, length, take};
ghost use Rattle.std.specs.Prelude.{string_bytes};
ghost use Rattle.mqroute_acl.specs.ListFile.{bad_line, file_limit, line_after, IsFaultIn};

use std::alloc::Global;
use std::io::{self, ErrorKind, Read};

/// How many bytes the file may have.
const FILE_LIMIT: usize = 16_777_216;

/// Why a file gives no text. `Memory` may stand in place of any answer.
#[derive(Clone, Copy, Drop)]
pub(crate) enum FileFault {
    /// The reader failed.
    Read(io::Error),
    /// The file has more than 16,777,216 bytes.
    TooLong,
    /// The file isn't UTF-8: the line with this number has the first byte that makes it none.
    Utf8(u64),
    /// There was no memory.
    Memory,
}

fn fault_of(error: io::Error) -> FileFault
    ensures { (xs : List ℕ) → IsFaultIn result xs }
{
    match error.kind() {
        ErrorKind::OutOfMemory => FileFault::Memory,
        _ => FileFault::Read(error),
    }
}

// The front of what a reader gives, long enough to know whether it is too long.
fn read_front<R: Read + Drop>(alloc: Global, reader: R) -> Result<Vec<u8>, FileFault>
    ensures ok { IfOk result (λ front. IfSome (R.remaining reader) (λ bytes.
        front.items ≡ take 16777217 bytes)) }
    ensures err { IfErr result (λ fault. (bytes : List ℕ) → IsFaultIn fault bytes) }
{
    let mut front = Vec::new(alloc);
    let mut first = reader.take(FILE_LIMIT as u64 + 1);
    match first.read_to_end(&mut front) {
        Ok(_) => Ok(front),
        Err(error) => Err(fault_of(error)),
    }
}

// The number of the line that goes on behind these bytes.
fn line_behind(bytes: &[u8]) -> u64
    ensures { result ≡ line_after bytes.now }
{
    bytes.iter().filter(|byte| **byte == b'\n').count() as u64 + 1
}

fn text_in(bytes: Vec<u8>) -> Result<String, FileFault>
    ensures ok { IfOk result (λ text. string_bytes text ≡ bytes.items) }
    ensures err { IfErr result (λ fault. (fault ≡ FileFault.Utf8 (bad_line bytes.items))
        × ¬ IsUtf8 bytes.items) }
{
    match String::from_utf8(bytes) {
        Ok(text) => Ok(text),
        Err(error) => {
            let valid = error.utf8_error().valid_up_to();
            Err(FileFault::Utf8(line_behind(&error.as_bytes()[..valid])))
        }
    }
}

/// Reads the text that a reader gives.
pub(crate) fn read_text<R: Read + Drop>(alloc: Global, reader: R) -> Result<String, FileFault>
    ensures ok { IfOk result (λ text. IfSome (R.remaining reader) (λ bytes.
        (string_bytes text ≡ bytes) × (length bytes ≤ file_limit))) }
    ensures err { IfErr result (λ fault. IfSome (R.remaining reader) (IsFaultIn fault)) }
{
    let front = read_front(alloc, reader)?;
    if front.len() > FILE_LIMIT {
        return Err(FileFault::TooLong);
    }
    text_in(front)
}
