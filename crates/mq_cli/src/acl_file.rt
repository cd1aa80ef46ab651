//! Access list files.
ghost use Rattle.std.specs.Prelude.{◌<◌, Err, IfOk, IfErr, length};
ghost use Rattle.std.specs.Io.KnownBytes.{Consumes};
ghost use Rattle.mq_cli.specs.AclFile.{AclFileEnds, IsAnswerTo, IsWholeFile, acl_file_limit};
ghost use Rattle.mq_run.specs.Ending.{watch};

use mq_acl::{Acl, AclFault, AclKind, Rules};
use mq_jsonl::PIECE;
use mq_run::Source;
use std::alloc::{AllocError, Global};
use std::str;
use thiserror::Error;

/// How many bytes the file may have.
const FILE_LIMIT: usize = 16_777_216;

/// Why an access list file gives no access list: the first of these whose condition holds. `Memory` may stand in place
/// of any answer.
#[derive(Clone, Copy, Debug, PartialEq, Eq, Error)]
pub enum AclFileFault {
    /// The reader failed.
    #[error("read fault")]
    Read,
    /// The file has more than 16,777,216 bytes.
    #[error("too long")]
    TooLong,
    /// The file isn't UTF-8.
    #[error("not UTF-8")]
    Utf8,
    /// A line has a fault.
    #[error("line {}: {:?}", .0.line, .0.kind)]
    Line(AclFault),
    /// There was no memory.
    #[error("out of memory")]
    Memory,
}

impl From<AllocError> for AclFileFault {
    ghost use Rattle.std.specs.Prelude.{◌≡◌};
    ghost use Rattle.mq_cli.specs.declared.acl_file.AclFileFault.TheVariants.{Memory};

    ghost from_gives = { λ _ fault. fault ≡ Memory };

    fn from(_: AllocError) -> AclFileFault {
        AclFileFault::Memory
    }
}

/// Reads the bytes of a file of at most `limit` bytes, in pieces.
fn read_file<R: Source>(
    alloc: Global,
    reader: &mut R,
    piece: &mut [u8],
    limit: usize,
) -> Result<Vec<u8>, AclFileFault>
    requires { 0 < length piece.old }
    ensures ok { let seen = watch R.to_come R.failures reader.old reader.new in
        IfOk result (λ bytes. Consumes seen.before seen.after bytes.items
        × IsWholeFile limit bytes.items seen.after seen.calls) }
    ensures err { IfErr result
        (λ fault. (rules : Rules) → AclFileEnds limit rules (Err fault)
        (watch R.to_come R.failures reader.old reader.new)) }
{
    let mut bytes = Vec::new(alloc);
    'reads: loop {
        let n = match reader.read(piece) {
            Ok(n) => n,
            Err(_) => return Err(AclFileFault::Read),
        };
        if n == 0 {
            return Ok(bytes);
        }
        if n > limit - bytes.len() {
            return Err(AclFileFault::TooLong);
        }
        bytes.extend_from_slice(&piece[..n])?;
    }
}

/// The access list that the bytes of a file are, by these rules.
fn parse_acl(alloc: Global, rules: Rules, bytes: &[u8]) -> Result<Acl, AclFileFault>
    ensures { IsAnswerTo rules bytes.now result }
{
    let text = match str::from_utf8(bytes) {
        Ok(text) => text,
        Err(_) => return Err(AclFileFault::Utf8),
    };
    match Acl::read_by(alloc, rules, text) {
        Ok(acl) => Ok(acl),
        Err(fault) => match fault.kind {
            AclKind::Memory => Err(AclFileFault::Memory),
            _ => Err(AclFileFault::Line(fault)),
        },
    }
}

/// Reads an access list by our own rules from the bytes that a reader gives, in whatever pieces.
/// Memory is that of the file and of its access list.
pub fn read_acl<R: Source>(alloc: Global, reader: &mut R) -> Result<Acl, AclFileFault>
    ensures { AclFileEnds acl_file_limit Rules.Own result
        (watch R.to_come R.failures reader.old reader.new) }
{
    read_acl_by(alloc, Rules::Own, reader)
}

/// The same by these rules.
pub fn read_acl_by<R: Source>(
    alloc: Global,
    rules: Rules,
    reader: &mut R,
) -> Result<Acl, AclFileFault>
    ensures { AclFileEnds acl_file_limit rules result
        (watch R.to_come R.failures reader.old reader.new) }
{
    let Ok(mut piece) = vec![in alloc; 0u8; PIECE] else {
        return Err(AclFileFault::Memory);
    };
    let bytes = read_file(alloc, reader, piece.as_mut_slice(), FILE_LIMIT)?;
    parse_acl(alloc, rules, bytes.as_slice())
}
