//! The file of a report: never one that is read, and whole or as it was.
ghost use Rattle.std.specs.Prelude.{◌≡◌, IfErr};
ghost use Rattle.mq_ask.specs.Statuses.{failure_status};

use mq_ask::Failure;
use std::alloc::{AllocError, Global};
use std::fs::{self, File};
use std::io::{self, ErrorKind, Write};
use std::os::unix::fs::MetadataExt;
use std::rt::Files;

// The path of what is read for this file: for `-` that of standard input.
fn path_read(file: &str) -> &str {
    if file == "-" {
        return "/dev/stdin";
    }
    file
}

/// Whether the file that is written is the one that is read, by whatever name or link.
pub(crate) fn is_read_file<R: Files>(rt: &R, written: &str, read: &str) -> bool {
    if written == read {
        return true;
    }
    match (fs::metadata(rt, written), fs::metadata(rt, path_read(read))) {
        (Ok(one), Ok(other)) => one.dev() == other.dev() && one.ino() == other.ino(),
        _ => false,
    }
}

// How many names are tried for the file beside the report's.
const NAMES: u8 = 100;

// Whether another file can take the place of this one: a file, and no link or device, or none.
fn is_replaceable<R: Files>(rt: &R, file: &str) -> bool {
    match fs::symlink_metadata(rt, file) {
        Ok(known) => known.is_file(),
        Err(error) => error.kind() == ErrorKind::NotFound,
    }
}

// A new file beside this one, with its name; none where none can be made.
fn create_beside<R: Files>(
    rt: &R,
    alloc: Global,
    file: &str,
) -> Result<Option<(String, R::File)>, AllocError> {
    for number in 0..NAMES {
        let name = format!(in alloc; "{file}.{number}.part")?;
        match File::create_new(rt, name.as_str()) {
            Ok(created) => return Ok(Some((name, created))),
            Err(error) if error.kind() == ErrorKind::AlreadyExists => {}
            Err(_) => return Ok(None),
        }
    }
    Ok(None)
}

// Gives the file beside it the permissions of the one whose place it will take, if there is one.
fn keep_permissions<R: Files>(rt: &R, file: &str, beside: &str) -> io::Result<()> {
    match fs::metadata(rt, file) {
        Ok(known) => fs::set_permissions(rt, beside, known.permissions()),
        Err(_) => Ok(()),
    }
}

/// A report that is to be written.
pub(crate) struct Report<'a> {
    file: &'a str,
    text: String,
    // The file beside it that has the text already, and takes its place.
    beside: Option<String>,
}

// Opaque to callers' proofs: one step, and not one for each field (docs/explanation/gate.md).
impl Drop for Report<'_> {
    fn drop(self) {
        let Report {
            file: _,
            text: _,
            beside: _,
        } = self;
    }
}

// Writes the text into a file beside this one, and answers its name; none where it can't be made,
// or can't take the place of this one.
fn written_beside<'a, R: Files>(
    rt: &R,
    alloc: Global,
    file: &'a str,
    text: &str,
) -> Result<Option<String>, Failure<'a>>
    ensures { IfErr result (λ failure. failure_status failure ≡ 3) }
{
    if !is_replaceable(rt, file) {
        return Ok(None);
    }
    let Some((name, mut created)) = create_beside(rt, alloc, file)? else {
        return Ok(None);
    };
    let written = created.write_all(text.as_bytes());
    let done = written.and_then(|_| keep_permissions(rt, file, name.as_str()));
    match done {
        Ok(()) => Ok(Some(name)),
        Err(error) => {
            let _ = fs::remove_file(rt, name.as_str());
            Err(Failure::Unwritten(file, error))
        }
    }
}

impl<'a> Report<'a> {
    ghost use Rattle.std.specs.Prelude.{◌≡◌, IfErr};
    ghost use Rattle.mq_ask.specs.Statuses.{failure_status};

    /// A report with this text, which is put beside the file until the answer is written.
    pub(crate) fn prepare<R: Files>(
        rt: &R,
        alloc: Global,
        file: &'a str,
        text: String,
    ) -> Result<Report<'a>, Failure<'a>>
        ensures { IfErr result (λ failure. failure_status failure ≡ 3) }
    {
        let beside = written_beside(rt, alloc, file, text.as_str())?;
        Ok(Report { file, text, beside })
    }

    /// Puts it in the place of the file.
    pub(crate) fn finish<R: Files>(self, rt: &R) -> Result<(), Failure<'a>>
        ensures { IfErr result (λ failure. failure_status failure ≡ 3) }
    {
        let Report { file, text, beside } = self;
        let done = match &beside {
            Some(name) => fs::rename(rt, name.as_str(), file),
            None => fs::write(rt, file, text.as_str()),
        };
        match done {
            Ok(()) => Ok(()),
            Err(error) => Err(Failure::Unwritten(file, error)),
        }
    }

    /// Leaves the file as it was.
    pub(crate) fn discard<R: Files>(self, rt: &R) {
        let Report {
            file: _,
            text: _,
            beside,
        } = self;
        if let Some(name) = beside {
            let _ = fs::remove_file(rt, name.as_str());
        }
    }
}
