//! The lines of a script, read in little memory.
ghost use Rattle.std.specs.Prelude.{◌≡◌, ◌+◌, ◌<◌, ◌≤◌, ◌^◌, [], ℕ, List, IfOk, IfErr};
ghost use Rattle.std.specs.Prelude.{OnOk, length};
ghost use Rattle.std.specs.Io.KnownBytes.{Consumes, IsAtEnd};
ghost use Rattle.mq_acl.specs.Views.{row_views};
ghost use Rattle.mq_jsonl.specs.Lines.{all_lines};
ghost use Rattle.mq_jsonl.specs.Feeding.{open_line};
ghost use Rattle.mq_reach.specs.Reach.{list_by};
ghost use Rattle.mq_reach.specs.Search.{IsFound};
ghost use Rattle.mq_reach.specs.Faults.{FailsIn, IsFaultAmong, IsScriptFault, StopsWith};
ghost use Rattle.mq_jsonl.specs.Feeding.{script_limit};
ghost use Rattle.mq_reach.specs.Script.{HoldsScript, TakesBytes};
ghost use Rattle.mq_reach.specs.Subscriptions.{subscriptions};

use crate::question::{SearchFault, list_of};
use crate::reach::Reach;
use crate::search::{Findings, Search};
use mq_acl::{Row, Rules};
use mq_jsonl::{LineFeeder, PIECE, SCRIPT_LIMIT};
use std::alloc::Global;
use std::io::{self, Read};

/// Why a script isn't searched to its end.
#[derive(Drop)]
pub enum ScriptFault {
    /// The reader failed.
    Read(io::Error),
    /// The script has more than 4,294,967,296 bytes.
    TooLong,
    /// It isn't known of one of its subscriptions whether it can receive nothing, or there was no memory.
    Search(SearchFault),
}

impl From<SearchFault> for ScriptFault {
    ghost use Rattle.std.specs.Prelude.{◌≡◌};
    ghost use Rattle.mq_reach.specs.declared.reading.ScriptFault.TheVariants.{Search};

    ghost from_gives = { λ e fault. fault ≡ Search e };

    fn from(fault: SearchFault) -> Self {
        ScriptFault::Search(fault)
    }
}

/// How far a script is read.
#[derive(Drop)]
struct Reading {
    search: Search,
    feeder: LineFeeder,
}

// Takes bytes of the script, and searches the lines that they end.
fn take(reading: &mut Reading, alloc: Global, list: &Reach, bytes: &[u8]) -> Result<(), SearchFault>
    requires { reading.old.search.counts.lines + length (open_line reading.old.feeder)
        + length bytes.now < 2 ^ 64 }
    ensures takes { OnOk result (TakesBytes list.now reading.old reading.new
        bytes.now) }
    ensures lines { OnOk result (reading.new.search.counts.lines
        + length (open_line reading.new.feeder) ≤ reading.old.search.counts.lines
        + length (open_line reading.old.feeder) + length bytes.now) }
    ensures room { OnOk result (reading.new.feeder.room ≡ reading.old.feeder.room) }
    ensures err { IfErr result (FailsIn list.now reading.old bytes.now) }
{
    let mut rest = bytes;
    'lines: while let Some(others) = reading.feeder.take_line(rest)? {
        reading
            .search
            .take_line(alloc, list, reading.feeder.line())?;
        rest = others;
    }
    Ok(())
}

// Searches a last piece that isn't empty.
fn finish(mut reading: Reading, alloc: Global, list: &Reach) -> Result<Findings, SearchFault>
    requires { reading.search.counts.lines + length (open_line reading.feeder) < 2 ^ 64 }
    ensures ok { (script : List ℕ) → HoldsScript list.now script reading
        → IfOk result (IsFound list.now (all_lines script)) }
    ensures err { (script : List ℕ) → HoldsScript list.now script reading
        → IfErr result (IsFaultAmong list.now (subscriptions (all_lines script))) }
{
    if !reading.feeder.has_last_piece() {
        return Ok(reading.search.findings(alloc)?);
    }
    reading
        .search
        .take_line(alloc, list, reading.feeder.line())?;
    Ok(reading.search.findings(alloc)?)
}

// Reads the script, and searches its whole lines.
fn read_lines<R: Read>(
    reading: &mut Reading,
    alloc: Global,
    list: &Reach,
    reader: &mut R,
    piece: &mut [u8],
) -> Result<(), ScriptFault>
    requires piece { 0 < length piece.old }
    requires lines { reading.old.search.counts.lines ≡ 0 }
    requires line { open_line reading.old.feeder ≡ [] }
    requires room { reading.old.feeder.room ≡ script_limit }
    ensures ok { OnOk result ((script : List ℕ)
        × Consumes (R.remaining reader.old) (R.remaining reader.new) script
        × IsAtEnd (R.remaining reader.new)
        × TakesBytes list.now reading.old reading.new script) }
    ensures lines { OnOk result (reading.new.search.counts.lines
        + length (open_line reading.new.feeder) ≤ script_limit) }
    ensures err { IfErr result (StopsWith list.now reading.old
        (R.remaining reader.old) (R.remaining reader.new)) }
{
    'reads: loop {
        let n = match reader.read(piece) {
            Ok(n) => n,
            Err(error) => return Err(ScriptFault::Read(error)),
        };
        if n == 0 {
            return Ok(());
        }
        if !reading.feeder.admit(n) {
            return Err(ScriptFault::TooLong);
        }
        take(reading, alloc, list, &piece[..n])?;
    }
}

/// Reads a script, and finds its subscriptions that can receive nothing under these rows, which
/// decide by these rules: those of a client that may read no topic that the filter matches. Who is
/// connected with which user name, the commands of the script say; its `acl` lines say nothing
/// here, and a line that is not a command is skipped, and counted.
pub fn find_unreached<R: Read>(
    alloc: Global,
    rules: Rules,
    rows: &[Row],
    reader: &mut R,
) -> Result<Findings, ScriptFault>
    ensures ok { IfOk result (λ findings. (script : List ℕ)
        × Consumes (R.remaining reader.old) (R.remaining reader.new) script
        × IsAtEnd (R.remaining reader.new)
        × IsFound (list_by rules (row_views rows.now)) (all_lines script) findings) }
    ensures err { IfErr result (IsScriptFault rules rows.now
        (R.remaining reader.old) (R.remaining reader.new)) }
{
    let list = list_of(alloc, rules, rows)?;
    let Ok(mut piece) = vec![in alloc; 0u8; PIECE] else {
        return Err(ScriptFault::Search(SearchFault::Memory));
    };
    let mut reading = Reading {
        search: Search::new(alloc),
        feeder: LineFeeder::new(alloc, SCRIPT_LIMIT),
    };
    read_lines(&mut reading, alloc, &list, reader, piece.as_mut_slice())?;
    Ok(finish(reading, alloc, &list)?)
}
