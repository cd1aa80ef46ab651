//! The run of a script.
ghost use Rattle.std.specs.Prelude.{◌≡◌, ◌≢◌, ◌+◌, ◌≤◌, ◌<◌, [], ℕ, List, Err};
ghost use Rattle.std.specs.Prelude.{OnOk, IfErr, IsTrue, false, length};
ghost use Rattle.std.specs.Io.KnownBytes.{Consumes, Keeps};
ghost use Rattle.mq_world.specs.World.{World};
ghost use Rattle.mq_router.specs.StandsFor.{StandsFor};
ghost use Rattle.mq_jsonl.specs.Feeding.{open_line, script_limit};
ghost use Rattle.mq_run.specs.Ending.{AnswersWhole, EndsOver, failures_of, watch};
ghost use Rattle.mq_run.specs.Running.{SoFar, TakesAll};

use crate::devices::{Sink, Source};
use crate::outcome::{RunFault, Summary};
use crate::progress::Progress;
use crate::write::flush;
use mq_jsonl::{PIECE, SCRIPT_LIMIT};
use mq_router::Router;
use std::alloc::Global;

/// How a script is run.
#[derive(Clone, Copy, Debug, PartialEq, Eq)]
pub struct RunOptions {
    /// How many bytes the script may have.
    pub limit: u64,
    /// Whether the answers so far are handed on before each read.
    pub unbuffered: bool,
}

impl RunOptions {
    /// Up to 4,294,967,296 bytes, and the answers are handed on at the end.
    pub fn new() -> RunOptions
        ensures { result ≡ record { limit = script_limit; unbuffered = false } }
    {
        RunOptions {
            limit: SCRIPT_LIMIT,
            unbuffered: false,
        }
    }
}

/// What comes before each read: an unbuffered run hands on all that its writer has taken.
fn before_read<W: Sink>(writer: &mut W, unbuffered: bool) -> Result<(), RunFault>
    ensures kept { Keeps (W.taken writer.old) (W.taken writer.new) }
    ensures flushed { IsTrue unbuffered → OnOk result (W.flushed writer.new ≡ W.taken writer.new) }
    ensures counted { W.failures writer.new ≡ W.failures writer.old + failures_of result }
    ensures kind { IfErr result (λ e. e ≡ RunFault.Write) }
{
    if !unbuffered {
        return Ok(());
    }
    flush(writer)
}

/// Reads the script, and answers its whole lines.
fn read_lines<R: Source, W: Sink>(
    progress: &mut Progress,
    options: RunOptions,
    reader: &mut R,
    writer: &mut W,
    piece: &mut [u8],
) -> Result<(), RunFault>
    requires piece { 0 < length piece.old }
    requires lines { progress.old.summary.lines ≡ 0 }
    requires line { open_line progress.old.feeder ≡ [] }
    requires room { progress.old.feeder.room ≡ options.limit }
    ensures ok { OnOk result ((given : List ℕ)
        × Consumes (R.to_come reader.old) (R.to_come reader.new) given
        × TakesAll options.limit progress.old progress.new given (R.to_come reader.new)
        (W.taken writer.old) (W.taken writer.new)) }
    ensures ok_count { OnOk result ((R.failures reader.new ≡ R.failures reader.old)
        × (W.failures writer.new ≡ W.failures writer.old)) }
    ensures err { (w : World) → SoFar w [] progress.old (W.taken writer.old) (W.taken writer.old)
        → IfErr result (λ e.
        EndsOver options.limit w (Err e) (watch R.to_come R.failures reader.old reader.new)
        (watch W.taken W.failures writer.old writer.new)) }
    ensures lines { OnOk result (progress.new.summary.lines
        + length (open_line progress.new.feeder) ≤ options.limit) }
    ensures unbuffered { IsTrue options.unbuffered → R.failures reader.new ≢ R.failures reader.old
        → W.flushed writer.new ≡ W.taken writer.new }
{
    'reads: loop {
        before_read(writer, options.unbuffered)?;
        let n = match reader.read(piece) {
            Ok(n) => n,
            Err(_) => return Err(RunFault::Read),
        };
        if n == 0 {
            return Ok(());
        }
        if !progress.feeder.admit(n) {
            let room = progress.feeder.room() as usize;
            progress.take(&piece[..room], writer)?;
            return Err(RunFault::TooMuch);
        }
        progress.take(&piece[..n], writer)?;
    }
}

/// Reads the script, answers its lines and its last piece, and hands the answers on.
fn answer_all<R: Source, W: Sink>(
    alloc: Global,
    progress: &mut Progress,
    options: RunOptions,
    reader: &mut R,
    writer: &mut W,
) -> Result<Summary, RunFault>
    requires lines { progress.old.summary.lines ≡ 0 }
    requires line { open_line progress.old.feeder ≡ [] }
    requires room { progress.old.feeder.room ≡ options.limit }
    ensures ending { (w : World) → SoFar w [] progress.old (W.taken writer.old) (W.taken writer.old)
        → EndsOver options.limit w result (watch R.to_come R.failures reader.old reader.new)
        (watch W.taken W.failures writer.old writer.new) }
    ensures flushed { OnOk result (W.flushed writer.new ≡ W.taken writer.new) }
    ensures unbuffered { IsTrue options.unbuffered → R.failures reader.new ≢ R.failures reader.old
        → W.flushed writer.new ≡ W.taken writer.new }
{
    let Ok(mut piece) = vec![in alloc; 0u8; PIECE] else {
        return Err(RunFault::Memory);
    };
    read_lines(progress, options, reader, writer, piece.as_mut_slice())?;
    progress.finish(writer)?;
    Ok(progress.summary)
}

/// Runs a script: each line that is not blank is answered, and written, before the next one is
/// applied, and at the end the writer is flushed. Memory is that of the router, of one line and of
/// its answer. Any error ends the run. Of a script longer than its limit the lines that end within
/// it are answered, and then the fault is that it is too long.
pub fn run_with<R: Source, W: Sink>(
    alloc: Global,
    router: Router,
    options: RunOptions,
    reader: &mut R,
    writer: &mut W,
) -> Result<Summary, RunFault>
    // Where the bytes of the devices are known and they don't fail, the script isn't too long and
    // memory suffices, all of the script is answered, and nothing else is written.
    ensures headline { (w : World) → StandsFor router w → AnswersWhole options.limit w result
        (watch R.to_come R.failures reader.old reader.new)
        (watch W.taken W.failures writer.old writer.new) }

    // And how it ends whatever happens.
    ensures ending { (w : World) → StandsFor router w → EndsOver options.limit w result
        (watch R.to_come R.failures reader.old reader.new)
        (watch W.taken W.failures writer.old writer.new) }

    // After Ok the writer has handed on all that it took.
    ensures flushed { OnOk result (W.flushed writer.new ≡ W.taken writer.new) }

    // Any read may fail, and where one does in an unbuffered run, all that was written has been
    // handed on: it was, before that read.
    ensures unbuffered { IsTrue options.unbuffered → R.failures reader.new ≢ R.failures reader.old
        → W.flushed writer.new ≡ W.taken writer.new }
{
    let mut progress = Progress::new(alloc, router, options.limit);
    answer_all(alloc, &mut progress, options, reader, writer)
}

/// Runs a script as `run` does, of at most `limit` bytes.
pub fn run_within<R: Source, W: Sink>(
    alloc: Global,
    router: Router,
    reader: &mut R,
    writer: &mut W,
    limit: u64,
) -> Result<Summary, RunFault>
    ensures headline { (w : World) → StandsFor router w → AnswersWhole limit w result
        (watch R.to_come R.failures reader.old reader.new)
        (watch W.taken W.failures writer.old writer.new) }
    ensures ending { (w : World) → StandsFor router w → EndsOver limit w result
        (watch R.to_come R.failures reader.old reader.new)
        (watch W.taken W.failures writer.old writer.new) }
    ensures flushed { OnOk result (W.flushed writer.new ≡ W.taken writer.new) }
{
    let options = RunOptions {
        limit,
        ..RunOptions::new()
    };
    run_with(alloc, router, options, reader, writer)
}

/// Runs a script of at most 4,294,967,296 bytes, and hands on the answers at the end.
pub fn run<R: Source, W: Sink>(
    alloc: Global,
    router: Router,
    reader: &mut R,
    writer: &mut W,
) -> Result<Summary, RunFault>
    ensures headline { (w : World) → StandsFor router w → AnswersWhole script_limit w result
        (watch R.to_come R.failures reader.old reader.new)
        (watch W.taken W.failures writer.old writer.new) }
    ensures ending { (w : World) → StandsFor router w → EndsOver script_limit w result
        (watch R.to_come R.failures reader.old reader.new)
        (watch W.taken W.failures writer.old writer.new) }
    ensures flushed { OnOk result (W.flushed writer.new ≡ W.taken writer.new) }
{
    run_with(alloc, router, RunOptions::new(), reader, writer)
}

/// Runs a script as `run` does, and hands on the answers so far before each read, so that whoever waits for them before
/// sending more of the script gets them.
pub fn run_unbuffered<R: Source, W: Sink>(
    alloc: Global,
    router: Router,
    reader: &mut R,
    writer: &mut W,
) -> Result<Summary, RunFault>
    ensures headline { (w : World) → StandsFor router w → AnswersWhole script_limit w result
        (watch R.to_come R.failures reader.old reader.new)
        (watch W.taken W.failures writer.old writer.new) }
    ensures ending { (w : World) → StandsFor router w → EndsOver script_limit w result
        (watch R.to_come R.failures reader.old reader.new)
        (watch W.taken W.failures writer.old writer.new) }
    ensures flushed { OnOk result (W.flushed writer.new ≡ W.taken writer.new) }
    ensures unbuffered { R.failures reader.new ≢ R.failures reader.old
        → W.flushed writer.new ≡ W.taken writer.new }
{
    let options = RunOptions {
        unbuffered: true,
        ..RunOptions::new()
    };
    run_with(alloc, router, options, reader, writer)
}
