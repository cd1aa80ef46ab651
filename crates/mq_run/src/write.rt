//! Writes to a sink.
ghost use Rattle.std.specs.Prelude.{◌≡◌, ◌+◌, OnOk, OnErr, IfErr};
ghost use Rattle.std.specs.Io.KnownBytes.{Appends, Keeps};
ghost use Rattle.mq_run.specs.Ending.{AppendsSome, failures_of};

use crate::devices::Sink;
use crate::outcome::RunFault;

/// Writes all of a text, in as many calls as it takes.
pub fn write_all<W: Sink>(writer: &mut W, text: &[u8]) -> Result<(), RunFault>
    ensures ok { OnOk result (Appends (W.taken writer.old) (W.taken writer.new) text.now) }
    ensures err { OnErr result (AppendsSome (W.taken writer.old) (W.taken writer.new) text.now) }
    ensures counted { W.failures writer.new ≡ W.failures writer.old + failures_of result }
    ensures kind { IfErr result (λ e. e ≡ RunFault.Write) }
{
    let mut at = 0;
    while at < text.len() {
        match writer.write(&text[at..]) {
            Ok(n) => {
                if n == 0 {
                    return Err(RunFault::Write);
                }
                at += n;
            }
            Err(_) => return Err(RunFault::Write),
        }
    }
    Ok(())
}

/// Hands on all that the writer has taken.
pub fn flush<W: Sink>(writer: &mut W) -> Result<(), RunFault>
    ensures kept { Keeps (W.taken writer.old) (W.taken writer.new) }
    ensures flushed { OnOk result (W.flushed writer.new ≡ W.taken writer.new) }
    ensures counted { W.failures writer.new ≡ W.failures writer.old + failures_of result }
    ensures kind { IfErr result (λ e. e ≡ RunFault.Write) }
{
    match writer.flush() {
        Ok(()) => Ok(()),
        Err(_) => Err(RunFault::Write),
    }
}
