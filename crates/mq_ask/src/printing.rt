ghost use Rattle.std.specs.Io.KnownBytes.{Appends};
ghost use Rattle.std.specs.Prelude.{◌≡◌, IfOk, OnOk, IfErr, string_bytes};
ghost use Rattle.mq_ask.specs.Statuses.{failure_status};

use crate::failure::Failure;
use crate::outcome::Outcome;
use std::alloc::AllocError;
use std::io::Write;

/// Writes all of a text at once.
pub fn print<'a, W: Write>(out: &mut W, text: &str) -> Result<(), Failure<'a>>
    ensures ok { OnOk result (Appends (W.contents out.old) (W.contents out.new) text.now) }
    ensures err { IfErr result (λ failure. failure_status failure ≡ 3) }
{
    if out.write_all(text.as_bytes()).is_err() {
        return Err(Failure::Write);
    }
    match out.flush() {
        Ok(()) => Ok(()),
        Err(_) => Err(Failure::Write),
    }
}

/// Writes all of an answer at once, if there was memory for it, and gives what it comes to.
pub fn print_outcome<'a, W: Write>(
    out: &mut W,
    answer: Result<String, AllocError>,
    outcome: Outcome,
) -> Result<Outcome, Failure<'a>>
    ensures ok { IfOk result (λ shown. shown ≡ outcome) }
    ensures printed { IfOk answer (λ text. OnOk result
        (Appends (W.contents out.old) (W.contents out.new) (string_bytes text))) }
    ensures err { IfErr result (λ failure. failure_status failure ≡ 3) }
{
    let text = answer?;
    print(out, text.as_str())?;
    Ok(outcome)
}
