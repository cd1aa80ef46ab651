//! The answer to a line.
ghost use Rattle.std.specs.Prelude.{◌≡◌, IsTrue, OnErr, IfOk};
ghost use Rattle.mq_world.specs.World.{World};
ghost use Rattle.mq_world.specs.Views.{request_of};
ghost use Rattle.mq_world.specs.Refusals.{is_valid};
ghost use Rattle.mq_router.specs.StandsFor.{StandsFor};
ghost use Rattle.mq_run.specs.Running.{IsAnswered, IsSoFar};

use mq_jsonl::{LineFault, Printer, read_line};
use mq_router::Router;
use mq_world::{Command, Refusal};
use std::alloc::{AllocError, Global};

/// Adds the answer to a command, and says whether the command is refused.
#[tactic(auto, unfolding(mq_world::specs::After::next))]
fn answer_command(
    alloc: Global,
    printer: &mut Printer,
    router: &mut Router,
    number: u64,
    command: &Command,
    out: &mut Vec<u8>,
) -> Result<bool, AllocError>
    requires { IsTrue (is_valid (request_of command.now)) }
    ensures ok { (w : World) → StandsFor router.old w → IfOk result (λ refused.
        IsAnswered number w (request_of command.now) refused router.new out.old.items
        out.new.items) }
    ensures err { OnErr result (out.new.items ≡ out.old.items) }
{
    match router.apply(command) {
        Ok(answer) => {
            printer.answer(alloc, number, &answer, out)?;
            Ok(false)
        }
        Err(Refusal::Memory) => Err(AllocError),
        Err(refusal) => {
            printer.refusal(alloc, number, &refusal, out)?;
            Ok(true)
        }
    }
}

/// Adds the answer to a line, and says whether the line is refused.
#[tactic(auto, unfolding(crate::specs::Output::text_of, crate::specs::Output::is_refused, crate::specs::Running::world_then))]
pub fn answer_line(
    alloc: Global,
    printer: &mut Printer,
    router: &mut Router,
    number: u64,
    line: &[u8],
    out: &mut Vec<u8>,
) -> Result<bool, AllocError>
    ensures ok { (w : World) → StandsFor router.old w → IfOk result (λ refused.
        IsSoFar number w line.now refused router.new out.old.items out.new.items) }
    ensures err { OnErr result (out.new.items ≡ out.old.items) }
{
    match read_line(alloc, line) {
        Ok(None) => Ok(false),
        Ok(Some(command)) => answer_command(alloc, printer, router, number, &command, out),
        Err(LineFault::Memory) => Err(AllocError),
        Err(fault) => {
            printer.line_fault(alloc, number, &fault, out)?;
            Ok(true)
        }
    }
}
