//! Commands applied to a router, in the words of the definition.
ghost use Rattle.std.specs.Prelude.{◌≡◌, IsTrue, IfOk, OnErr};
ghost use Rattle.mq_world.specs.World.{World};
ghost use Rattle.mq_world.specs.Answers.{answer};
ghost use Rattle.mq_world.specs.After.{after};
ghost use Rattle.mq_world.specs.Refusals.{is_valid};
ghost use Rattle.mq_world.specs.Views.{request_of, copies_in};
ghost use Rattle.mq_router.specs.StandsFor.{StandsFor};

use mq_router::{Command, Delivery, Refusal, Router};

/// Applies a command, and answers the copies that are sent at once: those of the definition, in each world that the
/// router stands for. Then it stands for the world after the command. A refused command leaves it as it is.
pub fn copies_of(router: &mut Router, command: &Command) -> Result<Vec<Delivery>, Refusal>
    requires { IsTrue (is_valid (request_of command.now)) }
    ensures copies { (w : World) → StandsFor router.old w → IfOk result (λ copies.
        copies_in copies ≡ (answer w (request_of command.now)).copies) }
    ensures stands { (w : World) → StandsFor router.old w → IfOk result (λ _.
        StandsFor router.new (after w (request_of command.now))) }
    ensures refused { OnErr result (router.new ≡ router.old) }
{
    let answer = router.apply(command)?;
    Ok(answer.copies)
}
