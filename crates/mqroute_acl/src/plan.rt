//! The answer to `compare --plan`, of files.
ghost use Rattle.std.specs.Prelude.{◌≡◌, ◌≤◌, ◌∷◌, ℕ, List, [], IfOk, IfErr};
ghost use Rattle.mq_acl_args.specs.Files.{input_count};
ghost use Rattle.mq_ask.specs.Statuses.{failure_status};
ghost use Rattle.mq_ask_plan.specs.Plan.{IsComparedThrough};
ghost use Rattle.mqroute_acl.specs.Files.{IsTextOf};

use crate::files::text_of;
use mq_acl_args::Through;
use mq_ask::{Failure, Options, Outcome};
use mq_ask_plan::{PlanTexts, show_through};
use mq_print::ListText;
use std::alloc::Global;
use std::io::{Read, Write};
use std::rt::Files;

/// Of two lists and a plan.
pub(crate) fn answer_through<'a, R: Files, I: Read, W: Write>(
    rt: &R,
    alloc: Global,
    asked: Through<'a>,
    options: Options,
    input: &mut I,
    out: &mut W,
) -> Result<Outcome, Failure<'a>>
    requires { input_count (asked.old.now ∷ asked.new.now ∷ asked.plan.now ∷ []) ≤ 1 }
    ensures ok { IfOk result (λ outcome. (old new plan : List ℕ)
        × IsTextOf (I.remaining input.old) asked.entry.old.now old
        × IsTextOf (I.remaining input.old) asked.entry.new.now new
        × IsTextOf (I.remaining input.old) asked.entry.plan.now plan
        × IsComparedThrough options.rules asked.entry.only old new plan outcome) }
    ensures unread { IfErr result (λ failure. failure_status failure ≡ 2 → out.new ≡ out.old) }
    ensures kept { input_count (asked.entry.old.now ∷ asked.entry.new.now ∷ asked.entry.plan.now ∷ [])
        ≡ 0 → input.new ≡ input.old }
{
    let old_text = text_of(rt, alloc, asked.old, input)?;
    let new_text = text_of(rt, alloc, asked.new, input)?;
    let plan_text = text_of(rt, alloc, asked.plan, input)?;
    let texts = PlanTexts {
        old: ListText {
            file: asked.old,
            text: old_text.as_str(),
        },
        new: ListText {
            file: asked.new,
            text: new_text.as_str(),
        },
        plan: ListText {
            file: asked.plan,
            text: plan_text.as_str(),
        },
    };
    show_through(alloc, texts, asked.only, options, out)
}
