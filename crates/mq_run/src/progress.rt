//! A run on its way.
ghost use Rattle.std.specs.Prelude.{◌≡◌, ◌+◌, ◌≤◌, ◌<◌, ◌^◌, [], List, ℕ, Option, OnOk};
ghost use Rattle.std.specs.Prelude.{length};
ghost use Rattle.mq_world.specs.World.{World};
ghost use Rattle.mq_router.specs.StandsFor.{StandsFor};
ghost use Rattle.mq_jsonl.specs.Feeding.{open_line};

use crate::answer::answer_line;
use crate::devices::Sink;
use crate::outcome::{RunFault, Summary};
use crate::write::{flush, write_all};
use mq_jsonl::{LineFeeder, Printer};
use mq_router::Router;
use std::alloc::Global;

/// How far a run has come.
pub struct Progress {
    alloc: Global,
    printer: Printer,
    router: Router,
    /// The lines that are answered.
    pub summary: Summary,
    ghost refused: { summary.refused ≤ summary.lines },
    /// Makes the lines of the script.
    pub feeder: LineFeeder,
    /// Where an answer is put together before it is written.
    text: Vec<u8>,
}

// Opaque to callers' proofs: one step, and not one for each field (docs/explanation/gate.md).
impl Drop for Progress {
    fn drop(self) {
        let Progress {
            alloc: _,
            printer: _,
            router: _,
            summary: _,
            feeder: _,
            text: _,
        } = self;
    }
}

impl Progress {
    ghost use Rattle.mq_run.specs.Ending.{failures_of};
    ghost use Rattle.mq_run.specs.Running.{SoFar, Answers, Takes, Ends};

    pub fn new(alloc: Global, router: Router, limit: u64) -> Progress
        ensures so_far { (w : World) (start : Option (List ℕ)) → StandsFor router w
            → SoFar w [] result start start }
        ensures lines { result.summary.lines ≡ 0 }
        ensures line { open_line result.feeder ≡ [] }
        ensures room { result.feeder.room ≡ limit }
    {
        Progress {
            alloc,
            printer: Printer::new(alloc),
            router,
            summary: Summary {
                lines: 0,
                refused: 0,
            },
            feeder: LineFeeder::new(alloc, limit),
            text: Vec::new(alloc),
        }
    }

    /// Answers the line that is at hand.
    #[tactic(auto, unfolding(crate::specs::Running::AnswersLine, crate::specs::Running::StopsAtLine))]
    fn answer<W: Sink>(&mut self, writer: &mut W) -> Result<(), RunFault>
        requires { self.old.summary.lines + 1 < 2 ^ 64 }
        ensures answers { Answers self.old self.new result (W.taken writer.old)
            (W.taken writer.new) }
        ensures counted { W.failures writer.new ≡ W.failures writer.old + failures_of result }
        ensures lines { OnOk result (self.new.summary.lines ≡ self.old.summary.lines + 1) }
        ensures feeder { self.new.feeder ≡ self.old.feeder }
    {
        let summary = self.summary;
        self.text.clear();
        let is_refused = answer_line(
            self.alloc,
            &mut self.printer,
            &mut self.router,
            summary.lines + 1,
            self.feeder.line(),
            &mut self.text,
        )?;
        self.summary = summary.with_line(is_refused);
        write_all(writer, self.text.as_slice())
    }

    /// Takes bytes of the script, and answers the lines that they end.
    pub fn take<W: Sink>(&mut self, bytes: &[u8], writer: &mut W) -> Result<(), RunFault>
        requires { self.old.summary.lines + length (open_line self.old.feeder)
            + length bytes.now < 2 ^ 64 }
        ensures takes { Takes self.old self.new bytes.now result (W.taken writer.old)
            (W.taken writer.new) }
        ensures counted { W.failures writer.new ≡ W.failures writer.old + failures_of result }
        ensures lines { OnOk result (self.new.summary.lines + length (open_line self.new.feeder)
            ≤ self.old.summary.lines + length (open_line self.old.feeder) + length bytes.now) }
        ensures room { OnOk result (self.new.feeder.room ≡ self.old.feeder.room) }
    {
        let mut rest = bytes;
        'lines: while let Some(others) = self.feeder.take_line(rest)? {
            self.answer(writer)?;
            rest = others;
        }
        Ok(())
    }

    /// Answers a last piece that isn't empty.
    fn answer_last<W: Sink>(&mut self, writer: &mut W) -> Result<(), RunFault>
        requires { self.old.summary.lines + length (open_line self.old.feeder) < 2 ^ 64 }
        ensures ends { Ends self.old self.new result (W.taken writer.old) (W.taken writer.new) }
        ensures counted { W.failures writer.new ≡ W.failures writer.old + failures_of result }
    {
        if !self.feeder.has_last_piece() {
            return Ok(());
        }
        self.answer(writer)
    }

    /// Answers a last piece that isn't empty, and then hands on all answers.
    #[tactic(auto, using(crate::proofs::StepLemmas::ends_flushed))]
    pub fn finish<W: Sink>(&mut self, writer: &mut W) -> Result<(), RunFault>
        requires { self.old.summary.lines + length (open_line self.old.feeder) < 2 ^ 64 }
        ensures ends { Ends self.old self.new result (W.taken writer.old) (W.taken writer.new) }
        ensures counted { W.failures writer.new ≡ W.failures writer.old + failures_of result }
        ensures flushed { OnOk result (W.flushed writer.new ≡ W.taken writer.new) }
    {
        self.answer_last(writer)?;
        flush(writer)
    }
}
