ghost use Rattle.std.specs.Prelude.{◌≡◌, ℕ, ◌+◌};
ghost use Rattle.mq_tree.specs.Trails.{trail_length};

use std::marker::Model;
use std::mem;
use std::snapshot::Snapshot;

// Each trail remembers the one before it, and has no bytes.
#[derive(Drop)]
struct Trail {
    before: Snapshot<Option<Trail>>,
}

impl Trail {
    fn start() -> Trail
        ensures { trail_length result ≡ 0 }
    {
        Trail {
            before: Snapshot::of(&None),
        }
    }

    fn after(before: Trail) -> Trail
        ensures { trail_length result ≡ trail_length before + 1 }
    {
        let before = Some(before);
        Trail {
            before: Snapshot::of(&before),
        }
    }
}

/// The count that a look-up adds to, by the calls that enter a node. The tree alone makes one and lends it, so a
/// look-up has no other to spend.
#[derive(Drop)]
pub(crate) struct Walk {
    trail: Trail,
}

impl Model for Walk {
    ghost use Rattle.std.specs.Prelude.{ℕ};
    ghost use Rattle.mq_tree.specs.Trails.{trail_length};

    ghost Value = { ℕ };

    ghost view = { λ w. trail_length w.trail };
}

impl Walk {
    fn start() -> Walk
        ensures { result ≡ 0 }
    {
        Walk {
            trail: Trail::start(),
        }
    }

    /// One step more.
    pub(in crate::tree) fn tick(&mut self)
        ensures { self.new ≡ self.old + 1 }
    {
        let before = mem::replace(&mut self.trail, Trail::start());
        self.trail = Trail::after(before);
    }
}

/// How many nodes look-ups have entered: a count without bound that contracts alone see. It has no bytes.
pub struct Steps {
    pub(in crate::tree) walk: Walk,
}

// Opaque to callers' proofs: one step, and not one for each field (docs/explanation/gate.md).
impl Drop for Steps {
    fn drop(self) {
        let Steps { walk: _ } = self;
    }
}

impl Model for Steps {
    ghost use Rattle.std.specs.Prelude.{ℕ};

    ghost Value = { ℕ };

    ghost view = { λ s. s.walk };
}

impl Steps {
    /// No step yet.
    pub fn new() -> Steps
        ensures { result ≡ 0 }
    {
        Steps {
            walk: Walk::start(),
        }
    }

    /// One step more.
    pub fn tick(&mut self)
        ensures { self.new ≡ self.old + 1 }
    {
        self.walk.tick();
    }
}

const _: () = prove!(size_of::<Steps>() == 0);
