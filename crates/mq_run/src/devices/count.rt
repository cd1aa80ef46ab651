//! A number that only proofs read. It takes no memory, and counting costs nothing when it runs.
ghost use Rattle.std.specs.Prelude.{◌≡◌, ℕ, ◌+◌};

use std::marker::Model;
use std::mem;
use std::snapshot::Snapshot;

// Each trail remembers the one before it, and has no bytes.
#[derive(Drop)]
struct Trail {
    before: Snapshot<Option<Trail>>,
}

/// How often something happened.
#[derive(Drop)]
pub struct Count {
    trail: Trail,
}

impl Model for Count {
    ghost use Rattle.std.specs.Prelude.{ℕ};
    ghost use Rattle.mq_run.specs.Trails.{trail_length};

    ghost Value = { ℕ };

    ghost view = { λ c. trail_length c.trail };
}

impl Count {
    pub fn new() -> Count
        ensures { result ≡ 0 }
    {
        Count {
            trail: Trail {
                before: Snapshot::of(&None),
            },
        }
    }

    pub fn tick(&mut self)
        ensures { self.new ≡ self.old + 1 }
    {
        let start = Trail {
            before: Snapshot::of(&None),
        };
        let before = Some(mem::replace(&mut self.trail, start));
        self.trail = Trail {
            before: Snapshot::of(&before),
        };
    }
}

const _: () = prove!(size_of::<Count>() == 0);
