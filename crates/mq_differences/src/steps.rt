ghost use Rattle.std.specs.Prelude.{◌≡◌, ◌≤◌, true, false};
ghost use Rattle.mq_differences.specs.Steps.{enough_steps};

/// As many steps as are enough for any lists that have so many rows in all. Where more are given, they aren't counted.
pub fn enough_steps(rows: usize) -> u64
    ensures { result ≤ enough_steps rows }
{
    let near = (rows as u64).saturating_add(2).saturating_mul(32);
    let square = near.saturating_mul(near);
    square.saturating_mul(square)
}

/// The steps that are left. One is a row that is looked at for one question, or as much work as that takes.
#[derive(Drop)]
pub struct Steps {
    left: u64,
}

impl Steps {
    /// So many.
    pub fn new(left: u64) -> Steps {
        Steps { left }
    }

    /// Spends as many, if they are there, or aren't limited.
    pub fn spend(&mut self, limited: bool, steps: u64) -> bool
        ensures { result ≡ false → limited ≡ true }
    {
        if !limited {
            return true;
        }
        let Some(left) = self.left.checked_sub(steps) else {
            return false;
        };
        self.left = left;
        true
    }
}
