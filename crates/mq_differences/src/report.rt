//! What is said of two lists.
ghost use Rattle.std.specs.Prelude.{◌≡◌, ◌++◌, ◌∷◌, [], OnOk, true, false};
ghost use Rattle.std.specs.List.{list_any};
ghost use Rattle.mq_differences.specs.Differences.{is_like};
ghost use Rattle.mq_differences.specs.Reports.{IsLast, added};

use crate::difference::Difference;
use crate::steps::Steps;
use std::alloc::{AllocError, Global};
use std::cmp::Ordering;

/// The differences that are listed, and the steps that are left.
pub(crate) struct Report {
    pub differences: Vec<Difference>,
    pub steps: Steps,
    // The place of the first one of the last class: those before it are of classes before that.
    last: usize,
    ghost is_last: { IsLast differences.items last },
}

// Opaque to callers' proofs: one step, and not one for each field (docs/explanation/gate.md).
impl Drop for Report {
    fn drop(self) {
        let Report {
            differences: _,
            steps: _,
            last: _,
        } = self;
    }
}

fn has_like(differences: &[Difference], difference: &Difference) -> bool
    ensures { result ≡ list_any (λ other. is_like other difference.now) differences.now }
{
    differences.iter().any(|other| other.is_like(difference))
}

impl Report {
    pub(crate) fn new(alloc: Global, steps: u64) -> Report
        ensures { result.differences.items ≡ [] }
    {
        Report {
            differences: Vec::new(alloc),
            steps: Steps::new(steps),
            last: 0,
        }
    }

    /// Spends the steps, if there are as many, or they aren't limited.
    pub(crate) fn spend(&mut self, limited: bool, steps: u64) -> bool
        ensures same { self.new.differences ≡ self.old.differences }
        ensures refused { result ≡ false → limited ≡ true }
    {
        self.steps.spend(limited, steps)
    }

    // Those of the listed differences that this one may be like. They come class by class, so that these are few.
    fn same_class(&self, difference: &Difference) -> &[Difference]
        ensures { list_any (λ other. is_like other difference.now) result.now
            ≡ list_any (λ other. is_like other difference.now) self.now.differences.items }
    {
        let all = self.differences.as_slice();
        let Some(last) = all.get(self.last) else {
            return all;
        };
        match difference.class.order(&last.class) {
            Ordering::Less => all,
            Ordering::Equal => &all[self.last..],
            Ordering::Greater => &all[..0],
        }
    }

    fn has_like(&self, difference: &Difference) -> bool
        ensures { result
            ≡ list_any (λ other. is_like other difference.now) self.now.differences.items }
    {
        has_like(self.same_class(difference), difference)
    }

    // The place of the first one of the last class, when this one is added.
    fn last_with(&self, difference: &Difference) -> usize
        ensures { IsLast (self.now.differences.items ++ difference.now ∷ []) result }
    {
        let Some(last) = self.differences.get(self.last) else {
            return self.last;
        };
        match difference.class.order(&last.class) {
            Ordering::Greater => self.differences.len(),
            _ => self.last,
        }
    }

    /// Adds a difference, unless one that is like it is listed.
    pub(crate) fn add(&mut self, difference: Difference) -> Result<(), AllocError>
        ensures { OnOk result (self.new.differences.items
            ≡ added self.old.differences.items difference) }
    {
        if self.has_like(&difference) {
            return Ok(());
        }
        let last = self.last_with(&difference);
        self.differences.push(difference)?;
        self.last = last;
        Ok(())
    }

    pub(crate) fn into_differences(self) -> Vec<Difference>
        ensures { result ≡ self.differences }
    {
        let Report {
            differences,
            steps: _,
            last: _,
        } = self;
        differences
    }
}
