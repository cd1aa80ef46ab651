//! Who is excepted from what is expected.
ghost use Rattle.std.specs.Prelude.{◌≡◌, [], IfOk, map};
ghost use Rattle.std.specs.Option.{option_copied};
ghost use Rattle.mq_expect.specs.Expectations.{excepted, named, names_in};
ghost use Rattle.mq_expect.specs.Views.{whom_view};

use crate::entry::whom_of;
use crate::expectation::{Claim, Whom};
use mq_acl::trimmed;
use std::alloc::{AllocError, Global};

// Those that are named between commas.
fn named<'a>(alloc: Global, names: &'a str) -> Result<Vec<Whom<'a>>, AllocError>
    ensures { IfOk result (λ all. map whom_view all.items ≡ map named (names_in names.entry.now)) }
{
    let mut all = Vec::new(alloc);
    for name in names.split(',') {
        all.push(whom_of(trimmed(name)))?;
    }
    Ok(all)
}

impl<'a> Claim<'a> {
    /// The clients that are excepted.
    pub fn excepted(&self, alloc: Global) -> Result<Vec<Whom<'a>>, AllocError>
        ensures { IfOk result (λ all. map whom_view all.items
            ≡ excepted (option_copied self.now.except)) }
    {
        match self.except {
            Some(names) => named(alloc, names),
            None => Ok(Vec::new(alloc)),
        }
    }
}
