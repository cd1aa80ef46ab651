ghost use Rattle.std.specs.Prelude.{◌≡◌, IfOk, codes};
ghost use Rattle.mq_through.specs.Parts.{AreSpares};

use mq_topic::{TopicFault, TopicFilter};
use std::alloc::{AllocError, Global};

/// Two filters of which no topic is matched by both. Where no earlier rule takes topics from a region, it is compared
/// without the topics of the one and again without those of the other.
pub(crate) struct Spares {
    pub dollar: TopicFilter,
    pub plain: TopicFilter,
}

// Opaque to callers' proofs: one step, and not one for each field (docs/explanation/gate.md).
impl Drop for Spares {
    fn drop(self) {
        let Spares {
            dollar: _,
            plain: _,
        } = self;
    }
}

fn dollar(alloc: Global) -> Result<TopicFilter, AllocError>
    ensures { IfOk result (λ filter. filter ≡ codes "$") }
{
    match TopicFilter::parse(alloc, "$") {
        Ok(filter) => Ok(filter),
        Err(TopicFault::Memory) => Err(AllocError),
        Err(_) => unreachable!(),
    }
}

fn plain(alloc: Global) -> Result<TopicFilter, AllocError>
    ensures { IfOk result (λ filter. filter ≡ codes "x") }
{
    match TopicFilter::parse(alloc, "x") {
        Ok(filter) => Ok(filter),
        Err(TopicFault::Memory) => Err(AllocError),
        Err(_) => unreachable!(),
    }
}

impl Spares {
    pub fn new(alloc: Global) -> Result<Spares, AllocError>
        ensures { IfOk result AreSpares }
    {
        Ok(Spares {
            dollar: dollar(alloc)?,
            plain: plain(alloc)?,
        })
    }
}
