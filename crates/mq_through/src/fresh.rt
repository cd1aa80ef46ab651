//! Client ids that no list and no rule names.
ghost use Rattle.std.specs.Prelude.{IfOk, IfErr, string_bytes};
ghost use Rattle.mq_through.specs.Clients.{AreFresh, IsFreshFault, IsUnused};
ghost use Rattle.mq_through.specs.Faults.{IsThroughFault};

use crate::comparison::Comparison;
use crate::fault::ThroughFault;
use crate::named::{ask_client, is_named};
use std::alloc::Global;

/// Client ids that stand for all that no list and no rule names.
pub(crate) enum Fresh {
    /// No row asks about the client id, so one stands for all.
    Any(String),
    /// The one stands for those that begin with no `$`, the other for those that do.
    Each(String, String),
}

// Opaque to callers' proofs: one step, and not one for each field (docs/explanation/gate.md).
impl Drop for Fresh {
    fn drop(self) {
        match self {
            Fresh::Any(_) => {}
            Fresh::Each(_, _) => {}
        }
    }
}

// The base, with as many `x` behind it as it takes to be named by nothing, but no more than 300 bytes.
fn fresh_text(alloc: Global, comparison: &Comparison, base: &str) -> Result<String, ThroughFault>
    ensures unused { IfOk result (λ text.
        IsUnused comparison.now base.now (string_bytes text)) }
    ensures fault { IfErr result (IsFreshFault comparison.now base.now) }
{
    let mut text = String::from_str(alloc, base)?;
    for _count in 0..290u32 {
        if !is_named(comparison, text.as_str()) {
            return Ok(text);
        }
        text.push('x')?;
    }
    Err(ThroughFault::NoClient)
}

impl Fresh {
    pub fn find(alloc: Global, comparison: &Comparison) -> Result<Fresh, ThroughFault>
        ensures fresh { IfOk result (AreFresh comparison.now) }
        ensures fault { IfErr result (IsThroughFault comparison.now.plan.now comparison.now.old.now
            comparison.now.new.now comparison.now.steps) }
    {
        if !ask_client(comparison) {
            let any = String::from_str(alloc, "client")?;
            return Ok(Fresh::Any(any));
        }
        let plain = fresh_text(alloc, comparison, "client")?;
        let dollar = fresh_text(alloc, comparison, "$client")?;
        Ok(Fresh::Each(plain, dollar))
    }
}
