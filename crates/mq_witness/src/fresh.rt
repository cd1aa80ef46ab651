ghost use Rattle.std.specs.Prelude.{IfOk, string_bytes};
ghost use Rattle.mq_witness.specs.FreshTexts.{IsLong, IsNew};
ghost use Rattle.mq_witness.specs.Literals.{is_named};

use crate::literals::Literals;
use mq_cover::Others;
use std::alloc::{AllocError, Global};

/// Texts that no row names: levels, a client id and a user name that stand for all others.
#[derive(Clone, Copy, Drop)]
pub(crate) struct Fresh<'a> {
    pub others: Others<'a>,
    pub client: &'a str,
    pub user: &'a str,
}

/// The same levels, with ids that begin with no `$`, and with ids that do.
#[derive(Clone, Copy, Drop)]
pub(crate) struct BothFresh<'a> {
    pub plain: Fresh<'a>,
    pub dollar: Fresh<'a>,
}

/// The base, with as many `x` behind it as it takes to be none of these texts; none of them is longer than 300 bytes.
pub(crate) fn fresh_text(
    alloc: Global,
    base: &str,
    literals: &Literals,
) -> Result<String, AllocError>
    ensures { IfOk result (λ text.
        IsNew base.now (λ l. is_named l literals.now) (string_bytes text)) }
{
    let mut text = String::from_str(alloc, base)?;
    for _count in 0..301u32 {
        if !literals.names(text.as_str()) {
            return Ok(text);
        }
        text.push('x')?;
    }
    Ok(text)
}

/// The base with 301 `x` behind it: longer than any text of at most 300 bytes.
pub(crate) fn longest_text(alloc: Global, base: &str) -> Result<String, AllocError>
    ensures { IfOk result (λ text. IsLong base.now (string_bytes text)) }
{
    let mut text = String::from_str(alloc, base)?;
    for _count in 0..301u32 {
        text.push('x')?;
    }
    Ok(text)
}
