//! Lists of levels that are lent out of texts.
ghost use Rattle.std.specs.Prelude.{◌≡◌, ◌++◌, IfOk};
ghost use Rattle.mq_topic.specs.Levels.{levels, levels_left};
ghost use Rattle.mq_rename.specs.Lists.{texts};

use std::alloc::{AllocError, Global};

/// The levels of a text.
pub(crate) fn levels_of(alloc: Global, text: &str) -> Result<Vec<&str>, AllocError>
    ensures { IfOk result (λ all. texts all.items ≡ levels text.entry.now) }
{
    text.split('/').collect(alloc)
}

/// These levels, and behind them those of the rest of a text, if there is one.
pub(crate) fn with_rest<'a>(
    alloc: Global,
    mut parts: Vec<&'a str>,
    rest: Option<&'a str>,
) -> Result<Vec<&'a str>, AllocError>
    ensures { IfOk result (λ all. texts all.items
        ≡ texts parts.entry.items ++ levels_left rest.entry) }
{
    if let Some(rest) = rest {
        let more = levels_of(alloc, rest)?;
        parts.extend_from_slice(&more)?;
    }
    Ok(parts)
}
