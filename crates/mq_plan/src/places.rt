//! Which levels of the left side those of the right one stand for.
ghost use Rattle.std.specs.Prelude.{◌≡◌, IfOk, ◌++◌, OnOk, slice_index};
ghost use Rattle.std.specs.List.{position_or_len};
ghost use Rattle.std.specs.Str.{bytes_eq};
ghost use Rattle.std.specs.Option.{option_to_list};
ghost use Rattle.mq_topic.specs.Levels.{levels};
ghost use Rattle.mq_plan.specs.Pairs.{place_if_plus, place_of, places, plus_places};

use crate::level::is_named;
use mq_topic::split_first;
use std::alloc::{AllocError, Global};

fn add_plus(all: &mut Vec<usize>, place: usize, level: &str) -> Result<(), AllocError>
    ensures { OnOk result (all.new.items
        ≡ all.old.items ++ option_to_list (place_if_plus (place, level.now))) }
{
    if level == "+" {
        all.push(place)?;
    }
    Ok(())
}

// The places of the levels that are `+`.
fn plus_places(alloc: Global, text: &str) -> Result<Vec<usize>, AllocError>
    ensures { IfOk result (λ all. all.items ≡ plus_places (levels text.now)) }
{
    let mut all = Vec::new(alloc);
    let mut place = 0;
    let mut rest = Some(text);
    while let Some(text) = rest {
        let (level, after) = split_first(text);
        add_plus(&mut all, place, level)?;
        place += 1;
        rest = after;
    }
    Ok(all)
}

// The place of the level, or how many there are.
fn place_among(text: &str, level: &str) -> usize
    ensures { result ≡ position_or_len (bytes_eq level.now) (levels text.now) }
{
    text.split('/').take_while(|other| level != *other).count()
}

// The place on the left of what the level stands for, with so many `+` before it.
fn place_of(left: &str, pluses: &[usize], before: usize, level: &str) -> usize
    requires { pluses.now ≡ plus_places (levels left.now) }
    ensures { result ≡ place_of (levels left.now) before level.now }
{
    if level == "+" {
        return pluses.get(before).copied().unwrap_or(0);
    }
    if is_named(level) {
        return place_among(left, level);
    }
    0
}

/// For each level on the right the place on the left of what it stands for.
pub(crate) fn places(alloc: Global, left: &str, right: &str) -> Result<Vec<usize>, AllocError>
    ensures { IfOk result (λ all. all.items ≡ places (levels left.now) (levels right.now)) }
{
    let pluses = plus_places(alloc, left)?;
    let mut all = Vec::new(alloc);
    let mut before = 0;
    let mut rest = Some(right);
    while let Some(text) = rest {
        let (level, after) = split_first(text);
        all.push(place_of(left, &pluses, before, level))?;
        if level == "+" {
            before += 1;
        }
        rest = after;
    }
    Ok(all)
}
