//! The user names for which `%u` may meet a level of a filter.
ghost use Rattle.std.specs.Prelude.{◌≡◌, ◌||◌, ◌&&◌, ◌++◌, List, ℕ, Bool, codes, IfOk, OnOk};
ghost use Rattle.std.specs.List.{list_any};
ghost use Rattle.mq_topic.specs.Levels.{levels};
ghost use Rattle.mq_rename.specs.Lists.{texts};
ghost use Rattle.mq_regions.specs.Filled.{has_level};
ghost use Rattle.mq_regions.specs.Own.{is_own};
ghost use Rattle.mq_regions.specs.Regions.{kind_levels};

use crate::fill::has_level;
use crate::region::RegionKind;
use mq_topic::{LevelText, TopicFilter};
use std::alloc::{AllocError, Global};

// Whether the level stands for itself alone.
fn is_own(level: &str) -> bool
    ensures { result ≡ is_own level.now }
{
    level != "+" && level != "#" && level != "%u"
}

fn add_text<'a>(found: &mut Vec<&'a str>, level: &'a str) -> Result<(), AllocError>
    ensures { OnOk result ((p : List ℕ → Bool) → list_any p (texts found.new.items)
        ≡ (list_any p (texts found.old.items) || (is_own level.entry.now && p level.entry.now))) }
{
    if !is_own(level) {
        return Ok(());
    }
    if found.contains(&level) {
        return Ok(());
    }
    found.push(level)?;
    Ok(())
}

fn add_texts<'a>(found: &mut Vec<&'a str>, text: &'a str) -> Result<(), AllocError>
    ensures { OnOk result ((p : List ℕ → Bool) → list_any p (texts found.new.items)
        ≡ (list_any p (texts found.old.items)
        || list_any (λ level. is_own level && p level) (levels text.entry.now))) }
{
    for level in text.split('/') {
        add_text(found, level)?;
    }
    Ok(())
}

fn add_kind_texts<'a>(found: &mut Vec<&'a str>, kind: &'a RegionKind<'a>) -> Result<(), AllocError>
    ensures { OnOk result ((p : List ℕ → Bool) → list_any p (texts found.new.items)
        ≡ (list_any p (texts found.old.items)
        || list_any (λ level. is_own level && p level) (kind_levels kind.entry.now))) }
{
    match kind {
        RegionKind::Same => Ok(()),
        RegionKind::Kept(filter) => add_texts(found, filter.text()),
        RegionKind::Renamed(rule) => {
            add_texts(found, rule.left().text())?;
            add_texts(found, rule.right().text())
        }
    }
}

/// The levels of the region's filters and of this one that stand for themselves alone, each once; none where the filter
/// has no level `%u`.
pub(crate) fn own_texts<'a>(
    alloc: Global,
    kind: &'a RegionKind<'a>,
    filter: &'a TopicFilter,
) -> Result<Vec<&'a str>, AllocError>
    ensures { IfOk result (λ found. (p : List ℕ → Bool) → list_any p (texts found.items)
        ≡ (has_level (codes "%u") (levels filter.entry.now)
        && list_any (λ level. is_own level && p level)
        (kind_levels kind.entry.now ++ levels filter.entry.now))) }
{
    let mut found = Vec::new(alloc);
    if !has_level(filter.text(), "%u") {
        return Ok(found);
    }
    add_kind_texts(&mut found, kind)?;
    add_texts(&mut found, filter.text())?;
    Ok(found)
}
