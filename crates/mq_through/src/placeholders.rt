//! Placeholders: texts that stand for others.
ghost use Rattle.std.specs.Prelude.{◌≡◌, ◌||◌, ◌&&◌, not, ℕ, List, IfOk, OnOk};
ghost use Rattle.std.specs.List.{list_any};
ghost use Rattle.std.specs.Option.{option_copied};
ghost use Rattle.std.specs.Str.{bytes_eq};
ghost use Rattle.mq_topic.specs.Levels.{levels};
ghost use Rattle.mq_acl.specs.declared.rules.Rules.TheVariants.{Own};
ghost use Rattle.mq_differences.specs.Differences.{has_text, is_of};
ghost use Rattle.mq_through.specs.Clients.{is_named};

use crate::comparison::Comparison;
use crate::named::is_named;
use mq_differences::has_text;
use mq_topic::{LevelText, TopicName};
use std::alloc::{AllocError, Global};

// Adds the text if nothing names it and it isn't there yet.
fn add_unnamed(
    alloc: Global,
    placeholders: &mut Vec<String>,
    comparison: &Comparison,
    text: &str,
) -> Result<(), AllocError>
    ensures { OnOk result ((other : List ℕ) → has_text placeholders.new.items other
        ≡ (has_text placeholders.old.items other
        || (bytes_eq other text.entry.now && not (is_named comparison.entry.now other)))) }
{
    if is_named(comparison, text) {
        return Ok(());
    }
    if has_text(placeholders, text) {
        return Ok(());
    }
    placeholders.push(String::from_str(alloc, text)?)?;
    Ok(())
}

// Adds the levels of the text that nothing names.
fn add_levels(
    alloc: Global,
    placeholders: &mut Vec<String>,
    comparison: &Comparison,
    text: &str,
) -> Result<(), AllocError>
    ensures { OnOk result ((other : List ℕ) → has_text placeholders.new.items other
        ≡ (has_text placeholders.old.items other
        || (list_any (bytes_eq other) (levels text.entry.now)
        && not (is_named comparison.entry.now other)))) }
{
    for level in text.split('/') {
        add_unnamed(alloc, placeholders, comparison, level)?;
    }
    Ok(())
}

/// Those of the client id, the user name and the levels of the topic that neither list and no rule of the plan names.
pub(crate) fn unnamed_texts(
    alloc: Global,
    comparison: &Comparison,
    client: &str,
    user: Option<&str>,
    topic: &TopicName,
) -> Result<Vec<String>, AllocError>
    ensures { IfOk result (λ all. (text : List ℕ) → has_text all.items text
        ≡ (is_of Own text client.entry.now (option_copied user.entry) topic.entry.now
        && not (is_named comparison.entry.now text))) }
{
    let mut all = Vec::new(alloc);
    add_unnamed(alloc, &mut all, comparison, client)?;
    add_unnamed(alloc, &mut all, comparison, user.unwrap_or(client))?;
    add_levels(alloc, &mut all, comparison, topic.text())?;
    Ok(all)
}
