//! The placeholders of a witness: they stand for others.
ghost use Rattle.std.specs.Prelude.{◌≡◌, ◌||◌, ◌&&◌, ℕ, List, All, IfOk, OnOk};
ghost use Rattle.std.specs.Str.{bytes_eq};
ghost use Rattle.std.specs.Option.{option_copied};
ghost use Rattle.std.specs.List.{list_any};
ghost use Rattle.mq_topic.specs.Levels.{levels};
ghost use Rattle.mq_witness.specs.Ruled.{is_stand_in};
ghost use Rattle.mq_differences.specs.Differences.{IsUnnamed, has_text, is_of, is_part};

use mq_acl::Rules;
use mq_topic::{LevelText, TopicName};
use mq_witness::Asked;
use std::alloc::{AllocError, Global};

/// Whether it is one of the texts.
pub fn has_text(texts: &[String], text: &str) -> bool
    ensures { result ≡ has_text texts.now text.now }
{
    texts.iter().any(|other| text == other.as_str())
}

// Adds the text if it is a placeholder, and isn't there yet.
fn add_placeholder(
    alloc: Global,
    placeholders: &mut Vec<String>,
    asked: &Asked,
    text: &str,
) -> Result<(), AllocError>
    ensures shown { OnOk result ((other : List ℕ) → has_text placeholders.new.items other
        ≡ (has_text placeholders.old.items other
        || (bytes_eq other text.entry.now && is_stand_in asked.entry.now other))) }
    ensures unnamed { OnOk result (All (IsUnnamed asked.entry.now) placeholders.old.items
        → All (IsUnnamed asked.entry.now) placeholders.new.items) }
{
    if !asked.is_placeholder(text) {
        return Ok(());
    }
    if has_text(placeholders, text) {
        return Ok(());
    }
    placeholders.push(String::from_str(alloc, text)?)?;
    Ok(())
}

// Adds the levels of the text that are placeholders.
fn add_levels(
    alloc: Global,
    placeholders: &mut Vec<String>,
    asked: &Asked,
    text: &str,
) -> Result<(), AllocError>
    ensures shown { OnOk result ((other : List ℕ) → has_text placeholders.new.items other
        ≡ (has_text placeholders.old.items other
        || (list_any (bytes_eq other) (levels text.entry.now)
        && is_stand_in asked.entry.now other))) }
    ensures unnamed { OnOk result (All (IsUnnamed asked.entry.now) placeholders.old.items
        → All (IsUnnamed asked.entry.now) placeholders.new.items) }
{
    for level in text.split('/') {
        add_placeholder(alloc, placeholders, asked, level)?;
    }
    Ok(())
}

// Adds the client id or user name, if it is a placeholder; by mosquitto's rules its levels that are.
fn add_id(
    alloc: Global,
    placeholders: &mut Vec<String>,
    asked: &Asked,
    id: &str,
) -> Result<(), AllocError>
    ensures shown { OnOk result ((other : List ℕ) → has_text placeholders.new.items other
        ≡ (has_text placeholders.old.items other
        || (is_part asked.entry.now.rules other id.entry.now
        && is_stand_in asked.entry.now other))) }
    ensures unnamed { OnOk result (All (IsUnnamed asked.entry.now) placeholders.old.items
        → All (IsUnnamed asked.entry.now) placeholders.new.items) }
{
    match asked.rules() {
        Rules::Own => add_placeholder(alloc, placeholders, asked, id),
        Rules::Mosquitto => add_levels(alloc, placeholders, asked, id),
    }
}

/// Those of the client id, the user name and the levels of the topic that are placeholders.
pub(crate) fn placeholders(
    alloc: Global,
    asked: &Asked,
    client: &str,
    user: Option<&str>,
    topic: &TopicName,
) -> Result<Vec<String>, AllocError>
    ensures shown { IfOk result (λ all. (text : List ℕ) → has_text all.items text
        ≡ (is_of asked.entry.now.rules text client.entry.now (option_copied user.entry)
        topic.entry.now && is_stand_in asked.entry.now text)) }
    ensures unnamed { IfOk result (λ all. All (IsUnnamed asked.entry.now) all.items) }
{
    let mut all = Vec::new(alloc);
    add_id(alloc, &mut all, asked, client)?;
    add_id(alloc, &mut all, asked, user.unwrap_or(client))?;
    add_levels(alloc, &mut all, asked, topic.text())?;
    Ok(all)
}
