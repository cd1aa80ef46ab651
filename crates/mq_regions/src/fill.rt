//! A filter with a text in the place of a mark.
ghost use Rattle.std.specs.Prelude.{◌≡◌, ◌&&◌, true, false, IfOk, IfErr};
ghost use Rattle.std.specs.Str.{bytes_eq};
ghost use Rattle.mq_topic.specs.Levels.{levels};
ghost use Rattle.mq_topic.specs.Matching.{level_at};
ghost use Rattle.mq_topic.specs.Texts.{contains_byte, is_memory};
ghost use Rattle.mq_acl.specs.Access.{begins_with_dollar};
ghost use Rattle.mq_rename.specs.Lists.{has_long, is_long, texts};
ghost use Rattle.mq_rename.specs.declared.fault.MeetFault.TheVariants as faults;
ghost use Rattle.mq_regions.specs.Filled.{IsFilledIfAny, fill_level, fill_levels, has_level, is_name_level};
ghost use Rattle.mq_regions.specs.Regions.{is_mark};

use mq_rename::MeetFault;
use mq_topic::{LevelText, TopicFault, TopicFilter, is_plain, split_first};
use std::alloc::{AllocError, Global};

/// Whether it is a level of the text.
pub(crate) fn has_level(text: &str, wanted: &str) -> bool
    ensures { result ≡ has_level wanted.now (levels text.now) }
{
    text.split('/').any(|level| level == wanted)
}

fn has_byte(text: &str, byte: u8) -> bool
    ensures { result ≡ contains_byte byte text.now }
{
    text.as_bytes().contains(&byte)
}

// Whether a name can have this level.
fn is_name_level(text: &str) -> bool
    ensures { result ≡ is_name_level text.now }
{
    is_plain(text) && !has_byte(text, 0) && !has_byte(text, b'/')
}

// Whether a filter that begins with the mark as it is written would begin with `$`.
fn hides_dollar(filter: &str, mark: &str, text: &str) -> bool
    ensures { result
        ≡ (bytes_eq (level_at (levels filter.now) 0) mark.now && begins_with_dollar text.now) }
{
    let (first, _) = split_first(filter);
    first == mark && text.starts_with('$')
}

fn fill_level<'a>(mark: &str, text: &'a str, level: &'a str) -> &'a str
    ensures { result.now ≡ fill_level mark.now text.entry.now level.entry.now }
{
    if level == mark { text } else { level }
}

fn filled_levels<'a>(
    alloc: Global,
    filter: &'a str,
    mark: &str,
    text: &'a str,
) -> Result<Vec<&'a str>, AllocError>
    ensures { IfOk result (λ made. texts made.items
        ≡ fill_levels mark.now text.entry.now (levels filter.entry.now)) }
{
    let mut made = Vec::new(alloc);
    for level in filter.split('/') {
        made.push(fill_level(mark, text, level))?;
    }
    Ok(made)
}

// What is wrong with a text that would be a filter's, but for its length.
fn fault_of(fault: TopicFault) -> MeetFault
    ensures { is_memory fault ≡ true → result ≡ faults.Memory }
{
    match fault {
        TopicFault::Memory => MeetFault::Memory,
        _ => MeetFault::TooLong,
    }
}

/// The filter with the text in the place of each level that is the mark. None where no name has such a level, and where
/// the text would make it begin with `$`: a name that does is covered only by a row that does as it is written.
pub(crate) fn fill(
    alloc: Global,
    filter: &TopicFilter,
    mark: &str,
    text: &str,
) -> Result<Option<TopicFilter>, MeetFault>
    requires mark { is_mark mark.now ≡ true }
    requires filter { has_long (levels filter.now) ≡ false }
    requires text { is_long text.now ≡ false }
    ensures filled { IfOk result (IsFilledIfAny mark.now text.now filter.now) }
    ensures fault { IfErr result (λ fault. fault ≡ faults.Memory) }
{
    let written = filter.text();
    if !has_level(written, mark) {
        return Ok(Some(filter.clone()?));
    }
    if !is_name_level(text) {
        return Ok(None);
    }
    if hides_dollar(written, mark, text) {
        return Ok(None);
    }
    let levels = filled_levels(alloc, written, mark, text)?;
    let joined = levels.join(alloc, "/")?;
    let joined = joined.as_str();
    if joined.is_empty() {
        return Ok(None);
    }
    match TopicFilter::parse(alloc, joined) {
        Ok(made) => Ok(Some(made)),
        Err(fault) => Err(fault_of(fault)),
    }
}
