//! The levels of a text: those of `plant//door` are `plant`, an empty one and `door`.
ghost use Rattle.std.specs.Prelude.{◌≡◌, ◌∷◌, length, slice_get};
ghost use Rattle.std.specs.Option.{option_copied};
ghost use Rattle.mq_topic.specs.Levels.{levels, levels_left};
ghost use Rattle.mq_topic.specs.Texts.{contains_byte};

/// The first level of a text, and what follows its slash, if there is one. It takes no memory, so a walk
/// over all levels by it is linear in the text.
pub fn split_first(text: &str) -> (&str, Option<&str>)
    ensures { levels text.now ≡ result.0.now ∷ levels_left result.1 }
{
    match text.split_once('/') {
        Some((level, rest)) => (level, Some(rest)),
        None => (text, None),
    }
}

pub(crate) fn count(text: &str) -> usize
    ensures { result ≡ length (levels text.now) }
{
    text.bytes().filter(|byte| *byte == b'/').count() + 1
}

pub(crate) fn level_at(text: &str, i: usize) -> Option<&str>
    ensures { option_copied result ≡ slice_get (levels text.now) i }
{
    text.split('/').nth(i)
}

pub(crate) fn has_byte(text: &str, byte: u8) -> bool
    ensures { result ≡ contains_byte byte text.now }
{
    text.as_bytes().contains(&byte)
}
