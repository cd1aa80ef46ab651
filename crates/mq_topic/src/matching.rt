//! Which filters match which names.
//!
//! | Filter | Matches | Doesn't match |
//! |---|---|---|
//! | `plant/+` | `plant/hall-1`, `plant/` | `plant`, `plant/hall-1/door` |
//! | `plant/#` | `plant`, `plant/hall-1/door` | `plants` |
//! | `#`, `+/load` | `plant/load` (each) | `$SYS/load` (neither) |
//! | `$SYS/#` | `$SYS`, `$SYS/load` | |
ghost use Rattle.std.specs.Prelude.{◌≡◌, ℕ, Bool, List, ◌==◌, ◌&&◌, length, codes};
ghost use Rattle.std.specs.Str.{bytes_eq};
ghost use Rattle.mq_topic.specs.Levels.{levels, levels_left};
ghost use Rattle.mq_topic.specs.Matching.{matches, levels_match_by, level_matches, is_hidden, is_wildcard};

use crate::filter::TopicFilter;
use crate::level_text::LevelText;
use crate::levels::split_first;
use crate::name::TopicName;

/// Whether the filter matches the name (MQTT 5.0, sections 4.7.1 and 4.7.2). It takes no memory and walks each
/// text once.
pub fn matches(filter: &TopicFilter, name: &TopicName) -> bool
    ensures { result ≡ matches (levels filter.now) (levels name.now) }
{
    texts_match(filter.text(), name.text())
}

/// Whether the name begins with `$`, and the filter with a wildcard: then it isn't matched (MQTT 5.0, section 4.7.2).
pub fn is_hidden(filter: &str, name: &str) -> bool
    ensures { result ≡ is_hidden (levels filter.now) (levels name.now) }
{
    let (first_wanted, _) = split_first(filter);
    let (first, _) = split_first(name);
    first.starts_with('$') && is_wildcard(first_wanted)
}

fn texts_match(filter: &str, name: &str) -> bool
    ensures { result ≡ matches (levels filter.now) (levels name.now) }
{
    !is_hidden(filter, name) && levels_match(&Plain, filter, name)
}

fn is_wildcard(level: &str) -> bool
    ensures { result ≡ is_wildcard level.now }
{
    level == "+" || level == "#"
}

/// A test of a level of a filter against the level of a name at its place. Topic filters and the rows of access
/// lists differ in it alone, and share the walk `levels_match`.
pub trait LevelTest {
    /// Whether the two pass.
    ghost passes: { Self → List ℕ → List ℕ → Bool };

    /// Whether the two pass.
    fn passes(&self, wanted: &str, level: &str) -> bool
        ensures { result ≡ passes self.now wanted.now level.now };
}

struct Plain;

impl LevelTest for Plain {
    ghost passes = { λ _ wanted level. level_matches wanted level };

    fn passes(&self, wanted: &str, level: &str) -> bool {
        wanted == "+" || wanted == level
    }
}

/// A `#` with no level after it.
#[tactic(auto, using(crate::proofs::Walk::levels_left_is_none))]
pub fn is_last_hash(level: &str, after: Option<&str>) -> bool
    ensures { result ≡ (bytes_eq level.now (codes "#") && (length (levels_left after.entry) == 0)) }
{
    level == "#" && after.is_none()
}

/// Whether the levels match by this test, `#` taken as the rest of the name, and the rule on `$` left out. Each
/// text is walked once.
#[tactic(auto, using(crate::proofs::Walk::levels_match_cons, crate::proofs::Walk::levels_match_end))]
pub fn levels_match<T: LevelTest>(test: &T, filter: &str, name: &str) -> bool
    ensures { result ≡ levels_match_by (T.passes test.now) (levels filter.now) (levels name.now) }
{
    let mut filter_rest = Some(filter);
    let mut name_rest = Some(name);
    while let Some(filter) = filter_rest {
        let (wanted, filter_after) = split_first(filter);
        if is_last_hash(wanted, filter_after) {
            return true;
        }
        let Some(name) = name_rest else {
            return false;
        };
        let (level, name_after) = split_first(name);
        if !test.passes(wanted, level) {
            return false;
        }
        filter_rest = filter_after;
        name_rest = name_after;
    }
    name_rest.is_none()
}
