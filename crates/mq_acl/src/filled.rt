//! The filter of a `pattern` line with the texts of a client in the place of its marks, and which names it matches. The
//! text isn't made: it is compared piece by piece.
ghost use Rattle.std.specs.Prelude.{◌≡◌, ◌<◌, ◌++◌, ◌∷◌, ◌||◌, ℕ, List, [], length, IfSome, IfNone, true, false};
ghost use Rattle.std.specs.Prelude.{codes};
ghost use Rattle.std.specs.Str.{bytes_eq};
ghost use Rattle.std.specs.Option.{option_map_or};
ghost use Rattle.std.specs.List.{before_first, position};
ghost use Rattle.mq_topic.specs.Levels.{is_slash, levels, levels_left};
ghost use Rattle.mq_topic.specs.Matching.{level_matches, levels_match_by, matches};
ghost use Rattle.mq_topic.specs.Texts.{is_plain, wildcards_fit};
ghost use Rattle.mq_acl.specs.Filled.{filled};

use mq_topic::{is_hidden, is_last_hash, split_first};

/// What stands in the place of `%c` and of `%u`.
#[derive(Clone, Copy)]
pub struct Names<'a> {
    /// In that of `%c`.
    pub client: &'a str,
    /// In that of `%u`.
    pub user: &'a str,
}

fn slash_among(name: &[u8]) -> Option<usize>
    ensures { result ≡ position is_slash name.now }
{
    name.iter().position(|byte| *byte == b'/')
}

// What follows the first level of the name, and its slash, if there is one.
fn behind_first(name: &[u8]) -> Option<&[u8]>
    ensures { levels name.now ≡ before_first is_slash name.now ∷ levels_left result }
{
    let count = slash_among(name)?;
    Some(&name[count + 1..])
}

impl<'a> Names<'a> {
    /// What the text begins with, its mark replaced, and what is left of it.
    pub fn split_piece(self, text: &'a [u8]) -> Option<(&'a [u8], &'a [u8])>
        ensures none { IfNone result (text.now ≡ []) }
        ensures some { IfSome result (λ parts.
            filled self.entry.client.now self.entry.user.now text.now
            ≡ parts.0.now ++ filled self.entry.client.now self.entry.user.now parts.1.now) }
        ensures shorter { IfSome result (λ parts. length parts.1.now < length text.now) }
    {
        match text {
            [] => None,
            [b'%', b'c', rest @ ..] => Some((self.client.as_bytes(), rest)),
            [b'%', b'u', rest @ ..] => Some((self.user.as_bytes(), rest)),
            [_, rest @ ..] => Some((&text[..1], rest)),
        }
    }

    // What the name has behind the text of this level; none where it doesn't begin with it.
    fn strip(self, level: &'a str, name: &'a [u8]) -> Option<&'a [u8]>
        ensures some { IfSome result (λ left. name.now
            ≡ filled self.entry.client.now self.entry.user.now level.now ++ left.now) }
        ensures none { IfNone result ((left : List ℕ) → name.now
            ≡ filled self.entry.client.now self.entry.user.now level.now ++ left → ⊥) }
    {
        let mut rest = level.as_bytes();
        let mut left = name;
        while let Some((piece, after)) = self.split_piece(rest) {
            left = left.strip_prefix(piece)?;
            rest = after;
        }
        Some(left)
    }

    // What follows the level in the name; none where the level doesn't match what the name begins with.
    fn behind(self, level: &'a str, name: &'a [u8]) -> Option<Option<&'a [u8]>>
        requires client { is_plain self.client.now ≡ true }
        requires user { is_plain self.user.now ≡ true }
        requires level { (bytes_eq level.now (codes "+") || is_plain level.now) ≡ true }
        ensures { (after : List (List ℕ)) → levels_match_by level_matches
            (levels (filled self.entry.client.now self.entry.user.now level.now) ++ after)
            (levels name.now) ≡ option_map_or (λ rest. levels_match_by level_matches after
            (levels_left rest)) result false }
    {
        if level == "+" {
            return Some(behind_first(name));
        }
        let Some((first, rest)) = self.strip(level, name)?.split_first() else {
            return Some(None);
        };
        if *first == b'/' {
            Some(Some(rest))
        } else {
            None
        }
    }

    // The rule on `$` left out.
    fn match_levels(self, filter: &'a str, name: &'a str) -> bool
        requires client { is_plain self.client.now ≡ true }
        requires user { is_plain self.user.now ≡ true }
        requires filter { wildcards_fit (levels filter.now) ≡ true }
        ensures { result ≡ levels_match_by level_matches
            (levels (filled self.entry.client.now self.entry.user.now filter.now))
            (levels name.now) }
    {
        let mut filter_rest = Some(filter);
        let mut name_rest = Some(name.as_bytes());
        while let Some(filter) = filter_rest {
            let (wanted, after) = split_first(filter);
            if is_last_hash(wanted, after) {
                return true;
            }
            let Some(name) = name_rest else {
                return false;
            };
            let Some(rest) = self.behind(wanted, name) else {
                return false;
            };
            filter_rest = after;
            name_rest = rest;
        }
        name_rest.is_none()
    }

    /// Whether the filter, with these texts in the place of its marks, matches the name.
    pub(crate) fn matches(self, filter: &'a str, name: &'a str) -> bool
        requires client { is_plain self.client.now ≡ true }
        requires user { is_plain self.user.now ≡ true }
        requires filter { wildcards_fit (levels filter.now) ≡ true }
        ensures { result ≡ matches
            (levels (filled self.entry.client.now self.entry.user.now filter.now))
            (levels name.now) }
    {
        !is_hidden(filter, name) && self.match_levels(filter, name)
    }
}
