ghost use Rattle.std.specs.Prelude.{◌≡◌, ℕ, List, Bool, true, Some, None, ◌&&◌, ◌||◌, not, ◌==◌, length};
ghost use Rattle.std.specs.Prelude.{IfOk, IfErr, IfSome, if◌then◌else◌};
ghost use Rattle.std.specs.List.{list_all, zip};
ghost use Rattle.mq_topic.specs.Levels.{levels};
ghost use Rattle.mq_topic.specs.Matching.{ends_with_hash, is_wildcard, level_at, matches};
ghost use Rattle.mq_topic.specs.Texts.{is_name};
ghost use Rattle.mq_rename.specs.Lists.{has_long, IsFault, is_plus};
ghost use Rattle.mq_rename.specs.Meets.{matches_if_any};
ghost use Rattle.mq_rename.specs.Renames.{has_place, is_rename, new_name};

use crate::binding::bound_levels;
use crate::fault::MeetFault;
use crate::joining::filter_of;
use crate::meeting::meet;
use crate::naming::new_levels;
use mq_topic::{LevelText, TopicFault, TopicFilter, TopicName, is_hidden, matches, split_first};
use std::alloc::{AllocError, Global};
use std::marker::Model;

/// A rule by which topics are renamed. The left side says which topics these are. The right side is the new name as a
/// filter: each `+` stands for the topic's level at one place of the left side, and a `#` at its end for the levels
/// that the left side's `#` stands for.
pub struct Rename {
    left: TopicFilter,
    right: TopicFilter,
    places: Vec<usize>,
}

// Opaque to callers' proofs: one step, and not one for each field (docs/explanation/gate.md).
impl Drop for Rename {
    fn drop(self) {
        let Rename {
            left: _,
            right: _,
            places: _,
        } = self;
    }
}

impl Model for Rename {
    ghost use Rattle.std.specs.Prelude.{IsTrue};
    ghost use Rattle.mq_rename.specs.Renames.{Renaming, is_rename};

    ghost Value = { Renaming };

    ghost view = { λ r. record { left = r.left; right = r.right; places = r.places.items } };

    ghost invariant = { λ r. IsTrue (is_rename r.left r.right r.places.items) };
}

// Whether the level of the filter at this place, if it has that many, is `+`.
fn has_plus_at(filter: &TopicFilter, place: usize) -> bool
    ensures { result ≡ is_plus (level_at (levels filter.now) place) }
{
    place < filter.level_count() && filter.level(place) == "+"
}

fn ends_with_hash(filter: &TopicFilter) -> bool
    ensures { result ≡ ends_with_hash (levels filter.now) }
{
    filter.level(filter.level_count() - 1) == "#"
}

fn begins_with_wildcard(filter: &TopicFilter) -> bool
    ensures { result ≡ is_wildcard (level_at (levels filter.now) 0) }
{
    let (first, _) = split_first(filter.text());
    first == "+" || first == "#"
}

// Whether each `+` on the right has the place of one on the left.
fn have_places(left: &TopicFilter, right: &TopicFilter, places: &[usize]) -> bool
    ensures { result ≡ list_all (has_place (levels left.now)) (zip (levels right.now) places.now) }
{
    right
        .text()
        .split('/')
        .zip(places)
        .all(|(level, place)| level != "+" || has_plus_at(left, *place))
}

fn is_rename(left: &TopicFilter, right: &TopicFilter, places: &[usize]) -> bool
    ensures { result ≡ is_rename left.now right.now places.now }
{
    right.level_count() == places.len()
        && have_places(left, right, places)
        && (!ends_with_hash(right) || ends_with_hash(left))
        && !begins_with_wildcard(right)
}

impl Rename {
    ghost use Rattle.mq_rename.specs.Renames.{Renaming, new_levels};

    /// The rule with these sides. `places` has a place for each level of the right side: where that is `+`, the place
    /// on the left, counted from 0, of the `+` that it stands for; elsewhere any number. None where it hasn't, where
    /// the right side ends with `#` and the left side doesn't, or where the right side begins with a wildcard: whether
    /// new names begin with `$` is to be plain from the rule.
    pub fn new(left: TopicFilter, right: TopicFilter, places: Vec<usize>) -> Option<Rename>
        ensures { result ≡ (if is_rename left right places.items then
            Some (record { left = left; right = right; places = places.items }) else None) }
    {
        if !is_rename(&left, &right, &places) {
            return None;
        }
        Some(Rename {
            left,
            right,
            places,
        })
    }

    /// Which topics are renamed.
    pub fn left(&self) -> &TopicFilter
        ensures { result.now ≡ self.entry.now.left }
    {
        &self.left
    }

    /// What they are renamed to, as a filter.
    pub fn right(&self) -> &TopicFilter
        ensures { result.now ≡ self.entry.now.right }
    {
        &self.right
    }

    /// Whether the topic is renamed.
    pub fn matches(&self, name: &TopicName) -> bool
        ensures { result ≡ matches (levels self.now.left) (levels name.now) }
    {
        matches(&self.left, name)
    }

    /// The new name of a topic. None where the topic isn't renamed, and where the text is not a topic name: it is empty,
    /// or has more than 65,535 bytes or 200 levels (MQTT 5.0, section 4.7.3; the limit of 200 levels is our own).
    pub fn new_name(&self, alloc: Global, name: &TopicName) -> Result<Option<TopicName>, AllocError>
        ensures { IfOk result (λ found. found ≡ new_name self.now name.now) }
    {
        if !self.matches(name) {
            return Ok(None);
        }
        let levels = new_levels(alloc, &self.left, &self.right, &self.places, name)?;
        let text = levels.join(alloc, "/")?;
        match TopicName::parse(alloc, text.as_str()) {
            Ok(name) => Ok(Some(name)),
            Err(fault) => match fault {
                TopicFault::Memory => Err(AllocError),
                _ => Ok(None),
            },
        }
    }

    /// The filter that matches the topics that are renamed and that this one matches; none only where there is no such
    /// topic.
    pub fn cut(&self, alloc: Global, filter: &TopicFilter) -> Result<Option<TopicFilter>, MeetFault>
        ensures same { IfOk result (λ cut. (n : List ℕ) → is_name n ≡ true → matches_if_any cut n
            ≡ (matches (levels self.now.left) (levels n) && matches (levels filter.now) (levels n))) }
        ensures long { IfOk result (λ cut. IfSome cut (λ f. has_long (levels f) ≡ true
            → (has_long (levels self.now.left) || has_long (levels filter.now)) ≡ true)) }
        ensures fault { IfErr result (λ fault.
            IsFault fault (has_long (levels self.now.left) || has_long (levels filter.now))) }
    {
        meet(alloc, &self.left, filter)
    }

    /// The filter that matches the topics whose new names this one matches; none only where there
    /// is no such topic. It may match a topic that the rule gives no new name, since the text is
    /// not a topic name, but none that isn't renamed.
    pub fn back(
        &self,
        alloc: Global,
        filter: &TopicFilter,
    ) -> Result<Option<TopicFilter>, MeetFault>
        ensures same { IfOk result (λ back. (n m : List ℕ) → is_name n ≡ true
            → new_name self.now n ≡ Some m
            → matches_if_any back n ≡ matches (levels filter.now) (levels m)) }
        ensures rule { is_rename self.now.left self.now.right self.now.places ≡ true }
        ensures renamed { IfOk result (λ back. (n : List ℕ) → is_name n ≡ true
            → matches_if_any back n ≡ true → matches (levels self.now.left) (levels n) ≡ true) }
        ensures long { IfOk result (λ back. IfSome back (λ f. has_long (levels f) ≡ true
            → (has_long (levels self.now.left) || has_long (levels filter.now)) ≡ true)) }
        ensures fault { IfErr result (λ fault.
            IsFault fault (has_long (levels self.now.left) || has_long (levels filter.now))) }
    {
        // New names begin with the right side's first level.
        if is_hidden(filter.text(), self.right.text()) {
            return Ok(None);
        }
        let bound = bound_levels(alloc, &self.left, &self.right, &self.places, filter)?;
        let Some(bound) = bound else {
            return Ok(None);
        };
        let Some(wanted) = filter_of(alloc, &bound)? else {
            return Ok(None);
        };
        meet(alloc, &self.left, &wanted)
    }
}
