ghost use Rattle.std.specs.Prelude.{◌≡◌, ◌++◌, ◌∷◌, [], ℕ, List, All, IfOk, OnOk, IfSome, IfNone};
ghost use Rattle.std.specs.Prelude.{false, if◌then◌else◌, string_bytes, true};
ghost use Rattle.std.specs.BTreeMap.{get_by_text};
ghost use Rattle.std.specs.Option.{option_map_or};
ghost use Rattle.std.specs.Str.{bytes_eq};
ghost use Rattle.mq_differences.specs.Groups.{HasGroup, IsGathered, IsGathering, JoinsGroup};
ghost use Rattle.mq_differences.specs.Groups.{LacksGroup, is_alike, key_of, line_of, places_at};
ghost use Rattle.mq_differences.specs.declared.difference.Difference.{Difference};

use crate::difference::{Difference, same_direction};
use crate::reason::Reason;
use mq_topic::LevelText;
use std::alloc::{AllocError, Global};
use std::collections::BTreeMap;

/// Differences that are alike: of the same way, direction and topic, and decided by the same lines.
pub struct Group {
    /// One of them.
    pub first: Difference,
    /// The others.
    pub others: Vec<Difference>,
}

// Opaque to callers' proofs: one step, and not one for each field (docs/explanation/gate.md).
impl Drop for Group {
    fn drop(self) {
        let Group {
            first: _,
            others: _,
        } = self;
    }
}

fn is_alike(left: &Difference, right: &Difference) -> bool
    ensures { result ≡ is_alike left.now right.now }
{
    left.same_reasons(right)
        && same_direction(left.direction, right.direction)
        && left.way == right.way
        && left.topic == right.topic
}

// The line that decides, or 0 where none does.
fn line_of(reason: Reason) -> u64
    ensures { result ≡ line_of reason }
{
    match reason {
        Reason::Deny(line) | Reason::Grant(line) => line,
        Reason::NoGrant | Reason::Broker => 0,
    }
}

// What the group of the difference is looked up by: the same for all that are alike.
fn key_of(alloc: Global, difference: &Difference) -> Result<String, AllocError>
    ensures { IfOk result (λ key. string_bytes key ≡ key_of difference.now) }
{
    let old = line_of(difference.old_reason);
    let new = line_of(difference.new_reason);
    let topic = difference.topic.text();
    format!(in alloc; "{old} {new} {topic}")
}

// Whether the difference belongs to the group at this place.
fn belongs_at(groups: &[Group], place: usize, difference: &Difference) -> bool
    ensures has { result ≡ true → HasGroup groups.now difference.now place }
    ensures lacks { result ≡ false → LacksGroup groups.now difference.now place }
{
    match groups.get(place) {
        Some(group) => is_alike(&group.first, difference),
        None => false,
    }
}

// The place of the group that the difference belongs to, if it is one of these.
fn place_among(groups: &[Group], places: &[usize], difference: &Difference) -> Option<usize>
    ensures has { IfSome result (HasGroup groups.now difference.now) }
    ensures lacks { IfNone result (All (LacksGroup groups.now difference.now) places.now) }
{
    for place in places {
        if belongs_at(groups, *place, difference) {
            return Some(*place);
        }
    }
    None
}

fn add_to(group: &mut Group, difference: Difference) -> Result<(), AllocError>
    ensures { OnOk result (JoinsGroup group.old difference group.new) }
{
    group.others.push(difference)?;
    Ok(())
}

fn add_place(
    places: &mut BTreeMap<String, Vec<usize>>,
    key: String,
    place: usize,
) -> Result<(), AllocError>
    ensures { OnOk result ((text : List ℕ)
        → option_map_or (λ all. all.items) (get_by_text places.new text) []
        ≡ option_map_or (λ all. all.items) (get_by_text places.old text) []
        ++ (if bytes_eq text (string_bytes key) then place ∷ [] else [])) }
{
    places.entry(key)?.or_default().push(place)?;
    Ok(())
}

/// The groups of the differences so far.
struct Gathering {
    groups: Vec<Group>,
    // The places of the groups, by what they are looked up by.
    places: BTreeMap<String, Vec<usize>>,
}

// Opaque to callers' proofs: one step, and not one for each field (docs/explanation/gate.md).
impl Drop for Gathering {
    fn drop(self) {
        let Gathering {
            groups: _,
            places: _,
        } = self;
    }
}

impl Gathering {
    #[tactic(auto, unfolding(crate::specs::Groups::firsts))]
    fn new(alloc: Global) -> Gathering
        ensures { IsGathered [] result }
    {
        Gathering {
            groups: Vec::new(alloc),
            places: BTreeMap::new(alloc),
        }
    }

    fn places_at(&self, key: &str) -> &[usize]
        ensures { result.now ≡ places_at key.now self.now }
    {
        let Some(places) = self.places.get(key) else {
            return &[];
        };
        places.as_slice()
    }

    // Adds a group of this difference alone.
    fn begin(&mut self, alloc: Global, key: String, first: Difference) -> Result<(), AllocError>
        ensures { OnOk result ((all : List Difference) → string_bytes key ≡ key_of first
            → All (LacksGroup self.old.groups.items first) (places_at (key_of first) self.old)
            → IsGathered all self.old → IsGathered (all ++ first ∷ []) self.new) }
    {
        let place = self.groups.as_slice().len();
        self.groups.push(Group {
            first,
            others: Vec::new(alloc),
        })?;
        add_place(&mut self.places, key, place)
    }

    fn add(&mut self, alloc: Global, difference: Difference) -> Result<(), AllocError>
        ensures { OnOk result ((all : List Difference) → IsGathered all self.old
            → IsGathered (all ++ difference ∷ []) self.new) }
    {
        let key = key_of(alloc, &difference)?;
        let places = self.places_at(key.as_str());
        let Some(place) = place_among(&self.groups, places, &difference) else {
            return self.begin(alloc, key, difference);
        };
        add_to(&mut self.groups[place], difference)
    }

    fn into_groups(self) -> Vec<Group>
        ensures { result ≡ self.groups }
    {
        let Gathering { groups, places: _ } = self;
        groups
    }
}

/// The differences in groups of those that are alike, in the order of the first of each.
pub fn gather(alloc: Global, differences: Vec<Difference>) -> Result<Vec<Group>, AllocError>
    ensures { IfOk result (λ groups. IsGathering differences.items groups.items) }
{
    let mut gathering = Gathering::new(alloc);
    for difference in differences {
        gathering.add(alloc, difference)?;
    }
    Ok(gathering.into_groups())
}
