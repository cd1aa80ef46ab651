//! How much of what a filter matches the clients of a class may.
ghost use Rattle.std.specs.Prelude.{◌≡◌, ◌&&◌, ℕ, List, true, false};
ghost use Rattle.std.specs.List.{list_any};
ghost use Rattle.mq_acl.specs.declared.row.Row.{Row};
ghost use Rattle.mq_acl.specs.declared.rules.Rules.{Rules};
ghost use Rattle.mq_who.specs.Extents.{IsExtent, extent_of, is_about};
ghost use Rattle.mq_who.specs.Who.{IsListing};

use crate::permissions::Permissions;
use mq_acl::Direction;
use mq_differences::{Class, Difference, same_class, same_direction};

/// How much of what a filter matches clients may read, or write.
#[derive(Clone, Copy, PartialEq, Eq)]
pub enum Extent {
    /// Each of them may each topic.
    Every,
    /// Some of them may some topic, and some may not some topic.
    Part,
    /// None of them may any topic.
    Nothing,
    /// The filter matches no topic for them: as one with `%u` for clients without a user name.
    Unmatched,
}

// Whether one of them is of the class and the direction.
fn has_about(differences: &[Difference], class: &Class, direction: Direction) -> bool
    ensures { result ≡ list_any (is_about class.now direction) differences.now }
{
    differences.iter().any(|d| same_class(&d.class, class)
        && same_direction(d.direction, direction))
}

fn extent_of(some: bool, others: bool) -> Extent
    ensures { result ≡ extent_of some others }
{
    match (some, others) {
        (true, false) => Extent::Every,
        (true, true) => Extent::Part,
        (false, true) => Extent::Nothing,
        (false, false) => Extent::Unmatched,
    }
}

impl Permissions {
    /// How much of what the filter matches the clients of this class may read, or write.
    pub fn extent(&self, class: &Class, direction: Direction) -> Extent
        ensures { (rules : Rules) (rows : List Row) (wanted : List ℕ)
            → IsListing rules true rows wanted self.now.granted.items
            → IsListing rules false rows wanted self.now.refused.items
            → IsExtent rules rows wanted class.now direction result }
    {
        let some = has_about(&self.granted, class, direction);
        let others = has_about(&self.refused, class, direction);
        extent_of(some, others)
    }
}
