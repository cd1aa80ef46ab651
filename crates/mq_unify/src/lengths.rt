//! Filters that match no name together, since one demands more levels than another leaves.
ghost use Rattle.std.specs.Prelude.{IsTrue};
ghost use Rattle.mq_unify.specs.Lengths.{AreApart, IsBeyond, IsLonger};
ghost use Rattle.mq_unify.specs.Terms.{shape_of};

use crate::term::Terms;

// Whether the one demands more levels than each name has that the other matches.
fn is_longer(one: &Terms, other: &Terms) -> bool
    ensures { IsTrue result → IsLonger (shape_of one.now) (shape_of other.now) }
{
    !other.has_rest && other.fixed.len() < one.fixed.len()
}

// Whether it demands more than one of these leaves.
fn is_beyond(one: &Terms, all: &[Terms]) -> bool
    ensures { IsTrue result → IsBeyond (shape_of one.now) all.now }
{
    let Some((first, rest)) = all.split_first() else {
        return false;
    };
    if is_longer(one, first) {
        return true;
    }
    is_beyond(one, rest)
}

/// Whether one of these demands more levels than one of all leaves.
pub(crate) fn are_apart(some: &[Terms], all: &[Terms]) -> bool
    ensures { IsTrue result → AreApart some.now all.now }
{
    let Some((first, rest)) = some.split_first() else {
        return false;
    };
    if is_beyond(first, all) {
        return true;
    }
    are_apart(rest, all)
}
