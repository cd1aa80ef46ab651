//! The level to go on with.
ghost use Rattle.std.specs.Prelude.{◌≡◌, ℕ, Bool, List, ◌∷◌, true, IfSome, IfNone};
ghost use Rattle.std.specs.List.{list_all};
ghost use Rattle.std.specs.Str.{bytes_eq};
ghost use Rattle.mq_cover.specs.Remainders.{marks_view, marks_pass, covers, remainders_fit};
ghost use Rattle.mq_cover.specs.Names.{are_others, is_choice};
ghost use Rattle.mq_cover.specs.Choices.{IsBestIfAny, known_pass};

use crate::marks::Marks;
use crate::others::Others;
use crate::remainder::{Next, Remainder};
use crate::start::Start;

// A level that one of these demands, if any.
fn demanded<'a>(must: &[Remainder<'a>], marks: Marks<'a>) -> Option<&'a str>
    ensures some { IfSome result (λ level. (l : List ℕ) (ls : List (List ℕ))
        → list_all (covers (marks_view marks.entry) (l ∷ ls)) must.now ≡ true
        → bytes_eq l level.now ≡ true) }
    ensures none { IfNone result ((l m : List ℕ) (ls : List (List ℕ))
        → list_all (covers (marks_view marks.entry) (l ∷ ls)) must.now
        ≡ list_all (covers (marks_view marks.entry) (m ∷ ls)) must.now) }
    ensures fits { (p : List ℕ → Bool) → marks_pass p (marks_view marks.entry) ≡ true
        → remainders_fit p must.now ≡ true → IfSome result (λ level. p level.now ≡ true) }
{
    for remainder in must {
        if let Next::At(level, _) = remainder.next(marks) {
            return Some(level);
        }
    }
    None
}

/// The level to go on with: the one that `must` demands, and where it demands none the one that no row names. A filter
/// that covers a name with that one here covers it with each level here, so no other is better. None where a name may
/// not go on with the level that is demanded.
pub(crate) fn best_level<'a>(
    marks: Marks<'a>,
    others: Others<'a>,
    start: Start,
    must: &[Remainder<'a>],
) -> Option<&'a str>
    requires others { are_others others ≡ true }
    requires marks { marks_pass (is_choice others) (marks_view marks) ≡ true }
    requires must { remainders_fit (is_choice others) must.now ≡ true }
    ensures best { IsBestIfAny start (marks_view marks.entry) others.entry must.now result }
    ensures known { (p : List ℕ → Bool) → known_pass p (marks_view marks.entry) others.entry ≡ true
        → remainders_fit p must.now ≡ true → IfSome result (λ level. p level.now ≡ true) }
{
    let level = demanded(must, marks).unwrap_or(others.at(start));
    if start.fits(level) { Some(level) } else { None }
}
