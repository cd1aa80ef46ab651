//! What is left of filters behind one more level of a name.
ghost use Rattle.std.specs.Prelude.{◌≡◌, ℕ, Bool, List, ◌∷◌, true, false, IfOk, IfSome};
ghost use Rattle.std.specs.Option.{option_map_or};
ghost use Rattle.std.specs.List.{list_any, list_all};
ghost use Rattle.mq_cover.specs.Remainders.{marks_view, covers, remainders_fit, marks_pass};

use crate::marks::Marks;
use crate::remainder::Remainder;
use std::alloc::{AllocError, Global};

/// What is left of all of them behind this level; none where one of them covers no name that goes on with it.
pub(crate) fn left_of_all<'a>(
    alloc: Global,
    remainders: &[Remainder<'a>],
    marks: Marks<'a>,
    level: &str,
) -> Result<Option<Vec<Remainder<'a>>>, AllocError>
    ensures covers { IfOk result (λ left. (ls : List (List ℕ))
        → list_all (covers (marks_view marks.entry) (level.now ∷ ls)) remainders.now
        ≡ option_map_or (λ v. list_all (covers (marks_view marks.entry) ls) v.items) left false) }
    ensures fit { IfOk result (λ left. (p : List ℕ → Bool)
        → marks_pass p (marks_view marks.entry) ≡ true
        → remainders_fit p remainders.now ≡ true
        → IfSome left (λ v. remainders_fit p v.items ≡ true)) }
{
    let mut left = Vec::new(alloc);
    for remainder in remainders {
        let Some(next) = remainder.behind(marks, level) else {
            return Ok(None);
        };
        left.push(next)?;
    }
    Ok(Some(left))
}

/// What is left behind this level of those that cover a name that goes on with it.
pub(crate) fn left_of_each<'a>(
    alloc: Global,
    remainders: &[Remainder<'a>],
    marks: Marks<'a>,
    level: &str,
) -> Result<Vec<Remainder<'a>>, AllocError>
    ensures covers { IfOk result (λ left. (ls : List (List ℕ))
        → list_any (covers (marks_view marks.entry) (level.now ∷ ls)) remainders.now
        ≡ list_any (covers (marks_view marks.entry) ls) left.items) }
    ensures fit { IfOk result (λ left. (p : List ℕ → Bool)
        → marks_pass p (marks_view marks.entry) ≡ true
        → remainders_fit p remainders.now ≡ true → remainders_fit p left.items ≡ true) }
{
    let mut left = Vec::new(alloc);
    for remainder in remainders {
        let Some(next) = remainder.behind(marks, level) else {
            continue;
        };
        left.push(next)?;
    }
    Ok(left)
}
