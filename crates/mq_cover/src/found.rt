ghost use Rattle.std.specs.Prelude.{◌≡◌, ℕ, Bool, List, true, IfOk, Some, None};
ghost use Rattle.std.specs.List.{list_all};
ghost use Rattle.mq_cover.specs.Remainders.{marks_view, marks_pass, remainders_fit};
ghost use Rattle.mq_cover.specs.Remainders.{FindsNothing, IsFound};
ghost use Rattle.mq_cover.specs.Paths.{levels_of};
ghost use Rattle.mq_cover.specs.Names.{are_others, is_choice};
ghost use Rattle.mq_cover.specs.Choices.{known_pass};
ghost use Rattle.mq_cover.specs.declared.path.Path.{Path};

use crate::choice::best_level;
use crate::ends::{hits_end, some_open};
use crate::left::{left_of_all, left_of_each};
use crate::marks::Marks;
use crate::others::Others;
use crate::path::Path;
use crate::remainder::Remainder;
use crate::start::Start;
use std::alloc::{AllocError, Global};

/// A name that each of `must` covers and none of `cover` does, by its levels from here on, at most
/// `budget` of them; none only where there is none. It goes down at most `budget` levels, and at
/// most one below the longest filter; at each it goes through the remainders a few times. The only
/// error is that memory is refused.
pub fn find<'a>(
    alloc: Global,
    marks: Marks<'a>,
    others: Others<'a>,
    start: Start,
    budget: usize,
    must: &[Remainder<'a>],
    cover: &[Remainder<'a>],
) -> Result<Option<Path<'a>>, AllocError>
    requires others { are_others others ≡ true }
    requires marks { marks_pass (is_choice others) (marks_view marks) ≡ true }
    requires must { remainders_fit (is_choice others) must.now ≡ true }
    requires cover { remainders_fit (is_choice others) cover.now ≡ true }
    ensures none { IfOk result (λ found. found ≡ None
        → FindsNothing start budget (marks_view marks.entry) must.now cover.now) }
    ensures some { IfOk result (λ found. (path : Path) → found ≡ Some path
        → IsFound start budget (marks_view marks.entry) must.now cover.now (levels_of path)) }
    ensures known { IfOk result (λ found. (path : Path) → found ≡ Some path
        → (p : List ℕ → Bool) → known_pass p (marks_view marks.entry) others.entry ≡ true
        → remainders_fit p must.now ≡ true → list_all p (levels_of path) ≡ true) }
{
    if some_open(cover) {
        return Ok(None);
    }
    if hits_end(start, must, cover) {
        return Ok(Some(Path {
            levels: Vec::new(alloc),
        }));
    }
    if budget == 0 {
        return Ok(None);
    }
    let Some(level) = best_level(marks, others, start, must) else {
        return Ok(None);
    };
    let Some(must) = left_of_all(alloc, must, marks, level)? else {
        return Ok(None);
    };
    let cover = left_of_each(alloc, cover, marks, level)?;
    let behind = start.behind(level);
    let Some(path) = find(alloc, marks, others, behind, budget - 1, &must, &cover)? else {
        return Ok(None);
    };
    Ok(Some(path.longer(level)?))
}
