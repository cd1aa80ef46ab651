//! Which filters can cover a name in common.
ghost use Rattle.std.specs.Prelude.{◌≡◌, ℕ, Bool, List, [], true, false, length, codes, ◌==◌, ◌&&◌};
ghost use Rattle.std.specs.Prelude.{◌||◌};
ghost use Rattle.std.specs.List.{list_all};
ghost use Rattle.std.specs.Str.{bytes_eq};
ghost use Rattle.mq_topic.specs.Levels.{levels_left};
ghost use Rattle.mq_topic.specs.Matching.{levels_match_by};
ghost use Rattle.mq_cover.specs.Remainders.{MarkLevels, covers};
ghost use Rattle.mq_witness.specs.Overlaps.{is_loose};

use mq_cover::Remainder;
use mq_topic::split_first;

// A `#` with no level after it.
#[tactic(auto, using(mq_topic::proofs::Walk::levels_left_is_none))]
fn is_last_hash(level: &str, after: Option<&str>) -> bool
    ensures { result ≡ (bytes_eq level.now (codes "#") && (length (levels_left after.entry) == 0)) }
{
    level == "#" && after.is_none()
}

fn is_loose(pattern: bool, wanted: &str) -> bool
    ensures { result ≡ is_loose pattern wanted.now }
{
    wanted == "+" || (pattern && (wanted == "%c" || wanted == "%u"))
}

// Whether a level may pass both of these, each of a `pattern` row or not, whatever the marks stand for.
fn may_share(one: bool, wanted: &str, other: bool, other_wanted: &str) -> bool
    ensures { result ≡ (is_loose one wanted.now || is_loose other other_wanted.now
        || bytes_eq wanted.now other_wanted.now) }
{
    is_loose(one, wanted) || is_loose(other, other_wanted) || wanted == other_wanted
}

// Whether it may cover a name that ends here.
fn may_end(rest: Option<&str>) -> bool
    ensures { result ≡ false → (test : List ℕ → List ℕ → Bool)
        → levels_match_by test (levels_left rest.entry) [] ≡ false }
{
    match rest {
        None => true,
        Some(text) => {
            let (wanted, after) = split_first(text);
            is_last_hash(wanted, after)
        }
    }
}

/// Whether some name may be covered by both, whatever the marks stand for.
pub(crate) fn may_meet(one: &Remainder, other: &Remainder) -> bool
    ensures { result ≡ false → (marks : MarkLevels) (ls : List (List ℕ))
        → covers marks ls one.now ≡ true → covers marks ls other.now ≡ false }
{
    let mut one_rest = one.rest;
    let mut other_rest = other.rest;
    while let Some(text) = one_rest {
        let (wanted, after) = split_first(text);
        if is_last_hash(wanted, after) {
            return true;
        }
        let Some(text) = other_rest else {
            return false;
        };
        let (other_wanted, other_after) = split_first(text);
        if is_last_hash(other_wanted, other_after) {
            return true;
        }
        if !may_share(one.pattern, wanted, other.pattern, other_wanted) {
            return false;
        }
        one_rest = after;
        other_rest = other_after;
    }
    may_end(other_rest)
}

/// Whether it may cover a name that all of these do.
pub(crate) fn may_meet_all(must: &[Remainder], remainder: &Remainder) -> bool
    ensures { result ≡ false → (marks : MarkLevels) (ls : List (List ℕ))
        → list_all (covers marks ls) must.now ≡ true → covers marks ls remainder.now ≡ false }
{
    for other in must {
        if !may_meet(other, remainder) {
            return false;
        }
    }
    true
}
