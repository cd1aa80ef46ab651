ghost use Rattle.std.specs.Prelude.{◌≡◌, ℕ, Bool, List, [], ◌∷◌, length, ◌==◌, ◌&&◌, true, false};
ghost use Rattle.std.specs.Prelude.{codes, IfSome};
ghost use Rattle.std.specs.Option.{option_map_or};
ghost use Rattle.std.specs.Str.{bytes_eq};
ghost use Rattle.mq_topic.specs.Levels.{levels_left};
ghost use Rattle.mq_cover.specs.Remainders.{marks_view, covers, no_marks};
ghost use Rattle.mq_cover.specs.Remainders.{remainder_fits, marks_pass};
ghost use Rattle.mq_cover.specs.Nexts.{GoesOn, NextFits, at_mark};
ghost use Rattle.mq_cover.specs.Ends.{is_open};

use crate::marks::Marks;
use mq_topic::split_first;

/// What is left of a row's filter behind the first levels of a name.
#[derive(Clone, Copy, Drop)]
pub struct Remainder<'a> {
    /// Whether `%c` and `%u` stand for the client id and the user name.
    pub pattern: bool,
    /// None where a name may not go on.
    pub rest: Option<&'a str>,
}

/// With which level a name may go on, and what is left behind it.
#[derive(Clone, Copy, Drop)]
pub(crate) enum Next<'a> {
    Never,
    Always(Remainder<'a>),
    At(&'a str, Remainder<'a>),
}

// A `#` with no level after it.
#[tactic(auto, using(mq_topic::proofs::Walk::levels_left_is_none))]
fn is_last_hash(level: &str, after: Option<&str>) -> bool
    ensures { result ≡ (bytes_eq level.now (codes "#") && (length (levels_left after.entry) == 0)) }
{
    level == "#" && after.is_none()
}

fn at_mark<'a>(mark: Option<&'a str>, next: Remainder<'a>) -> Next<'a>
    ensures { result ≡ at_mark mark.entry next.entry }
{
    match mark {
        Some(level) => Next::At(level, next),
        None => Next::Never,
    }
}

impl<'a> Remainder<'a> {
    /// With which level a name may go on.
    #[tactic(auto, using(crate::proofs::RemainderLemmas::covers_none, crate::proofs::RemainderLemmas::covers_hash))]
    pub(crate) fn next(&self, marks: Marks<'a>) -> Next<'a>
        ensures goes_on { GoesOn (marks_view marks.entry) self.now result }
        ensures fits { (p : List ℕ → Bool) → marks_pass p (marks_view marks.entry) ≡ true
            → remainder_fits p self.now ≡ true → NextFits p result }
    {
        let Some(rest) = self.rest else {
            return Next::Never;
        };
        let (wanted, after) = split_first(rest);
        if is_last_hash(wanted, after) {
            return Next::Always(*self);
        }
        let next = Remainder {
            pattern: self.pattern,
            rest: after,
        };
        if self.is_mark("%c", wanted) {
            return at_mark(marks.client, next);
        }
        if self.is_mark("%u", wanted) {
            return at_mark(marks.user, next);
        }
        if wanted == "+" {
            return Next::Always(next);
        }
        Next::At(wanted, next)
    }

    fn is_mark(&self, mark: &str, wanted: &str) -> bool
        ensures { result ≡ (self.now.pattern && bytes_eq wanted.now mark.now) }
    {
        self.pattern && wanted == mark
    }

    /// What is left of it behind this level; none where it covers no name that goes on with it.
    pub(crate) fn behind(&self, marks: Marks<'a>, level: &str) -> Option<Remainder<'a>>
        ensures covers { (ls : List (List ℕ))
            → covers (marks_view marks.entry) (level.now ∷ ls) self.now
            ≡ option_map_or (covers (marks_view marks.entry) ls) result false }
        ensures fits { (p : List ℕ → Bool) → marks_pass p (marks_view marks.entry) ≡ true
            → remainder_fits p self.now ≡ true
            → IfSome result (λ next. remainder_fits p next ≡ true) }
    {
        match self.next(marks) {
            Next::Always(next) => Some(next),
            Next::At(wanted, next) if wanted == level => Some(next),
            _ => None,
        }
    }

    /// Whether it covers a name that ends here.
    #[tactic(auto, using(crate::proofs::RemainderLemmas::covers_hash, mq_topic::proofs::Walk::levels_match_end))]
    pub(crate) fn may_end(&self) -> bool
        ensures { result ≡ covers no_marks [] self.now }
    {
        match self.rest {
            None => true,
            Some(rest) => {
                let (level, after) = split_first(rest);
                is_last_hash(level, after)
            }
        }
    }

    /// Whether it covers whatever follows.
    pub(crate) fn is_open(&self) -> bool
        ensures { result ≡ is_open self.now }
    {
        match self.rest {
            None => false,
            Some(rest) => {
                let (level, after) = split_first(rest);
                is_last_hash(level, after)
            }
        }
    }
}
