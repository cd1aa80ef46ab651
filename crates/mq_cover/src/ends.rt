//! Where a walk ends.
ghost use Rattle.std.specs.Prelude.{◌≡◌, ◌&&◌, []};
ghost use Rattle.std.specs.List.{list_any, list_all};
ghost use Rattle.mq_cover.specs.Remainders.{no_marks, covers, hits};
ghost use Rattle.mq_cover.specs.Ends.{is_open};
ghost use Rattle.mq_cover.specs.Names.{ends};

use crate::remainder::Remainder;
use crate::start::Start;

fn all_may_end(remainders: &[Remainder]) -> bool
    ensures { result ≡ list_all (covers no_marks []) remainders.now }
{
    remainders.iter().all(|r| r.may_end())
}

fn some_may_end(remainders: &[Remainder]) -> bool
    ensures { result ≡ list_any (covers no_marks []) remainders.now }
{
    remainders.iter().any(|r| r.may_end())
}

/// Whether a name may end here that all of `must` cover and none of `cover` does.
pub(crate) fn hits_end(start: Start, must: &[Remainder], cover: &[Remainder]) -> bool
    ensures { result ≡ (ends start && hits no_marks [] must.now cover.now) }
{
    start.ends() && all_may_end(must) && !some_may_end(cover)
}

/// Whether one of these covers whatever follows.
pub(crate) fn some_open(remainders: &[Remainder]) -> bool
    ensures { result ≡ list_any is_open remainders.now }
{
    remainders.iter().any(|r| r.is_open())
}
