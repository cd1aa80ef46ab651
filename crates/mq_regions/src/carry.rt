//! Filters that are carried to the topics of a region.
ghost use Rattle.std.specs.Prelude.{◌≡◌, ◌||◌, IfOk, IfErr};
ghost use Rattle.mq_topic.specs.Levels.{levels};
ghost use Rattle.mq_rename.specs.Lists.{has_long, IsFault};
ghost use Rattle.mq_regions.specs.Carried.{IsCarriedIfAny};
ghost use Rattle.mq_regions.specs.Regions.{kind_levels};

use crate::region::RegionKind;
use crate::side::Side;
use mq_rename::{MeetFault, meet};
use mq_topic::TopicFilter;
use std::alloc::Global;

/// The filter of those topics of this kind for which the list asks about a name that the filter matches; none only
/// where there is no such topic.
pub(crate) fn carry(
    alloc: Global,
    side: Side,
    kind: &RegionKind,
    filter: &TopicFilter,
) -> Result<Option<TopicFilter>, MeetFault>
    ensures carried { IfOk result (IsCarriedIfAny side kind.now filter.now) }
    ensures fault { IfErr result (λ fault.
        IsFault fault (has_long (kind_levels kind.now) || has_long (levels filter.now))) }
{
    match kind {
        RegionKind::Same => Ok(Some(filter.clone()?)),
        RegionKind::Kept(kept) => meet(alloc, kept, filter),
        RegionKind::Renamed(rename) => match side {
            Side::Old => rename.cut(alloc, filter),
            Side::New => rename.back(alloc, filter),
        },
    }
}
