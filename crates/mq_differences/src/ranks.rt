//! Which rows decide, and in which order.
ghost use Rattle.std.specs.Prelude.{◌≡◌, ◌<◌};
ghost use Rattle.mq_acl.specs.Views.{row_view};
ghost use Rattle.mq_differences.specs.Ranks.{is_judge, rank, rank_of};

use mq_acl::{Direction, Owner, Row, Rules, grants, is_deny};

fn rank_of(pattern: bool, deny: bool) -> u8
    ensures rank { result ≡ rank_of pattern deny }
    ensures low { result < 4 }
{
    match (pattern, deny) {
        (false, true) => 0,
        (false, false) => 1,
        (true, true) => 2,
        (true, false) => 3,
    }
}

/// The place of a row among those that decide: the one with the least place that concerns a topic
/// decides, and of those of one place the first. There are four places, 0 to 3.
pub fn rank(rules: Rules, row: &Row) -> u8
    ensures rank { result ≡ rank rules (row_view row.now) }
    ensures low { result < 4 }
{
    match rules {
        Rules::Own => rank_of(false, is_deny(row.access)),
        Rules::Mosquitto => rank_of(matches!(row.owner, Owner::Everyone), is_deny(row.access)),
    }
}

/// Whether it may decide about the direction.
pub fn is_judge(direction: Direction, row: &Row) -> bool
    ensures { result ≡ is_judge direction (row_view row.now) }
{
    is_deny(row.access) || grants(direction, row.access)
}
