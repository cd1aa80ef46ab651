//! How many levels the topics have that all of some rows cover.
ghost use Rattle.std.specs.Prelude.{◌≤◌, IfSome, length};
ghost use Rattle.mq_topic.specs.Levels.{levels};
ghost use Rattle.mq_acl.specs.Views.{row_view};
ghost use Rattle.mq_shapes.specs.Total.{HasTotal, HaveAtMost, IsLess, IsTotal};
ghost use Rattle.mq_unify.specs.Rows.{lent_rows};

use crate::covered::is_single;
use crate::filled::is_pattern;
use mq_acl::Row;
use mq_topic::{LevelText, split_first};

// How many levels each name has that the filter matches. None where a mark or a last `#` may stand for several.
fn filter_total(pattern: bool, text: &str) -> Option<u8>
    ensures { IfSome result (λ total. IsTotal pattern (levels text.now) total) }
{
    let mut total = 0u8;
    let mut rest = Some(text);
    while let Some(text) = rest {
        let (level, behind) = split_first(text);
        if !is_single(pattern, level, behind) {
            return None;
        }
        total = total.checked_add(1)?;
        rest = behind;
    }
    Some(total)
}

// The same of a row.
fn row_total(row: &Row) -> Option<u8>
    ensures { IfSome result (λ total. HasTotal (row_view row.now) total) }
{
    filter_total(is_pattern(&row.owner), row.filter.text())
}

// So many, or as few as the row covers.
fn least_of(most: u8, row: &Row) -> u8
    ensures less { result ≤ most }
    ensures enough { IsLess (row_view row.now) most result }
{
    match row_total(row) {
        Some(total) => if total < most { total } else { most },
        None => most,
    }
}

/// How many levels a topic has at most that all of these cover.
pub(crate) fn most_total(rows: &[&Row]) -> u8
    ensures few { result ≤ 200 }
    ensures within { HaveAtMost (lent_rows rows.now) result }
{
    let mut most = 200u8;
    for row in rows {
        most = least_of(most, *row);
    }
    most
}
