//! The limit that lists, and what is asked of one client, have to keep to.
ghost use Rattle.std.specs.Prelude.{◌≡◌, true, IfNone, IfSome, All, None};
ghost use Rattle.std.specs.List.{list_all};
ghost use Rattle.mq_acl.specs.Views.{owner_view, row_view, row_views};
ghost use Rattle.mq_witness.specs.Limits.{has_short_levels, is_short_row, long_line, short_who};
ghost use Rattle.mq_witness.specs.Limits.{is_short_level, usable, is_short, IsLongLine};
ghost use Rattle.mq_witness.specs.Roots.{rows_fit};
ghost use Rattle.mq_witness.specs.Rows.{all_rows, lent_rows};
ghost use Rattle.mq_witness.specs.Topics.{AreWithin, IsLimitFault};
ghost use Rattle.mq_cover.specs.Remainders.{fits, mark_passes};
ghost use Rattle.mq_topic.specs.Levels.{levels};
ghost use Rattle.std.specs.Option.{option_copied};

use crate::fault::LimitFault;
use mq_acl::{Owner, Row};
use mq_topic::LevelText;

/// The line of a row that doesn't keep to the limit.
#[derive(Clone, Copy, Drop)]
pub(crate) struct LongLine {
    /// The place of its list, counted from 0.
    pub place: usize,
    pub line: u64,
}

/// Whether no level is longer than 300 bytes.
pub fn has_short_levels(text: &str) -> bool
    ensures { result ≡ has_short_levels text.now }
{
    text.split('/').all(|level| level.len() <= 300)
}

fn is_short_owner(owner: &Owner) -> bool
    ensures { result ≡ short_who (owner_view owner.now) }
{
    match owner {
        Owner::Named(name) => name.len() <= 300,
        _ => true,
    }
}

fn is_short_row(row: &Row) -> bool
    ensures short { result ≡ is_short_row (row_view row.now) }
    ensures usable { result ≡ true → usable (row_view row.now) ≡ true }
{
    has_short_levels(row.filter.text()) && is_short_owner(&row.owner)
}

/// The line of the first row with a level, or a user name, of more than 300 bytes. Without one, no name that is made of
/// levels of the rows is longer than 65,535 bytes.
pub fn long_line(rows: &[Row]) -> Option<u64>
    ensures line { result ≡ long_line rows.now }
    ensures usable { IfNone result (list_all usable (row_views rows.now) ≡ true) }
{
    for row in rows {
        if !is_short_row(row) {
            return Some(row.line);
        }
    }
    None
}

/// The first such line of these lists.
pub(crate) fn first_long(lists: &[&[Row]]) -> Option<LongLine>
    ensures none { IfNone result (All (λ list. long_line list.now ≡ None) lists.now) }
    ensures usable { IfNone result (list_all usable (all_rows lists.now) ≡ true) }
    ensures some { IfSome result (λ long. IsLongLine lists.now long.place long.line) }
{
    for (place, rows) in lists.iter().enumerate() {
        if let Some(line) = long_line(rows) {
            return Some(LongLine { place, line });
        }
    }
    None
}

fn is_short_user(user: Option<&str>) -> bool
    ensures { result ≡ mark_passes is_short (option_copied user.entry) }
{
    match user {
        Some(name) => name.len() <= 300,
        None => true,
    }
}

fn is_short_filter(row: &Row) -> bool
    ensures short { result ≡ has_short_levels (row_view row.now).filter }
    ensures usable { result ≡ true → fits is_short_level (levels (row_view row.now).filter)
        ≡ true }
{
    has_short_levels(row.filter.text())
}

fn are_short_filters(rows: &[&Row]) -> bool
    ensures short { result ≡ list_all (λ row. has_short_levels row.filter) (lent_rows rows.now) }
    ensures usable { result ≡ true → rows_fit is_short_level (lent_rows rows.now) ≡ true }
{
    for row in rows {
        if !is_short_filter(row) {
            return false;
        }
    }
    true
}

/// What is too long, if anything is: the client id, the user name, or a level of a row.
pub(crate) fn limit_fault(client: &str, user: Option<&str>, rows: &[&Row]) -> Option<LimitFault>
    ensures none { IfNone result (AreWithin client.now (option_copied user.entry)
        (lent_rows rows.now)) }
    ensures some { IfSome result (IsLimitFault client.now (option_copied user.entry)
        (lent_rows rows.now)) }
{
    if client.len() > 300 {
        return Some(LimitFault::Client);
    }
    if !is_short_user(user) {
        return Some(LimitFault::User);
    }
    if !are_short_filters(rows) {
        return Some(LimitFault::Row);
    }
    None
}
