//! The `pattern` rows of lists, and the marks in them.
ghost use Rattle.std.specs.Prelude.{◌≡◌, true, find, not, IfNone, IfSome};
ghost use Rattle.std.specs.List.{list_any, list_all};
ghost use Rattle.std.specs.Option.{option_map};
ghost use Rattle.mq_acl.specs.RowsByOwner.{is_everyones};
ghost use Rattle.mq_acl.specs.Views.{owner_view, row_view, row_views};
ghost use Rattle.mq_acl.specs.declared.rules.Rules.TheVariants as rules;
ghost use Rattle.mq_witness.specs.Limits.{IsMarkedLine, marked_line};
ghost use Rattle.mq_witness.specs.Rows.{all_rows};
ghost use Rattle.mq_witness.specs.Ruled.{are_whole, has_patterns, has_whole_marks};

use crate::limits::LongLine;
use mq_acl::{Owner, Row, Rules};
use mq_topic::LevelText;

/// Whether the row is for all clients.
pub fn is_pattern(owner: &Owner) -> bool
    ensures { result ≡ is_everyones (owner_view owner.now) }
{
    matches!(owner, Owner::Everyone)
}

/// Whether one of the rows is for all clients.
pub fn has_pattern(rows: &[Row]) -> bool
    ensures { result ≡ has_patterns (row_views rows.now) }
{
    for row in rows {
        if is_pattern(&row.owner) {
            return true;
        }
    }
    false
}

// Whether each mark of a `pattern` row is a whole level.
fn has_whole_marks(row: &Row) -> bool
    ensures { result ≡ has_whole_marks (row_view row.now) }
{
    !is_pattern(&row.owner) || mq_acl::has_whole_marks(row.filter.text())
}

// The line of the first row with a mark that is not a whole level.
fn marked_line(rows: &[Row]) -> Option<u64>
    ensures line { result ≡ marked_line rules.Mosquitto rows.now }
    ensures whole { IfNone result (list_all has_whole_marks (row_views rows.now) ≡ true) }
{
    for row in rows {
        if !has_whole_marks(row) {
            return Some(row.line);
        }
    }
    None
}

fn first_marked(lists: &[&[Row]]) -> Option<LongLine>
    ensures whole { IfNone result (list_all has_whole_marks (all_rows lists.now) ≡ true) }
    ensures some { IfSome result (λ marked.
        IsMarkedLine rules.Mosquitto lists.now marked.place marked.line) }
{
    for (place, rows) in lists.iter().enumerate() {
        if let Some(line) = marked_line(rows) {
            return Some(LongLine { place, line });
        }
    }
    None
}

/// By mosquitto's rules the first row of the lists with a mark that is not a whole level.
pub(crate) fn marked(rules: Rules, lists: &[&[Row]]) -> Option<LongLine>
    ensures whole { IfNone result (are_whole rules (all_rows lists.now) ≡ true) }
    ensures some { IfSome result (λ marked.
        IsMarkedLine rules lists.now marked.place marked.line) }
{
    match rules {
        Rules::Own => None,
        Rules::Mosquitto => first_marked(lists),
    }
}
