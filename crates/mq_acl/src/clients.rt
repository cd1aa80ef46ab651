//! Whether what an access list allows depends on the client id.
ghost use Rattle.std.specs.Prelude.{◌≡◌, ◌&&◌, List};
ghost use Rattle.std.specs.List.{list_any};
ghost use Rattle.mq_acl.specs.Clients.{asks_client, asks_own_about, is_client_mark, may_be_level};
ghost use Rattle.mq_acl.specs.Clients.{may_cover};
ghost use Rattle.mq_acl.specs.RowsByAccess.{IsSplit};
ghost use Rattle.mq_acl.specs.RowsByOwner.{is_everyones};
ghost use Rattle.mq_acl.specs.Views.{owner_view, row_view, row_who};
ghost use Rattle.mq_acl.specs.declared.row.Row.{Row};
ghost use Rattle.mq_topic.specs.Levels.{levels};

use crate::check::dollar_fits;
use crate::row::{Owner, Row};
use crate::rows_by_access::RowsByAccess;
use crate::rules::Rules;
use mq_topic::{LevelTest, LevelText, TopicFilter, TopicName, levels_match};

// Whether what the row covers may depend on the client id.
fn asks_client(rules: Rules, row: &Row) -> bool
    ensures { result ≡ asks_client rules (row_view row.now) }
{
    matches!(row.owner, Owner::Everyone)
        && (rules == Rules::Mosquitto || has_client_mark(&row.filter))
}

fn has_client_mark(filter: &TopicFilter) -> bool
    ensures { result ≡ list_any is_client_mark (levels filter.now) }
{
    filter.text().split('/').any(|level| level == "%c")
}

// Whether what the rows decide may depend on it.
pub(crate) fn ask_client(rules: Rules, rows: &[Row]) -> bool
    ensures { result ≡ list_any (λ row. asks_client rules (row_view row)) rows.now }
{
    rows.iter().any(|row| asks_client(rules, row))
}

// The levels of a `pattern` row for any client and user name.
struct AnyClient;

impl LevelTest for AnyClient {
    ghost passes = { λ _ wanted level. may_be_level wanted level };

    fn passes(&self, wanted: &str, level: &str) -> bool {
        matches!(wanted, "+" | "%c" | "%u") || wanted == level
    }
}

// Whether a row for all clients may cover the name for one of them.
fn may_cover(row: &Row, name: &TopicName) -> bool
    ensures { result ≡ may_cover name.now (row_view row.now) }
{
    let filter = row.filter.text();
    let name = name.text();
    dollar_fits(filter, name) && levels_match(&AnyClient, filter, name)
}

// Whether what a row for all clients decides about the name may depend on the client id.
fn asks_about(row: &Row, name: &TopicName) -> bool
    ensures { result ≡ asks_own_about name.now (row_view row.now) }
{
    has_client_mark(&row.filter) && may_cover(row, name)
}

fn any_asks_about(rows: &[Row], name: &TopicName) -> bool
    ensures { result ≡ list_any (λ row. asks_own_about name.now (row_view row)) rows.now }
{
    rows.iter().any(|row| asks_about(row, name))
}

/// Whether what these rows decide about the name, by our own rules, may depend on it.
pub(crate) fn rows_ask_about(by_access: &RowsByAccess, name: &TopicName) -> bool
    ensures { (rows : List Row) → IsSplit rows by_access.now → result
        ≡ list_any (λ row. is_everyones (row_who row)
        && asks_own_about name.now (row_view row)) rows }
{
    any_asks_about(by_access.denies.everyone(), name)
        || any_asks_about(by_access.grants.everyone(), name)
}
