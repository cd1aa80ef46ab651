ghost use Rattle.std.specs.Prelude.{◌≡◌, ◌&&◌, ◌||◌, not, true, List};
ghost use Rattle.std.specs.List.{list_any};
ghost use Rattle.std.specs.Option.{option_copied};
ghost use Rattle.mq_acl.specs.Access.{row_level_matches, begins_with_dollar, covers, applies};
ghost use Rattle.mq_acl.specs.Access.{grants, concerns, rows_allow};
ghost use Rattle.mq_acl.specs.ByOwner.{IsGrouped};
ghost use Rattle.mq_acl.specs.RowsByAccess.{IsSplit};
ghost use Rattle.mq_topic.specs.Levels.{levels};
ghost use Rattle.mq_topic.specs.Matching.{levels_match_by};
ghost use Rattle.mq_acl.specs.Views.{access_view, owner_view, row_view, row_views, row_who};
ghost use Rattle.mq_acl.specs.declared.row.Row.{Row};

use crate::access::{Direction, grants};
use crate::by_owner::ByOwner;
use crate::row::{Owner, Row};
use crate::rows_by_access::RowsByAccess;
use crate::starts::starts_apart;
use mq_topic::{LevelTest, LevelText, TopicName, levels_match};

// The levels of a row, for one client.
#[derive(Clone, Copy)]
struct RowLevels<'a> {
    owner: &'a Owner,
    client: &'a str,
    user: Option<&'a str>,
}

impl LevelTest for RowLevels<'_> {
    ghost passes = { λ row wanted level. row_level_matches (owner_view row.owner.now) row.client.now
        (option_copied row.user) wanted level };

    fn passes(&self, wanted: &str, level: &str) -> bool {
        match (self.owner, wanted) {
            (Owner::Everyone, "%c") => level == self.client,
            (Owner::Everyone, "%u") => self.user == Some(level),
            _ => wanted == "+" || wanted == level,
        }
    }
}

/// A name that begins with `$` needs a filter that does.
pub(crate) fn dollar_fits(filter: &str, name: &str) -> bool
    ensures { result ≡ (not (begins_with_dollar name.now) || begins_with_dollar filter.now) }
{
    !name.starts_with('$') || filter.starts_with('$')
}

// Whether the levels match. It stands alone: what is asked of each row of a long list stays small.
#[inline(never)]
fn levels_cover(row: &Row, client: &str, user: Option<&str>, name: &TopicName) -> bool
    ensures { result ≡ covers client.now (option_copied user.entry) name.now (row_view row.now) }
{
    let levels = RowLevels {
        owner: &row.owner,
        client,
        user,
    };
    let filter = row.filter.text();
    let name = name.text();
    dollar_fits(filter, name) && levels_match(&levels, filter, name)
}

fn covers(row: &Row, client: &str, user: Option<&str>, name: &TopicName) -> bool
    ensures { result ≡ covers client.now (option_copied user.entry) name.now (row_view row.now) }
{
    if starts_apart(row.filter.text().as_bytes(), name.text().as_bytes()) {
        return false;
    }
    levels_cover(row, client, user, name)
}

/// Whether a row of this owner is for clients of this user name, or without one.
pub fn applies(user: Option<&str>, owner: &Owner) -> bool
    ensures { result ≡ applies (option_copied user.entry) (owner_view owner.now) }
{
    match (owner, user) {
        (Owner::Everyone, _) => true,
        (Owner::Anonymous, None) => true,
        (Owner::Named(name), Some(user)) => user == name.as_str(),
        _ => false,
    }
}

/// Whether the row is for clients of this user name, or without one, and covers the topic for this client.
pub fn concerns(row: &Row, client: &str, user: Option<&str>, name: &TopicName) -> bool
    ensures { result ≡ concerns client.now (option_copied user.entry) name.now (row_view row.now) }
{
    applies(user, &row.owner) && covers(row, client, user, name)
}

// Whether one of the rows covers the name for this client.
fn any_covers(rows: &[Row], client: &str, user: Option<&str>, name: &TopicName) -> bool
    ensures { result ≡ list_any (λ row. covers client.now (option_copied user.entry) name.now
        (row_view row)) rows.now }
{
    rows.iter().any(|row| covers(row, client, user, name))
}

// Whether one of them grants the name to this client.
fn any_grants(
    rows: &[Row],
    client: &str,
    user: Option<&str>,
    name: &TopicName,
    direction: Direction,
) -> bool
    ensures { result ≡ list_any (λ row. grants direction (access_view row.access)
        && covers client.now (option_copied user.entry) name.now (row_view row)) rows.now }
{
    rows.iter().any(|row| grants(direction, row.access) && covers(row, client, user, name))
}

// Whether one of the rows for all clients, or for this user alone, covers the name.
fn is_denied(denies: &ByOwner<Row>, client: &str, user: Option<&str>, name: &TopicName) -> bool
    ensures { (rows : List Row) → IsGrouped row_who rows denies.now → result ≡ list_any
        (λ row. concerns client.now (option_copied user.entry) name.now (row_view row)) rows }
{
    any_covers(denies.everyone(), client, user, name)
        || any_covers(denies.own(user), client, user, name)
}

// Whether one of them grants the name. The first that does decides.
fn is_granted(
    granting: &ByOwner<Row>,
    client: &str,
    user: Option<&str>,
    name: &TopicName,
    direction: Direction,
) -> bool
    ensures { (rows : List Row) → IsGrouped row_who rows granting.now
        → result ≡ list_any (λ row. applies (option_copied user.entry) (row_who row)
        && (grants direction (access_view row.access)
        && covers client.now (option_copied user.entry) name.now (row_view row))) rows }
{
    any_grants(granting.everyone(), client, user, name, direction)
        || any_grants(granting.own(user), client, user, name, direction)
}

// Whether no row that concerns the name denies, and one grants.
pub(crate) fn rows_allow(
    by_access: &RowsByAccess,
    client: &str,
    user: Option<&str>,
    name: &TopicName,
    direction: Direction,
) -> bool
    ensures { (rows : List Row) → IsSplit rows by_access.now
        → result ≡ rows_allow (row_views rows) client.now (option_copied user.entry) name.now direction }
{
    !is_denied(&by_access.denies, client, user, name)
        && is_granted(&by_access.grants, client, user, name, direction)
}
