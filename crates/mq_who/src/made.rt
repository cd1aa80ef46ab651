//! A list that is made of a filter: what it decides otherwise than a list does, or as that does, is what is asked.
ghost use Rattle.std.specs.Prelude.{◌≡◌, ◌≤◌, ◌+◌, ◌&&◌, ◌||◌, ℕ, Bool, List, IfNone, IfOk, IfSome, OnOk, false};
ghost use Rattle.std.specs.Prelude.{length};
ghost use Rattle.std.specs.BTreeSet.{btree_set_len};
ghost use Rattle.std.specs.Str.{bytes_eq};
ghost use Rattle.mq_acl.specs.Rows.{Anonymous, Named, Who};
ghost use Rattle.mq_acl.specs.Views.{access_view, owner_view, row_views};
ghost use Rattle.mq_witness.specs.Literals.{is_among};
ghost use Rattle.mq_differences.specs.Marks.{same_who};
ghost use Rattle.mq_who.specs.Made.{AreMadeFor, IsMade, IsMadeRow, access_of, has_own, has_user};
ghost use Rattle.mq_who.specs.Made.{is_named_in, is_own_of, wants_own};

use mq_acl::{Access, Owner, Row, Rules, has_mark};
use mq_topic::{LevelText, TopicFilter, is_plain};
use std::alloc::{AllocError, Global};
use std::collections::BTreeSet;

fn access_of(allows: bool) -> Access
    ensures { access_view result ≡ access_of allows }
{
    if allows {
        Access::Deny
    } else {
        Access::ReadWrite
    }
}

fn made_row(owner: Owner, allows: bool, wanted: &TopicFilter) -> Result<Row, AllocError>
    ensures owner { IfOk result (λ row. owner_view row.owner ≡ owner_view owner) }
    ensures made { IfOk result (IsMadeRow allows wanted.now) }
{
    Ok(Row {
        line: 0,
        owner,
        access: access_of(allows),
        filter: wanted.clone()?,
    })
}

// Adds the row for these clients.
fn add_row(
    made: &mut Vec<Row>,
    owner: Owner,
    allows: bool,
    wanted: &TopicFilter,
) -> Result<(), AllocError>
    ensures { OnOk result ((whom : Who → Bool) (most : ℕ)
        → AreMadeFor allows wanted.now whom most made.old.items
        → AreMadeFor allows wanted.now (λ who. whom who || same_who who (owner_view owner))
        (most + 1) made.new.items) }
{
    made.push(made_row(owner, allows, wanted)?)?;
    Ok(())
}

// Adds that for the clients without a user name, where they have one.
fn add_anonymous(made: &mut Vec<Row>, allows: bool, wanted: &TopicFilter) -> Result<(), AllocError>
    ensures { OnOk result ((whom : Who → Bool) (most : ℕ)
        → AreMadeFor allows wanted.now whom most made.old.items
        → AreMadeFor allows wanted.now (λ who. whom who || (allows && same_who who Anonymous))
        (most + 1) made.new.items) }
{
    if !allows {
        return Ok(());
    }
    add_row(made, Owner::Anonymous, allows, wanted)
}

// The user name of the row, if its clients have a row of their own.
fn own_user(allows: bool, row: &Row) -> Option<&str>
    ensures none { IfNone result ((name : List ℕ)
        → is_own_of allows name (owner_view row.entry.now.owner) ≡ false) }
    ensures some { IfSome result (λ user. (name : List ℕ)
        → is_own_of allows name (owner_view row.entry.now.owner) ≡ bytes_eq name user.now) }
{
    let Owner::Named(name) = &row.owner else {
        return None;
    };
    let name = name.as_str();
    if allows || !is_plain(name) {
        return Some(name);
    }
    None
}

fn add_user<'r>(users: &mut BTreeSet<&'r str>, allows: bool, row: &'r Row) -> Result<(), AllocError>
    ensures users { OnOk result ((name : List ℕ) → has_user users.new name
        ≡ (has_user users.old name || is_own_of allows name (owner_view row.entry.now.owner))) }
    ensures few { OnOk result (btree_set_len users.new ≤ btree_set_len users.old + 1) }
{
    let Some(name) = own_user(allows, row) else {
        return Ok(());
    };
    users.insert(name)?;
    Ok(())
}

// The user names of the rows whose clients have a row of their own, each once.
fn own_users<'r>(alloc: Global, allows: bool, rows: &'r [Row]) -> Result<Vec<&'r str>, AllocError>
    ensures users { IfOk result (λ users. (name : List ℕ) → is_among name users.items
        ≡ has_own allows (row_views rows.entry.now) (Named name)) }
    ensures few { IfOk result (λ users. length users.items ≤ length rows.entry.now) }
{
    let mut users = BTreeSet::new(alloc);
    for row in rows {
        add_user(&mut users, allows, row)?;
    }
    users.iter().copied().collect(alloc)
}

// Adds a row for the clients of each of these user names.
fn add_users(
    alloc: Global,
    made: &mut Vec<Row>,
    users: &[&str],
    allows: bool,
    wanted: &TopicFilter,
) -> Result<(), AllocError>
    ensures { OnOk result ((whom : Who → Bool) (most : ℕ)
        → AreMadeFor allows wanted.now whom most made.old.items
        → AreMadeFor allows wanted.now (λ who. whom who || is_named_in users.now who)
        (most + length users.now) made.new.items) }
{
    for user in users {
        let owner = Owner::Named(String::from_str(alloc, user)?);
        add_row(made, owner, allows, wanted)?;
    }
    Ok(())
}

// Adds the rows of clients that have one of their own.
fn add_own(
    alloc: Global,
    made: &mut Vec<Row>,
    allows: bool,
    rows: &[Row],
    wanted: &TopicFilter,
) -> Result<(), AllocError>
    ensures { OnOk result ((whom : Who → Bool) (most : ℕ)
        → AreMadeFor allows wanted.now whom most made.old.items
        → AreMadeFor allows wanted.now (λ who. whom who || has_own allows (row_views rows.now) who)
        (most + (length rows.now + 1)) made.new.items) }
{
    let users = own_users(alloc, allows, rows)?;
    add_anonymous(made, allows, wanted)?;
    add_users(alloc, made, &users, allows, wanted)
}

// Whether a `pattern` row doesn't ask of all clients what the filter does.
fn wants_own(rules: Rules, wanted: &TopicFilter) -> bool
    ensures { result ≡ wants_own rules wanted.now }
{
    match rules {
        Rules::Own => false,
        Rules::Mosquitto => !has_mark(wanted.text()),
    }
}

/// A list of the filter: it denies what that matches, where what another list allows of it is asked, and grants it,
/// where what the other doesn't allow is. Its first row is that of a `pattern` line, so that `%c` and `%u` of the
/// filter are the client's own. By mosquitto's rules `pattern` lines are passed over for clients whose id or user name
/// holds `+` or `#`. So where the filter has no such mark there are rows of `topic` lines too: for the clients without
/// a user name and for those of each user name that the other list names, where what it allows is asked; where what it
/// doesn't is, for those of each such user name with `+` or `#`.
pub(crate) fn made(
    alloc: Global,
    rules: Rules,
    allows: bool,
    rows: &[Row],
    wanted: &TopicFilter,
) -> Result<Vec<Row>, AllocError>
    ensures { IfOk result (λ made. IsMade rules allows rows.now wanted.now made.items) }
{
    let mut made = Vec::new(alloc);
    add_row(&mut made, Owner::Everyone, allows, wanted)?;
    if !wants_own(rules, wanted) {
        return Ok(made);
    }
    add_own(alloc, &mut made, allows, rows, wanted)?;
    Ok(made)
}
