//! Reads the text of an access list.
//!
//! ```text
//! topic read notice                      line 1: clients without a user name
//!
//! user ops
//! topic plant/#                          line 4: user ops, reading and writing
//! topic deny plant/+/raw                 line 5: user ops
//! pattern write meters/%c/%u             line 6: all clients, each its own topic
//! ```
ghost use Rattle.std.specs.Prelude.{◌≡◌, ℕ, ◌+◌, List, ◌++◌, ◌∷◌, ◌⊎◌, IfOk, IfErr, OnOk};
ghost use Rattle.std.specs.Prelude.{MatchResult, Ok, Err, Some};
ghost use Rattle.std.specs.Option.{option_to_list};
ghost use Rattle.mq_acl.specs.Lines.{lines};
ghost use Rattle.mq_acl.specs.Rows.{entry_by, fault_at, out_of_memory, row_line, row_lines, row_lines_by};
ghost use Rattle.mq_acl.specs.Rows.{row_of, rows_by, rows_of};
ghost use Rattle.mq_acl.specs.Views.{Answers, entry_view, lines_left, user_who, who_then, fault_of};
ghost use Rattle.mq_acl.specs.Views.{owner_view, row_views, line_views, IsAdded};

use crate::entry::{self, Entry};
use crate::fault::{AclFault, AclKind};
use crate::mosquitto_lines;
use crate::row::{Owner, Row};
use crate::rules::Rules;
use std::alloc::{AllocError, Global};

// The first line, and what follows its LF, if there is one.
fn split_line(text: &str) -> (&str, Option<&str>)
    ensures { lines text.now ≡ result.0.now ∷ lines_left result.1 }
{
    match text.split_once('\n') {
        Some((line, rest)) => (line, Some(rest)),
        None => (text, None),
    }
}

fn owner_of(alloc: Global, user: Option<&str>) -> Result<Owner, AllocError>
    ensures { IfOk result (λ owner. owner_view owner ≡ user_who user.entry) }
{
    match user {
        None => Ok(Owner::Anonymous),
        Some(name) => Ok(Owner::Named(String::from_str(alloc, name)?)),
    }
}

// Adds the entry's row, if it has one.
#[tactic(auto, using(std::proofs::lemmas::List::map_push))]
fn add_row(
    alloc: Global,
    rows: &mut Vec<Row>,
    user: Option<&str>,
    entry: Entry,
    line: u64,
) -> Result<(), AllocError>
    ensures rows { OnOk result (row_views rows.new.items
        ≡ row_views rows.old.items ++ option_to_list
        (row_of (user_who user.entry) (entry_view entry.entry))) }
    ensures lines { OnOk result (line_views rows.new.items
        ≡ line_views rows.old.items
        ++ option_to_list (row_line line (Ok (entry_view entry.entry)))) }
{
    let (owner, access, filter) = match entry {
        Entry::Skipped | Entry::User(_) => return Ok(()),
        Entry::Topic(access, filter) => (owner_of(alloc, user)?, access, filter),
        Entry::Pattern(access, filter) => (Owner::Everyone, access, filter),
    };
    rows.push(Row {
        line,
        owner,
        access,
        filter,
    })?;
    Ok(())
}

// The user that later topic lines belong to.
fn user_after<'a>(user: Option<&'a str>, entry: &Entry<'a>) -> Option<&'a str>
    ensures { user_who result ≡ who_then (user_who user.entry) (entry_view entry.now) }
{
    match entry {
        Entry::User(name) => Some(*name),
        _ => user,
    }
}

fn fault_of(line: u64, kind: AclKind) -> AclFault
    ensures { result ≡ fault_of line kind }
{
    match kind {
        AclKind::Memory => AclFault { line: 0, kind },
        _ => AclFault { line, kind },
    }
}

// What the line says, as these rules read it.
fn read_entry<'a>(alloc: Global, rules: Rules, line: &'a str) -> Result<Entry<'a>, AclKind>
    ensures { Answers result (entry_by rules line.now) }
{
    match rules {
        Rules::Own => entry::read_entry(alloc, line),
        Rules::Mosquitto => mosquitto_lines::read_entry(alloc, line),
    }
}

// Reads a line: adds its row, and answers the user that later topic lines belong to.
fn read_line_into<'a>(
    alloc: Global,
    rules: Rules,
    rows: &mut Vec<Row>,
    user: Option<&'a str>,
    line: &'a str,
    number: u64,
) -> Result<Option<&'a str>, AclFault>
    ensures ok { IfOk result (λ next. IsAdded rules line.now number (user_who user.entry)
        (user_who next) (row_views rows.old.items) (line_views rows.old.items) (row_views rows.new.items)
        (line_views rows.new.items)) }
    ensures fault { IfErr result (λ fault. (fault ≡ out_of_memory)
        ⊎ (fault_at number (entry_by rules line.now) ≡ Some fault)) }
{
    let entry = read_entry(alloc, rules, line).map_err(|kind| fault_of(number, kind))?;
    let next = user_after(user, &entry);
    add_row(alloc, rows, user, entry, number).map_err(|_| fault_of(number, AclKind::Memory))?;
    Ok(next)
}

/// The rows of the access list with this text, read by these rules, in the order of their lines and each with the number
/// of its line, or the first faulty line.
pub fn read_rows_by(alloc: Global, rules: Rules, text: &str) -> Result<Vec<Row>, AclFault>
    ensures rows { MatchResult result
        (λ rows. rows_by rules text.now ≡ Ok (row_views rows.items))
        (λ fault. (fault ≡ out_of_memory) ⊎ (rows_by rules text.now ≡ Err fault)) }
    ensures lines { IfOk result (λ rows. line_views rows.items ≡ row_lines_by rules text.now) }
{
    let mut rows = Vec::new(alloc);
    let mut user = None;
    let mut number = 0u64;
    let mut rest = Some(text);
    while let Some(text) = rest {
        let (line, after) = split_line(text);
        number += 1;
        user = read_line_into(alloc, rules, &mut rows, user, line, number)?;
        rest = after;
    }
    Ok(rows)
}

/// The rows of the access list with this text, read by our own rules, in the order of their lines and each with the
/// number of its line, or the first faulty line, as `Acl::read`.
pub fn read_rows(alloc: Global, text: &str) -> Result<Vec<Row>, AclFault>
    ensures rows { MatchResult result (λ rows. rows_of text.now ≡ Ok (row_views rows.items))
        (λ fault. (fault ≡ out_of_memory) ⊎ (rows_of text.now ≡ Err fault)) }
    ensures lines { IfOk result (λ rows. line_views rows.items ≡ row_lines text.now) }
{
    read_rows_by(alloc, Rules::Own, text)
}
