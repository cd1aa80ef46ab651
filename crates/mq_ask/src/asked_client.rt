//! The client that is asked about, in words.
use crate::client::Client;
use crate::failure::Failure;
use crate::options::Options;
use crate::rows::rows_in;
use mq_acl::{Owner, Row};
use mq_print::ListText;
use std::alloc::{AllocError, Global};

/// A client that is asked about, as it is shown.
#[derive(Clone, Copy, Drop)]
pub struct AskedClient<'a> {
    /// Its client id, if it isn't any.
    pub id: Option<&'a str>,
    /// Its user name, if it has one.
    pub user: Option<&'a str>,
}

impl<'a> AskedClient<'a> {
    /// This client.
    pub fn of(client: Client<'a>) -> AskedClient<'a> {
        AskedClient {
            id: Some(client.id),
            user: client.user,
        }
    }
}

// The user name that a line is for.
fn name_of(row: &Row) -> Option<&str> {
    match &row.owner {
        Owner::Named(name) => Some(name.as_str()),
        _ => None,
    }
}

fn is_named(rows: &[Row], user: &str) -> bool {
    rows.iter().any(|row| name_of(row) == Some(user))
}

// The first user name that differs in the case of letters alone.
fn like<'r>(rows: &'r [Row], user: &str) -> Option<&'r str> {
    let mut names = rows.iter().filter_map(name_of);
    names.find(|name| name.eq_ignore_ascii_case(user))
}

/// Adds the client.
pub fn add_client(text: &mut String, client: AskedClient<'_>) -> Result<(), AllocError> {
    match client.id {
        Some(id) => write!(text, "client {id}, ")?,
        None => text.push_str("any client id, ")?,
    }
    match client.user {
        Some(user) => write!(text, "user {user}"),
        None => text.push_str("no user name"),
    }
}

fn add_unnamed(text: &mut String, rows: &[Row], user: &str) -> Result<(), AllocError> {
    if is_named(rows, user) {
        return Ok(());
    }
    write!(text, "no line names user {user}")?;
    if let Some(name) = like(rows, user) {
        write!(text, "; {name}?")?;
    }
    text.push('\n')
}

// A line about the client's name, where another may be meant. None of the rows is for its user name:
// with one that differs in the case of letters alone. Or it has none, and its client id is a user
// name that rows are for.
fn name_text(alloc: Global, rows: &[Row], client: AskedClient<'_>) -> Result<String, AllocError> {
    let mut text = String::new(alloc);
    match (client.user, client.id) {
        (Some(user), _) => add_unnamed(&mut text, rows, user)?,
        (None, Some(id)) if is_named(rows, id) => writeln!(
            text,
            "{id} is a user name of the list: --user {id} asks about its clients"
        )?,
        _ => {}
    }
    Ok(text)
}

/// A line about the client's name, if another may be meant by what the list has; nothing where the
/// answer is JSON.
pub fn name_note<'a>(
    alloc: Global,
    list: ListText<'a, '_>,
    client: AskedClient<'_>,
    options: Options,
) -> Result<String, Failure<'a>> {
    if options.json {
        return Ok(String::new(alloc));
    }
    let rows = rows_in(alloc, options.rules, list)?;
    Ok(name_text(alloc, &rows, client)?)
}
