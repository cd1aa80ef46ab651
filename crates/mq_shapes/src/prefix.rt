//! Texts that no row names: none of its levels begins with them.
ghost use Rattle.std.specs.Prelude.{◌≡◌, ◌||◌, IfOk, nat_eq, string_bytes};
ghost use Rattle.std.specs.List.{list_any, starts_with};
ghost use Rattle.mq_acl.specs.Views.{owner_view, row_view};
ghost use Rattle.mq_shapes.specs.Prefix.{ArePrefixes, IsPrefix, all_rows, begins, list_begins};
ghost use Rattle.mq_shapes.specs.Prefix.{owner_begins, row_begins};

use mq_acl::{Owner, Row};
use mq_cover::Others;
use mq_topic::LevelText;
use std::alloc::{AllocError, Global};

fn is_like(prefix: &str, level: &str) -> bool
    ensures { result ≡ starts_with nat_eq level.now prefix.now }
{
    level.starts_with(prefix)
}

// Whether a level of the text begins with the prefix.
fn begins(prefix: &str, text: &str) -> bool
    ensures { result ≡ begins prefix.now text.now }
{
    text.split('/').any(|level| is_like(prefix, level))
}

fn owner_begins(prefix: &str, owner: &Owner) -> bool
    ensures { result ≡ owner_begins prefix.now (owner_view owner.now) }
{
    match owner {
        Owner::Named(name) => begins(prefix, name.as_str()),
        _ => false,
    }
}

fn row_begins(prefix: &str, row: &Row) -> bool
    ensures { result ≡ row_begins prefix.now (row_view row.now) }
{
    begins(prefix, row.filter.text()) || owner_begins(prefix, &row.owner)
}

fn list_begins(prefix: &str, rows: &[Row]) -> bool
    ensures { result ≡ list_begins prefix.now rows.now }
{
    rows.iter().any(|row| row_begins(prefix, row))
}

// Whether a level of some row of the lists, or of the user name that it is for, begins with the prefix.
fn some_begins(prefix: &str, lists: &[&[Row]]) -> bool
    ensures { result ≡ list_any (λ rows. list_begins prefix.now rows.now) lists.now }
{
    lists.iter().any(|rows| list_begins(prefix, *rows))
}

// The base, with as many `x` behind it as it takes for no level of the rows to begin with it, nor one of their user names;
// none of these is longer than 300 bytes.
fn prefix_of(alloc: Global, base: &str, lists: &[&[Row]]) -> Result<String, AllocError>
    ensures { IfOk result (λ text. IsPrefix base.now (all_rows lists.now) (string_bytes text)) }
{
    let mut text = String::from_str(alloc, base)?;
    for _count in 0..301u32 {
        if !some_begins(text.as_str(), lists) {
            return Ok(text);
        }
        text.push('x')?;
    }
    Ok(text)
}

/// What the levels begin with that stand for those that no row names.
#[derive(Drop)]
pub struct Prefixes {
    plain: String,
    dollar: String,
}

impl Prefixes {
    /// No level of the rows of these lists begins so, nor one of the user names that the rows are for, unless there are levels or
    /// names of more than 300 bytes.
    pub fn of(alloc: Global, lists: &[&[Row]]) -> Result<Prefixes, AllocError>
        ensures { IfOk result (λ made. ArePrefixes (all_rows lists.now) (string_bytes made.plain)
            (string_bytes made.dollar)) }
    {
        Ok(Prefixes {
            plain: prefix_of(alloc, "x", lists)?,
            dollar: prefix_of(alloc, "$x", lists)?,
        })
    }

    /// Whether a level begins as those do that stand for others.
    pub fn begin(&self, level: &str) -> bool
        ensures { result ≡ (starts_with nat_eq level.now (string_bytes self.now.plain)
            || starts_with nat_eq level.now (string_bytes self.now.dollar)) }
    {
        is_like(self.plain.as_str(), level) || is_like(self.dollar.as_str(), level)
    }

    /// As levels: in names that don't begin with `$`, and in those that do.
    pub fn others(&self) -> Others<'_>
        ensures plain { result.plain.now ≡ string_bytes self.now.plain }
        ensures dollar { result.dollar.now ≡ string_bytes self.now.dollar }
    {
        Others {
            plain: self.plain.as_str(),
            dollar: self.dollar.as_str(),
        }
    }
}
