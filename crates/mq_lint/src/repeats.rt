//! Rows that repeat others.
ghost use Rattle.std.specs.Prelude.{◌≡◌, ◌++◌, ◌∷◌, [], ℕ, List, IfOk, OnOk, true, false};
ghost use Rattle.std.specs.Prelude.{find, string_bytes};
ghost use Rattle.std.specs.BTreeSet.{contains_text};
ghost use Rattle.std.specs.Option.{option_map};
ghost use Rattle.mq_acl.specs.Views.{owner_view, row_view};
ghost use Rattle.mq_lint.specs.Needless.{same_row};
ghost use Rattle.mq_lint.specs.Repeats.{AreSeen, owner_text, row_key};

use crate::same::same_row;
use mq_acl::{Owner, Row};
use mq_topic::LevelText;
use std::alloc::{AllocError, Global};
use std::collections::BTreeSet;

/// What the rows that were seen are looked up by.
pub(crate) struct Seen {
    keys: BTreeSet<String>,
}

// Opaque to callers' proofs: one step, and not one for each field (docs/explanation/gate.md).
impl Drop for Seen {
    fn drop(self) {
        let Seen { keys: _ } = self;
    }
}

fn owner_text(owner: &Owner) -> &str
    ensures { result.now ≡ owner_text (owner_view owner.now) }
{
    match owner {
        Owner::Named(name) => name.as_str(),
        _ => "",
    }
}

// The same for all rows that say the same.
fn key_of(alloc: Global, row: &Row) -> Result<String, AllocError>
    ensures { IfOk result (λ key. string_bytes key ≡ row_key (row_view row.now)) }
{
    let owner = owner_text(&row.owner);
    let filter = row.filter.text();
    format!(in alloc; "{owner} {filter}")
}

// Adds the key, and says whether it wasn't there.
fn add_key(keys: &mut BTreeSet<String>, key: String) -> Result<bool, AllocError>
    ensures new { IfOk result (λ new. new ≡ true
        → contains_text keys.old (string_bytes key) ≡ false) }
    ensures there { OnOk result (contains_text keys.new (string_bytes key) ≡ true) }
    ensures kept { OnOk result ((text : List ℕ) → contains_text keys.old text ≡ true
        → contains_text keys.new text ≡ true) }
{
    let new = keys.insert(key)?;
    Ok(new)
}

// The line of the first of these rows that says the same as this one.
fn first_line(before: &[Row], row: &Row) -> Option<u64>
    ensures { result ≡ option_map (λ r. r.line)
        (find (λ r. same_row (row_view r) (row_view row.now)) before.now) }
{
    before
        .iter()
        .find(|other| same_row(other, row))
        .map(|other| other.line)
}

impl Seen {
    pub(crate) fn new(alloc: Global) -> Seen
        ensures { AreSeen [] result }
    {
        Seen {
            keys: BTreeSet::new(alloc),
        }
    }

    /// The line of the first of the rows before that says the same as this one, which is seen then.
    /// Those before are to have been.
    pub(crate) fn repeated(
        &mut self,
        alloc: Global,
        before: &[Row],
        row: &Row,
    ) -> Result<Option<u64>, AllocError>
        ensures line { IfOk result (λ line. AreSeen before.now self.old
            → line ≡ option_map (λ r. r.line)
            (find (λ r. same_row (row_view r) (row_view row.now)) before.now)) }
        ensures seen { OnOk result (AreSeen before.now self.old
            → AreSeen (before.now ++ row.now ∷ []) self.new) }
    {
        let key = key_of(alloc, row)?;
        let new = add_key(&mut self.keys, key)?;
        if new {
            return Ok(None);
        }
        Ok(first_line(before, row))
    }
}
