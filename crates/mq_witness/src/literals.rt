ghost use Rattle.std.specs.Prelude.{◌≡◌, ℕ, List, ◌||◌, ◌&&◌, false, not, IfOk, OnOk, map};
ghost use Rattle.std.specs.Cmp.Lexicographic.{slice_cmp};
ghost use Rattle.std.specs.List.{list_any};
ghost use Rattle.std.specs.List.Sorted.{IsStrictlySortedBy};
ghost use Rattle.std.specs.Ordering.{nat_cmp};
ghost use Rattle.std.specs.Str.{bytes_eq};
ghost use Rattle.std.specs.Option.{option_copied};
ghost use Rattle.mq_acl.specs.Access.{is_user};
ghost use Rattle.mq_topic.specs.Levels.{levels, levels_left};
ghost use Rattle.mq_topic.specs.Matching.{is_wildcard};
ghost use Rattle.mq_acl.specs.Views.{owner_view, row_view, row_views};
ghost use Rattle.mq_witness.specs.Clients.{can_be_id};
ghost use Rattle.mq_witness.specs.Literals.{is_among, is_named, is_literal_in, is_literal_of};
ghost use Rattle.mq_witness.specs.Literals.{has_mark};
ghost use Rattle.mq_witness.specs.Rows.{is_name_of, is_user_of, row_names, rows_name};

use crate::ids::can_be_id;
use mq_acl::{Owner, Row};
use mq_cover::Remainder;
use mq_topic::{LevelText, split_first};
use std::alloc::{AllocError, Global};
use std::collections::BTreeSet;

/// Texts that rows name: the levels of their filters but for `+` and `#`, and their user names.
#[derive(Drop)]
pub(crate) struct Literals<'a> {
    texts: BTreeSet<&'a str>,
}

fn is_wildcard(level: &str) -> bool
    ensures { result ≡ is_wildcard level.now }
{
    level == "+" || level == "#"
}

// Whether the mark is a level of what is left.
fn has_level(rest: Option<&str>, mark: &str) -> bool
    ensures { result ≡ list_any (λ w. bytes_eq w mark.now) (levels_left rest.entry) }
{
    let Some(text) = rest else {
        return false;
    };
    text.split('/').any(|level| level == mark)
}

/// Whether some `pattern` row has the mark as a level.
pub(crate) fn has_mark(mark: &str, remainders: &[Remainder]) -> bool
    ensures { result ≡ has_mark mark.now remainders.now }
{
    remainders
        .iter()
        .any(|r| r.pattern && has_level(r.rest, mark))
}

impl<'a> Literals<'a> {
    pub fn new(alloc: Global) -> Literals<'a>
        ensures { (l : List ℕ) → is_named l result ≡ false }
    {
        Literals {
            texts: BTreeSet::new(alloc),
        }
    }

    fn add(&mut self, text: &'a str) -> Result<(), AllocError>
        ensures { OnOk result ((l : List ℕ) → is_named l self.new
            ≡ (is_named l self.old || bytes_eq l text.entry.now)) }
    {
        self.texts.insert(text)?;
        Ok(())
    }

    fn add_literal(&mut self, level: &'a str) -> Result<(), AllocError>
        ensures { OnOk result ((l : List ℕ) → is_named l self.new
            ≡ (is_named l self.old || (bytes_eq l level.entry.now
            && not (is_wildcard level.entry.now)))) }
    {
        if is_wildcard(level) {
            return Ok(());
        }
        self.add(level)
    }

    // Adds the levels of this text.
    fn add_levels(&mut self, text: &'a str) -> Result<(), AllocError>
        ensures { OnOk result ((l : List ℕ) → is_named l self.new
            ≡ (is_named l self.old || is_literal_in l (levels text.entry.now))) }
    {
        let mut rest = Some(text);
        while let Some(text) = rest {
            let (level, after) = split_first(text);
            self.add_literal(level)?;
            rest = after;
        }
        Ok(())
    }

    fn add_rest(&mut self, rest: Option<&'a str>) -> Result<(), AllocError>
        ensures { OnOk result ((l : List ℕ) → is_named l self.new
            ≡ (is_named l self.old || is_literal_in l (levels_left rest.entry))) }
    {
        let Some(text) = rest else {
            return Ok(());
        };
        self.add_levels(text)
    }

    /// Adds the levels that are left of these rows.
    pub fn add_remainders(&mut self, remainders: &[Remainder<'a>]) -> Result<(), AllocError>
        ensures { OnOk result ((l : List ℕ) → is_named l self.new
            ≡ (is_named l self.old || is_literal_of l remainders.now)) }
    {
        for remainder in remainders {
            self.add_rest(remainder.rest)?;
        }
        Ok(())
    }

    /// Adds the level that a mark stands for, if any.
    pub fn add_mark(&mut self, mark: Option<&'a str>) -> Result<(), AllocError>
        ensures { OnOk result ((l : List ℕ) → is_named l self.new
            ≡ (is_named l self.old || is_user l (option_copied mark.entry))) }
    {
        let Some(level) = mark else {
            return Ok(());
        };
        self.add(level)
    }

    // Adds the user name of a row, if it has one.
    fn add_owner(&mut self, owner: &'a Owner) -> Result<(), AllocError>
        ensures { OnOk result ((l : List ℕ) → is_named l self.new
            ≡ (is_named l self.old || is_name_of l (owner_view owner.entry.now))) }
    {
        let Owner::Named(name) = owner else {
            return Ok(());
        };
        self.add(name.as_str())
    }

    fn add_row(&mut self, row: &'a Row) -> Result<(), AllocError>
        ensures { OnOk result ((l : List ℕ) → is_named l self.new
            ≡ (is_named l self.old || row_names l (row_view row.entry.now))) }
    {
        self.add_levels(row.filter.text())?;
        self.add_owner(&row.owner)
    }

    /// Adds the levels of the rows, and their user names.
    pub fn add_rows(&mut self, rows: &'a [Row]) -> Result<(), AllocError>
        ensures { OnOk result ((l : List ℕ) → is_named l self.new
            ≡ (is_named l self.old || rows_name l (row_views rows.entry.now))) }
    {
        for row in rows {
            self.add_row(row)?;
        }
        Ok(())
    }

    /// Adds the user names of the rows.
    pub fn add_users(&mut self, rows: &'a [Row]) -> Result<(), AllocError>
        ensures { OnOk result ((l : List ℕ) → is_named l self.new
            ≡ (is_named l self.old || is_user_of l (row_views rows.entry.now))) }
    {
        for row in rows {
            self.add_owner(&row.owner)?;
        }
        Ok(())
    }

    /// Whether this is one of the texts. It looks at each.
    pub fn names(&self, text: &str) -> bool
        ensures { result ≡ is_among text.now self.now.texts.keys }
    {
        self.texts.iter().any(|other| text == *other)
    }

    /// All texts, each once, in the order of their bytes.
    pub fn list(&self, alloc: Global) -> Result<Vec<&'a str>, AllocError>
        ensures texts { IfOk result (λ all. (l : List ℕ) → is_among l all.items
            ≡ is_named l self.now) }
        ensures order { IfOk result (λ all. IsStrictlySortedBy (slice_cmp nat_cmp)
            (map (λ text. text.now) all.items)) }
    {
        self.texts.iter().copied().collect(alloc)
    }

    /// The first one, and behind it all of these texts that can be an id.
    pub fn list_behind(&self, alloc: Global, first: &'a str) -> Result<Vec<&'a str>, AllocError>
        ensures { IfOk result (λ all. (l : List ℕ) → is_among l all.items
            ≡ (bytes_eq l first.now || (is_named l self.now && can_be_id l))) }
    {
        let mut all = vec![in alloc; first]?;
        for text in &self.list(alloc)? {
            if !can_be_id(text) {
                continue;
            }
            all.push(text)?;
        }
        Ok(all)
    }
}
