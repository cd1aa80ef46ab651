//! A list that is asked which of its rows are needless.
ghost use Rattle.std.specs.Prelude.{◌≡◌, ◌<◌, ◌∷◌, [], IfOk, IfErr, true, map, length};
ghost use Rattle.mq_acl.specs.Views.{owner_view, row_view};
ghost use Rattle.mq_witness.specs.Clients.{name_passes};
ghost use Rattle.mq_witness.specs.Rows.{is_user_of};
ghost use Rattle.mq_shapes.specs.declared.clients.Clients.TheVariants.{Anonymous, Named, Others};
ghost use Rattle.mq_lint.specs.Cases.{AreClasses, IsLint, has_row};
ghost use Rattle.mq_lint.specs.Left.{left_of};

use crate::called::Called;
use crate::case::{Case, add_others};
use crate::fault::NeedlessFault;
use crate::question::Question;
use mq_acl::{Owner, Row, Rules};
use mq_differences::{ByOwner, enough_steps};
use mq_witness::{Asked, Clients, ListFault};
use std::alloc::{AllocError, Global};

/// A list that is asked which of its rows are needless.
pub(crate) struct Lint<'a> {
    pub rules: Rules,
    pub rows: &'a [Row],
    asked: Asked<'a>,
    by_owner: ByOwner<'a>,
    /// All clients: those of user names that no row names first, since a row for some clients alone isn't for them.
    classes: Vec<Clients<'a>>,
    /// Whether the steps are.
    pub limited: bool,
    ghost is_lint: { IsLint rules rows.now asked by_owner classes.items },
}

// Opaque to callers' proofs: one step, and not one for each field (docs/explanation/gate.md).
impl Drop for Lint<'_> {
    fn drop(self) {
        let Lint {
            rules: _,
            rows: _,
            asked: _,
            by_owner: _,
            classes: _,
            limited: _,
        } = self;
    }
}

fn one_list<'a>(alloc: Global, rows: &'a [Row]) -> Result<Vec<&'a [Row]>, AllocError>
    ensures { IfOk result (λ lists. lists.items ≡ rows.entry ∷ []) }
{
    Ok(vec![in alloc; rows]?)
}

// All classes of clients.
fn all_classes<'a>(alloc: Global, users: &[&'a str]) -> Result<Vec<Clients<'a>>, AllocError>
    ensures { IfOk result (λ all. all.items
        ≡ Others ∷ (Anonymous ∷ map (λ user. Named user) users.now)) }
{
    let mut all = vec![in alloc; Clients::Others, Clients::Anonymous]?;
    for user in users {
        all.push(Clients::Named(user))?;
    }
    Ok(all)
}

impl<'a> Lint<'a> {
    ghost use Rattle.mq_differences.specs.Steps.{enough_steps};
    ghost use Rattle.mq_lint.specs.NeedlessFault.{IsNeedlessFault};

    /// A list. One with a level or a user name of more than 300 bytes is named by its line; by
    /// mosquitto's rules so is one with a mark that is a part of a level.
    pub(crate) fn of(
        alloc: Global,
        rules: Rules,
        rows: &'a [Row],
        steps: u64,
    ) -> Result<Lint<'a>, NeedlessFault>
        ensures rules { IfOk result (λ lint. lint.rules ≡ rules) }
        ensures rows { IfOk result (λ lint. lint.rows.now ≡ rows.entry.now) }
        ensures limited { IfOk result (λ lint. lint.limited ≡ true
            → steps < enough_steps (length rows.entry.now)) }
        ensures fault { IfErr result (IsNeedlessFault rules rows.entry.now steps) }
    {
        let asked = match Asked::of(alloc, rules, one_list(alloc, rows)?) {
            Ok(asked) => asked,
            Err(ListFault::Memory) => return Err(NeedlessFault::Memory),
            Err(ListFault::Line(_, line)) => return Err(NeedlessFault::Line(line)),
            Err(ListFault::Mark(_, line)) => return Err(NeedlessFault::Mark(line)),
        };
        let classes = all_classes(alloc, &asked.users(alloc)?)?;
        let by_owner = ByOwner::of_list(alloc, rows)?;
        Ok(Lint {
            rules,
            rows,
            asked,
            by_owner,
            classes,
            limited: steps < enough_steps(rows.len()),
        })
    }

    /// The classes of the clients that a row may be for.
    pub(crate) fn classes<'c>(
        &'c self,
        alloc: Global,
        row: &'c Row,
    ) -> Result<Vec<Clients<'c>>, AllocError>
        requires { has_row (row_view row.now) self.now.asked.rows ≡ true }
        ensures { IfOk result (λ classes. AreClasses self.entry.now.asked
            (owner_view row.entry.now.owner) classes.items) }
    {
        match &row.owner {
            Owner::Anonymous => Ok(vec![in alloc; Clients::Anonymous]?),
            Owner::Named(name) => Ok(vec![in alloc; Clients::Named(name.as_str())]?),
            Owner::Everyone => Vec::from_slice(alloc, &self.classes),
        }
    }

    /// What is asked about the row, for these clients.
    pub(crate) fn question<'c>(&'c self, clients: Clients<'c>, row: &'c Row) -> Question<'c, 'a>
        requires listed { name_passes (λ u. is_user_of u self.now.asked.rows) clients ≡ true }
        requires inside { has_row (row_view row.now) self.now.asked.rows ≡ true }
        ensures asked { result.asked.now ≡ self.entry.now.asked }
        ensures clients { result.clients ≡ clients.entry }
        ensures row { result.row.now ≡ row.entry.now }
        ensures limited { result.limited ≡ self.entry.now.limited }
    {
        Question {
            rules: self.rules,
            asked: &self.asked,
            clients,
            row,
            users: self.classes.len(),
            limited: self.limited,
        }
    }

    /// The same, with the other rows for these clients that are left.
    pub(crate) fn case<'c>(
        &'c self,
        alloc: Global,
        called: &'c Called<'a>,
        clients: Clients<'c>,
        row: &'c Row,
    ) -> Result<Case<'c, 'a>, AllocError>
        requires rows { called.now.rows.now ≡ self.now.rows.now }
        requires listed { name_passes (λ u. is_user_of u self.now.asked.rows) clients ≡ true }
        requires inside { has_row (row_view row.now) (left_of self.now.asked called.now) ≡ true }
        ensures asked { IfOk result (λ case. case.question.asked.now ≡ self.entry.now.asked) }
        ensures called { IfOk result (λ case. case.called.now ≡ called.entry.now) }
        ensures clients { IfOk result (λ case. case.question.clients ≡ clients.entry) }
        ensures row { IfOk result (λ case. case.question.row.now ≡ row.entry.now) }
        ensures limited { IfOk result (λ case. case.question.limited ≡ self.entry.now.limited) }
    {
        let mut others = Vec::new(alloc);
        add_others(&mut others, called, self.by_owner.everyones(), row)?;
        add_others(&mut others, called, self.by_owner.own(clients), row)?;
        Ok(Case {
            question: self.question(clients, row),
            called,
            others,
        })
    }
}
