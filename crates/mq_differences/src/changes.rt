//! Where two lists differ.
ghost use Rattle.std.specs.Prelude.{◌≡◌, ℕ, List, [], All, IfOk, IfErr, OnOk, true, Option, Some};
ghost use Rattle.mq_topic.specs.Texts.{is_name};
ghost use Rattle.mq_acl.specs.AccessLists.{allow_by};
ghost use Rattle.mq_acl.specs.Views.{row_views};
ghost use Rattle.mq_acl.specs.declared.access.Direction.{Direction};
ghost use Rattle.mq_witness.specs.Asked.{IsListed};
ghost use Rattle.mq_witness.specs.Clients.{can_be_id};
ghost use Rattle.mq_witness.specs.Rows.{is_user_of};
ghost use Rattle.mq_differences.specs.Classes.{can_be_user};
ghost use Rattle.mq_differences.specs.Differences.{ShowsAll, IsReal, AreApart, AreMarked};
ghost use Rattle.mq_differences.specs.Faults.{IsComparisonFault};
ghost use Rattle.mq_differences.specs.Questions.{AreLists, IsStop};
ghost use Rattle.mq_differences.specs.Reports.{Grows};
ghost use Rattle.mq_differences.specs.Changes.{AreClassRows, ShowsChangesIn, ShowsChangesOf};
ghost use Rattle.mq_differences.specs.declared.way.Way.{Way};

use crate::difference::Difference;
use crate::fault::ComparisonFault;
use crate::gains::{Question, add_gains};
use crate::judges::Judges;
use crate::lists::Lists;
use crate::marks::Marked;
use crate::report::Report;
use crate::way::Way;
use mq_acl::{Direction, Row, Rules};
use mq_witness::Clients;
use std::alloc::Global;

// The rows of both lists for clients of one class.
struct ClassRows<'q> {
    clients: Clients<'q>,
    old: Vec<Marked<'q>>,
    new: Vec<Marked<'q>>,
}

// Opaque to callers' proofs: one step, and not one for each field (docs/explanation/gate.md).
impl Drop for ClassRows<'_> {
    fn drop(self) {
        let ClassRows {
            clients: _,
            old: _,
            new: _,
        } = self;
    }
}

// Adds what these clients gain and lose in a direction.
fn add_direction<'q>(
    alloc: Global,
    report: &mut Report,
    lists: &Lists<'q>,
    rows: &ClassRows<'q>,
    direction: Direction,
) -> Result<(), ComparisonFault>
    requires lists { AreLists lists.now }
    requires rows { AreClassRows lists.now rows.now }
    ensures grows { OnOk result (Grows lists.entry.now.old.now lists.entry.now.new.now
        lists.entry.now.asked report.old.differences.items report.new.differences.items) }
    ensures shown { OnOk result ((way : Way)
        → ShowsChangesIn lists.entry.now rows.entry.now.clients way
        direction report.new.differences.items) }
    ensures fault { IfErr result (IsStop lists.entry.now) }
{
    let old = Judges::of(alloc, lists.rules, &rows.old, direction)?;
    let new = Judges::of(alloc, lists.rules, &rows.new, direction)?;
    let gained = Question {
        lists,
        clients: rows.clients,
        direction,
        way: Way::Gained,
        from: &old,
        to: &new,
    };
    add_gains(alloc, report, &gained)?;
    let lost = Question {
        way: Way::Lost,
        from: &new,
        to: &old,
        ..gained
    };
    add_gains(alloc, report, &lost)?;
    Ok(())
}

// Adds what these clients gain and lose.
fn add_clients<'q>(
    alloc: Global,
    report: &mut Report,
    lists: &Lists<'q>,
    clients: Clients<'q>,
) -> Result<(), ComparisonFault>
    requires lists { AreLists lists.now }
    requires listed { IsListed lists.now.asked clients }
    ensures grows { OnOk result (Grows lists.entry.now.old.now lists.entry.now.new.now
        lists.entry.now.asked report.old.differences.items report.new.differences.items) }
    ensures shown { OnOk result ((way : Way) (direction : Direction)
        → ShowsChangesIn lists.entry.now clients.entry way direction report.new.differences.items) }
    ensures fault { IfErr result (IsStop lists.entry.now) }
{
    let old = lists.old_rows.rows_for(alloc, clients)?;
    let new = lists.new_rows.rows_for(alloc, clients)?;
    let rows = ClassRows { clients, old, new };
    add_direction(alloc, report, lists, &rows, Direction::Reading)?;
    add_direction(alloc, report, lists, &rows, Direction::Writing)?;
    Ok(())
}

// Adds what the clients of each user name that a list names gain and lose.
fn add_users(alloc: Global, report: &mut Report, lists: &Lists) -> Result<(), ComparisonFault>
    requires { AreLists lists.now }
    ensures grows { OnOk result (Grows lists.entry.now.old.now lists.entry.now.new.now
        lists.entry.now.asked report.old.differences.items report.new.differences.items) }
    ensures shown { OnOk result ((user : List ℕ) → is_user_of user lists.entry.now.asked.rows ≡ true
        → ShowsChangesOf lists.entry.now (Some user) report.new.differences.items) }
    ensures fault { IfErr result (IsStop lists.entry.now) }
{
    let users = lists.asked.users(alloc)?;
    for user in &users {
        add_clients(alloc, report, lists, Clients::Named(user))?;
    }
    Ok(())
}

// Adds what all clients gain and lose.
fn add_all(alloc: Global, report: &mut Report, lists: &Lists) -> Result<(), ComparisonFault>
    requires { AreLists lists.now }
    ensures grows { OnOk result (Grows lists.entry.now.old.now lists.entry.now.new.now
        lists.entry.now.asked report.old.differences.items report.new.differences.items) }
    ensures shown { OnOk result (ShowsAll lists.entry.now.asked.rules lists.entry.now.old.now lists.entry.now.new.now
        report.new.differences.items) }
    ensures fault { IfErr result (IsStop lists.entry.now) }
{
    add_clients(alloc, report, lists, Clients::Anonymous)?;
    add_users(alloc, report, lists)?;
    add_clients(alloc, report, lists, Clients::Others)?;
    Ok(())
}

/// Where two lists differ: for the clients without a user name, for those of each user name that a
/// list names, and for those of all others, what they gain and lose in each direction. Of what the
/// same lines decide, one difference is listed.
///
/// A step is a row that is looked at for one question, or as much work as that takes. Where the steps don't suffice the
/// comparison is given up, so that an answer is always the whole one. So many as `enough_steps` says always suffice.
pub fn compare<'a>(
    alloc: Global,
    rules: Rules,
    old: &'a [Row],
    new: &'a [Row],
    steps: u64,
) -> Result<Vec<Difference>, ComparisonFault>
    ensures every { IfOk result (λ all. ShowsAll rules old.entry.now new.entry.now all.items) }
    ensures real { IfOk result (λ all. All (IsReal rules old.entry.now new.entry.now) all.items) }
    ensures once { IfOk result (λ all. AreApart all.items) }
    ensures marked { IfOk result (λ all. AreMarked rules old.entry.now new.entry.now all.items) }
    ensures same { IfOk result (λ all. all.items ≡ []
        → (client topic : List ℕ) (user : Option (List ℕ)) (direction : Direction)
        → can_be_id client ≡ true → can_be_user user ≡ true
        → is_name topic ≡ true
        → allow_by rules (row_views old.entry.now) client user topic direction
        ≡ allow_by rules (row_views new.entry.now) client user topic direction) }
    ensures fault { IfErr result (IsComparisonFault rules old.entry.now new.entry.now steps) }
{
    let lists = Lists::of(alloc, rules, old, new, steps)?;
    let mut report = Report::new(alloc, steps);
    add_all(alloc, &mut report, &lists)?;
    Ok(report.into_differences())
}
