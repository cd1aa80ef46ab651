//! Whether clients of one class need a row.
ghost use Rattle.std.specs.Prelude.{◌≡◌, ◌∷◌, ◌++◌, [], IfOk, IfErr, OnOk, true, false, All};
ghost use Rattle.std.specs.Prelude.{Contains};
ghost use Rattle.std.specs.List.{filter};
ghost use Rattle.mq_acl.specs.Views.{row_view};
ghost use Rattle.mq_witness.specs.Rows.{lent_rows};
ghost use Rattle.mq_witness.specs.declared.topics.Topics.TheVariants as topics;
ghost use Rattle.mq_differences.specs.Marks.{views_of};
ghost use Rattle.mq_lint.specs.Needless.{without, without_all};
ghost use Rattle.mq_lint.specs.Cases.{Finds, FindsNone, GrantsAlone, GrantsNone, IsNeeded};
ghost use Rattle.mq_lint.specs.Cases.{IsNeedlessIn, IsNeedlessTo, MeetsGrant, NoneAt, NoneMeets};
ghost use Rattle.mq_lint.specs.Cases.{AreMarked, has_row};
ghost use Rattle.mq_lint.specs.Left.{left_of};
ghost use Rattle.mq_lint.specs.Cases.{Precedes, is_at, is_before, others_of, permits};

use crate::called::Called;
use crate::fault::NeedlessFault;
use crate::question::Question;
use crate::same::same_row;
use mq_acl::{Direction, Row, Rules, is_deny};
use mq_differences::{Marked, Steps, is_judge, rank};
use mq_witness::Topics;
use std::alloc::{AllocError, Global};

// So many rows are gathered in the time of one look at a row.
const GATHERED: u64 = 4;

// Ranks are below it.
const RANKS: u8 = 4;

/// A row of a list, clients of one class, and the other rows for these clients that are left.
pub(crate) struct Case<'q, 'a> {
    pub question: Question<'q, 'a>,
    /// Those that aren't left.
    pub called: &'q Called<'a>,
    /// But for those that say the same as the row.
    pub others: Vec<&'a Row>,
    ghost are_others: { lent_rows others.items ≡ others_of question.clients
        (row_view question.row.now) (left_of question.asked.now called.now) },
    ghost inside: { has_row (row_view question.row.now)
        (left_of question.asked.now called.now) ≡ true },
}

// Opaque to callers' proofs: one step, and not one for each field (docs/explanation/gate.md).
impl Drop for Case<'_, '_> {
    fn drop(self) {
        let Case {
            question: _,
            called: _,
            others: _,
        } = self;
    }
}

/// Adds those of the rows that are left and don't say the same as this one.
pub(crate) fn add_others<'a>(
    others: &mut Vec<&'a Row>,
    called: &Called<'a>,
    rows: &[Marked<'a>],
    row: &Row,
) -> Result<(), AllocError>
    requires { AreMarked called.now.rows.now rows.now }
    ensures { OnOk result (lent_rows others.new.items
        ≡ lent_rows others.old.items ++ without (row_view row.now)
        (without_all (lent_rows called.entry.now.called.items) (views_of rows.now))) }
{
    for m in rows {
        if called.is_out(m.place) {
            continue;
        }
        if same_row(m.row, row) {
            continue;
        }
        others.push(m.row)?;
    }
    Ok(())
}

// Those of the rows that may decide about the direction, and do before rows of this rank.
fn before<'a>(
    alloc: Global,
    rules: Rules,
    rows: &[&'a Row],
    direction: Direction,
    place: u8,
) -> Result<Vec<&'a Row>, AllocError>
    ensures { IfOk result (λ all. all.items
        ≡ filter (λ r. is_before rules direction place (row_view r.now)) rows.now) }
{
    rows.iter()
        .copied()
        .filter(|row| is_judge(direction, row) && rank(rules, row) < place)
        .collect(alloc)
}

fn is_at(rules: Rules, direction: Direction, place: u8, row: &Row) -> bool
    ensures { result ≡ is_at rules direction place (row_view row.now) }
{
    is_judge(direction, row) && rank(rules, row) == place
}

impl<'q, 'a> Case<'q, 'a> {
    ghost use Rattle.mq_lint.specs.NeedlessFault.{IsStop};

    /// How many other rows there are.
    pub(crate) fn count(&self) -> u64 {
        self.others.len() as u64
    }

    /// The steps that it took to gather them.
    pub(crate) fn work(&self) -> u64 {
        self.count() / GATHERED
    }

    // Whether the row and this other one concern one of these topics that none of the cover does.
    fn meets(
        &self,
        alloc: Global,
        steps: &mut Steps,
        topics: Topics,
        other: &Row,
        cover: &[&Row],
    ) -> Result<bool, NeedlessFault>
        requires other { Contains self.now.question.asked.now.rows (row_view other.now) }
        requires cover { All (Contains self.now.question.asked.now.rows) (lent_rows cover.now) }
        ensures found { IfOk result (λ met. met ≡ true → Finds topics self.now.question.asked.now
            self.now.question.clients
            (row_view self.now.question.row.now ∷ (row_view other.now ∷ []))
            (lent_rows cover.entry.now)) }
        ensures none { IfOk result (λ met. met ≡ false → FindsNone topics self.now.question.asked.now
            self.now.question.clients
            (row_view self.now.question.row.now ∷ (row_view other.now ∷ []))
            (lent_rows cover.entry.now)) }
        ensures fault { IfErr result (IsStop self.now.question.row.now.line
            self.now.question.limited) }
    {
        if !self
            .question
            .stands_out_with(alloc, steps, topics, other, &cover[..0])?
        {
            return Ok(false);
        }
        self.question
            .stands_out_with(alloc, steps, topics, other, cover)
    }

    // Whether the row decides about the direction where else one of this rank would.
    fn precedes(
        &self,
        alloc: Global,
        steps: &mut Steps,
        direction: Direction,
        place: u8,
    ) -> Result<bool, NeedlessFault>
        ensures some { IfOk result (λ found. found ≡ true → Precedes
            self.now.question.asked.now (left_of self.now.question.asked.now self.now.called.now)
            self.now.question.clients (row_view self.now.question.row.now) direction place) }
        ensures none { IfOk result (λ found. found ≡ false → NoneAt
            self.now.question.asked.now (left_of self.now.question.asked.now self.now.called.now)
            self.now.question.clients (row_view self.now.question.row.now) direction place) }
        ensures fault { IfErr result (IsStop self.now.question.row.now.line
            self.now.question.limited) }
    {
        let rules = self.question.rules;
        let cover = before(alloc, rules, &self.others, direction, place)?;
        for other in &self.others {
            if !is_at(rules, direction, place, other) {
                continue;
            }
            if self.meets(alloc, steps, Topics::Open(direction), other, &cover)? {
                return Ok(true);
            }
        }
        Ok(false)
    }

    // Whether the row grants something about which no other decides.
    fn grants_alone(
        &self,
        alloc: Global,
        steps: &mut Steps,
        direction: Direction,
    ) -> Result<bool, NeedlessFault>
        ensures some { IfOk result (λ alone. alone ≡ true → GrantsAlone
            self.now.question.asked.now (left_of self.now.question.asked.now self.now.called.now)
            self.now.question.clients (row_view self.now.question.row.now) direction) }
        ensures none { IfOk result (λ alone. alone ≡ false → GrantsNone
            self.now.question.asked.now (left_of self.now.question.asked.now self.now.called.now)
            self.now.question.clients (row_view self.now.question.row.now) direction) }
        ensures fault { IfErr result (IsStop self.now.question.row.now.line
            self.now.question.limited) }
    {
        if is_deny(self.question.row.access) {
            return Ok(false);
        }
        let cover = before(alloc, self.question.rules, &self.others, direction, RANKS)?;
        let open = Topics::Open(direction);
        let alone = self.question.stands_out(alloc, steps, open, &cover)?;
        Ok(alone)
    }

    // Whether the list without the row allows these clients something else in this direction: what
    // no other row decides, or one that comes behind it and says the opposite.
    fn is_needed_in(
        &self,
        alloc: Global,
        steps: &mut Steps,
        direction: Direction,
    ) -> Result<bool, NeedlessFault>
        ensures needed { IfOk result (λ needed. needed ≡ true → IsNeeded
            self.now.question.asked.now (left_of self.now.question.asked.now self.now.called.now)
            (row_view self.now.question.row.now)) }
        ensures needless { IfOk result (λ needed. needed ≡ false → IsNeedlessIn
            self.now.question.asked.now (left_of self.now.question.asked.now self.now.called.now)
            self.now.question.clients (row_view self.now.question.row.now) direction) }
        ensures fault { IfErr result (IsStop self.now.question.row.now.line
            self.now.question.limited) }
    {
        let row = self.question.row;
        if !is_judge(direction, row) {
            return Ok(false);
        }
        if self.grants_alone(alloc, steps, direction)? {
            return Ok(true);
        }
        let place = rank(self.question.rules, row);
        if self.precedes(alloc, steps, direction, place + 1)? {
            return Ok(true);
        }
        let before_last = self.precedes(alloc, steps, direction, place + 3)?;
        Ok(before_last)
    }

    /// Whether the list without the row allows these clients something else.
    pub(crate) fn is_needed(&self, alloc: Global, steps: &mut Steps) -> Result<bool, NeedlessFault>
        ensures needed { IfOk result (λ needed. needed ≡ true → IsNeeded
            self.now.question.asked.now (left_of self.now.question.asked.now self.now.called.now)
            (row_view self.now.question.row.now)) }
        ensures needless { IfOk result (λ needed. needed ≡ false → IsNeedlessTo
            self.now.question.asked.now (left_of self.now.question.asked.now self.now.called.now)
            self.now.question.clients (row_view self.now.question.row.now)) }
        ensures fault { IfErr result (IsStop self.now.question.row.now.line
            self.now.question.limited) }
    {
        if self.is_needed_in(alloc, steps, Direction::Reading)? {
            return Ok(true);
        }
        let needed = self.is_needed_in(alloc, steps, Direction::Writing)?;
        Ok(needed)
    }

    /// Whether a row grants these clients something that this one concerns.
    pub(crate) fn meets_grant(
        &self,
        alloc: Global,
        steps: &mut Steps,
    ) -> Result<bool, NeedlessFault>
        ensures some { IfOk result (λ met. met ≡ true → MeetsGrant self.now.question.asked.now.rules
            self.now.question.asked.now.rows (row_view self.now.question.row.now)) }
        ensures none { IfOk result (λ met. met ≡ false → NoneMeets topics.All self.now.question.asked.now
            self.now.question.clients (row_view self.now.question.row.now) permits []
            (lent_rows self.now.others.items)) }
        ensures fault { IfErr result (IsStop self.now.question.row.now.line
            self.now.question.limited) }
    {
        for other in &self.others {
            if is_deny(other.access) {
                continue;
            }
            if self
                .question
                .stands_out_with(alloc, steps, Topics::All, other, &self.others[..0])?
            {
                return Ok(true);
            }
        }
        Ok(false)
    }
}
