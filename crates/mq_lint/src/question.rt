//! What is asked about a row, for clients of one class.
ghost use Rattle.std.specs.Prelude.{◌≡◌, ◌∷◌, [], IfOk, IfErr, true, false, All, Contains};
ghost use Rattle.mq_acl.specs.Views.{row_view};
ghost use Rattle.mq_witness.specs.Rows.{lent_rows};
ghost use Rattle.mq_witness.specs.Ruled.{FindsNoneBy};
ghost use Rattle.mq_lint.specs.Cases.{CanAsk, Finds, FindsNone};

use crate::fault::NeedlessFault;
use mq_acl::{Row, Rules};
use mq_differences::{Steps, work_of};
use mq_witness::{Asked, Clients, Topics};
use std::alloc::{AllocError, Global};

/// A row of a list, and clients of one class.
#[derive(Clone, Copy, Drop)]
pub(crate) struct Question<'q, 'a> {
    pub rules: Rules,
    pub asked: &'q Asked<'a>,
    pub clients: Clients<'q>,
    pub row: &'q Row,
    /// How many user names the list names.
    pub users: usize,
    /// Whether the steps are.
    pub limited: bool,
    ghost can_ask: { CanAsk rules asked.now clients (row_view row.now) },
}

impl<'q, 'a> Question<'q, 'a> {
    ghost use Rattle.mq_lint.specs.NeedlessFault.{IsStop};

    // Whether each of the first rows concerns one of these topics of these clients that begins with `$`, or doesn't, and
    // none of the others does.
    fn meets_kind(
        &self,
        alloc: Global,
        dollar: bool,
        topics: Topics,
        must: &[&Row],
        cover: &[&Row],
    ) -> Result<bool, AllocError>
        requires must { All (Contains self.now.asked.now.rows) (lent_rows must.now) }
        requires cover { All (Contains self.now.asked.now.rows) (lent_rows cover.now) }
        ensures found { IfOk result (λ met. met ≡ true → Finds topics self.now.asked.now
            self.now.clients (lent_rows must.entry.now) (lent_rows cover.entry.now)) }
        ensures none { IfOk result (λ met. met ≡ false → FindsNoneBy dollar topics self.now.asked.now
            self.now.clients (lent_rows must.entry.now) (lent_rows cover.entry.now)) }
    {
        let found = self
            .asked
            .find_kind(alloc, self.clients, dollar, topics, must, cover)?;
        if found.is_none() {
            return Ok(false);
        }
        Ok(true)
    }

    // Whether each of the first rows concerns one of these topics of these clients, and none of the others does.
    fn meets(
        &self,
        alloc: Global,
        steps: &mut Steps,
        topics: Topics,
        must: &[&Row],
        cover: &[&Row],
    ) -> Result<bool, NeedlessFault>
        requires must { All (Contains self.now.asked.now.rows) (lent_rows must.now) }
        requires cover { All (Contains self.now.asked.now.rows) (lent_rows cover.now) }
        ensures found { IfOk result (λ met. met ≡ true → Finds topics self.now.asked.now
            self.now.clients (lent_rows must.entry.now) (lent_rows cover.entry.now)) }
        ensures none { IfOk result (λ met. met ≡ false → FindsNone topics self.now.asked.now
            self.now.clients (lent_rows must.entry.now) (lent_rows cover.entry.now)) }
        ensures fault { IfErr result (IsStop self.now.row.now.line self.now.limited) }
    {
        let others = (must.len() as u64).saturating_add(cover.len() as u64);
        let work = work_of(self.limited, self.clients, self.users, must, cover);
        if !steps.spend(self.limited, work) {
            return Err(NeedlessFault::GaveUp(self.row.line, others.saturating_sub(1)));
        }
        if self.meets_kind(alloc, false, topics, must, cover)? {
            return Ok(true);
        }
        let begun = self.meets_kind(alloc, true, topics, must, cover)?;
        Ok(begun)
    }

    /// Whether the row concerns one of these topics that none of these rows does.
    pub(crate) fn stands_out(
        &self,
        alloc: Global,
        steps: &mut Steps,
        topics: Topics,
        cover: &[&Row],
    ) -> Result<bool, NeedlessFault>
        requires { All (Contains self.now.asked.now.rows) (lent_rows cover.now) }
        ensures found { IfOk result (λ met. met ≡ true → Finds topics self.now.asked.now
            self.now.clients (row_view self.now.row.now ∷ []) (lent_rows cover.entry.now)) }
        ensures none { IfOk result (λ met. met ≡ false → FindsNone topics self.now.asked.now
            self.now.clients (row_view self.now.row.now ∷ []) (lent_rows cover.entry.now)) }
        ensures fault { IfErr result (IsStop self.now.row.now.line self.now.limited) }
    {
        self.meets(alloc, steps, topics, &[self.row], cover)
    }

    /// Whether the row and another concern one of these topics that none of these rows does.
    pub(crate) fn stands_out_with(
        &self,
        alloc: Global,
        steps: &mut Steps,
        topics: Topics,
        other: &Row,
        cover: &[&Row],
    ) -> Result<bool, NeedlessFault>
        requires other { Contains self.now.asked.now.rows (row_view other.now) }
        requires cover { All (Contains self.now.asked.now.rows) (lent_rows cover.now) }
        ensures found { IfOk result (λ met. met ≡ true → Finds topics self.now.asked.now
            self.now.clients (row_view self.now.row.now ∷ (row_view other.now ∷ []))
            (lent_rows cover.entry.now)) }
        ensures none { IfOk result (λ met. met ≡ false → FindsNone topics self.now.asked.now
            self.now.clients (row_view self.now.row.now ∷ (row_view other.now ∷ []))
            (lent_rows cover.entry.now)) }
        ensures fault { IfErr result (IsStop self.now.row.now.line self.now.limited) }
    {
        self.meets(alloc, steps, topics, &[self.row, other], cover)
    }
}
