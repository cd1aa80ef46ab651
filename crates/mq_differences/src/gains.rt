//! What clients of one class gain, going from one list to another: what a grant of the second list allows, and the first
//! list denied or didn't grant.
ghost use Rattle.std.specs.Prelude.{◌≡◌, ◌<◌, ◌&&◌, ◌||◌, ℕ, IfOk, IfErr, OnOk, true, false, length};
ghost use Rattle.std.specs.Prelude.{nat_lt};
ghost use Rattle.mq_acl.specs.Access.{begins_with_dollar};
ghost use Rattle.mq_acl.specs.Views.{row_view};
ghost use Rattle.mq_witness.specs.Rows.{lent_rows};
ghost use Rattle.mq_witness.specs.Ruled.{KnowsBy, ShowsBy, StandsBy};
ghost use Rattle.mq_differences.specs.Questions.{AreShown, AreShownBy, AreShownOf, IsDeniedAt};
ghost use Rattle.mq_differences.specs.Questions.{IsGain};
ghost use Rattle.mq_differences.specs.Questions.{IsPlaced, IsQuestion, IsStop, IsShownBy};
ghost use Rattle.mq_differences.specs.Questions.{NeverMeet};
ghost use Rattle.mq_differences.specs.Questions.{ShowsChanges, class_of, gain_cover, gain_must};
ghost use Rattle.mq_differences.specs.Questions.{asked_in, gain_reasons, granted_cover, must_of};
ghost use Rattle.mq_differences.specs.Questions.{IsSplit, open_in, side_with};
ghost use Rattle.mq_differences.specs.Ranks.{rank};
ghost use Rattle.mq_differences.specs.Reports.{Grows, IsSound};
ghost use Rattle.std.specs.Prelude.{None};

use crate::class::class_of;
use crate::difference::Difference;
use crate::fault::{ComparisonFault, Side};
use crate::judges::{Judges, add_rows};
use crate::lists::Lists;
use crate::marks::Marked;
use crate::placeholders::placeholders;
use crate::ranks::rank;
use crate::reason::Reason;
use crate::report::Report;
use crate::way::Way;
use crate::work::work_of;
use mq_acl::{Direction, Row, Rules, is_deny};
use mq_witness::{Clients, Topics, Witness};
use std::alloc::{AllocError, Global};

// So many rows are gathered for clients of one class, or so many pairs of rows skipped, in the time
// of one look at a row.
const GATHERED: u64 = 4;

const PAIRS: u64 = 8;

/// What is asked: what these clients may do by one list, and may not by the other.
#[derive(Clone, Copy, Drop)]
pub(crate) struct Question<'l, 'a> {
    pub lists: &'l Lists<'a>,
    pub clients: Clients<'a>,
    pub direction: Direction,
    pub way: Way,
    /// The rows that decide in the list that doesn't allow it.
    pub from: &'l Judges<'a>,
    /// Those in the list that does.
    pub to: &'l Judges<'a>,
}

/// A row that grants it, and why the other list didn't allow it.
#[derive(Clone, Copy, Drop)]
pub(crate) struct Gain<'l, 'a> {
    /// The row that denied it, or none where no row decided.
    pub deny: Option<&'a Row>,
    /// The row that grants it.
    pub grant: &'a Row,
    /// The rows of the first list that would decide before that one denies, and are not to concern it.
    pub judging: &'l [Marked<'a>],
    /// Those of the second list that would before this one grants.
    pub before: &'l [Marked<'a>],
}

// The rows that are to concern it.
fn must_of<'a>(alloc: Global, gain: &Gain<'_, 'a>) -> Result<Vec<&'a Row>, AllocError>
    ensures { IfOk result (λ rows. lent_rows rows.items ≡ gain_must gain.entry.now) }
{
    match gain.deny {
        Some(deny) => Ok(vec![in alloc; deny, gain.grant]?),
        None => Ok(vec![in alloc; gain.grant]?),
    }
}

// The rows that are not to.
fn cover_of<'a>(alloc: Global, gain: &Gain<'_, 'a>) -> Result<Vec<&'a Row>, AllocError>
    ensures { IfOk result (λ rows. lent_rows rows.items ≡ gain_cover gain.entry.now) }
{
    let mut rows = Vec::new(alloc);
    add_rows(&mut rows, gain.judging)?;
    add_rows(&mut rows, gain.before)?;
    Ok(rows)
}

// What decides in the old list and in the new one.
fn reasons(way: Way, gain: &Gain) -> (Reason, Reason)
    ensures { result ≡ gain_reasons way gain.now }
{
    let granted = Reason::Grant(gain.grant.line);
    let refused = match gain.deny {
        Some(deny) => Reason::Deny(deny.line),
        None => Reason::NoGrant,
    };
    match way {
        Way::Gained => (refused, granted),
        Way::Lost => (granted, refused),
    }
}

// What is shown of a witness whose topic begins with `$`, or doesn't.
fn difference_of(
    alloc: Global,
    question: &Question,
    gain: &Gain,
    dollar: bool,
    witness: Witness,
) -> Result<Difference, AllocError>
    requires question { IsQuestion question.now }
    requires gain { IsGain question.now gain.now }
    requires shows { ShowsBy (open_in question.now) (asked_in question.now) question.now.clients
        (gain_must gain.now) (gain_cover gain.now) witness }
    requires kind { begins_with_dollar witness.name ≡ dollar }
    requires stands { StandsBy (open_in question.now) (asked_in question.now) question.now.clients
        (gain_must gain.now) (gain_cover gain.now) witness }
    requires known { KnowsBy (asked_in question.now) witness }
    ensures sound { IfOk result (IsSound question.entry.now.lists.now.old.now
        question.entry.now.lists.now.new.now (asked_in question.entry.now)) }
    ensures shown { IfOk result (λ d. IsShownBy dollar question.entry.now gain.entry.now d) }
{
    let class = class_of(question.clients, witness.user);
    let asked = &question.lists.asked;
    let placeholders = placeholders(alloc, asked, &witness.client, class.user(), &witness.name)?;
    let (old_reason, new_reason) = reasons(question.way, gain);
    Ok(Difference {
        class,
        direction: question.direction,
        way: question.way,
        client: witness.client,
        topic: witness.name,
        placeholders,
        old_reason,
        new_reason,
    })
}

fn side_with(way: Way) -> Side
    ensures { result ≡ side_with way }
{
    match way {
        Way::Gained => Side::New,
        Way::Lost => Side::Old,
    }
}

// How many rows the one that grants it has to be seen against.
fn others_of(gain: &Gain) -> u64 {
    let deny = u64::from(gain.deny.is_some());
    let judging = gain.judging.len() as u64;
    deny.saturating_add(judging)
        .saturating_add(gain.before.len() as u64)
}

// The steps don't suffice for what is asked of this row of the second list, which has to be seen against so many others.
fn give_up(question: &Question, before: &[Marked], row: &Row, others: u64) -> ComparisonFault
    requires question { IsQuestion question.now }
    requires split { IsSplit question.now.to.now.rows.items before.now row.now }
    requires limited { question.now.lists.now.limited ≡ true }
    ensures { IsStop question.now.lists.now result }
{
    ComparisonFault::GaveUp(side_with(question.way), row.line, others)
}

// The steps that it takes to know what these rows concern, and those don't.
fn work_of_question(question: &Question, must: &[&Row], cover: &[&Row]) -> u64 {
    let lists = question.lists;
    work_of(lists.limited, question.clients, lists.users, must, cover)
}

// Those that it takes to know whether the rows meet: of one row that is taken for granted.
fn work_of_meeting(question: &Question, must: &[&Row]) -> u64 {
    if must.len() < 2 {
        return 0;
    }
    work_of_question(question, must, &must[..0])
}

// Whether the rows that are to concern it do so anywhere. Of one row that is taken for granted.
fn can_meet<'a>(
    alloc: Global,
    question: &Question<'_, 'a>,
    gain: &Gain<'_, 'a>,
    must: &[&'a Row],
) -> Result<bool, AllocError>
    requires question { IsQuestion question.now }
    requires gain { IsGain question.now gain.now }
    requires must { lent_rows must.now ≡ gain_must gain.now }
    ensures { IfOk result (λ met. met ≡ false → NeverMeet question.entry.now
        (gain_must gain.entry.now)) }
{
    if must.len() < 2 {
        return Ok(true);
    }
    let asked = &question.lists.asked;
    let open = Topics::Open(question.direction);
    let plain = asked.find_kind(alloc, question.clients, false, open, must, &must[..0])?;
    if plain.is_some() {
        return Ok(true);
    }
    let begun = asked.find_kind(alloc, question.clients, true, open, must, &must[..0])?;
    if begun.is_none() {
        return Ok(false);
    }
    Ok(true)
}

// Adds what is gained of topics that begin with `$`, or of the others, if anything is.
fn add_kind<'a>(
    alloc: Global,
    report: &mut Report,
    question: &Question<'_, 'a>,
    gain: &Gain<'_, 'a>,
    dollar: bool,
    must: &[&'a Row],
    cover: &[&'a Row],
) -> Result<(), AllocError>
    requires question { IsQuestion question.now }
    requires gain { IsGain question.now gain.now }
    requires must { lent_rows must.now ≡ gain_must gain.now }
    requires cover { lent_rows cover.now ≡ gain_cover gain.now }
    ensures grows { OnOk result (Grows question.entry.now.lists.now.old.now
        question.entry.now.lists.now.new.now (asked_in question.entry.now)
        report.old.differences.items report.new.differences.items) }
    ensures shown { OnOk result (AreShownOf dollar question.entry.now (gain_must gain.entry.now)
        (gain_cover gain.entry.now) report.new.differences.items) }
{
    let asked = &question.lists.asked;
    let open = Topics::Open(question.direction);
    let Some(witness) = asked.find_kind(alloc, question.clients, dollar, open, must, cover)? else {
        return Ok(());
    };
    let difference = difference_of(alloc, question, gain, dollar, witness)?;
    report.add(difference)?;
    Ok(())
}

// Adds what is gained in this way, if anything is.
fn add_gain<'a>(
    alloc: Global,
    report: &mut Report,
    question: &Question<'_, 'a>,
    gain: &Gain<'_, 'a>,
) -> Result<(), ComparisonFault>
    requires question { IsQuestion question.now }
    requires gain { IsGain question.now gain.now }
    ensures grows { OnOk result (Grows question.entry.now.lists.now.old.now
        question.entry.now.lists.now.new.now (asked_in question.entry.now)
        report.old.differences.items report.new.differences.items) }
    ensures shown { OnOk result (AreShown question.entry.now (gain_must gain.entry.now)
        (gain_cover gain.entry.now) report.new.differences.items) }
    ensures fault { IfErr result (IsStop question.entry.now.lists.now) }
{
    let must = must_of(alloc, gain)?;
    let few = work_of_meeting(question, &must);
    if !report.spend(question.lists.limited, few) {
        return Err(give_up(question, gain.before, gain.grant, others_of(gain)));
    }
    let met = can_meet(alloc, question, gain, &must)?;
    if !met {
        return Ok(());
    }
    let cover = cover_of(alloc, gain)?;
    let steps = work_of_question(question, &must, &cover);
    if !report.spend(question.lists.limited, steps) {
        return Err(give_up(question, gain.before, gain.grant, others_of(gain)));
    }
    add_kind(alloc, report, question, gain, false, &must, &cover)?;
    add_kind(alloc, report, question, gain, true, &must, &cover)?;
    Ok(())
}

// Adds what the row grants where no row of the first list decided. The steps are spent, too, for the rows that may have
// denied it: each is looked at, though of most nothing is asked.
fn add_granted<'l, 'a>(
    alloc: Global,
    report: &mut Report,
    question: &Question<'l, 'a>,
    before: &'l [Marked<'a>],
    grant: &Marked<'a>,
) -> Result<(), ComparisonFault>
    requires question { IsQuestion question.now }
    requires placed { IsPlaced question.now before.now grant.now }
    ensures grows { OnOk result (Grows question.entry.now.lists.now.old.now
        question.entry.now.lists.now.new.now (asked_in question.entry.now)
        report.old.differences.items report.new.differences.items) }
    ensures shown { OnOk result (AreShown question.entry.now
        (must_of None (row_view grant.entry.now.row.now))
        (granted_cover question.entry.now before.entry.now) report.new.differences.items) }
    ensures fault { IfErr result (IsStop question.entry.now.lists.now) }
{
    let denies = question.from.denies.len() as u64;
    if !report.spend(question.lists.limited, denies / PAIRS) {
        return Err(give_up(question, before, grant.row, denies));
    }
    if grant.kept {
        return Ok(());
    }
    let gain = Gain {
        deny: None,
        grant: grant.row,
        judging: &question.from.rows,
        before,
    };
    add_gain(alloc, report, question, &gain)?;
    Ok(())
}

// Whether the row that denies, or the one that grants, is in the other list too, and would decide there before the other
// one.
fn decides_elsewhere(rules: Rules, deny: &Marked, grant: &Marked) -> bool
    ensures { result ≡ ((deny.now.kept && nat_lt (rank rules (row_view deny.now.row.now))
        (rank rules (row_view grant.now.row.now)))
        || (grant.now.kept && nat_lt (rank rules (row_view grant.now.row.now))
        (rank rules (row_view deny.now.row.now)))) }
{
    let denies = rank(rules, deny.row);
    let grants = rank(rules, grant.row);
    (deny.kept && denies < grants) || (grant.kept && grants < denies)
}

// Adds what the row grants where this row of the first list was the first to decide, and denied it.
fn add_denied<'l, 'a>(
    alloc: Global,
    report: &mut Report,
    question: &Question<'l, 'a>,
    before: &'l [Marked<'a>],
    grant: &Marked<'a>,
    place: usize,
) -> Result<(), ComparisonFault>
    requires question { IsQuestion question.now }
    requires placed { IsPlaced question.now before.now grant.now }
    ensures grows { OnOk result (Grows question.entry.now.lists.now.old.now
        question.entry.now.lists.now.new.now (asked_in question.entry.now)
        report.old.differences.items report.new.differences.items) }
    ensures shown { OnOk result (IsDeniedAt question.entry.now before.entry.now grant.entry.now
        place report.new.differences.items) }
    ensures fault { IfErr result (IsStop question.entry.now.lists.now) }
{
    let Some(deny) = question.from.rows.get(place) else {
        return Ok(());
    };
    if !is_deny(deny.row.access) {
        return Ok(());
    }
    if decides_elsewhere(question.lists.rules, deny, grant) {
        return Ok(());
    }
    let gain = Gain {
        deny: Some(deny.row),
        grant: grant.row,
        judging: &question.from.rows[..place],
        before,
    };
    add_gain(alloc, report, question, &gain)?;
    Ok(())
}

// Adds what the row grants, and the first list didn't allow.
fn add_by_grant<'l, 'a>(
    alloc: Global,
    report: &mut Report,
    question: &Question<'l, 'a>,
    before: &'l [Marked<'a>],
    grant: &Marked<'a>,
) -> Result<(), ComparisonFault>
    requires question { IsQuestion question.now }
    requires placed { IsPlaced question.now before.now grant.now }
    ensures grows { OnOk result (Grows question.entry.now.lists.now.old.now
        question.entry.now.lists.now.new.now (asked_in question.entry.now)
        report.old.differences.items report.new.differences.items) }
    ensures shown { OnOk result (AreShownBy question.entry.now before.entry.now grant.entry.now
        report.new.differences.items) }
    ensures fault { IfErr result (IsStop question.entry.now.lists.now) }
{
    add_granted(alloc, report, question, before, grant)?;
    for place in &question.from.denies {
        add_denied(alloc, report, question, before, grant, *place)?;
    }
    Ok(())
}

// Spends the steps that it took to gather the rows of the second list.
fn begin(report: &mut Report, question: &Question) -> Result<(), ComparisonFault>
    requires { IsQuestion question.now }
    ensures same { report.new.differences ≡ report.old.differences }
    ensures fault { IfErr result (IsStop question.entry.now.lists.now) }
{
    let rows = question.to.rows.as_slice();
    let Some(first) = rows.get(0) else {
        return Ok(());
    };
    let count = rows.len() as u64;
    if !report.spend(question.lists.limited, count / GATHERED) {
        return Err(give_up(question, &rows[..0], first.row, count));
    }
    Ok(())
}

/// Adds what is gained.
pub(crate) fn add_gains(
    alloc: Global,
    report: &mut Report,
    question: &Question,
) -> Result<(), ComparisonFault>
    requires { IsQuestion question.now }
    ensures grows { OnOk result (Grows question.entry.now.lists.now.old.now
        question.entry.now.lists.now.new.now (asked_in question.entry.now)
        report.old.differences.items report.new.differences.items) }
    ensures shown { OnOk result (ShowsChanges question.entry.now report.new.differences.items) }
    ensures fault { IfErr result (IsStop question.entry.now.lists.now) }
{
    begin(report, question)?;
    let rows = question.to.rows.as_slice();
    for (place, grant) in rows.iter().enumerate() {
        if is_deny(grant.row.access) {
            continue;
        }
        add_by_grant(alloc, report, question, &rows[..place], grant)?;
    }
    Ok(())
}
