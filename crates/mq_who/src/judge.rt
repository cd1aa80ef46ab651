//! Whether a list keeps to what is expected of it.
ghost use Rattle.std.specs.Prelude.{◌≡◌, ◌&&◌, Bool, List, IfOk, IfErr, IfSome, IfNone, Contains, true, false, find, map, not};
ghost use Rattle.std.specs.List.{list_all, list_any};
ghost use Rattle.mq_acl.specs.Access.{grants};
ghost use Rattle.mq_acl.specs.Views.{access_view, owner_view, row_view, row_views};
ghost use Rattle.mq_acl.specs.declared.row.Row.{Row};
ghost use Rattle.mq_acl.specs.declared.rules.Rules.{Rules};
ghost use Rattle.mq_witness.specs.Limits.{has_short_levels};
ghost use Rattle.mq_witness.specs.Rows.{is_name_of, is_user_of};
ghost use Rattle.mq_expect.specs.Expectations.{User, excepted};
ghost use Rattle.mq_expect.specs.Views.{claim_view, whom_view};
ghost use Rattle.mq_who.specs.Claims.{AreOthers, IsJudgement, IsNone, IsOne, IsRefused, TakesAll};
ghost use Rattle.mq_who.specs.Claims.{has_class, is_every, is_known, is_meant, is_meant_in};
ghost use Rattle.mq_who.specs.Claims.{wants_refused};
ghost use Rattle.mq_who.specs.Faults.{IsWhoFault};
ghost use Rattle.mq_who.specs.Who.{IsListing};

use crate::fault::WhoFault;
use crate::permissions::listed;
use mq_acl::{Direction, Owner, Row, Rules, grants, refuses_filter};
use mq_differences::{Class, Difference, same_direction};
use mq_expect::{Claim, Holds, Whom};
use mq_topic::LevelText;
use mq_witness::has_short_levels;
use std::alloc::Global;

/// Whether a list keeps to what is expected of it.
#[derive(Drop)]
pub enum Judgement<'p> {
    /// It does, for each client and topic that is asked about: by mosquitto's rules some clients whose id or user name
    /// holds `+` or `#` aren't (`who_may`).
    Holds,
    /// It doesn't for this client and topic. `old_reason` is the line that decides.
    Fails(Difference),
    /// One topic at least is expected to be allowed, and none is in this direction.
    NoneMay(Direction),
    /// No line of the list names this user.
    Unnamed(&'p str),
    /// Each client is to be allowed topics that the broker refuses to let clients read or write in
    /// this direction, whatever the list says (`mq_acl::refuses_filter`).
    Refused(Direction),
}

fn is_name_of(name: &str, owner: &Owner) -> bool
    ensures { result ≡ is_name_of name.now (owner_view owner.now) }
{
    match owner {
        Owner::Named(user) => name == user.as_str(),
        _ => false,
    }
}

fn has_user(rows: &[Row], name: &str) -> bool
    ensures { result ≡ list_any (λ row. is_name_of name.now (row_view row).who) rows.now }
{
    rows.iter().any(|row| is_name_of(name, &row.owner))
}

fn names_user(rows: &[Row], name: &str) -> bool
    ensures { result ≡ is_user_of name.now (row_views rows.now) }
{
    has_user(rows, name)
}

// The user that the list doesn't name, if it is one.
fn unnamed<'p>(rows: &[Row], whom: Whom<'p>) -> Option<&'p str>
    ensures none { IfNone result (is_known (row_views rows.now) (whom_view whom.entry) ≡ true) }
    ensures some { IfSome result (λ name. (is_user_of name.now (row_views rows.now) ≡ false)
        × (whom_view whom.entry ≡ User name.now)) }
{
    let Whom::User(name) = whom else {
        return None;
    };
    if names_user(rows, name) {
        return None;
    }
    Some(name)
}

// The first user that the list doesn't name.
fn first_unnamed<'p>(rows: &[Row], all: &[Whom<'p>]) -> Option<&'p str>
    ensures none { IfNone result (list_all (λ w. is_known (row_views rows.now) (whom_view w)) all.now
        ≡ true) }
    ensures some { IfSome result (λ name. (is_user_of name.now (row_views rows.now) ≡ false)
        × Contains (map whom_view all.now) (User name.now)) }
{
    for whom in all {
        if let Some(name) = unnamed(rows, *whom) {
            return Some(name);
        }
    }
    None
}

fn is_every(holds: Holds) -> bool
    ensures { result ≡ is_every holds }
{
    matches!(holds, Holds::Every)
}

// Whether each client is to be allowed in this direction what the broker refuses by itself.
fn wants_refused(rules: Rules, claim: &Claim, direction: Direction) -> bool
    ensures { result ≡ wants_refused rules (claim_view claim.now) direction }
{
    is_every(claim.holds)
        && grants(direction, claim.access)
        && refuses_filter(rules, direction, &claim.filter)
}

// The direction in which it is so, if there is one.
fn refused_direction(rules: Rules, claim: &Claim) -> Option<Direction>
    ensures none { IfNone result (TakesAll rules (claim_view claim.now)) }
    ensures some { IfSome result (IsRefused rules (claim_view claim.now)) }
{
    if wants_refused(rules, claim, Direction::Reading) {
        return Some(Direction::Reading);
    }
    if wants_refused(rules, claim, Direction::Writing) {
        return Some(Direction::Writing);
    }
    None
}

fn has_class(class: &Class, whom: &Whom) -> bool
    ensures { result ≡ has_class class.now (whom_view whom.now) }
{
    match (class, whom) {
        (_, Whom::Anyone) => true,
        (Class::Anonymous, Whom::Anonymous) => true,
        (Class::Others(_), Whom::Others) => true,
        (Class::User(name), Whom::User(other)) => name.as_str() == *other,
        _ => false,
    }
}

fn is_among(class: &Class, all: &[Whom]) -> bool
    ensures { result ≡ list_any (λ w. has_class class.now (whom_view w)) all.now }
{
    all.iter().any(|whom| has_class(class, whom))
}

// Whether the clients that it is of are among those that are meant, and it is of a direction that is.
fn is_meant(claim: &Claim, others: &[Whom], d: &Difference) -> bool
    ensures { result ≡ is_meant (claim_view claim.now) others.now d.now }
{
    has_class(&d.class, &claim.whom)
        && !is_among(&d.class, others)
        && grants(d.direction, claim.access)
}

// The first that is meant.
fn first(differences: Vec<Difference>, claim: &Claim, others: &[Whom]) -> Option<Difference>
    ensures { result ≡ find (is_meant (claim_view claim.now) others.now) differences.items }
{
    differences.into_iter().find(|d| is_meant(claim, others, d))
}

// Whether one of a direction is meant.
fn has_meant(granted: &[Difference], claim: &Claim, others: &[Whom], direction: Direction) -> bool
    ensures { result
        ≡ list_any (is_meant_in (claim_view claim.now) others.now direction) granted.now }
{
    granted.iter().any(|d| is_meant(claim, others, d) && same_direction(d.direction, direction))
}

// Whether a direction is meant, and nothing of it is.
fn misses(granted: &[Difference], claim: &Claim, others: &[Whom], direction: Direction) -> bool
    ensures { result ≡ (grants direction (access_view claim.now.access)
        && not (list_any (is_meant_in (claim_view claim.now) others.now direction) granted.now)) }
{
    grants(direction, claim.access) && !has_meant(granted, claim, others, direction)
}

// Of what is listed, none is to be meant.
fn none_of<'p>(listed: Vec<Difference>, claim: &Claim, others: &[Whom]) -> Judgement<'p>
    ensures { (rules : Rules) (allows : Bool) (rows : List Row)
        → AreOthers rows (claim_view claim.now) others.now
        → IsListing rules allows rows claim.now.filter listed.items
        → IsNone rules allows rows (claim_view claim.now) result }
{
    match first(listed, claim, others) {
        Some(d) => Judgement::Fails(d),
        None => Judgement::Holds,
    }
}

// Of what is allowed, one is to be meant in each direction.
fn at_least_one<'p>(granted: &[Difference], claim: &Claim, others: &[Whom]) -> Judgement<'p>
    ensures { (rules : Rules) (rows : List Row)
        → AreOthers rows (claim_view claim.now) others.now
        → IsListing rules true rows claim.now.filter granted.now
        → IsOne rules rows (claim_view claim.now) result }
{
    if misses(granted, claim, others, Direction::Reading) {
        return Judgement::NoneMay(Direction::Reading);
    }
    if misses(granted, claim, others, Direction::Writing) {
        return Judgement::NoneMay(Direction::Writing);
    }
    Judgement::Holds
}

// What is said in place of an answer, if the list doesn't name a user, or the broker refuses what is
// claimed.
fn unanswered<'p>(
    rules: Rules,
    rows: &[Row],
    claim: &Claim<'p>,
    others: &[Whom<'p>],
) -> Option<Judgement<'p>>
    ensures known { IfNone result (excepted (claim_view claim.now).except ≡ map whom_view others.now
        → AreOthers rows.now (claim_view claim.now) others.now) }
    ensures taken { IfNone result (TakesAll rules (claim_view claim.now)) }
    ensures some { excepted (claim_view claim.now).except ≡ map whom_view others.now
        → IfSome result (IsJudgement rules rows.now (claim_view claim.now)) }
{
    if let Some(name) = unnamed(rows, claim.whom) {
        return Some(Judgement::Unnamed(name));
    }
    if let Some(name) = first_unnamed(rows, others) {
        return Some(Judgement::Unnamed(name));
    }
    let direction = refused_direction(rules, claim)?;
    Some(Judgement::Refused(direction))
}

// What is said by what the list allows of the filter, or by what it doesn't.
fn answer<'p>(
    alloc: Global,
    rules: Rules,
    rows: &[Row],
    claim: &Claim<'p>,
    others: &[Whom<'p>],
    steps: u64,
) -> Result<Judgement<'p>, WhoFault>
    requires short { has_short_levels claim.now.filter ≡ true }
    requires others { AreOthers rows.now (claim_view claim.now) others.now }
    requires taken { TakesAll rules (claim_view claim.now) }
    ensures judgement { IfOk result (IsJudgement rules rows.now (claim_view claim.now)) }
    ensures fault { IfErr result (IsWhoFault rules rows.now claim.now.filter steps) }
{
    let wanted = &claim.filter;
    match claim.holds {
        Holds::Every => {
            let refused = listed(alloc, rules, false, rows, wanted, steps)?;
            Ok(none_of(refused, claim, others))
        }
        Holds::Never => {
            let granted = listed(alloc, rules, true, rows, wanted, steps)?;
            Ok(none_of(granted, claim, others))
        }
        Holds::AtLeastOne => {
            let granted = listed(alloc, rules, true, rows, wanted, steps)?;
            Ok(at_least_one(&granted, claim, others))
        }
    }
}

/// Whether by these rules the list keeps to the claim. By mosquitto's rules what is to be allowed isn't asked about
/// some clients whose id or user name holds `+` or `#`, and a filter with `%c` or `%u` is asked about none of them
/// (`who_may`). Of a claim that each client may write topics that begin with `$SYS`, or any that begin with `$share`,
/// it is said that the broker refuses them.
///
/// So many steps are given to a comparison of the list with one that is made of the filter. Where they don't
/// suffice the question is given up.
pub fn judge_claim<'p>(
    alloc: Global,
    rules: Rules,
    rows: &[Row],
    claim: &Claim<'p>,
    steps: u64,
) -> Result<Judgement<'p>, WhoFault>
    ensures judgement { IfOk result (IsJudgement rules rows.now (claim_view claim.now)) }
    ensures fault { IfErr result (IsWhoFault rules rows.now claim.now.filter steps) }
{
    let others = claim.excepted(alloc)?;
    if let Some(judgement) = unanswered(rules, rows, claim, &others) {
        return Ok(judgement);
    }
    if !has_short_levels(claim.filter.text()) {
        return Err(WhoFault::Filter);
    }
    answer(alloc, rules, rows, claim, &others, steps)
}
