//! The answer to `reach --any`.
ghost use Rattle.std.specs.Option.{option_copied};
ghost use Rattle.std.specs.Prelude.{◌≡◌, ℕ, List, Option, IfOk, IfErr, OnOk, false, true};
ghost use Rattle.mq_acl.specs.Views.{row_views};
ghost use Rattle.mq_acl.specs.declared.row.Row.{Row};
ghost use Rattle.mq_acl.specs.declared.rules.Rules.{Rules};
ghost use Rattle.mq_ask.specs.Lists.{AreRows};
ghost use Rattle.mq_ask.specs.Statuses.{failure_status};
ghost use Rattle.mq_ask_who.specs.AnyShown.{IsAnyShown};
ghost use Rattle.mq_ask_who.specs.ReachAny.{IsAnyFailure, IsFound, IsFoundIn, IsReachedByAny};
ghost use Rattle.mq_ask_who.specs.ReachAny.{SaysWhetherAny, claim_about, whom_for};
ghost use Rattle.mq_expect.specs.Views.{claim_view, whom_view};

use crate::any_client::any_text;
use crate::who::{filter_of, who_failure};
use mq_acl::{Access, Row, Rules};
use mq_ask::{Failure, Options, Outcome, print_outcome, rows_in};
use mq_differences::Difference;
use mq_expect::{Claim, Holds, Whom};
use mq_print::ListText;
use mq_topic::TopicFilter;
use mq_who::{Judgement, judge_claim};
use std::alloc::Global;
use std::io::Write;

fn whom_for(user: Option<&str>) -> Whom<'_>
    ensures { whom_view result ≡ whom_for (option_copied user.entry) }
{
    match user {
        None => Whom::Anonymous,
        Some(name) => Whom::User(name),
    }
}

// That none of the clients with this user name, or without one, may read what the filter matches.
fn claim_about(user: Option<&str>, filter: TopicFilter) -> Claim<'_>
    ensures { claim_view result ≡ claim_about (option_copied user.entry) filter }
{
    Claim {
        whom: whom_for(user),
        holds: Holds::Never,
        access: Access::Read,
        filter,
        except: None,
    }
}

// What is found in these rows, which are the list's.
fn found_in<'a>(
    alloc: Global,
    rules: Rules,
    list: ListText<'a, '_>,
    rows: &[Row],
    about: (Option<&'a str>, &'a str),
    steps: u64,
) -> Result<Option<Difference>, Failure<'a>>
    requires { AreRows rules list.text.now rows.now }
    ensures ok { IfOk result (IsFound rules rows.now (option_copied about.entry.0)
        about.entry.1.now) }
    ensures err { IfErr result (IsAnyFailure rules list.entry (option_copied about.entry.0)
        about.entry.1.now steps) }
{
    let filter = filter_of(alloc, about.1)?;
    let claim = claim_about(about.0, filter);
    let file = list.file;
    match judge_claim(alloc, rules, rows, &claim, steps) {
        Ok(Judgement::Fails(found)) => Ok(Some(found)),
        Ok(Judgement::Unnamed(user)) => Err(Failure::NoUser { file, user }),
        // That none may is only said of a line with `may some`, and that the broker refuses it of one
        // with `may`.
        Ok(Judgement::Holds | Judgement::NoneMay(_) | Judgement::Refused(_)) => Ok(None),
        Err(fault) => Err(who_failure(rules, list, rows, about.1, fault)),
    }
}

/// A client with this user name, or without one, and a topic that the filter matches and that the
/// list lets it read; or that there are none, whatever the client id. `%c` and `%u`, as levels of
/// the filter, are the client's own id and user name. Where so many steps don't suffice to know it,
/// it is given up.
pub fn find_any<'a>(
    alloc: Global,
    rules: Rules,
    list: ListText<'a, '_>,
    user: Option<&'a str>,
    wanted: &'a str,
    steps: u64,
) -> Result<Option<Difference>, Failure<'a>>
    ensures ok { IfOk result (IsFoundIn rules list.entry.text.now (option_copied user.entry)
        wanted.entry.now) }
    ensures err { IfErr result (IsAnyFailure rules list.entry (option_copied user.entry)
        wanted.entry.now steps) }
{
    let rows = rows_in(alloc, rules, list)?;
    found_in(alloc, rules, list, &rows, (user, wanted), steps)
}

// Whether one is found.
fn outcome_of(found: &Option<Difference>) -> Outcome
    ensures { (rules : Rules) (rows : List Row) (user : Option (List ℕ)) (wanted : List ℕ)
        → IsFound rules rows user wanted found.now
        → SaysWhetherAny rules (row_views rows) user wanted result }
{
    match found {
        None => Outcome::Clear,
        Some(_) => Outcome::Remark,
    }
}

/// Shows a client with this user name, or without one, and a topic that the filter matches and that
/// it can be sent, or that none of them can be sent anything.
pub fn show_reach_any<'a, W: Write>(
    alloc: Global,
    list: ListText<'a, '_>,
    user: Option<&'a str>,
    wanted: &'a str,
    options: Options,
    out: &mut W,
) -> Result<Outcome, Failure<'a>>
    ensures ok { IfOk result (IsReachedByAny options.rules list.entry.text.now
        (option_copied user.entry) wanted.entry.now) }
    ensures unread { IfErr result (λ failure. failure_status failure ≡ 2 → out.new ≡ out.old) }
    ensures json { OnOk result (options.json ≡ true
        → IsAnyShown options.rules list.entry (option_copied user.entry) wanted.entry.now
        (W.contents out.old) (W.contents out.new)) }
{
    let found = find_any(alloc, options.rules, list, user, wanted, options.steps)?;
    let outcome = outcome_of(&found);
    let text = any_text(alloc, list, (user, wanted), found.as_ref(), options.json)?;
    print_outcome(out, Ok(text), outcome)
}
