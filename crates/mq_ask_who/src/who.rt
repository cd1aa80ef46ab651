//! The answer to `who`.
ghost use Rattle.std.specs.List.{filter, list_any};
ghost use Rattle.std.specs.Option.{option_copied};
ghost use Rattle.std.specs.Prelude.{◌≡◌, ◌⊎◌, ◌&&◌, ℕ, List, [], ◌∷◌, IfOk, IfErr, OnOk};
ghost use Rattle.std.specs.Prelude.{false, None, string_bytes, true};
ghost use Rattle.mq_acl.specs.Refused.{refuses};
ghost use Rattle.mq_acl.specs.Views.{row_views};
ghost use Rattle.mq_acl.specs.declared.row.Row.{Row};
ghost use Rattle.mq_acl.specs.declared.rules.Rules.{Rules};
ghost use Rattle.mq_acl.specs.declared.rules.Rules.TheVariants.{Mosquitto};
ghost use Rattle.mq_ask.specs.Failures.{IsListFailure};
ghost use Rattle.mq_ask.specs.Lists.{AreRows};
ghost use Rattle.mq_ask.specs.Notes.{SaysLimit};
ghost use Rattle.mq_ask.specs.Statuses.{failure_status};
ghost use Rattle.mq_ask_who.specs.Who.{IsWhoFailure, ArePermissions, IsWho, SaysWhetherOthers};
ghost use Rattle.mq_ask_who.specs.Who.{has_word, is_kept, is_left_out, is_shown, is_unshared};
ghost use Rattle.mq_ask_who.specs.Who.{is_wanted, names};
ghost use Rattle.mq_ask_who.specs.WhoShown.{IsWhoShown, permissions_text};
ghost use Rattle.mq_print.specs.Lists.{list_view};
ghost use Rattle.mq_topic.specs.Texts.{is_shared};
ghost use Rattle.mq_who.specs.Faults.{IsWhoFault};
ghost use Rattle.mq_who.specs.Who.{IsListing};

use crate::permissions::{Asked, ListTraffic, permissions_text};
use mq_acl::{Direction, Row, Rules, refuses_filter};
use mq_ask::{Failure, Options, Outcome, Selection, add_limit, print_outcome, rows_in};
use mq_ask_cases::ScriptTraffic;
use mq_differences::{Class, Difference};
use mq_print::ListText;
use mq_topic::{TopicFault, TopicFilter};
use mq_who::{Permissions, WhoFault, who_may};
use std::alloc::{AllocError, Global};
use std::io::Write;
use std::mem;

fn is_shared(wanted: &str) -> bool
    ensures { result ≡ is_shared wanted.now }
{
    wanted.starts_with("$share/")
}

// The filter with this text, which is not a shared subscription.
pub(crate) fn filter_of(alloc: Global, wanted: &str) -> Result<TopicFilter, Failure<'_>>
    ensures ok { IfOk result (λ filter. filter ≡ wanted.entry.now) }
    ensures err { IfErr result (λ failure. (failure ≡ Failure.Memory)
        ⊎ ((failure ≡ Failure.Filter wanted.entry) × (is_unshared wanted.entry.now ≡ false))) }
{
    if is_shared(wanted) {
        return Err(Failure::Filter(wanted));
    }
    match TopicFilter::parse(alloc, wanted) {
        Ok(filter) => Ok(filter),
        Err(TopicFault::Memory) => Err(Failure::Memory),
        Err(_) => Err(Failure::Filter(wanted)),
    }
}

pub(crate) fn who_failure<'a>(
    rules: Rules,
    list: ListText<'a, '_>,
    rows: &[Row],
    wanted: &'a str,
    fault: WhoFault,
) -> Failure<'a>
    requires { AreRows rules list.text.now rows.now }
    ensures { (steps : ℕ) → IsWhoFault rules rows.now wanted.entry.now steps fault
        → IsListFailure rules list.entry result
        ⊎ IsWhoFailure rules list.entry wanted.entry.now steps result }
{
    let file = list.file;
    match fault {
        WhoFault::Memory => Failure::Memory,
        WhoFault::Filter => Failure::LongWord,
        WhoFault::FilterMark => Failure::FilterMark(wanted),
        WhoFault::Line(line) => Failure::Long { file, line },
        WhoFault::Mark(line) => Failure::Mark { file, line },
        WhoFault::GaveUp(0, others) => Failure::FilterGaveUp { file, others },
        WhoFault::GaveUp(line, others) => Failure::GaveUp { file, line, others },
    }
}

/// Who may, by these rules and the list, read or write the topics that the filter matches, and who
/// may not. `%c` and `%u`, as levels of the filter, are the client's own id and user name. Where so
/// many steps don't suffice to know it, it is given up: what is answered is always the whole.
pub fn find_permissions<'a>(
    alloc: Global,
    rules: Rules,
    list: ListText<'a, '_>,
    wanted: &'a str,
    steps: u64,
) -> Result<Permissions, Failure<'a>>
    ensures ok { IfOk result (ArePermissions rules list.entry.text.now wanted.entry.now) }
    ensures err { IfErr result (λ failure. IsListFailure rules list.entry failure
        ⊎ IsWhoFailure rules list.entry wanted.entry.now steps failure) }
{
    let filter = filter_of(alloc, wanted)?;
    let rows = rows_in(alloc, rules, list)?;
    match who_may(alloc, rules, &rows, &filter, steps) {
        Ok(permissions) => Ok(permissions),
        Err(fault) => Err(who_failure(rules, list, &rows, wanted, fault)),
    }
}

fn is_wanted(access: Option<Direction>, direction: Direction) -> bool
    ensures { result ≡ is_wanted access direction }
{
    match (access, direction) {
        (None, _) => true,
        (Some(Direction::Reading), Direction::Reading) => true,
        (Some(Direction::Writing), Direction::Writing) => true,
        _ => false,
    }
}

// Whether the word names this user.
fn names(word: &str, user: &str) -> bool
    ensures { result ≡ names word.now user.now }
{
    word != "-" && word != "*" && user == word
}

// Whether the word means the clients of the class.
fn has_word(class: &Class, word: &str) -> bool
    ensures { result ≡ has_word class.now word.now }
{
    match class {
        Class::Anonymous => word == "-",
        Class::User(name) => names(word, name.as_str()),
        Class::Others(_) => word == "*",
    }
}

// Whether one of the words between commas does.
fn is_left_out(only: &str, class: &Class) -> bool
    ensures { result ≡ is_left_out only.now class.now }
{
    only.split(',').any(|word| has_word(class, word))
}

fn is_kept(only: Option<&str>, class: &Class) -> bool
    ensures { result ≡ is_kept (option_copied only.entry) class.now }
{
    match only {
        None => true,
        Some(only) => !is_left_out(only, class),
    }
}

// Whether it is of a direction that is asked of, and of clients that aren't left out.
fn is_shown(selection: &Selection<'_>, d: &Difference) -> bool
    ensures { result ≡ is_shown selection.now.access (option_copied selection.now.only) d.now }
{
    is_wanted(selection.access, d.direction) && is_kept(selection.only, &d.class)
}

fn has_shown(granted: &[Difference], selection: &Selection<'_>) -> bool
    ensures { result
        ≡ list_any (is_shown selection.now.access (option_copied selection.now.only)) granted.now }
{
    granted.iter().any(|d| is_shown(selection, d))
}

// Whether anybody may that isn't left out, where some are.
fn outcome_of(granted: &[Difference], selection: &Selection<'_>) -> Outcome
    ensures { (rules : Rules) (rows : List Row) (wanted : List ℕ)
        → IsListing rules true rows wanted granted.now
        → SaysWhetherOthers rules (row_views rows) wanted selection.now.access
        (option_copied selection.now.only) result }
{
    let Some(_) = selection.only else {
        return Outcome::Clear;
    };
    if has_shown(granted, selection) {
        return Outcome::Remark;
    }
    Outcome::Clear
}

// Whether it is asked of the direction, and in it the broker refuses by itself what the filter names.
fn names_refused(
    rules: Rules,
    wanted: &TopicFilter,
    access: Option<Direction>,
    direction: Direction,
) -> bool
    ensures { result ≡ (is_wanted access direction && refuses rules direction wanted.now) }
{
    is_wanted(access, direction) && refuses_filter(rules, direction, wanted)
}

// The directions of which that is so.
fn refused_directions(
    alloc: Global,
    rules: Rules,
    wanted: &TopicFilter,
    access: Option<Direction>,
) -> Result<Vec<Direction>, AllocError>
    ensures { IfOk result (λ all. all.items
        ≡ filter (λ direction. is_wanted access direction && refuses rules direction wanted.now)
        (Direction.Reading ∷ (Direction.Writing ∷ []))) }
{
    let mut all = Vec::new(alloc);
    if names_refused(rules, wanted, access, Direction::Reading) {
        all.push(Direction::Reading)?;
    }
    if names_refused(rules, wanted, access, Direction::Writing) {
        all.push(Direction::Writing)?;
    }
    Ok(all)
}

// What is said of.
fn shown(
    alloc: Global,
    granted: Vec<Difference>,
    selection: &Selection<'_>,
) -> Result<Vec<Difference>, AllocError>
    ensures { IfOk result (λ all. all.items
        ≡ filter (is_shown selection.now.access (option_copied selection.now.only))
        granted.items) }
{
    granted
        .into_iter()
        .filter(|d| is_shown(selection, d))
        .collect(alloc)
}

fn answer_text(
    alloc: Global,
    list: ListText<'_, '_>,
    asked: Asked<'_, '_>,
    selection: &Selection<'_>,
    permissions: Permissions,
    json: bool,
) -> Result<String, AllocError>
    ensures { IfOk result (λ text. json ≡ true → asked.entry.traffic ≡ None → string_bytes text
        ≡ permissions_text (list_view list.entry) asked.entry.refused.now
        (filter (is_shown selection.now.access (option_copied selection.now.only))
        permissions.granted.items)
        permissions.refused.items) }
{
    let mut permissions = permissions;
    let granted = mem::replace(&mut permissions.granted, Vec::new(alloc));
    let refused = mem::replace(&mut permissions.refused, Vec::new(alloc));
    let granted = shown(alloc, granted, selection)?;
    permissions_text(alloc, list, asked, granted, refused, json)
}

/// Shows who may by the list read or write the topics that the filter matches, if so many steps suffice to know it; and
/// last for which clients that is. Where a script is given, its publishes that each is about at most are counted.
pub fn show_who<'a, W: Write>(
    alloc: Global,
    list: ListText<'a, '_>,
    wanted: &'a str,
    selection: Selection<'a>,
    script: Option<ScriptTraffic<'_>>,
    options: Options,
    out: &mut W,
) -> Result<Outcome, Failure<'a>>
    ensures ok { IfOk result (IsWho options.rules list.entry.text.now wanted.entry.now
        selection.entry.access (option_copied selection.entry.only)) }
    ensures unread { IfErr result (λ failure. failure_status failure ≡ 2 → out.new ≡ out.old) }
    ensures limited { OnOk result (options.rules ≡ Mosquitto → options.json ≡ false
        → SaysLimit (W.contents out.old) (W.contents out.new)) }
    ensures json { OnOk result (options.json ≡ true → script.entry ≡ None
        → IsWhoShown options.rules list.entry wanted.entry.now selection.entry.access
        (option_copied selection.entry.only) (W.contents out.old) (W.contents out.new)) }
{
    let permissions = find_permissions(alloc, options.rules, list, wanted, options.steps)?;
    let rows = rows_in(alloc, options.rules, list)?;
    let outcome = outcome_of(&permissions.granted, &selection);
    let traffic = script.map(|script| ListTraffic {
        script,
        rules: options.rules,
        rows: &rows,
    });
    let filter = filter_of(alloc, wanted)?;
    let refused = refused_directions(alloc, options.rules, &filter, selection.access)?;
    let asked = Asked {
        filter: wanted,
        access: selection.access,
        of_others: selection.only.is_some(),
        refused: &refused,
        traffic,
    };
    let mut text = answer_text(alloc, list, asked, &selection, permissions, options.json)?;
    add_limit(alloc, &mut text, options.rules, options.json)?;
    print_outcome(out, Ok(text), outcome)
}
