//! The answer, in words or as JSON.
ghost use Rattle.std.specs.Prelude.{◌≡◌, IfOk, string_bytes, true};
ghost use Rattle.mq_ask_plan.specs.Objects.{renamed_texts};
ghost use Rattle.mq_print.specs.Lists.{lines_view, list_view};

use crate::compared::Compared;
use crate::objects::json_lines;
use crate::scope::PlanScope;
use crate::table::changes_table;
use mq_differences::Way;
use mq_print::{Escape, Lines, ListText, lines_of, shown_lines};
use mq_through::Renamed;
use std::alloc::{AllocError, Global};

// That nothing changes, or nothing in the way that is asked about.
fn none_text(
    alloc: Global,
    only: Option<Way>,
    compared: Compared<'_>,
) -> Result<String, AllocError> {
    let (old, new, plan) = (compared.old.file, compared.new.file, compared.plan.file);
    let mut text = String::from_str(alloc, "by mqroute's own rules ")?;
    match only {
        None => write!(
            text,
            "{new} allows each new name exactly where {old} allows the old one"
        )?,
        Some(Way::Gained) => write!(
            text,
            "{new} allows no new name where {old} doesn't allow the old one"
        )?,
        Some(Way::Lost) => write!(
            text,
            "{old} allows no old name where {new} doesn't allow the new one"
        )?,
    }
    writeln!(
        text,
        ": of every topic that has a new name by {plan}, and every client id and user name a broker can have"
    )?;
    shown_lines(alloc, text.as_str(), Escape::Words)
}

fn answer(
    alloc: Global,
    scope: PlanScope,
    compared: Compared<'_>,
    renamed: Vec<Renamed>,
) -> Result<String, AllocError>
    ensures { IfOk result (λ text. scope.json ≡ true → string_bytes text ≡ renamed_texts
        (lines_view compared.entry.old) (lines_view compared.entry.new)
        (lines_view compared.entry.plan) renamed.items) }
{
    if scope.json {
        return json_lines(alloc, compared, &renamed);
    }
    if renamed.is_empty() {
        return none_text(alloc, scope.only, compared);
    }
    changes_table(alloc, scope, compared, renamed)
}

/// What changes between two lists through a plan: as a table of what is alike, or as JSON.
pub fn renamed_text(
    alloc: Global,
    scope: PlanScope,
    lists: (ListText<'_, '_>, ListText<'_, '_>),
    plan: ListText<'_, '_>,
    renamed: Vec<Renamed>,
) -> Result<String, AllocError>
    ensures { IfOk result (λ text. scope.json ≡ true → string_bytes text ≡ renamed_texts
        (list_view lists.entry.0) (list_view lists.entry.1) (list_view plan.entry)
        renamed.items) }
{
    let (old, new) = lists;
    let old_lines = lines_of(alloc, old.text)?;
    let new_lines = lines_of(alloc, new.text)?;
    let plan_lines = lines_of(alloc, plan.text)?;
    let compared = Compared {
        old: Lines {
            file: old.file,
            lines: &old_lines,
        },
        new: Lines {
            file: new.file,
            lines: &new_lines,
        },
        plan: Lines {
            file: plan.file,
            lines: &plan_lines,
        },
    };
    answer(alloc, scope, compared, renamed)
}
