//! What changes through a plan, in words.
use crate::compared::Compared;
use crate::names::{NewName, NewNames, parted};
use crate::scope::PlanScope;
use mq_ask_cases::{
    ChangeRow, Side, add_client_id, add_topic, change_table, decision, group_text, rows_word,
};
use mq_differences::{Difference, Group, gather};
use mq_print::Lines;
use mq_through::Renamed;
use mq_topic::LevelText;
use std::alloc::{AllocError, Global};

// Adds the new name, unless the topic keeps its own.
fn add_new_name(
    text: &mut String,
    difference: &Difference,
    name: &NewName,
) -> Result<(), AllocError> {
    if name.topic.text() == difference.topic.text() {
        return Ok(());
    }
    text.push_str(" -> ")?;
    add_topic(text, difference, &name.topic)
}

fn topic_text(
    alloc: Global,
    difference: &Difference,
    name: Option<&NewName>,
) -> Result<String, AllocError> {
    let mut text = String::new(alloc);
    add_topic(&mut text, difference, &difference.topic)?;
    if let Some(name) = name {
        add_new_name(&mut text, difference, name)?;
    }
    add_client_id(&mut text, difference)?;
    Ok(text)
}

// The rule that decides about the topic, as it stands in the plan.
fn rule_side<'a>(
    alloc: Global,
    plan: Lines<'a, 'a, 'a>,
    rule: Option<u64>,
) -> Result<Side<'a>, AllocError> {
    let file = plan.file;
    match rule {
        Some(line) => Ok(Side {
            place: format!(in alloc; "{file}:{line}")?,
            words: plan.line(line),
            is_line: true,
        }),
        None => Ok(Side {
            place: String::from_str(alloc, file)?,
            words: "no line is about it",
            is_line: false,
        }),
    }
}

fn rule_of(name: Option<&NewName>) -> Option<u64> {
    let name = name?;
    name.rule
}

fn row_of<'a>(
    alloc: Global,
    compared: Compared<'a>,
    names: &NewNames,
    group: &Group,
) -> Result<ChangeRow<'a>, AllocError> {
    let difference = &group.first;
    let name = names.of(&difference.topic);
    let old = decision(alloc, compared.old, difference.old_reason)?;
    let new = decision(alloc, compared.new, difference.new_reason)?;
    let rule = rule_side(alloc, compared.plan, rule_of(name))?;
    Ok(ChangeRow {
        who: group_text(alloc, group)?,
        way: difference.way,
        direction: difference.direction,
        topic: topic_text(alloc, difference, name)?,
        sides: vec![in alloc; old, new, rule]?,
        publishes: None,
    })
}

/// A table of what changes, and how many rows it has.
pub(crate) fn changes_table(
    alloc: Global,
    scope: PlanScope,
    compared: Compared<'_>,
    renamed: Vec<Renamed>,
) -> Result<String, AllocError> {
    let (differences, names) = parted(alloc, renamed)?;
    let groups = gather(alloc, differences)?;
    let mut rows = Vec::new(alloc);
    for group in &groups {
        rows.push(row_of(alloc, compared, &names, group)?)?;
    }
    let mut text = change_table(alloc, &rows, scope.coloured)?;
    let count = rows.len();
    let what = rows_word(count, scope.only);
    let plan = compared.plan.file;
    writeln!(text, "{count} {what} through {plan} by mqroute's own rules")?;
    Ok(text)
}
