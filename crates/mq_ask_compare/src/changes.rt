//! Where two lists differ, in words and as JSON.
ghost use Rattle.std.specs.List.{flat_map};
ghost use Rattle.std.specs.Prelude.{◌≡◌, ◌++◌, IfOk, None, OnOk, false, map, string_bytes, true};
ghost use Rattle.std.specs.Option.{option_map};
ghost use Rattle.mq_ask_cases.specs.ChangeRows.{change_view, publishes_view};
ghost use Rattle.mq_ask_compare.specs.Changed.{change_text, changes_text};
ghost use Rattle.mq_ask_compare.specs.Worded.{AreRowsOf, IsRow, IsWorded, SaysSame};
ghost use Rattle.mq_ask_compare.specs.Worded.{ShowsGroups, count_line, every_word, extent_words};
ghost use Rattle.mq_ask_compare.specs.Worded.{nothing_words, rules_words};
ghost use Rattle.mq_ask_compare.specs.Worded.{same_line, same_words};
ghost use Rattle.mq_ask_compare.specs.Worded.{scope_view, script_file};
ghost use Rattle.mq_print.specs.Lists.{lines_view, list_view};

use mq_acl::{Row, Rules};
use mq_ask::{access_word, rules_owner};
use mq_ask_cases::{
    ChangeRow, ScriptTraffic, add_counts, add_pattern, change_table, decision, group_text,
    publishes_text, rows_word, shown_topic, way_word,
};
use mq_differences::{Difference, Group, Way, gather};
use mq_print::{Datum, Escape, Lines, ListText, add_object, lines_of, shown_lines};
use mq_topic::LevelText;
use mq_traffic::Publishes;
use std::alloc::{AllocError, Global};

/// The publishes of a script, and the rows of two lists that are compared.
#[derive(Clone, Copy, Drop)]
pub struct ComparedTraffic<'a> {
    /// The publishes.
    pub script: ScriptTraffic<'a>,
    /// By whose rules the lists are compared.
    pub rules: Rules,
    /// The rows of the old list.
    pub old: &'a [Row],
    /// Those of the new list.
    pub new: &'a [Row],
}

impl ComparedTraffic<'_> {
    // The publishes that the difference is about at most: those to topics that the filters of its lines match.
    fn publishes(self, alloc: Global, difference: &Difference) -> Result<Publishes, AllocError> {
        let mut patterns = Vec::new(alloc);
        add_pattern(&mut patterns, self.rules, self.old, difference.old_reason)?;
        add_pattern(&mut patterns, self.rules, self.new, difference.new_reason)?;
        Ok(self.script.traffic.matched(&patterns))
    }
}

/// By whose rules lists were compared, and for whom.
#[derive(Clone, Copy, Drop)]
pub struct Scope<'a> {
    /// Whose.
    pub rules: Rules,
    /// Which differences alone are shown, if not all.
    pub only: Option<Way>,
    /// What the publishes of a script are counted by, if they are.
    pub traffic: Option<ComparedTraffic<'a>>,
    /// Whether what is gained is green, and what is lost red.
    pub coloured: bool,
}

// The file of the script, and how many of its publishes the difference is about.
fn publishes_of<'a>(
    alloc: Global,
    scope: Scope<'a>,
    difference: &Difference,
) -> Result<Option<(&'a str, String)>, AllocError>
    ensures { IfOk result (λ publishes. option_map (λ of. of.0) (publishes_view publishes)
        ≡ script_file scope.entry.traffic) }
{
    let Some(traffic) = scope.traffic else {
        return Ok(None);
    };
    let publishes = traffic.publishes(alloc, difference)?;
    let words = publishes_text(alloc, publishes)?;
    Ok(Some((traffic.script.file, words)))
}

fn change_row<'a>(
    alloc: Global,
    scope: Scope<'a>,
    old: Lines<'a, 'a, 'a>,
    new: Lines<'a, 'a, 'a>,
    group: &'a Group,
) -> Result<ChangeRow<'a>, AllocError>
    ensures { IfOk result (λ row. IsRow (script_file scope.entry.traffic) (lines_view old.entry)
        (lines_view new.entry) group.entry.now (change_view row)) }
{
    let difference = &group.first;
    let old = decision(alloc, old, difference.old_reason)?;
    let new = decision(alloc, new, difference.new_reason)?;
    Ok(ChangeRow {
        who: group_text(alloc, group)?,
        way: difference.way,
        direction: difference.direction,
        topic: shown_topic(alloc, difference)?,
        sides: vec![in alloc; old, new]?,
        publishes: publishes_of(alloc, scope, difference)?,
    })
}

fn add_json<'a>(
    alloc: Global,
    text: &mut String,
    scope: Scope<'a>,
    old: Lines<'a, 'a, 'a>,
    new: Lines<'a, 'a, 'a>,
    difference: &'a Difference,
) -> Result<(), AllocError>
    ensures { OnOk result (scope.entry.traffic ≡ None → string_bytes text.new
        ≡ string_bytes text.old ++ change_text (lines_view old.entry) (lines_view new.entry)
        difference.entry.now) }
{
    let old_line = old.line_if(difference.old_reason.line());
    let new_line = new.line_if(difference.new_reason.line());
    let mut data = vec![in alloc;
        ("access", Datum::Text(access_word(difference.direction))),
        ("change", Datum::Text(way_word(difference.way))),
        ("client", Datum::Text(difference.client.as_str())),
        ("new", Datum::LineIf(new_line)),
        ("old", Datum::LineIf(old_line)),
        ("placeholders", Datum::Texts(&difference.placeholders)),
        ("topic", Datum::Text(difference.topic.text())),
        ("user", Datum::TextIf(difference.class.user())),
    ]?;
    if let Some(traffic) = scope.traffic {
        add_counts(&mut data, traffic.publishes(alloc, difference)?)?;
    }
    add_object(alloc, text, &data)
}

fn json_lines(
    alloc: Global,
    scope: Scope<'_>,
    old: Lines<'_, '_, '_>,
    new: Lines<'_, '_, '_>,
    differences: &[Difference],
) -> Result<String, AllocError>
    ensures { IfOk result (λ text. scope.entry.traffic ≡ None → string_bytes text
        ≡ changes_text (lines_view old.entry) (lines_view new.entry) differences.now) }
{
    let mut text = String::new(alloc);
    for difference in differences {
        add_json(alloc, &mut text, scope, old, new, difference)?;
    }
    Ok(text)
}

fn change_rows<'a>(
    alloc: Global,
    scope: Scope<'a>,
    old: Lines<'a, 'a, 'a>,
    new: Lines<'a, 'a, 'a>,
    groups: &'a [Group],
) -> Result<Vec<ChangeRow<'a>>, AllocError>
    ensures { IfOk result (λ rows. AreRowsOf (script_file scope.entry.traffic)
        (lines_view old.entry) (lines_view new.entry) groups.entry.now
        (map change_view rows.items)) }
{
    let mut rows = Vec::new(alloc);
    for group in groups {
        rows.push(change_row(alloc, scope, old, new, group)?)?;
    }
    Ok(rows)
}

// By whose rules, where they aren't mqroute's own.
fn rules_words(rules: Rules) -> &'static str
    ensures { result.now ≡ rules_words rules }
{
    match rules {
        Rules::Own => "",
        Rules::Mosquitto => " by mosquitto's rules",
    }
}

// Adds how many rows there are.
fn add_count(text: &mut String, scope: Scope<'_>, count: usize) -> Result<(), AllocError>
    ensures { OnOk result (string_bytes text.new
        ≡ string_bytes text.old ++ count_line scope.entry.rules scope.entry.only count) }
{
    let what = rows_word(count, scope.only);
    let whose = rules_words(scope.rules);
    writeln!(text, "{count} {what}{whose}")
}

fn words<'a>(
    alloc: Global,
    scope: Scope<'a>,
    old: Lines<'a, 'a, 'a>,
    new: Lines<'a, 'a, 'a>,
    groups: &'a [Group],
) -> Result<String, AllocError>
    ensures { IfOk result (λ text. ShowsGroups (scope_view scope.entry) (lines_view old.entry)
        (lines_view new.entry) groups.entry.now (string_bytes text)) }
{
    let rows = change_rows(alloc, scope, old, new, groups)?;
    let mut text = change_table(alloc, &rows, scope.coloured)?;
    add_count(&mut text, scope, rows.len())?;
    Ok(text)
}

// Adds that the one list allows nothing that the other doesn't.
fn add_nothing(text: &mut String, one: &str, other: &str) -> Result<(), AllocError>
    ensures { OnOk result (string_bytes text.new
        ≡ string_bytes text.old ++ nothing_words one.now other.now) }
{
    write!(text, "{one} allows nothing that {other} doesn't")
}

// Adds that the lists allow the same, or that one of them allows nothing that the other doesn't.
fn add_none(text: &mut String, only: Option<Way>, old: &str, new: &str) -> Result<(), AllocError>
    ensures { OnOk result (string_bytes text.new
        ≡ string_bytes text.old ++ same_words only old.now new.now) }
{
    match only {
        None => text.push_str("both lists allow the same"),
        Some(Way::Gained) => add_nothing(text, new, old),
        Some(Way::Lost) => add_nothing(text, old, new),
    }
}

fn every_word(only: Option<Way>) -> &'static str
    ensures { result.now ≡ every_word only }
{
    match only {
        None => "every",
        Some(_) => "any",
    }
}

// Adds for which topics and clients.
fn add_extent(text: &mut String, only: Option<Way>) -> Result<(), AllocError>
    ensures { OnOk result (string_bytes text.new
        ≡ string_bytes text.old ++ extent_words (every_word only)) }
{
    let every = every_word(only);
    write!(
        text,
        ", on {every} topic, to {every} client id and user name a broker can have"
    )
}

// That the lists don't differ, or not in the way that is asked about.
fn none_line(alloc: Global, scope: Scope<'_>, old: &str, new: &str) -> Result<String, AllocError>
    ensures { IfOk result (λ text. string_bytes text
        ≡ same_line (scope_view scope.entry) old.now new.now) }
{
    let whose = rules_owner(scope.rules);
    let mut text = format!(in alloc; "by {whose} rules ")?;
    add_none(&mut text, scope.only, old, new)?;
    add_extent(&mut text, scope.only)?;
    text.push('\n')?;
    Ok(text)
}

fn none_text(alloc: Global, scope: Scope<'_>, old: &str, new: &str) -> Result<String, AllocError>
    ensures { IfOk result (λ text. SaysSame (scope_view scope.entry) old.now new.now
        (string_bytes text)) }
{
    let line = none_line(alloc, scope, old, new)?;
    shown_lines(alloc, line.as_str(), Escape::Words)
}

/// Where the lists differ: as a table of differences that are alike, or as JSON, one difference a line.
pub fn changes_text(
    alloc: Global,
    scope: Scope<'_>,
    old: ListText<'_, '_>,
    new: ListText<'_, '_>,
    differences: Vec<Difference>,
    json: bool,
) -> Result<String, AllocError>
    ensures objects { IfOk result (λ text. json ≡ true → scope.entry.traffic ≡ None
        → string_bytes text ≡ changes_text (list_view old.entry) (list_view new.entry)
        differences.items) }
    ensures words { IfOk result (λ text. json ≡ false → IsWorded (scope_view scope.entry)
        (list_view old.entry) (list_view new.entry) differences.items (string_bytes text)) }
{
    let old_lines = lines_of(alloc, old.text)?;
    let new_lines = lines_of(alloc, new.text)?;
    let old = Lines {
        file: old.file,
        lines: &old_lines,
    };
    let new = Lines {
        file: new.file,
        lines: &new_lines,
    };
    if json {
        return json_lines(alloc, scope, old, new, &differences);
    }
    if differences.is_empty() {
        return none_text(alloc, scope, old.file, new.file);
    }
    let groups = gather(alloc, differences)?;
    words(alloc, scope, old, new, &groups)
}
