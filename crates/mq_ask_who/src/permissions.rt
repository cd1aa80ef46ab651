//! Who may read or write the topics that a filter matches, in words and as JSON.
ghost use Rattle.std.specs.Prelude.{◌≡◌, ◌++◌, ◌∷◌, [], List, IfOk, None, OnOk, if◌then◌else◌};
ghost use Rattle.std.specs.Prelude.{map, string_bytes, true};
ghost use Rattle.mq_acl.specs.declared.access.Direction.TheVariants.{Reading, Writing};
ghost use Rattle.mq_ask.specs.Objects.{refused_texts};
ghost use Rattle.mq_ask_who.specs.Refusals.{AreKept};
ghost use Rattle.mq_ask_who.specs.WhoShown.{by_direction, is_every, is_refused_in};
ghost use Rattle.mq_ask_who.specs.WhoShown.{permission_text, permission_texts, permissions_text};
ghost use Rattle.mq_ask_who.specs.WhoShown.{permission_members, refusal_data};
ghost use Rattle.mq_differences.specs.Differences.{same_direction};
ghost use Rattle.mq_differences.specs.declared.difference.Difference.{Difference};
ghost use Rattle.mq_print.specs.Lists.{lines_view, list_view};
ghost use Rattle.mq_print.specs.Objects.{exception_data, with_data};
ghost use Rattle.serde_json.specs.Data.{no_members};

use crate::permission_rows::{AskedOf, PermissionRow, PermissionRows};
use crate::refusals::Refusals;
use mq_acl::{Direction, Row, Rules};
use mq_ask::{access_word, add_refused, add_refused_json};
use mq_ask_cases::{
    ScriptTraffic, Side, add_counts, add_pattern, add_who, has_wildcard, marks_of, publishes_text,
};
use mq_differences::{Difference, same_direction};
use mq_print::{
    Datum, Escape, Exception, Lines, ListText, add_cell, add_object, lines_of, shown_lines, widened,
};
use mq_topic::LevelText;
use mq_traffic::{Publishes, TopicPattern};
use std::alloc::{AllocError, Global};

/// The publishes of a script, and the rows of a list.
#[derive(Clone, Copy, Drop)]
pub struct ListTraffic<'a> {
    /// The publishes.
    pub script: ScriptTraffic<'a>,
    /// By whose rules the list is asked.
    pub rules: Rules,
    /// The rows.
    pub rows: &'a [Row],
}

impl<'a> ListTraffic<'a> {
    // The publishes that the permission is about at most: those to topics that the filter that is
    // asked about matches, and that of the line.
    fn publishes(
        self,
        alloc: Global,
        filter: &'a str,
        granted: &Difference,
    ) -> Result<Publishes, AllocError> {
        let asked = TopicPattern {
            filter,
            marks: marks_of(self.rules),
        };
        let mut patterns = vec![in alloc; asked]?;
        add_pattern(&mut patterns, self.rules, self.rows, granted.old_reason)?;
        Ok(self.script.traffic.matched(&patterns))
    }
}

/// What is asked of a list.
#[derive(Clone, Copy, Drop)]
pub struct Asked<'a, 's> {
    /// The topic filter.
    pub filter: &'a str,
    /// Whether it is of reading or of writing alone.
    pub access: Option<Direction>,
    /// Whether some users are left out.
    pub of_others: bool,
    /// The directions in which the broker refuses by itself topics that the filter names.
    pub refused: &'s [Direction],
    /// What the publishes of a script are counted by, if they are.
    pub traffic: Option<ListTraffic<'s>>,
}

impl Asked<'_, '_> {
    // Whether the broker refuses by itself topics that the filter names.
    fn refuses(self, direction: Direction) -> bool
        ensures { result ≡ is_refused_in self.entry.refused.now direction }
    {
        self.refused
            .iter()
            .any(|one| same_direction(direction, *one))
    }
}

#[derive(Clone, Copy, Drop)]
struct Widths {
    access: usize,
    topic: usize,
    place: usize,
}

fn exception<'a>(list: Lines<'a, 'a, 'a>, other: &'a Difference) -> Exception<'a>
    ensures { exception_data result ≡ refusal_data (lines_view list.entry) other.entry.now }
{
    Exception {
        client: other.client.as_str(),
        line: list.line_if(other.old_reason.line()),
        topic: other.topic.text(),
        user: other.class.user(),
    }
}

fn exceptions<'a>(
    alloc: Global,
    list: Lines<'a, 'a, 'a>,
    refused: &'a [Difference],
) -> Result<Vec<Exception<'a>>, AllocError>
    ensures { IfOk result (λ all. map exception_data all.items
        ≡ map (refusal_data (lines_view list.entry)) refused.entry.now) }
{
    let mut all = Vec::new(alloc);
    for other in refused {
        all.push(exception(list, other))?;
    }
    Ok(all)
}

// Whether nothing else of what is asked about isn't allowed.
fn is_every(asked: Asked<'_, '_>, granted: &Difference, refused: &[Difference]) -> bool
    ensures { result ≡ is_every asked.entry.refused.now refused.now granted.now }
{
    refused.is_empty() && !asked.refuses(granted.direction)
}

fn permission_data<'d>(
    alloc: Global,
    list: Lines<'d, 'd, 'd>,
    granted: &'d Difference,
    every: bool,
    exceptions: &'d [Exception<'d>],
) -> Result<Vec<(&'static str, Datum<'d>)>, AllocError>
    ensures { IfOk result (λ fields. with_data no_members fields.items
        ≡ permission_members (lines_view list.entry) every (map exception_data exceptions.entry.now)
        granted.entry.now) }
{
    let line = list.line_if(granted.old_reason.line());
    Ok(vec![in alloc;
        ("access", Datum::Text(access_word(granted.direction))),
        ("client", Datum::Text(granted.client.as_str())),
        ("every", Datum::Flag(every)),
        ("line", Datum::LineIf(line)),
        ("not", Datum::Exceptions(exceptions)),
        ("placeholders", Datum::Texts(&granted.placeholders)),
        ("topic", Datum::Text(granted.topic.text())),
        ("user", Datum::TextIf(granted.class.user())),
    ]?)
}

fn add_json<'a>(
    alloc: Global,
    text: &mut String,
    asked: Asked<'a, 'a>,
    list: Lines<'a, 'a, 'a>,
    granted: &'a Difference,
    refused: &'a [Difference],
) -> Result<(), AllocError>
    ensures { OnOk result (asked.entry.traffic ≡ None → string_bytes text.new
        ≡ string_bytes text.old ++ permission_text (lines_view list.entry) asked.entry.refused.now
        refused.entry.now granted.entry.now) }
{
    let exceptions = exceptions(alloc, list, refused)?;
    let every = is_every(asked, granted, refused);
    let mut data = permission_data(alloc, list, granted, every, &exceptions)?;
    let Some(traffic) = asked.traffic else {
        return add_object(alloc, text, &data);
    };
    add_counts(&mut data, traffic.publishes(alloc, asked.filter, granted)?)?;
    add_object(alloc, text, &data)
}

fn json_lines<'a>(
    alloc: Global,
    asked: Asked<'a, 'a>,
    list: Lines<'a, 'a, 'a>,
    granted: &'a [Difference],
    refusals: &'a Refusals,
) -> Result<String, AllocError>
    ensures { (refused : List Difference) → AreKept refused refusals.entry.now
        → IfOk result (λ text. asked.entry.traffic ≡ None → string_bytes text
        ≡ permission_texts (lines_view list.entry) asked.entry.refused.now refused granted.entry.now
        ++ refused_texts asked.entry.refused.now) }
{
    let mut text = String::new(alloc);
    for one in granted {
        let refused = refusals.beside(alloc, one)?;
        add_json(alloc, &mut text, asked, list, one, refused)?;
    }
    add_refused_json(alloc, &mut text, asked.refused)?;
    Ok(text)
}

fn rows_of<'a>(
    alloc: Global,
    list: Lines<'a, 'a, 'a>,
    asked: Asked<'a, 'a>,
    granted: &'a [Difference],
    refusals: &'a Refusals,
) -> Result<PermissionRows<'a>, AllocError> {
    let several = has_wildcard(asked.filter);
    let mut rows = PermissionRows::new(alloc);
    for one in granted {
        let refused = refusals.beside(alloc, one)?;
        let of = AskedOf {
            several,
            refused: asked.refuses(one.direction),
        };
        rows.add(alloc, list, of, one, refused)?;
    }
    Ok(rows)
}

fn widths_of(asked: Asked<'_, '_>, rows: &[PermissionRow<'_>]) -> Widths {
    let mut widths = Widths {
        access: 0,
        topic: 0,
        place: 0,
    };
    if let Some(traffic) = asked.traffic {
        widths.place = widened(0, traffic.script.file);
    }
    for row in rows {
        widths.access = widened(widths.access, row.access);
        widths.topic = widened(widths.topic, row.topic.as_str());
        widths.place = widened(widths.place, row.side.place.as_str());
        for denial in &row.denials {
            widths.topic = widened(widths.topic, denial.topic.as_str());
            widths.place = widened(widths.place, denial.side.place.as_str());
        }
    }
    widths
}

fn add_line(
    text: &mut String,
    widths: Widths,
    access: &str,
    topic: &str,
    side: &Side<'_>,
) -> Result<(), AllocError> {
    text.push_str("  ")?;
    add_cell(text, access, widths.access)?;
    add_cell(text, topic, widths.topic)?;
    add_cell(text, side.place.as_str(), widths.place)?;
    text.push_str(side.words)?;
    text.push('\n')
}

fn add_row(text: &mut String, row: &PermissionRow<'_>, widths: Widths) -> Result<(), AllocError> {
    add_line(text, widths, row.access, row.topic.as_str(), &row.side)?;
    for denial in &row.denials {
        add_line(text, widths, "", denial.topic.as_str(), &denial.side)?;
    }
    Ok(())
}

// Adds how many publishes it is about at most, if they are counted.
fn add_publishes(
    alloc: Global,
    text: &mut String,
    asked: Asked<'_, '_>,
    row: &PermissionRow<'_>,
    widths: Widths,
) -> Result<(), AllocError> {
    let (Some(traffic), Some(granted)) = (asked.traffic, row.all.get(0)) else {
        return Ok(());
    };
    let publishes = traffic.publishes(alloc, asked.filter, granted)?;
    let words = publishes_text(alloc, publishes)?;
    let side = Side {
        place: String::from_str(alloc, traffic.script.file)?,
        words: words.as_str(),
        is_line: false,
    };
    add_line(text, widths, "", "", &side)
}

fn table(
    alloc: Global,
    asked: Asked<'_, '_>,
    rows: &[PermissionRow<'_>],
) -> Result<String, AllocError> {
    let widths = widths_of(asked, rows);
    let mut text = String::new(alloc);
    let mut who = "";
    for row in rows {
        who = add_who(&mut text, who, row.who.as_str())?;
        add_row(&mut text, row, widths)?;
        add_publishes(alloc, &mut text, asked, row, widths)?;
    }
    Ok(text)
}

// That none may, or none but those that are left out.
fn nobody(alloc: Global, asked: Asked<'_, '_>) -> Result<String, AllocError> {
    let filter = asked.filter;
    let other = if asked.of_others { "else " } else { "" };
    let access = match asked.access {
        Some(direction) => access_word(direction),
        None => "read or write",
    };
    format!(in alloc; "nobody {other}may {access} a topic of {filter}\n")
}

// Adds it to those of its direction.
fn add_one(
    reading: &mut Vec<Difference>,
    writing: &mut Vec<Difference>,
    one: Difference,
) -> Result<(), AllocError>
    ensures reading { OnOk result (reading.new.items ≡ reading.old.items
        ++ (if same_direction Reading one.direction then one ∷ [] else [])) }
    ensures writing { OnOk result (writing.new.items ≡ writing.old.items
        ++ (if same_direction Writing one.direction then one ∷ [] else [])) }
{
    match one.direction {
        Direction::Reading => reading.push(one)?,
        Direction::Writing => writing.push(one)?,
    }
    Ok(())
}

// What may be read, then what may be written.
fn by_direction(alloc: Global, granted: Vec<Difference>) -> Result<Vec<Difference>, AllocError>
    ensures { IfOk result (λ all. all.items ≡ by_direction granted.items) }
{
    let mut reading = Vec::new(alloc);
    let mut writing = Vec::new(alloc);
    for one in granted {
        add_one(&mut reading, &mut writing, one)?;
    }
    reading.append(&mut writing)?;
    Ok(reading)
}

fn words<'a>(
    alloc: Global,
    list: Lines<'a, 'a, 'a>,
    asked: Asked<'a, 'a>,
    granted: &'a [Difference],
    refusals: &'a Refusals,
) -> Result<String, AllocError> {
    let mut text = if granted.is_empty() {
        nobody(alloc, asked)?
    } else {
        let mut rows = rows_of(alloc, list, asked, granted, refusals)?;
        rows.name_all(alloc)?;
        table(alloc, asked, rows.as_slice())?
    };
    add_refused(&mut text, asked.refused)?;
    shown_lines(alloc, text.as_str(), Escape::Words)
}

/// Who may by the list, as it was asked: as a table of what is shown alike, or as JSON, one object
/// a line. `granted` is what it allows, and `refused` what it doesn't allow the same clients.
pub fn permissions_text(
    alloc: Global,
    list: ListText<'_, '_>,
    asked: Asked<'_, '_>,
    granted: Vec<Difference>,
    refused: Vec<Difference>,
    json: bool,
) -> Result<String, AllocError>
    ensures { IfOk result (λ text. json ≡ true → asked.entry.traffic ≡ None → string_bytes text
        ≡ permissions_text (list_view list.entry) asked.entry.refused.now granted.items
        refused.items) }
{
    let granted = by_direction(alloc, granted)?;
    let refusals = Refusals::new(alloc, refused)?;
    let lines = lines_of(alloc, list.text)?;
    let list = Lines {
        file: list.file,
        lines: &lines,
    };
    if json {
        return json_lines(alloc, asked, list, &granted, &refusals);
    }
    words(alloc, list, asked, &granted, &refusals)
}
