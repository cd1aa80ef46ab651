//! How many publishes of a script that is about which is shown.
use mq_acl::{Owner, Row, Rules};
use mq_differences::Reason;
use mq_print::Datum;
use mq_topic::LevelText;
use mq_traffic::{Marks, Publishes, TopicPattern, Traffic};
use std::alloc::{AllocError, Global};

/// The publishes of a script.
#[derive(Clone, Copy, Drop)]
pub struct ScriptTraffic<'a> {
    /// The file of the script, as it is shown.
    pub file: &'a str,
    /// Its publishes.
    pub traffic: &'a Traffic,
}

/// What the marks of a `pattern` line stand for by these rules.
pub fn marks_of(rules: Rules) -> Marks {
    match rules {
        Rules::Own => Marks::Level,
        Rules::Mosquitto => Marks::Levels,
    }
}

/// Adds the filter of the line that decides by these rules, if one does.
pub fn add_pattern<'a>(
    patterns: &mut Vec<TopicPattern<'a>>,
    rules: Rules,
    rows: &'a [Row],
    reason: Reason,
) -> Result<(), AllocError> {
    let Some(line) = reason.line() else {
        return Ok(());
    };
    // the rows stand in the order of their lines
    let place = rows.partition_point(|row| row.line < line);
    if let Some(row) = rows.get(place) {
        patterns.push(TopicPattern {
            filter: row.filter.text(),
            marks: match row.owner {
                Owner::Everyone => marks_of(rules),
                _ => Marks::Plain,
            },
        })?;
    }
    Ok(())
}

fn plural(count: u64, ending: &'static str) -> &'static str {
    if count == 1 { "" } else { ending }
}

/// How many they are, in words.
pub fn publishes_text(alloc: Global, publishes: Publishes) -> Result<String, AllocError> {
    let Publishes { count, topics } = publishes;
    if count == 0 {
        return String::from_str(alloc, "no publish");
    }
    let (of_count, of_topics) = (plural(count, "es"), plural(topics, "s"));
    format!(in alloc; "at most {count} publish{of_count} to {topics} topic{of_topics}")
}

/// Adds how many they are to the data of a JSON object.
pub fn add_counts(
    data: &mut Vec<(&'static str, Datum<'_>)>,
    publishes: Publishes,
) -> Result<(), AllocError> {
    data.push(("publishes", Datum::Number(publishes.count)))?;
    data.push(("topics", Datum::Number(publishes.topics)))?;
    Ok(())
}
