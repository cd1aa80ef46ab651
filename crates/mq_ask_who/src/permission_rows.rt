//! What is allowed, in rows of those that are shown alike.
use mq_acl::Direction;
use mq_ask_cases::{Side, decision, shown_topic, who_text};
use mq_differences::{Difference, Reason};
use mq_print::Lines;
use std::alloc::{AllocError, Global};
use std::collections::BTreeMap;

/// What a line denies of what another allows.
pub(crate) struct DenialRow<'a> {
    /// A topic.
    pub(crate) topic: String,
    /// The line.
    pub(crate) side: Side<'a>,
}

// Opaque to callers' proofs: one step, and not one for each field (docs/explanation/gate.md).
impl Drop for DenialRow<'_> {
    fn drop(self) {
        let DenialRow { topic: _, side: _ } = self;
    }
}

/// What a line allows the clients of some classes.
pub(crate) struct PermissionRow<'a> {
    /// Of each class one.
    pub(crate) all: Vec<&'a Difference>,
    /// The clients, in words, once all are known.
    pub(crate) who: String,
    /// Whether they may read or write.
    pub(crate) access: &'static str,
    /// Every topic, or one.
    pub(crate) topic: String,
    /// The line.
    pub(crate) side: Side<'a>,
    /// What lines deny of it.
    pub(crate) denials: Vec<DenialRow<'a>>,
}

// Opaque to callers' proofs: one step, and not one for each field (docs/explanation/gate.md).
impl Drop for PermissionRow<'_> {
    fn drop(self) {
        let PermissionRow {
            all: _,
            who: _,
            access: _,
            topic: _,
            side: _,
            denials: _,
        } = self;
    }
}

/// What is asked about.
#[derive(Clone, Copy, Drop)]
pub(crate) struct AskedOf {
    /// Whether it is several topics.
    pub(crate) several: bool,
    /// Whether the broker refuses some of them by itself.
    pub(crate) refused: bool,
}

// The topic, as an example if the line decides about several that are asked about.
fn topic_words(
    alloc: Global,
    several: bool,
    side: &Side<'_>,
    shown: &Difference,
) -> Result<String, AllocError> {
    let topic = shown_topic(alloc, shown)?;
    if several && side.may_have_several() {
        return format!(in alloc; "for example {topic}");
    }
    Ok(topic)
}

fn denial_row<'a>(
    alloc: Global,
    list: Lines<'a, 'a, 'a>,
    several: bool,
    denied: &'a Difference,
) -> Result<DenialRow<'a>, AllocError> {
    let side = decision(alloc, list, denied.old_reason)?;
    let words = topic_words(alloc, several, &side, denied)?;
    Ok(DenialRow {
        topic: format!(in alloc; "but not {words}")?,
        side,
    })
}

fn denial_rows<'a>(
    alloc: Global,
    list: Lines<'a, 'a, 'a>,
    several: bool,
    refused: &'a [Difference],
) -> Result<Vec<DenialRow<'a>>, AllocError> {
    let mut rows = Vec::new(alloc);
    for other in refused {
        if matches!(other.old_reason, Reason::Deny(_)) {
            rows.push(denial_row(alloc, list, several, other)?)?;
        }
    }
    Ok(rows)
}

fn row_of<'a>(
    alloc: Global,
    list: Lines<'a, 'a, 'a>,
    asked: AskedOf,
    granted: &'a Difference,
    refused: &'a [Difference],
) -> Result<PermissionRow<'a>, AllocError> {
    let side = decision(alloc, list, granted.old_reason)?;
    let topic = if refused.is_empty() && !asked.refused {
        String::from_str(alloc, "every topic")?
    } else {
        topic_words(alloc, asked.several, &side, granted)?
    };
    Ok(PermissionRow {
        all: vec![in alloc; granted]?,
        who: String::new(alloc),
        access: match granted.direction {
            Direction::Reading => "may read",
            Direction::Writing => "may write",
        },
        topic,
        side,
        denials: denial_rows(alloc, list, asked.several, refused)?,
    })
}

// The same for rows that are shown alike: no topic has the byte 0.
fn key_of(alloc: Global, row: &PermissionRow<'_>) -> Result<String, AllocError> {
    let mut key = String::from_str(alloc, row.access)?;
    add_part(&mut key, row.side.place.as_str())?;
    add_part(&mut key, row.topic.as_str())?;
    for denial in &row.denials {
        add_part(&mut key, denial.side.place.as_str())?;
        add_part(&mut key, denial.topic.as_str())?;
    }
    Ok(key)
}

fn add_part(key: &mut String, part: &str) -> Result<(), AllocError> {
    key.push('\0')?;
    key.push_str(part)
}

/// The rows so far.
pub(crate) struct PermissionRows<'a> {
    rows: Vec<PermissionRow<'a>>,
    // The place of each, by what it is looked up by.
    places: BTreeMap<String, usize>,
}

// Opaque to callers' proofs: one step, and not one for each field (docs/explanation/gate.md).
impl Drop for PermissionRows<'_> {
    fn drop(self) {
        let PermissionRows { rows: _, places: _ } = self;
    }
}

impl<'a> PermissionRows<'a> {
    pub(crate) fn new(alloc: Global) -> PermissionRows<'a> {
        PermissionRows {
            rows: Vec::new(alloc),
            places: BTreeMap::new(alloc),
        }
    }

    /// Adds what a line allows, with what isn't allowed of the same class and direction.
    pub(crate) fn add(
        &mut self,
        alloc: Global,
        list: Lines<'a, 'a, 'a>,
        asked: AskedOf,
        granted: &'a Difference,
        refused: &'a [Difference],
    ) -> Result<(), AllocError> {
        let row = row_of(alloc, list, asked, granted, refused)?;
        let key = key_of(alloc, &row)?;
        let place = self.places.get(key.as_str()).copied();
        if let Some(place) = place {
            return self.join(place, granted);
        }
        self.places.insert(key, self.rows.as_slice().len())?;
        self.rows.push(row)?;
        Ok(())
    }

    // Adds it to the row at this place.
    fn join(&mut self, place: usize, granted: &'a Difference) -> Result<(), AllocError> {
        match self.rows.get_mut(place) {
            Some(row) => {
                row.all.push(granted)?;
                Ok(())
            }
            None => Ok(()),
        }
    }

    /// Says of each row which clients it is about.
    pub(crate) fn name_all(&mut self, alloc: Global) -> Result<(), AllocError> {
        for row in &mut self.rows {
            row.who = who_text(alloc, &row.all)?;
        }
        Ok(())
    }

    pub(crate) fn as_slice(&self) -> &[PermissionRow<'a>] {
        self.rows.as_slice()
    }
}
