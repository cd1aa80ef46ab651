//! What a question takes, in steps. One is about the time that a look at a row takes.
use mq_acl::Row;
use mq_topic::LevelText;
use mq_witness::{Clients, is_pattern};

// What each question takes, besides what its rows do.
const QUESTION: u64 = 8;

// So many levels are gone through in the time of one look at a row.
const LEVELS: u64 = 2;

// So many user names are compared in that time.
const NAMES: u64 = 16;

/// How far two filters are gone through together.
#[derive(Clone, Copy, Drop)]
struct Meeting {
    levels: u64,
    /// Whether they were seen to be apart there.
    apart: bool,
}

/// What is gone through of the rows that are not to concern a topic.
#[derive(Clone, Copy, Drop)]
struct Looks {
    /// Levels, until the rows are seen to be apart from those that are to concern it.
    levels: u64,
    /// The rows that aren't.
    near: u64,
    /// The levels of the longest of them.
    longest: u64,
}

fn is_loose(level: &str) -> bool {
    level == "+" || level == "%c" || level == "%u"
}

fn meet(one: &Row, other: &Row) -> Meeting {
    let mut others = other.filter.text().split('/');
    let mut levels = 0u64;
    for wanted in one.filter.text().split('/') {
        levels = levels.saturating_add(1);
        let Some(level) = others.next() else {
            return Meeting {
                levels,
                apart: wanted != "#",
            };
        };
        if wanted == "#" || level == "#" {
            return Meeting {
                levels,
                apart: false,
            };
        }
        if wanted != level && !is_loose(wanted) && !is_loose(level) {
            return Meeting {
                levels,
                apart: true,
            };
        }
    }
    let apart = others.next().is_some_and(|level| level != "#");
    Meeting { levels, apart }
}

fn levels_of(row: &Row) -> u64 {
    row.filter.text().split('/').count() as u64
}

fn longest(rows: &[&Row]) -> u64 {
    let mut levels = 0u64;
    for row in rows {
        levels = levels.max(levels_of(row));
    }
    levels
}

impl Looks {
    fn add(&mut self, must: &[&Row], row: &Row) {
        for other in must {
            let met = meet(other, row);
            self.levels = self.levels.saturating_add(met.levels);
            if met.apart {
                return;
            }
        }
        self.near = self.near.saturating_add(1);
        self.longest = self.longest.max(levels_of(row));
    }
}

fn looks_at(must: &[&Row], cover: &[&Row]) -> Looks {
    let mut looks = Looks {
        levels: 0,
        near: 0,
        longest: 0,
    };
    for row in cover {
        looks.add(must, row);
    }
    looks
}

// How many levels are gone down at most: where two of `must` are seen to be apart, no further than that.
fn depth_of(must: &[&Row], looks: &Looks) -> u64 {
    if let [one, other] = must {
        let met = meet(one, other);
        if met.apart {
            return met.levels;
        }
    }
    longest(must).max(looks.longest)
}

fn texts_in(row: &Row) -> u64 {
    let text = row.filter.text();
    text.split('/')
        .filter(|level| *level != "+" && *level != "#")
        .count() as u64
}

fn has_mark(row: &Row, mark: &str) -> bool {
    is_pattern(&row.owner) && row.filter.text().split('/').any(|level| level == mark)
}

// How many texts are tried at most for a mark: one that stands for all others, and where one of the
// rows has it also those that they name.
fn tried_for(must: &[&Row], mark: &str) -> u64 {
    if !must.iter().any(|row| has_mark(row, mark)) {
        return 1;
    }
    let mut texts = 1u64;
    for row in must {
        texts = texts.saturating_add(texts_in(row));
    }
    texts
}

// What is tried, where a client takes so many steps. A user name that is tried for others is first
// compared with those of the lists.
fn tries(clients: Clients, users: usize, must: &[&Row], each: u64) -> u64 {
    let ids = tried_for(must, "%c").saturating_mul(each);
    match clients {
        Clients::Others => {
            let compared = (users as u64) / NAMES;
            tried_for(must, "%u").saturating_mul(ids.saturating_add(compared))
        }
        _ => ids,
    }
}

/// The steps that it takes to find a client and a topic that each of `must` concerns and none of
/// `cover` does, of lists with so many user names. Each of `cover` is seen against those of `must`;
/// then for each client that is tried the levels of `must` are gone through, and with them those of
/// the rows of `cover` that are near them. Where steps aren't limited, they aren't counted.
pub fn work_of(
    limited: bool,
    clients: Clients,
    users: usize,
    must: &[&Row],
    cover: &[&Row],
) -> u64 {
    if !limited {
        return 0;
    }
    let looks = looks_at(must, cover);
    let depth = depth_of(must, &looks);
    let rows = looks
        .near
        .saturating_add(must.len() as u64)
        .saturating_add(1);
    let each = (depth.saturating_mul(rows) / LEVELS).saturating_add(1);
    let seen = (cover.len() as u64).saturating_add(looks.levels / LEVELS);
    tries(clients, users, must, each)
        .saturating_add(seen)
        .saturating_add(QUESTION)
}
