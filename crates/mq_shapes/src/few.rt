//! How many levels of a client id have to be tried.
ghost use Rattle.std.specs.Prelude.{◌≡◌, ◌≤◌, ◌<◌, ◌+◌, ◌&&◌, IfSome, IsTrue, codes, false, length};
ghost use Rattle.std.specs.Prelude.{not, true};
ghost use Rattle.std.specs.List.{list_any};
ghost use Rattle.std.specs.Str.{bytes_eq};
ghost use Rattle.mq_topic.specs.Levels.{levels, levels_left};
ghost use Rattle.mq_topic.specs.Texts.{contains_byte};
ghost use Rattle.mq_acl.specs.Views.{row_view};
ghost use Rattle.mq_shapes.specs.Every.{has_client_mark};
ghost use Rattle.mq_shapes.specs.Few.{AreFew, ArePlaced, AreWithin, BeginsMarked, IsPassed};
ghost use Rattle.mq_shapes.specs.Few.{IsPlaced, IsWithin, LevelMakes, known_count};
ghost use Rattle.mq_unify.specs.Rows.{lent_rows};

use crate::covered::is_filled;
use crate::filled::{has_level, has_mark, is_pattern};
use mq_acl::Row;
use mq_topic::{LevelText, split_first};
use mq_unify::UserShape;

// Whether the level is this mark, in a `pattern` row or in another.
fn is_mark(pattern: bool, level: &str, mark: &str) -> bool
    ensures { result ≡ (pattern && bytes_eq level.now mark.now) }
{
    pattern && level == mark
}

// How many levels stand in the place of a level that isn't `%c`, for user names of so many. None where a mark is only a
// part of it.
fn level_count(pattern: bool, level: &str, user: u32) -> Option<u32>
    requires { not (contains_byte 47 level.now) ≡ true }
    ensures { IfSome result (λ count. LevelMakes pattern user level.now count) }
{
    if is_mark(pattern, level, "%u") {
        return Some(user);
    }
    if is_filled(pattern, level) {
        return None;
    }
    Some(1)
}

/// The levels of a filter in front of its first `%c`.
#[derive(Clone, Copy, Drop)]
struct Front<'a> {
    /// How many levels stand in their places.
    count: u32,
    /// What begins with `%c`, if there is one.
    rest: Option<&'a str>,
}

// Those of this filter, for user names of so many levels.
fn split_at_mark<'a>(pattern: bool, text: &'a str, user: u32) -> Option<Front<'a>>
    ensures passed { IfSome result (λ front. IsPassed pattern user (levels text.entry.now)
        front.count (levels_left front.rest)) }
    ensures marked { IfSome result (λ front. BeginsMarked pattern (levels_left front.rest)) }
{
    let mut count = 0u32;
    let mut rest = Some(text);
    while let Some(text) = rest {
        let (level, behind) = split_first(text);
        if is_mark(pattern, level, "%c") {
            return Some(Front { count, rest });
        }
        let more = level_count(pattern, level, user)?;
        count = count.checked_add(more)?;
        rest = behind;
    }
    Some(Front { count, rest: None })
}

// Whether `%c` is among these levels.
fn has_more(rest: Option<&str>) -> bool
    ensures { result ≡ list_any (λ l. bytes_eq l (codes "%c")) (levels_left rest.entry) }
{
    match rest {
        Some(text) => has_level(text, "%c"),
        None => false,
    }
}

// How many levels stand before the only `%c` of a `pattern` row.
fn place(row: &Row, user: u32) -> Option<u32>
    ensures { IfSome result (λ place. IsPlaced user (levels (row_view row.now).filter) place) }
{
    let front = split_at_mark(true, row.filter.text(), user)?;
    let (_, behind) = split_first(front.rest?);
    if has_more(behind) {
        return None;
    }
    Some(front.count)
}

// Whether so many do, if the row has it.
fn is_placed(row: &Row, user: u32, wanted: u32) -> bool
    ensures { IsTrue result → has_client_mark (row_view row.now) ≡ true
        → IsPlaced user (levels (row_view row.now).filter) wanted }
{
    if !has_mark(row, "%c") {
        return true;
    }
    match place(row, user) {
        Some(place) => place == wanted,
        None => false,
    }
}

// Whether so many levels stand before the only `%c` of each row that has it.
fn are_placed(rows: &[&Row], user: u32, place: u32) -> bool
    ensures { IsTrue result → ArePlaced user place (lent_rows rows.now) }
{
    for row in rows {
        if !is_placed(*row, user, place) {
            return false;
        }
    }
    true
}

// How many stand before it in the first that has it.
fn first_place(rows: &[&Row], user: u32) -> Option<u32> {
    for row in rows {
        if has_mark(*row, "%c") {
            return place(*row, user);
        }
    }
    None
}

// How many levels a row without `%c` makes.
fn row_count(row: &Row, user: u32) -> Option<u32>
    requires { has_client_mark (row_view row.now) ≡ false }
    ensures { IfSome result (λ count. IsWithin user count (row_view row.now)) }
{
    let front = split_at_mark(is_pattern(&row.owner), row.filter.text(), user)?;
    Some(front.count)
}

// The most of these, and of those that the row makes if it has no `%c`.
fn most_of(most: u32, row: &Row, user: u32) -> Option<u32>
    ensures more { IfSome result (λ next. most ≤ next) }
    ensures within { IfSome result (λ next. has_client_mark (row_view row.now) ≡ false
        → IsWithin user next (row_view row.now)) }
{
    if has_mark(row, "%c") {
        return Some(most);
    }
    let count = row_count(row, user)?;
    if count < most {
        Some(most)
    } else {
        Some(count)
    }
}

// How many levels the rows without `%c` make at most.
fn longest(rows: &[&Row], user: u32) -> Option<u32>
    ensures { IfSome result (λ limit. AreWithin user limit (lent_rows rows.now)) }
{
    let mut most = 0u32;
    for row in rows {
        most = most_of(most, *row, user)?;
    }
    Some(most)
}

// How many levels the name has.
fn name_count(name: &str) -> Option<u32>
    ensures { IfSome result (λ count. count ≡ length (levels name.now)) }
{
    let front = split_at_mark(false, name, 1)?;
    Some(front.count)
}

// How many levels the user name has; one stands for none.
fn known_count(user: UserShape<'_>) -> Option<u32>
    ensures { IfSome result (λ count. count ≡ known_count user.entry) }
{
    match user {
        UserShape::Absent => Some(1),
        UserShape::Known(name) => name_count(name),
        UserShape::Levels(count) => Some(count as u32),
    }
}

// One level more than it takes from this place to reach behind so many of other rows, and two at least.
fn reach(place: u32, must: u32, cover: u32) -> Option<u8>
    ensures some { IfSome result (λ few. 1 < few) }
    ensures few { IfSome result (λ few. few ≤ 200) }
    ensures must { IfSome result (λ few. must < place + few) }
    ensures cover { IfSome result (λ few. cover < place + few) }
{
    let most = if must < cover { cover } else { must };
    if most <= place {
        return Some(2);
    }
    let few = most - place;
    if few < 200 { Some(few as u8 + 1) } else { None }
}

/// So many levels of a client id are enough to try: where no client with so many has a topic, none with more has one.
/// None where `%c` doesn't stand at one place, and once, in the first rows that have it. Of a longer id the levels that
/// lie behind all other rows can be left out, for one that stands nowhere else in the topic.
pub(crate) fn few_levels(must: &[&Row], cover: &[&Row], user: UserShape<'_>) -> Option<u8>
    requires { list_any has_client_mark (lent_rows must.now) ≡ true }
    ensures some { IfSome result (λ few. 0 < few) }
    ensures few { IfSome result (λ few. few ≤ 200) }
    ensures enough { IfSome result (λ few. AreFew user.entry (lent_rows must.now)
        (lent_rows cover.now) few) }
{
    let known = known_count(user)?;
    let place = first_place(must, known)?;
    if !are_placed(must, known, place) {
        return None;
    }
    let most_must = longest(must, known)?;
    let most_cover = longest(cover, known)?;
    reach(place, most_must, most_cover)
}
