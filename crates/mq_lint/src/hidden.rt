//! Characters that a terminal acts on, or that can't be seen.
ghost use Rattle.std.specs.Prelude.{◌≡◌, slice_index};
ghost use Rattle.mq_lint.specs.Hidden.{begins_hidden, has_hidden, is_control, is_hidden_pair};
ghost use Rattle.mq_lint.specs.Hidden.{is_hidden_triple, is_obscure, is_within};

use crate::blanks::without_endings;

fn is_within(low: u8, high: u8, byte: u8) -> bool
    ensures { result ≡ is_within low high byte }
{
    low <= byte && byte <= high
}

// Whether it is a control character of one byte, but for the tab.
fn is_control(byte: u8) -> bool
    ensures { result ≡ is_control byte }
{
    (byte < 32 && byte != b'\t') || byte == 127
}

// U+0080 to U+009F, or U+061C.
fn is_hidden_pair(first: u8, second: u8) -> bool
    ensures { result ≡ is_hidden_pair first second }
{
    (first == 194 && is_within(128, 159, second)) || (first == 216 && second == 156)
}

// U+200B to U+200F, U+2028 to U+202E, U+2060 to U+206F, or U+FEFF.
fn is_hidden_triple(first: u8, second: u8, third: u8) -> bool
    ensures { result ≡ is_hidden_triple first second third }
{
    (first == 226 && second == 128 && (is_within(139, 143, third) || is_within(168, 174, third)))
        || (first == 226 && second == 129 && is_within(160, 175, third))
        || (first == 239 && second == 187 && third == 191)
}

// The byte at this place, or 0 behind the end.
fn byte_at(text: &[u8], place: usize) -> u8
    ensures { result ≡ slice_index text.now place }
{
    match text.get(place) {
        Some(byte) => *byte,
        None => 0,
    }
}

// Whether such a character begins with this byte, before these.
fn begins_hidden(first: u8, rest: &[u8]) -> bool
    ensures { result ≡ begins_hidden first rest.now }
{
    let second = byte_at(rest, 0);
    is_control(first)
        || is_hidden_pair(first, second)
        || is_hidden_triple(first, second, byte_at(rest, 1))
}

fn has_hidden(text: &[u8]) -> bool
    ensures { result ≡ has_hidden text.now }
{
    let mut left = text;
    while let Some((first, rest)) = left.split_first() {
        if begins_hidden(*first, rest) {
            return true;
        }
        left = rest;
    }
    false
}

/// Whether one is in the line, but for blanks and CRs behind it.
pub(crate) fn is_obscure(line: &[u8]) -> bool
    ensures { result ≡ is_obscure line.now }
{
    has_hidden(without_endings(line))
}
