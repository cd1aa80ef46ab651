//! The bytes of a line that are at hand, and where it ends.
ghost use Rattle.std.specs.Prelude.{◌≡◌, ◌+◌, ◌-◌, ◌≤◌, ◌++◌, ◌∷◌, [], OnOk, MatchOption, length};
ghost use Rattle.std.specs.Prelude.{take, drop, position};
ghost use Rattle.std.specs.List.{position_or_len};
ghost use Rattle.mq_jsonl.specs.Lines.{is_feed, pieces};

use crate::read::LINE_LIMIT;
use std::alloc::AllocError;

/// How many bytes of a line are to be kept: one that is longer is not a command, whatever follows.
pub const LINE_ROOM: usize = LINE_LIMIT + 1;

const LINE_FEED: u8 = b'\n';

/// How many bytes are searched at a time.
const CHUNK: usize = 32;

/// Adds the front of some bytes to a line, so that it has at most `most` bytes.
pub fn keep_front(line: &mut Vec<u8>, bytes: &[u8], most: usize) -> Result<(), AllocError>
    ensures { OnOk result (line.new.items ≡ line.old.items
        ++ take (most - length line.old.items) bytes.now) }
{
    let room = most.saturating_sub(line.len());
    if room < bytes.len() {
        line.extend_from_slice(&bytes[..room])
    } else {
        line.extend_from_slice(bytes)
    }
}

fn feed_among(bytes: &[u8]) -> Option<usize>
    ensures { result ≡ position is_feed bytes.now }
{
    bytes.iter().position(|byte| *byte == LINE_FEED)
}

/// How many bytes at the front are whole chunks without line feed. `contains` tests many bytes at a time, and `position`
/// one.
fn chunks_without_feed(bytes: &[u8]) -> usize
    ensures bound { result ≤ length bytes.now }
    ensures later { position_or_len is_feed bytes.now ≡ result
        + position_or_len is_feed (drop result bytes.now) }
{
    let mut passed = 0;
    'chunks: while bytes.len() - passed >= CHUNK {
        let next = passed + CHUNK;
        if bytes[passed..next].contains(&LINE_FEED) {
            return passed;
        }
        passed = next;
    }
    passed
}

/// What stands before the first line feed, and what follows it.
pub fn split_line(bytes: &[u8]) -> Option<(&[u8], &[u8])>
    ensures { MatchOption result (pieces bytes.now ≡ bytes.now ∷ []) (λ parts.
        (bytes.now ≡ (parts.0.now ++ 10 ∷ []) ++ parts.1.now)
        × (pieces parts.0.now ≡ parts.0.now ∷ [])) }
{
    let passed = chunks_without_feed(bytes);
    let feed = passed + feed_among(&bytes[passed..])?;
    Some((&bytes[..feed], &bytes[feed + 1..]))
}
