//! The lines of a script whose bytes come in pieces.
ghost use Rattle.std.specs.Prelude.{◌≡◌, ◌+◌, ◌≤◌, ◌<◌, [], ℕ, List, IfOk, MatchOption};
ghost use Rattle.std.specs.Prelude.{length, true, false};
ghost use Rattle.mq_jsonl.specs.Lines.{all_lines, whole_lines};
ghost use Rattle.mq_jsonl.specs.Feeding.{EndsFirst, EndsNone, HasNext, Holds, open_line};

use crate::line_buffer::{LINE_ROOM, keep_front, split_line};
use std::alloc::{AllocError, Global};

/// How many bytes a script may have.
pub const SCRIPT_LIMIT: u64 = 4_294_967_296;

/// How many bytes of a script are asked for at a time.
pub const PIECE: usize = 65_536;

/// Makes lines of the bytes of a script, of which so many may come. It keeps no more than one line,
/// and of that line one byte more than a line may have: a longer one is not a command, whatever
/// follows.
#[derive(Drop)]
pub struct LineFeeder {
    line: Vec<u8>,
    /// Whether the line has ended. It is cleared before more is kept.
    is_whole: bool,
    /// How many bytes may still come.
    room: u64,
}

impl LineFeeder {
    /// Of a script of which nothing is given yet.
    pub fn new(alloc: Global, limit: u64) -> LineFeeder
        ensures holds { Holds [] result }
        ensures line { open_line result ≡ [] }
        ensures room { result.room ≡ limit }
    {
        LineFeeder {
            line: Vec::new(alloc),
            is_whole: false,
            room: limit,
        }
    }

    /// Counts so many bytes more of the script, if they are within the limit.
    pub fn admit(&mut self, count: usize) -> bool
        ensures within { result ≡ true → self.new.room + count ≡ self.old.room }
        ensures over { result ≡ false → (self.old.room < count) × (self.new.room ≡ self.old.room) }
        ensures line { open_line self.new ≡ open_line self.old }
    {
        let count = count as u64;
        if count > self.room {
            return false;
        }
        self.room -= count;
        true
    }

    /// How many bytes may still come.
    pub fn room(&self) -> u64
        ensures { result ≡ self.now.room }
    {
        self.room
    }

    // Forgets a line that has ended.
    fn clear_whole(&mut self)
        ensures line { self.new.line.items ≡ open_line self.old }
        ensures is_whole { self.new.is_whole ≡ false }
        ensures room { self.new.room ≡ self.old.room }
    {
        if !self.is_whole {
            return;
        }
        self.line.clear();
        self.is_whole = false;
    }

    /// Takes bytes up to the first line feed, and answers what follows it: then `line` is the line
    /// that it ends. Where none of them is one, all are taken. After an error it isn't said what is
    /// kept.
    pub fn take_line<'a>(&mut self, bytes: &'a [u8]) -> Result<Option<&'a [u8]>, AllocError>
        ensures lines { IfOk result (λ rest. MatchOption rest
            (EndsNone self.old self.new bytes.entry.now)
            (λ others. EndsFirst self.old self.new bytes.entry.now others.now)) }
        ensures shorter { IfOk result (λ rest. MatchOption rest
            (length (open_line self.new) ≤ length (open_line self.old) + length bytes.entry.now)
            (λ others. (open_line self.new ≡ []) × (length others.now < length bytes.entry.now))) }
        ensures room { self.new.room ≡ self.old.room }
    {
        self.clear_whole();
        let Some((front, others)) = split_line(bytes) else {
            keep_front(&mut self.line, bytes, LINE_ROOM)?;
            return Ok(None);
        };
        keep_front(&mut self.line, front, LINE_ROOM)?;
        self.is_whole = true;
        Ok(Some(others))
    }

    /// Whether a last piece is kept, which no line feed has ended: then it is `line`.
    pub fn has_last_piece(&self) -> bool
        ensures last { result ≡ true → (given : List ℕ) → Holds given self.now
            → HasNext (whole_lines given) (all_lines given) self.now }
        ensures some { result ≡ true → 0 < length (open_line self.now) }
        ensures none { result ≡ false → (given : List ℕ) → Holds given self.now
            → all_lines given ≡ whole_lines given }
    {
        if self.is_whole {
            return false;
        }
        !self.line.is_empty()
    }

    /// What is kept of the line that has just ended, or of the last piece.
    pub fn line(&self) -> &[u8]
        ensures { result.now ≡ self.now.line.items }
    {
        self.line.as_slice()
    }
}
