ghost use Rattle.std.specs.Prelude.{◌≡◌};
ghost use Rattle.mq_cover.specs.Choices.{other_at};

use crate::start::Start;

/// The levels that stand for all that no row names: at the front of a name that begins with `$`, and elsewhere.
#[derive(Clone, Copy, Drop)]
pub struct Others<'a> {
    /// Begins with no `$`, and isn't empty.
    pub plain: &'a str,
    /// Begins with `$`, and neither with `$share` nor with `$SYS`.
    pub dollar: &'a str,
}

impl<'a> Others<'a> {
    pub(crate) fn at(self, start: Start) -> &'a str
        ensures { result.now ≡ other_at start self.entry }
    {
        match start {
            Start::Dollar | Start::Readable | Start::Writable => self.dollar,
            _ => self.plain,
        }
    }
}
