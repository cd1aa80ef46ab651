ghost use Rattle.std.specs.Prelude.{◌≡◌, length};
ghost use Rattle.mq_cover.specs.Names.{fits_start, behind, ends, start_of};

use mq_acl::{begins_own, begins_shared};

/// Where a walk stands.
#[derive(Clone, Copy, Drop, PartialEq, Eq)]
pub enum Start {
    /// At the front of a name that begins with no `$`.
    Plain,
    /// At the front of one that does.
    Dollar,
    /// At the front of one that begins so, and not with `$share`: mosquitto lets nobody read that.
    Readable,
    /// At the front of one that begins so, and neither with `$share` nor with `$SYS`: of what does
    /// clients may write the states of bridges alone.
    Writable,
    /// Behind an empty first level: an empty text is not a name, so none ends here.
    Slash,
    /// Further on.
    Inside,
}

impl Start {
    /// The front of the names that begin with `$`, or of the others.
    pub fn of(dollar: bool) -> Start
        ensures { result ≡ start_of dollar }
    {
        if dollar { Start::Dollar } else { Start::Plain }
    }

    /// Whether a name may go on with this level.
    pub fn fits(self, level: &str) -> bool
        ensures { result ≡ fits_start self level.now }
    {
        match self {
            Start::Plain => !level.starts_with('$'),
            Start::Dollar => level.starts_with('$'),
            Start::Readable => level.starts_with('$') && !begins_shared(level),
            Start::Writable => {
                level.starts_with('$') && !begins_shared(level) && !begins_own(level)
            }
            Start::Slash | Start::Inside => true,
        }
    }

    /// Where it stands behind this level.
    pub(crate) fn behind(self, level: &str) -> Start
        ensures { result ≡ behind self level.now }
    {
        match self {
            Start::Plain if level.is_empty() => Start::Slash,
            _ => Start::Inside,
        }
    }

    /// Whether a name may end here.
    pub(crate) fn ends(self) -> bool
        ensures { result ≡ ends self }
    {
        matches!(self, Start::Inside)
    }
}
