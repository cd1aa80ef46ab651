//! Trials, in which each growth is refused in turn.
use std::fmt::{self, Display, Formatter, Write};
use std::process::Abort;

/// More growths than any trial meets.
const MOST: u32 = 100_000;

/// Something that may meet growths.
pub(crate) trait Trial {
    /// Tries it while its nth growth is refused, and none for 0, and answers whether a growth was. Nothing may be
    /// answered or left behind that should not be.
    fn attempt<R: Abort + AllocGlobal>(&self, rt: &R, nth: u32) -> bool;
}

/// What a call is tried on.
#[derive(Clone, Copy)]
pub(crate) enum Subject<'a> {
    /// A text. A long one is shown by its length.
    Text(&'a str),
    /// The line of a script with this number.
    Line(u64),
    /// A script.
    Script,
}

impl Display for Subject<'_> {
    fn fmt<W: Write>(&self, f: &mut Formatter<W>) -> fmt::Result {
        match self {
            Subject::Text(text) if text.len() > 100 => write!(f, "of {} bytes", text.len()),
            Subject::Text(text) => write!(f, "{text:?}"),
            Subject::Line(number) => write!(f, "of line {number}"),
            Subject::Script => f.write_str("of the script"),
        }
    }
}

// How many growths are refused, if each is until none is met.
fn refusals<T: Trial>(rt: &(impl Abort + AllocGlobal), trial: &T) -> u32 {
    for nth in 1..MOST {
        if !trial.attempt(rt, nth) {
            return nth - 1;
        }
    }
    MOST
}

/// Tries a call on this subject with ample memory, and then with each growth refused, and answers how many were. Where
/// something is wrong, what was printed last says of which call.
pub(crate) fn attempt<T: Trial>(
    rt: &(impl Abort + AllocGlobal + Print),
    call: &str,
    subject: Subject,
    trial: &T,
) {
    print!(rt; "{call} {subject}").expect(rt, "output");
    assert!(rt; !trial.attempt(rt, 0));
    let refused = refusals(rt, trial);
    assert!(rt; refused < MOST);
    println!(rt; ": {refused}").expect(rt, "output");
}
