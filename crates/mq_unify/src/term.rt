//! Filters whose marks stand for levels that are looked for.

/// A level of a filter.
#[derive(Clone, Copy, Drop)]
pub(crate) enum Term<'a> {
    /// Any level: `+`.
    Any,
    /// This text.
    Text(&'a str),
    /// The level with this number, of those that are looked for.
    Variable(u16),
}

/// The levels of a filter, but for a last `#`.
#[derive(Drop)]
pub(crate) struct Terms<'a> {
    pub fixed: Vec<Term<'a>>,
    /// Whether a `#` follows them.
    pub has_rest: bool,
}
