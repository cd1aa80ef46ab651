/// How two lists differ.
#[derive(Clone, Copy, PartialEq, Eq)]
pub enum Way {
    /// The new list allows it, and the old one doesn't.
    Gained,
    /// The old list allows it, and the new one doesn't.
    Lost,
}
