/// The levels that `%c` and `%u` stand for in a `pattern` row; none where the client id, or the user name, can be no
/// level of a name.
#[derive(Clone, Copy, Drop)]
pub struct Marks<'a> {
    /// The level of `%c`.
    pub client: Option<&'a str>,
    /// The level of `%u`.
    pub user: Option<&'a str>,
}
