/// Which clients a question is about, by their user names.
#[derive(Clone, Copy, Drop)]
pub enum Clients<'a> {
    /// Those without a user name.
    Anonymous,
    /// Those of this user name.
    Named(&'a str),
    /// Those of any user name that isn't listed.
    Others,
}
