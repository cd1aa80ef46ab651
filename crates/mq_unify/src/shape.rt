/// What is known of the user name of clients.
#[derive(Clone, Copy, Drop)]
pub enum UserShape<'a> {
    /// There is none.
    Absent,
    /// It is this one.
    Known(&'a str),
    /// It is one of so many levels.
    Levels(u8),
}

/// Clients by the number of levels that their texts have, which stand in the places of marks.
#[derive(Clone, Copy, Drop)]
pub struct ClientShape<'a> {
    /// How many levels the client id has.
    pub levels: u8,
    /// What is known of the user name.
    pub user: UserShape<'a>,
}
