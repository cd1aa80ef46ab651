//! Who is asked about.

/// A client.
#[derive(Clone, Copy, Drop)]
pub struct Client<'a> {
    /// Its client id.
    pub id: &'a str,
    /// Its user name, if it has one.
    pub user: Option<&'a str>,
}
