//! Whom `who` shows.
use mq_acl::Direction;

/// Of whom it is shown who may.
#[derive(Clone, Copy, Drop)]
pub struct Selection<'a> {
    /// Whether of those who read, or who write, alone.
    pub access: Option<Direction>,
    /// Those that are left out, between commas, if some are: `-` the clients without a user name,
    /// `*` those of all user names that the list doesn't name, and else those of this user name,
    /// which it names.
    pub only: Option<&'a str>,
}
