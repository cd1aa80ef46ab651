ghost use Rattle.std.specs.Prelude.{◌≡◌};
ghost use Rattle.mq_acl.specs.Access.{is_deny, grants};
ghost use Rattle.mq_acl.specs.Views.{access_view};

/// What a row grants, or that it denies (mosquitto.conf(5), `acl_file`).
#[derive(Clone, Copy, Debug, PartialEq, Eq)]
pub enum Access {
    /// `read`
    Read,
    /// `write`
    Write,
    /// `readwrite`, or no access word
    ReadWrite,
    /// `deny`
    Deny,
}

/// What a check asks about: a message to the client, which it reads, or one from it, which it writes
/// (mosquitto.conf(5), `acl_file`). The contracts of `Acl::may_read` and `Acl::may_write` name it.
#[derive(Clone, Copy, Debug)]
pub enum Direction {
    /// The client reads.
    Reading,
    /// The client writes.
    Writing,
}

/// Whether it denies.
pub fn is_deny(access: Access) -> bool
    ensures { result ≡ is_deny (access_view access) }
{
    matches!(access, Access::Deny)
}

/// Whether it grants this direction.
pub fn grants(direction: Direction, access: Access) -> bool
    ensures { result ≡ grants direction (access_view access) }
{
    match direction {
        Direction::Reading => matches!(access, Access::Read | Access::ReadWrite),
        Direction::Writing => matches!(access, Access::Write | Access::ReadWrite),
    }
}
