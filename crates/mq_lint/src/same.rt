//! Rows that say the same.
ghost use Rattle.std.specs.Prelude.{◌≡◌, ◌&&◌};
ghost use Rattle.std.specs.Str.{bytes_eq};
ghost use Rattle.mq_acl.specs.Views.{access_view, row_view};
ghost use Rattle.mq_lint.specs.Needless.{same_access, same_row};

use mq_acl::{Access, Row};
use mq_differences::same_owner;

fn same_access(left: Access, right: Access) -> bool
    ensures { result ≡ same_access (access_view left) (access_view right) }
{
    left == right
}

/// Whether both are for the same clients, with the same access and the same filter.
pub fn same_row(left: &Row, right: &Row) -> bool
    ensures { result ≡ same_row (row_view left.now) (row_view right.now) }
{
    same_access(left.access, right.access)
        && left.filter == right.filter
        && same_owner(&left.owner, &right.owner)
}
