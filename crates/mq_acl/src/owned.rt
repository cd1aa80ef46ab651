ghost use Rattle.std.specs.Prelude.{◌≡◌};
ghost use Rattle.mq_acl.specs.Rows.{Who};
ghost use Rattle.mq_acl.specs.Views.{owner_view, row_who};

use crate::row::{Owner, Row};

/// What is for the clients of an owner.
pub trait Owned {
    /// Whom it is for.
    ghost who: { Self → Who };

    /// Whom it is for.
    fn owner(&self) -> &Owner
        ensures { owner_view result.now ≡ who self.now };
}

impl Owned for Row {
    ghost who = { row_who };

    fn owner(&self) -> &Owner {
        &self.owner
    }
}

impl Owned for &Row {
    ghost who = { λ row. row_who row.now };

    fn owner(&self) -> &Owner {
        &self.owner
    }
}
