//! The rows of an access list: those that deny stand in front.
//!
//! Of a client and a topic, those that deny are asked first, and then those that grant: the first
//! that covers the topic decides.
ghost use Rattle.std.specs.Prelude.{◌≡◌, [], ◌++◌, ◌∷◌, List, IfOk, OnOk};
ghost use Rattle.mq_acl.specs.RowsByAccess.{IsSplit};
ghost use Rattle.mq_acl.specs.declared.row.Row.{Row};

use crate::access::is_deny;
use crate::by_owner::ByOwner;
use crate::row::Row;
use std::alloc::{AllocError, Global};

/// The rows that deny, and those that grant, each by whom they are for.
#[derive(Debug)]
pub(crate) struct RowsByAccess {
    pub(crate) denies: ByOwner<Row>,
    pub(crate) grants: ByOwner<Row>,
}

// Opaque to callers' proofs: one step, and not one for each field (docs/explanation/gate.md).
impl Drop for RowsByAccess {
    fn drop(self) {
        let RowsByAccess {
            denies: _,
            grants: _,
        } = self;
    }
}

impl RowsByAccess {
    fn new(alloc: Global) -> RowsByAccess
        ensures { IsSplit [] result }
    {
        RowsByAccess {
            denies: ByOwner::new(alloc),
            grants: ByOwner::new(alloc),
        }
    }

    fn add(&mut self, row: Row) -> Result<(), AllocError>
        ensures { OnOk result ((rows : List Row) → IsSplit rows self.old
            → IsSplit (rows ++ (row ∷ [])) self.new) }
    {
        if is_deny(row.access) {
            self.denies.add(row)
        } else {
            self.grants.add(row)
        }
    }

    /// These rows.
    pub(crate) fn of(alloc: Global, rows: Vec<Row>) -> Result<RowsByAccess, AllocError>
        ensures { IfOk result (λ by_access. IsSplit rows.items by_access) }
    {
        let mut by_access = RowsByAccess::new(alloc);
        for row in rows {
            by_access.add(row)?;
        }
        Ok(by_access)
    }
}
