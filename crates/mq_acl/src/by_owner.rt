//! The items of a list, by whom they are for.
ghost use Rattle.std.specs.Prelude.{◌≡◌, ℕ, [], ◌++◌, ◌∷◌, List, OnOk, if◌then◌else◌};
ghost use Rattle.std.specs.Prelude.{string_bytes};
ghost use Rattle.std.specs.Str.{bytes_eq};
ghost use Rattle.std.specs.Option.{option_copied, option_map_or};
ghost use Rattle.std.specs.BTreeMap.{get_by_text};
ghost use Rattle.mq_acl.specs.ByOwner.{IsGrouped, everyones, own_items};

use crate::owned::Owned;
use crate::row::Owner;
use std::alloc::{AllocError, Global};
use std::collections::BTreeMap;

/// The items for all clients, for those without a user name, and for those of each user name, each in their order.
#[derive(Debug)]
pub struct ByOwner<T> {
    everyone: Vec<T>,
    anonymous: Vec<T>,
    named: BTreeMap<String, Vec<T>>,
}

// Opaque to callers' proofs: one step, and not one for each field (docs/explanation/gate.md).
impl<T: Drop> Drop for ByOwner<T> {
    fn drop(self) {
        let ByOwner {
            everyone: _,
            anonymous: _,
            named: _,
        } = self;
    }
}

// Adds an item for the clients of this user name.
fn add_named<T: Drop>(
    named: &mut BTreeMap<String, Vec<T>>,
    name: String,
    item: T,
) -> Result<(), AllocError>
    ensures { OnOk result ((user : List ℕ)
        → option_map_or (λ items. items.items) (get_by_text named.new user) []
        ≡ option_map_or (λ items. items.items) (get_by_text named.old user) []
        ++ (if bytes_eq user (string_bytes name) then item ∷ [] else [])) }
{
    named.entry(name)?.or_default().push(item)?;
    Ok(())
}

impl<T: Owned + Drop> ByOwner<T> {
    /// No items.
    pub fn new(alloc: Global) -> ByOwner<T>
        ensures { IsGrouped T.who [] result }
    {
        ByOwner {
            everyone: Vec::new(alloc),
            anonymous: Vec::new(alloc),
            named: BTreeMap::new(alloc),
        }
    }

    /// Adds an item behind all that are there.
    pub fn add(&mut self, item: T) -> Result<(), AllocError>
        ensures { OnOk result ((all : List T) → IsGrouped T.who all self.old
            → IsGrouped T.who (all ++ (item ∷ [])) self.new) }
    {
        match item.owner() {
            Owner::Everyone => self.everyone.push(item)?,
            Owner::Anonymous => self.anonymous.push(item)?,
            Owner::Named(name) => {
                let name = name.clone()?;
                add_named(&mut self.named, name, item)?
            }
        }
        Ok(())
    }

    /// The items for all clients, in their order.
    pub fn everyone(&self) -> &[T]
        ensures { result.now ≡ everyones self.now }
    {
        &self.everyone
    }

    /// The items for the clients of this user name, or without one, alone, in their order.
    pub fn own(&self, user: Option<&str>) -> &[T]
        ensures { result.now ≡ own_items (option_copied user.entry) self.now }
    {
        match user {
            None => &self.anonymous,
            Some(name) => match self.named.get(name) {
                Some(items) => items,
                None => &self.everyone[..0],
            },
        }
    }
}
