//! What isn't allowed, by whom it isn't.
ghost use Rattle.std.specs.BTreeMap.{get_by_text};
ghost use Rattle.std.specs.Option.{option_map_or};
ghost use Rattle.std.specs.Prelude.{◌≡◌, ◌++◌, ◌∷◌, [], ℕ, List, IfOk, OnOk, if◌then◌else◌};
ghost use Rattle.std.specs.Prelude.{string_bytes};
ghost use Rattle.std.specs.Str.{bytes_eq};
ghost use Rattle.mq_ask_who.specs.Refusals.{AreKept, key};
ghost use Rattle.mq_ask_who.specs.WhoShown.{beside};
ghost use Rattle.mq_differences.specs.declared.difference.Difference.{Difference};

use mq_ask::access_word;
use mq_differences::{Class, Difference};
use std::alloc::{AllocError, Global};
use std::collections::BTreeMap;

// The same for all of a class and a direction.
fn key_of(alloc: Global, difference: &Difference) -> Result<String, AllocError>
    ensures { IfOk result (λ text. string_bytes text ≡ key difference.now) }
{
    let access = access_word(difference.direction);
    match &difference.class {
        Class::Anonymous => format!(in alloc; "{access} anonymous"),
        Class::User(name) => format!(in alloc; "{access} user {name}"),
        Class::Others(_) => format!(in alloc; "{access} others"),
    }
}

// Keeps it behind those with the same key.
fn keep(
    by_key: &mut BTreeMap<String, Vec<Difference>>,
    key: String,
    difference: Difference,
) -> Result<(), AllocError>
    ensures { OnOk result ((text : List ℕ)
        → option_map_or (λ all. all.items) (get_by_text by_key.new text) []
        ≡ option_map_or (λ all. all.items) (get_by_text by_key.old text) []
        ++ (if bytes_eq text (string_bytes key) then difference ∷ [] else [])) }
{
    by_key.entry(key)?.or_default().push(difference)?;
    Ok(())
}

/// What isn't allowed, by class and direction.
pub(crate) struct Refusals {
    by_key: BTreeMap<String, Vec<Difference>>,
}

// Opaque to callers' proofs: one step, and not one for each field (docs/explanation/gate.md).
impl Drop for Refusals {
    fn drop(self) {
        let Refusals { by_key: _ } = self;
    }
}

impl Refusals {
    pub(crate) fn new(alloc: Global, refused: Vec<Difference>) -> Result<Refusals, AllocError>
        ensures { IfOk result (AreKept refused.items) }
    {
        let mut by_key: BTreeMap<String, Vec<Difference>> = BTreeMap::new(alloc);
        for difference in refused {
            let key = key_of(alloc, &difference)?;
            keep(&mut by_key, key, difference)?;
        }
        Ok(Refusals { by_key })
    }

    /// Those of the same class and direction.
    pub(crate) fn beside(
        &self,
        alloc: Global,
        granted: &Difference,
    ) -> Result<&[Difference], AllocError>
        ensures { (refused : List Difference) → AreKept refused self.now
            → IfOk result (λ all. all.now ≡ beside refused granted.now) }
    {
        let key = key_of(alloc, granted)?;
        match self.by_key.get(key.as_str()) {
            Some(all) => Ok(all),
            None => Ok(&[]),
        }
    }
}
