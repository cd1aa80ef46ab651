//! Filters that are to match one name: what that says of the levels that are looked for.
ghost use Rattle.std.specs.Prelude.{◌≡◌, ◌&&◌, IfOk, true, false, ℕ, List};
ghost use Rattle.std.specs.List.{list_all};
ghost use Rattle.mq_unify.specs.Bindings.{Holds};
ghost use Rattle.mq_unify.specs.Terms.{agree_all, agree_with, all_agree, all_fit, terms_fit};
ghost use Rattle.mq_unify.specs.Unifying.{IsUnified};

use crate::binding::Bindings;
use crate::term::{Term, Terms};
use std::alloc::AllocError;

// Makes the levels of both the same, place by place, or finds that they can't be.
fn unify_two<'a>(
    bindings: &mut Bindings<'a>,
    one: &[Term<'a>],
    other: &[Term<'a>],
) -> Result<bool, AllocError>
    ensures same { IfOk result (λ same. same ≡ true
        → IsUnified bindings.old.bindings.items bindings.new.bindings.items
        (λ values. all_agree values one.now other.now)
        (λ test. terms_fit test one.now && terms_fit test other.now)) }
    ensures apart { IfOk result (λ same. same ≡ false → (values : ℕ → List ℕ)
        → Holds values bindings.old.bindings.items → all_agree values one.now other.now ≡ false) }
{
    let Some((term, terms)) = one.split_first() else {
        return Ok(true);
    };
    let Some((with, others)) = other.split_first() else {
        return Ok(true);
    };
    if !bindings.unify(*term, *with)? {
        return Ok(false);
    }
    unify_two(bindings, terms, others)
}

// Makes the levels of each of the filters the same as these, or finds that they can't be.
fn unify_with<'a>(
    bindings: &mut Bindings<'a>,
    terms: &[Term<'a>],
    all: &[Terms<'a>],
) -> Result<bool, AllocError>
    ensures same { IfOk result (λ same. same ≡ true
        → IsUnified bindings.old.bindings.items bindings.new.bindings.items
        (λ values. agree_with values terms.now all.now)
        (λ test. all_fit test all.now && terms_fit test terms.now)) }
    ensures apart { IfOk result (λ same. same ≡ false → (values : ℕ → List ℕ)
        → Holds values bindings.old.bindings.items → agree_with values terms.now all.now ≡ false) }
{
    let Some((first, rest)) = all.split_first() else {
        return Ok(true);
    };
    if !unify_two(bindings, &first.fixed, terms)? {
        return Ok(false);
    }
    unify_with(bindings, terms, rest)
}

/// Makes the levels of each of some filters the same as those of all, place by place, or finds that they can't be.
pub(crate) fn unify_all<'a>(
    bindings: &mut Bindings<'a>,
    some: &[Terms<'a>],
    all: &[Terms<'a>],
) -> Result<bool, AllocError>
    ensures same { IfOk result (λ same. same ≡ true
        → IsUnified bindings.old.bindings.items bindings.new.bindings.items
        (λ values. agree_all values some.now all.now)
        (λ test. all_fit test some.now && all_fit test all.now)) }
    ensures apart { IfOk result (λ same. same ≡ false → (values : ℕ → List ℕ)
        → Holds values bindings.old.bindings.items → agree_all values some.now all.now ≡ false) }
{
    let Some((first, rest)) = some.split_first() else {
        return Ok(true);
    };
    if !unify_with(bindings, &first.fixed, all)? {
        return Ok(false);
    }
    unify_all(bindings, rest, all)
}
