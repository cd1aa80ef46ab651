//! What is known of the levels that are looked for.
ghost use Rattle.std.specs.Prelude.{◌≡◌, ◌&&◌, ◌==◌, IfOk, OnOk, true, false, ℕ, List, []};
ghost use Rattle.mq_unify.specs.Bindings.{Holds, IsNormal, bound, bound_by, is_free};
ghost use Rattle.mq_unify.specs.Bindings.{level_fits, level_of_term, text_of};
ghost use Rattle.mq_unify.specs.Terms.{agree, term_fits};
ghost use Rattle.mq_unify.specs.Unifying.{IsUnified};
ghost use Rattle.std.specs.Str.{bytes_eq};

use crate::term::Term;
use std::alloc::{AllocError, Global};

/// A level that is looked for.
#[derive(Clone, Copy, Drop)]
pub(crate) enum Level<'a> {
    /// It is any, the same as each other level with this number.
    Free(u16),
    /// It is this text.
    Known(&'a str),
}

/// Each level with this number is another one.
#[derive(Clone, Copy, Drop)]
pub(crate) struct Binding<'a> {
    pub number: u16,
    pub level: Level<'a>,
}

impl<'a> Level<'a> {
    fn bound_by(self, binding: &Binding<'a>) -> Level<'a>
        ensures { result ≡ bound_by self.entry binding.now }
    {
        match self {
            Level::Free(number) if number == binding.number => binding.level,
            level => level,
        }
    }

    fn is_free(self, number: u16) -> bool
        ensures { result ≡ is_free number self.entry }
    {
        match self {
            Level::Free(other) => other == number,
            Level::Known(_) => false,
        }
    }
}

/// What is known of the levels that are looked for: one binding behind the other.
pub(crate) struct Bindings<'a> {
    pub bindings: Vec<Binding<'a>>,
    ghost normal: { IsNormal bindings.items },
}

// Opaque to callers' proofs: one step, and not one for each field (docs/explanation/gate.md).
impl Drop for Bindings<'_> {
    fn drop(self) {
        let Bindings { bindings: _ } = self;
    }
}

impl<'a> Bindings<'a> {
    pub fn new(alloc: Global) -> Bindings<'a>
        ensures { result.bindings.items ≡ [] }
    {
        Bindings {
            bindings: Vec::new(alloc),
        }
    }

    /// What the level is.
    pub fn level(&self, level: Level<'a>) -> Level<'a>
        ensures { result ≡ bound self.now.bindings.items level.entry }
    {
        let mut level = level;
        for binding in &self.bindings {
            level = level.bound_by(binding);
        }
        level
    }

    fn term_level(&self, term: Term<'a>) -> Option<Level<'a>>
        ensures { result ≡ level_of_term self.now.bindings.items term.entry }
    {
        match term {
            Term::Any => None,
            Term::Text(text) => Some(Level::Known(text)),
            Term::Variable(number) => Some(self.level(Level::Free(number))),
        }
    }

    fn bind(&mut self, number: u16, level: Level<'a>) -> Result<(), AllocError>
        requires free { bound self.old.bindings.items (Level.Free number) ≡ Level.Free number }
        requires normal { (n : ℕ) → level ≡ Level.Free n
            → (bound self.old.bindings.items (Level.Free n) ≡ Level.Free n)
            × ((n == number) ≡ false) }
        ensures { OnOk result (IsUnified self.old.bindings.items self.new.bindings.items
            (λ values. bytes_eq (values number) (text_of values level.entry))
            (λ test. level_fits test level.entry)) }
    {
        self.bindings.push(Binding { number, level })?;
        Ok(())
    }

    // Makes the level with this number, which isn't bound, and that one the same.
    fn bind_free(&mut self, number: u16, level: Level<'a>) -> Result<(), AllocError>
        requires free { bound self.old.bindings.items (Level.Free number) ≡ Level.Free number }
        requires level { bound self.old.bindings.items level ≡ level }
        ensures { OnOk result (IsUnified self.old.bindings.items self.new.bindings.items
            (λ values. bytes_eq (values number) (text_of values level.entry))
            (λ test. level_fits test level.entry)) }
    {
        if level.is_free(number) {
            return Ok(());
        }
        self.bind(number, level)
    }

    // Makes the level, which isn't bound, this text, or finds that it can't be.
    fn equate_text(&mut self, text: &'a str, other: Level<'a>) -> Result<bool, AllocError>
        requires { bound self.old.bindings.items other ≡ other }
        ensures same { IfOk result (λ same. same ≡ true
            → IsUnified self.old.bindings.items self.new.bindings.items
            (λ values. bytes_eq text.entry.now (text_of values other.entry))
            (λ test. test text.entry.now && level_fits test other.entry)) }
        ensures apart { IfOk result (λ same. same ≡ false → (values : ℕ → List ℕ)
            → bytes_eq text.entry.now (text_of values other.entry) ≡ false) }
    {
        match other {
            Level::Known(wanted) => Ok(text == wanted),
            Level::Free(number) => {
                self.bind_free(number, Level::Known(text))?;
                Ok(true)
            }
        }
    }

    // Makes both levels, which aren't bound, the same, or finds that they can't be.
    fn equate(&mut self, one: Level<'a>, other: Level<'a>) -> Result<bool, AllocError>
        requires one { bound self.old.bindings.items one ≡ one }
        requires other { bound self.old.bindings.items other ≡ other }
        ensures same { IfOk result (λ same. same ≡ true
            → IsUnified self.old.bindings.items self.new.bindings.items
            (λ values. bytes_eq (text_of values one.entry) (text_of values other.entry))
            (λ test. level_fits test one.entry && level_fits test other.entry)) }
        ensures apart { IfOk result (λ same. same ≡ false → (values : ℕ → List ℕ)
            → bytes_eq (text_of values one.entry) (text_of values other.entry) ≡ false) }
    {
        match one {
            Level::Known(text) => self.equate_text(text, other),
            Level::Free(number) => {
                self.bind_free(number, other)?;
                Ok(true)
            }
        }
    }

    /// Makes both terms stand for the same, or finds that they can't.
    pub fn unify(&mut self, one: Term<'a>, other: Term<'a>) -> Result<bool, AllocError>
        ensures same { IfOk result (λ same. same ≡ true
            → IsUnified self.old.bindings.items self.new.bindings.items
            (λ values. agree values one.entry other.entry)
            (λ test. term_fits test one.entry && term_fits test other.entry)) }
        ensures apart { IfOk result (λ same. same ≡ false → (values : ℕ → List ℕ)
            → Holds values self.old.bindings.items
            → agree values one.entry other.entry ≡ false) }
    {
        let (Some(one), Some(other)) = (self.term_level(one), self.term_level(other)) else {
            return Ok(true);
        };
        self.equate(one, other)
    }
}
