//! The fields of an object, each of one kind, read in the order of their names.
ghost use Rattle.std.specs.Prelude.{◌≡◌, ◌≤◌, [], true, false, None, Ok, Err};
ghost use Rattle.std.specs.Prelude.{IfSome, option_map, string_bytes};
ghost use Rattle.serde_json.specs.View.{view, members_view};
ghost use Rattle.serde_json.specs.Find.{get, get_member};
ghost use Rattle.mq_jsonl.specs.Fields.{text as text_kind, flag as flag_kind, unsigned, whole};
ghost use Rattle.mq_jsonl.specs.Fields.{required, optional, default, ignored};
ghost use Rattle.mq_jsonl.specs.Ahead.{ahead, past, outcome, members_left, Begins, Reads};

use crate::fault::LineFault;
use serde_json::{Map, Value};
use std::alloc::Global;
use std::collections::btree_map::IterMut;
use std::mem;

/// The value under a name, if there is one.
pub fn field<'a>(members: &'a Map<String, Value>, name: &str) -> Option<&'a Value>
    ensures { option_map (λ v. view v.now) result
        ≡ get_member name.now (members_view members.now.entries) }
{
    members.get(name)
}

/// The members of an object that are left. Each name asked for is compared with the next member alone, so a name that
/// isn't asked for in its place stays, and what comes after it seems absent. A field with a fault is read as if it were
/// absent, or as an empty one where it must be there, and `are_faulty` says so.
pub struct Fields<'a> {
    alloc: Global,
    next: Option<(&'a String, &'a mut Value)>,
    rest: IterMut<'a, String, Value>,
    is_faulty: bool,
}

// Opaque to callers' proofs: one step, and not one for each field (docs/explanation/gate.md).
impl Drop for Fields<'_> {
    fn drop(self) {
        let Fields {
            alloc: _,
            next: _,
            rest: _,
            is_faulty: _,
        } = self;
    }
}

impl<'a> Fields<'a> {
    pub fn of(alloc: Global, members: &'a mut Map<String, Value>) -> Fields<'a>
        ensures { Begins (members_view members.old.entries) result }
    {
        let mut rest = members.iter_mut();
        let next = rest.next();
        Fields {
            alloc,
            next,
            rest,
            is_faulty: false,
        }
    }

    // The value under the name, if the next member has it.
    fn take(&mut self, name: &str) -> Option<&'a mut Value>
        ensures value { option_map (λ v. view v.now) result
            ≡ get name.now (ahead (members_left self.old)) }
        ensures left { members_left self.new ≡ past name.now (members_left self.old) }
        ensures faulty { self.new.is_faulty ≡ self.old.is_faulty }
    {
        let Some((key, _)) = &self.next else {
            return None;
        };
        if name != key.as_str() {
            return None;
        }
        let next = self.rest.next();
        let Some((_, value)) = mem::replace(&mut self.next, next) else {
            return None;
        };
        Some(value)
    }

    /// Passes by a field whose value is known.
    pub fn skip(&mut self, name: &str)
        ensures { Reads name.now text_kind ignored tt self.old self.new tt }
    {
        self.take(name);
    }

    /// A text, if it is there.
    pub fn optional_text(&mut self, name: &str) -> Option<String>
        ensures { Reads name.now text_kind optional None self.old self.new
            (option_map string_bytes result) }
    {
        let field = self.take(name)?;
        match field {
            Value::String(text) => Some(mem::replace(text, String::new(self.alloc))),
            _ => {
                self.is_faulty = true;
                None
            }
        }
    }

    /// A text, which must be there.
    pub fn required_text(&mut self, name: &str) -> String
        ensures { Reads name.now text_kind required [] self.old self.new (string_bytes result) }
    {
        match self.optional_text(name) {
            Some(text) => text,
            None => {
                self.is_faulty = true;
                String::new(self.alloc)
            }
        }
    }

    /// A text, and the empty one where it is absent.
    pub fn text_or_empty(&mut self, name: &str) -> String
        ensures { Reads name.now text_kind (default []) [] self.old self.new (string_bytes result) }
    {
        match self.optional_text(name) {
            Some(text) => text,
            None => String::new(self.alloc),
        }
    }

    /// True or false, and `absent` where it is absent.
    pub fn flag_or(&mut self, name: &str, absent: bool) -> bool
        ensures { Reads name.now flag_kind (default absent) absent self.old self.new result }
    {
        let Some(field) = self.take(name) else {
            return absent;
        };
        match field.as_bool() {
            Some(flag) => flag,
            None => {
                self.is_faulty = true;
                absent
            }
        }
    }

    /// True or false, and false where it is absent.
    pub fn is_set(&mut self, name: &str) -> bool
        ensures { Reads name.now flag_kind (default false) false self.old self.new result }
    {
        self.flag_or(name, false)
    }

    /// A whole number up to `high`, and 0 where it is absent.
    pub fn number_or_zero(&mut self, name: &str, high: u32) -> u32
        ensures read { Reads name.now (whole 0 high) (default 0) 0 self.old self.new result }
        ensures range { result ≤ high }
    {
        let Some(field) = self.take(name) else {
            return 0;
        };
        match field.as_u64() {
            Some(n) if n <= u64::from(high) => n as u32,
            _ => {
                self.is_faulty = true;
                0
            }
        }
    }

    /// A whole number from `low` to `high`, if it is there.
    pub fn optional_number(&mut self, name: &str, low: u32, high: u32) -> Option<u32>
        ensures read { Reads name.now (whole low high) optional None self.old self.new result }
        ensures range { IfSome result (λ n. (low ≤ n) × (n ≤ high)) }
    {
        let field = self.take(name)?;
        match field.as_u64() {
            Some(n) if u64::from(low) <= n && n <= u64::from(high) => Some(n as u32),
            _ => {
                self.is_faulty = true;
                None
            }
        }
    }

    /// A whole number, which must be there.
    pub fn required_number(&mut self, name: &str) -> u64
        ensures { Reads name.now unsigned required 0 self.old self.new result }
    {
        match self.take(name).and_then(|field| field.as_u64()) {
            Some(n) => n,
            None => {
                self.is_faulty = true;
                0
            }
        }
    }

    /// Whether some field wasn't as it has to be, or a member is left.
    pub fn are_faulty(&self) -> bool
        ensures faulty { result ≡ true
            → outcome self.now.is_faulty (members_left self.now) ≡ Err LineFault.BadField }
        ensures read { result ≡ false
            → outcome self.now.is_faulty (members_left self.now) ≡ Ok tt }
    {
        self.is_faulty || self.next.is_some()
    }
}
