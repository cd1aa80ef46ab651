//! An object that is printed as a line, and what its members are set to.
ghost use Rattle.std.specs.Prelude.{◌≡◌, ◌↔◌, ◌++◌, ◌∷◌, [], false, map, length, drop, IsTrue};
ghost use Rattle.std.specs.Prelude.{OnOk, OnErr, IfOk, unwrap_or};
ghost use Rattle.std.specs.Option.{option_copied};
ghost use Rattle.serde_json.specs.Data.{string, array, boolean, no_members, put};
ghost use Rattle.serde_json.specs.Find.{as_object};
ghost use Rattle.serde_json.specs.View.{view, members_view};
ghost use Rattle.serde_json.specs.Written.{members_have_float, has_float};
ghost use Rattle.mq_jsonl.specs.Objects.{names_of, values_of, data_of, WritesNext};
ghost use Rattle.mq_jsonl.specs.Printed.{put_if, whole_data, text_if, whole_if, numbers_if};
ghost use Rattle.mq_jsonl.specs.Printed.{line_text, numbers_data};

use serde_json::{Map, Value};
use std::alloc::{AllocError, Global};
use std::mem;

/// A value of a kind that the lines have.
#[derive(Clone, Copy)]
pub enum Datum<'a> {
    Text(&'a str),
    Number(u64),
    Flag(bool),
    Numbers(&'a [u32]),
}

impl Datum<'_> {
    /// Writes the datum over a value. The memory of a text or of numbers that are there is used again.
    pub fn write(&self, alloc: Global, slot: &mut Value) -> Result<(), AllocError>
        ensures { OnOk result (view slot.new ≡ data_of self.now) }
    {
        match self {
            Datum::Text(text) => return set_text(alloc, slot, text),
            Datum::Number(n) => *slot = Value::from(*n),
            Datum::Flag(flag) => *slot = Value::Bool(*flag),
            Datum::Numbers(numbers) => return set_numbers(alloc, slot, numbers),
        }
        Ok(())
    }
}

/// Writes a text over a value. The memory of a text that is there is used again.
pub fn set_text(alloc: Global, slot: &mut Value, text: &str) -> Result<(), AllocError>
    ensures ok { OnOk result (view slot.new ≡ string text.now) }
    ensures err { OnErr result (has_float (view slot.old) ≡ false
        → has_float (view slot.new) ≡ false) }
{
    if let Value::String(held) = slot {
        held.clear();
        return held.push_str(text);
    }
    *slot = Value::String(String::from_str(alloc, text)?);
    Ok(())
}

fn set_numbers(alloc: Global, slot: &mut Value, numbers: &[u32]) -> Result<(), AllocError>
    ensures { OnOk result (view slot.new ≡ array (numbers_data numbers.now)) }
{
    if let Value::Array(list) = slot {
        list.clear();
        return push_numbers(list, numbers);
    }
    *slot = numbers_value(alloc, numbers)?;
    Ok(())
}

/// Numbers as a value.
fn numbers_value(alloc: Global, numbers: &[u32]) -> Result<Value, AllocError>
    ensures { IfOk result (λ v. view v ≡ array (numbers_data numbers.now)) }
{
    let mut list = Vec::new(alloc);
    push_numbers(&mut list, numbers)?;
    Ok(Value::Array(list))
}

fn push_numbers(list: &mut Vec<Value>, numbers: &[u32]) -> Result<(), AllocError>
    ensures { OnOk result (map view list.new.items ≡ map view list.old.items
        ++ map whole_data numbers.now) }
{
    for n in numbers {
        list.push(Value::from(u64::from(*n)))?;
    }
    Ok(())
}

/// Members of which none is a float.
pub struct Object {
    members: Map<String, Value>,
    ghost no_float: { members_have_float (members_view members.entries) ≡ false },
}

// Opaque to callers' proofs: one step, and not one for each field (docs/explanation/gate.md).
impl Drop for Object {
    fn drop(self) {
        let Object { members: _ } = self;
    }
}

impl Object {
    pub fn new(alloc: Global) -> Object
        ensures { members_view result.members.entries ≡ no_members }
    {
        Object {
            members: Map::new(alloc),
        }
    }

    pub fn is_empty(&self) -> bool
        ensures { IsTrue result ↔ (names_of (members_view self.now.members.entries) ≡ []) }
    {
        self.members.is_empty()
    }

    /// Writes a row of data over the values, in the order of the names. For lack of memory it leaves fewer members.
    pub fn refill(&mut self, alloc: Global, row: &[Datum]) -> Result<(), AllocError>
        requires { length (names_of (members_view self.old.members.entries)) ≡ length row.now }
        ensures names { OnOk result (names_of (members_view self.new.members.entries)
            ≡ names_of (members_view self.old.members.entries)) }
        ensures values { OnOk result
            (values_of (members_view self.new.members.entries) ≡ map data_of row.now) }
    {
        let mut next = 0;
        self.members.retain(
            move |_, slot|
                ensures { WritesNext (map data_of (drop next.entry row.entry.now)) result
                    (view slot.new)
                    (map data_of (drop next.exit row.exit.now)) }
            {
                let Some(datum) = row.get(next) else {
                    return false;
                };
                if datum.write(alloc, slot).is_err() {
                    next = row.len();
                    return false;
                }
                next += 1;
                true
            },
        );
        // A member that was not written is gone.
        if self.members.len() == row.len() {
            Ok(())
        } else {
            Err(AllocError)
        }
    }

    fn put(&mut self, alloc: Global, name: &str, value: Value) -> Result<(), AllocError>
        requires { has_float (view value) ≡ false }
        ensures { OnOk result (members_view self.new.members.entries
            ≡ put name.now (view value) (members_view self.old.members.entries)) }
    {
        let name = String::from_str(alloc, name)?;
        self.members.insert(name, value)?;
        Ok(())
    }

    /// The memory of a text that is there is used again.
    pub fn text(&mut self, alloc: Global, name: &str, text: &str) -> Result<(), AllocError>
        ensures { OnOk result (members_view self.new.members.entries
            ≡ put name.now (string text.now) (members_view self.old.members.entries)) }
    {
        if let Some(slot) = self.members.get_mut(name) {
            return set_text(alloc, slot, text);
        }
        let text = String::from_str(alloc, text)?;
        self.put(alloc, name, Value::String(text))
    }

    /// Writes a text over one that is there, if it is another.
    pub fn change_text(
        &mut self,
        alloc: Global,
        name: &str,
        before: &str,
        text: &str,
    ) -> Result<(), AllocError>
        requires { put name.now (string before.now) (members_view self.old.members.entries)
            ≡ members_view self.old.members.entries }
        ensures { OnOk result (members_view self.new.members.entries
            ≡ put name.now (string text.now) (members_view self.old.members.entries)) }
    {
        if before == text {
            return Ok(());
        }
        self.text(alloc, name, text)
    }

    pub fn text_if(
        &mut self,
        alloc: Global,
        name: &str,
        text: Option<&str>,
    ) -> Result<(), AllocError>
        ensures { OnOk result (members_view self.new.members.entries
            ≡ put_if name.now (text_if (option_copied text.entry))
            (members_view self.old.members.entries)) }
    {
        match text {
            Some(text) => self.text(alloc, name, text),
            None => Ok(()),
        }
    }

    pub fn number(&mut self, alloc: Global, name: &str, n: u64) -> Result<(), AllocError>
        ensures { OnOk result (members_view self.new.members.entries
            ≡ put name.now (whole_data n) (members_view self.old.members.entries)) }
    {
        self.put(alloc, name, Value::from(n))
    }

    pub fn flag(&mut self, alloc: Global, name: &str, flag: bool) -> Result<(), AllocError>
        ensures { OnOk result (members_view self.new.members.entries
            ≡ put name.now (boolean flag) (members_view self.old.members.entries)) }
    {
        self.put(alloc, name, Value::Bool(flag))
    }

    pub fn number_if(&mut self, alloc: Global, name: &str, n: Option<u64>) -> Result<(), AllocError>
        ensures { OnOk result (members_view self.new.members.entries
            ≡ put_if name.now (whole_if n) (members_view self.old.members.entries)) }
    {
        match n {
            Some(n) => self.number(alloc, name, n),
            None => Ok(()),
        }
    }

    pub fn short_if(&mut self, alloc: Global, name: &str, n: Option<u32>) -> Result<(), AllocError>
        ensures { OnOk result (members_view self.new.members.entries
            ≡ put_if name.now (whole_if n) (members_view self.old.members.entries)) }
    {
        match n {
            Some(n) => self.number(alloc, name, u64::from(n)),
            None => Ok(()),
        }
    }

    pub fn numbers_if(
        &mut self,
        alloc: Global,
        name: &str,
        numbers: &[u32],
    ) -> Result<(), AllocError>
        ensures { OnOk result (members_view self.new.members.entries
            ≡ put_if name.now (numbers_if numbers.now) (members_view self.old.members.entries)) }
    {
        if numbers.is_empty() {
            return Ok(());
        }
        let list = numbers_value(alloc, numbers)?;
        self.put(alloc, name, list)
    }

    /// The line. The members stay.
    pub fn line(&mut self, alloc: Global) -> Result<Vec<u8>, AllocError>
        ensures text { IfOk result (λ line. line.items
            ≡ line_text (members_view self.old.members.entries)) }
        ensures same { members_view self.new.members.entries
            ≡ members_view self.old.members.entries }
    {
        let value = Value::Object(mem::replace(&mut self.members, Map::new(alloc)));
        let written = value.to_vec(alloc);
        self.members = members_of(alloc, value);
        let mut line = written?;
        line.push(b'\n')?;
        Ok(line)
    }

    /// Adds the line. An error leaves the text as it is. The members stay.
    pub fn print(&mut self, alloc: Global, out: &mut Vec<u8>) -> Result<(), AllocError>
        ensures ok { OnOk result (out.new.items ≡ out.old.items
            ++ line_text (members_view self.old.members.entries)) }
        ensures err { OnErr result (out.new.items ≡ out.old.items) }
        ensures same { members_view self.new.members.entries
            ≡ members_view self.old.members.entries }
    {
        let line = self.line(alloc)?;
        out.extend_from_slice(line.as_slice())
    }
}

/// The members of a value, of which one that is not an object has none.
pub fn members_of(alloc: Global, value: Value) -> Map<String, Value>
    ensures { members_view result.entries ≡ unwrap_or (as_object (view value)) no_members }
{
    match value {
        Value::Object(members) => members,
        other => {
            drop(other);
            Map::new(alloc)
        }
    }
}
