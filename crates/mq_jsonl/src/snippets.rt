//! Parts of the lines of copies, printed by themselves.
ghost use Rattle.std.specs.Prelude.{◌≡◌, ◌≢◌, ◌+◌, [], IfOk, OnOk, codes, length};
ghost use Rattle.serde_json.specs.Data.{string};
ghost use Rattle.serde_json.specs.View.{members_view};
ghost use Rattle.serde_json.specs.Written.{compact_text};
ghost use Rattle.mq_world.specs.Views.{copy_of};
ghost use Rattle.mq_jsonl.specs.Printed.{line_text};
ghost use Rattle.mq_jsonl.specs.Objects.{IsFor};
ghost use Rattle.mq_jsonl.specs.Shared.{behind_members, behind_names};

use crate::object::{Datum, Object, set_text};
use crate::texts::topic_of;
use mq_world::Delivery;
use serde_json::Value;
use std::alloc::{AllocError, Global};

// Writes the members behind a copy's payload.
#[tactic(auto, unfolding(crate::specs::Shared::behind_members, crate::specs::Shared::behind_names))]
fn set_behind(alloc: Global, object: &mut Object, copy: &Delivery) -> Result<(), AllocError>
    requires { IsFor behind_names (members_view object.old.members.entries) }
    ensures { OnOk result (members_view object.new.members.entries
        ≡ behind_members (copy_of copy.now)) }
{
    let qos = u64::from(copy.qos);
    let topic = topic_of(copy);
    if object.is_empty() {
        object.number(alloc, "qos", qos)?;
        object.flag(alloc, "retain", copy.retain)?;
        return object.text(alloc, "topic", topic);
    }
    let retain = Datum::Flag(copy.retain);
    object.refill(alloc, &[Datum::Number(qos), retain, Datum::Text(topic)])
}

fn behind_line(alloc: Global, kept: &mut Object, copy: &Delivery) -> Result<Vec<u8>, AllocError>
    requires { IsFor behind_names (members_view kept.old.members.entries) }
    ensures text { IfOk result (λ line. line.items
        ≡ line_text (behind_members (copy_of copy.now))) }
    ensures kept { IsFor behind_names (members_view kept.new.members.entries) }
{
    let Ok(()) = set_behind(alloc, kept, copy) else {
        *kept = Object::new(alloc);
        return Err(AllocError);
    };
    kept.line(alloc)
}

/// What they are printed from, used again from part to part.
pub struct Snippets {
    text: Value,
    // The client's name as JSON. It is empty before it is asked for.
    name: Vec<u8>,
    ghost name_is: { name.items ≢ [] → name.items ≡ compact_text (string (codes "client")) },
    behind: Object,
    ghost names: { IsFor behind_names (members_view behind.members.entries) },
}

// Opaque to callers' proofs: one step, and not one for each field (docs/explanation/gate.md).
impl Drop for Snippets {
    fn drop(self) {
        let Snippets {
            text: _,
            name: _,
            behind: _,
        } = self;
    }
}

impl Snippets {
    pub fn new(alloc: Global) -> Snippets {
        Snippets {
            text: Value::Null,
            name: Vec::new(alloc),
            behind: Object::new(alloc),
        }
    }

    /// A text as JSON.
    pub fn text(&mut self, alloc: Global, text: &str) -> Result<Vec<u8>, AllocError>
        ensures { IfOk result (λ printed. printed.items ≡ compact_text (string text.now)) }
    {
        set_text(alloc, &mut self.text, text)?;
        self.text.to_vec(alloc)
    }

    /// Where the client's text begins in a copy's line: behind a bracket, the name and a colon.
    pub fn client_start(&mut self, alloc: Global) -> Result<usize, AllocError>
        ensures { IfOk result (λ start. start
            ≡ length (compact_text (string (codes "client"))) + 2) }
    {
        if self.name.is_empty() {
            self.name = self.text(alloc, "client")?;
        }
        Ok(self.name.len() + 2)
    }

    /// How long the line of the members behind a copy's payload is: of one that is not for a group
    /// it is as long as what stands behind the payload in the copy's own line.
    pub fn behind_len(&mut self, alloc: Global, copy: &Delivery) -> Result<usize, AllocError>
        ensures { IfOk result (λ len. len
            ≡ length (line_text (behind_members (copy_of copy.now)))) }
    {
        let line = behind_line(alloc, &mut self.behind, copy)?;
        Ok(line.len())
    }
}
