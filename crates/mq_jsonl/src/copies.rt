//! The objects of the lines of copies, used again from line to line.
ghost use Rattle.std.specs.Prelude.{◌≡◌, ◌++◌, ◌∷◌, ℕ, List, true, false, IfSome, IfOk, OnOk};
ghost use Rattle.std.specs.Prelude.{OnErr, All, map};
ghost use Rattle.std.specs.List.{flat_map};
ghost use Rattle.std.specs.Option.{option_copied, option_map};
ghost use Rattle.serde_json.specs.View.{members_view};
ghost use Rattle.mq_world.specs.Views.{copy_of};
ghost use Rattle.mq_jsonl.specs.Printed.{copy_members, copy_text};
ghost use Rattle.mq_jsonl.specs.Objects.{IsFor, copy_names, parts, parts_of};
ghost use Rattle.mq_jsonl.specs.Behind.{IsBehind, Follows, Keeps};
ghost use Rattle.mq_jsonl.specs.Shared.{AddsRun};

use crate::alike::{count_clients, count_messages, is_alike};
use crate::object::{Datum, Object};
use crate::printed::Printed;
use crate::snippets::Snippets;
use crate::texts::{filter_of, share_of, topic_of};
use mq_topic::LevelText;
use mq_world::Delivery;
use std::alloc::{AllocError, Global};

#[tactic(auto, unfolding(crate::specs::Printed::copy_members))]
fn put_copy(
    alloc: Global,
    object: &mut Object,
    line: u64,
    delivery: &Delivery,
) -> Result<(), AllocError>
    requires { IsFor (copy_names (parts_of (copy_of delivery.now)))
        (members_view object.old.members.entries) }
    ensures { OnOk result (members_view object.new.members.entries
        ≡ copy_members line (copy_of delivery.now)) }
{
    object.text(alloc, "client", delivery.client.as_str())?;
    object.number(alloc, "line", line)?;
    object.text(alloc, "payload", delivery.payload.as_str())?;
    object.number(alloc, "qos", u64::from(delivery.qos))?;
    object.flag(alloc, "retain", delivery.retain)?;
    object.text(alloc, "topic", topic_of(delivery))?;
    object.numbers_if(alloc, "ids", delivery.ids.as_slice())?;
    object.short_if(alloc, "expiry", delivery.expiry)?;
    object.text_if(alloc, "filter", filter_of(delivery))?;
    object.text_if(alloc, "share", share_of(delivery))
}

// Members that are there are written over in one walk, in the order of their names.
#[tactic(auto, unfolding(crate::specs::Objects::copy_names))]
fn set_copy(
    alloc: Global,
    object: &mut Object,
    line: u64,
    delivery: &Delivery,
) -> Result<(), AllocError>
    requires { IsFor (copy_names (parts_of (copy_of delivery.now)))
        (members_view object.old.members.entries) }
    ensures { OnOk result (members_view object.new.members.entries
        ≡ copy_members line (copy_of delivery.now)) }
{
    if object.is_empty() {
        return put_copy(alloc, object, line, delivery);
    }
    let client = Datum::Text(delivery.client.as_str());
    let number = Datum::Number(line);
    let payload = Datum::Text(delivery.payload.as_str());
    let qos = Datum::Number(u64::from(delivery.qos));
    let retain = Datum::Flag(delivery.retain);
    let topic = Datum::Text(topic_of(delivery));
    let ids = delivery.ids.as_slice();
    match (ids.is_empty(), delivery.expiry, &delivery.group) {
        (true, None, None) => {
            object.refill(alloc, &[client, number, payload, qos, retain, topic])
        }
        (false, None, None) => {
            let ids = Datum::Numbers(ids);
            object.refill(alloc, &[client, ids, number, payload, qos, retain, topic])
        }
        (true, Some(seconds), None) => {
            let expiry = Datum::Number(u64::from(seconds));
            object.refill(
                alloc,
                &[client, expiry, number, payload, qos, retain, topic],
            )
        }
        (true, None, Some((share, filter))) => {
            let share = Datum::Text(share.as_str());
            let filter = Datum::Text(filter.text());
            object.refill(
                alloc,
                &[client, filter, number, payload, qos, retain, share, topic],
            )
        }
        _ => put_copy(alloc, object, line, delivery),
    }
}

// Writes the texts of a copy over those of one that is like it. Of one message they differ in their
// clients alone.
fn set_texts(
    alloc: Global,
    object: &mut Object,
    line: u64,
    before: &Delivery,
    delivery: &Delivery,
) -> Result<(), AllocError>
    requires { IsBehind line (copy_of before.now) (copy_of delivery.now)
        (members_view object.old.members.entries) }
    ensures { OnOk result (members_view object.new.members.entries
        ≡ copy_members line (copy_of delivery.now)) }
{
    let client = delivery.client.as_str();
    let topic = topic_of(delivery);
    let payload = delivery.payload.as_str();
    let same_topic = before.topic == delivery.topic;
    if same_topic && before.payload == delivery.payload {
        return object.text(alloc, "client", client);
    }
    object.change_text(alloc, "client", before.client.as_str(), client)?;
    if same_topic {
        return object.text(alloc, "payload", payload);
    }
    object.text(alloc, "topic", topic)?;
    object.change_text(alloc, "payload", before.payload.as_str(), payload)
}

fn set_line(
    alloc: Global,
    object: &mut Object,
    line: u64,
    delivery: &Delivery,
    before: Option<&Delivery>,
) -> Result<(), AllocError>
    requires fits { IsFor (copy_names (parts_of (copy_of delivery.now)))
        (members_view object.old.members.entries) }
    requires before { IfSome (option_copied before) (λ before. IsBehind line (copy_of before)
        (copy_of delivery.now) (members_view object.old.members.entries)) }
    ensures { OnOk result (members_view object.new.members.entries
        ≡ copy_members line (copy_of delivery.now)) }
{
    match before {
        Some(before) => set_texts(alloc, object, line, before, delivery),
        None => set_copy(alloc, object, line, delivery),
    }
}

// Where the object has the line of a copy that is like this one, only what differs is written.
fn copy_line(
    alloc: Global,
    kept: &mut Object,
    line: u64,
    delivery: &Delivery,
    before: Option<&Delivery>,
) -> Result<Vec<u8>, AllocError>
    requires fits { IsFor (copy_names (parts_of (copy_of delivery.now)))
        (members_view kept.old.members.entries) }
    requires before { IfSome (option_copied before) (λ before. IsBehind line (copy_of before)
        (copy_of delivery.now) (members_view kept.old.members.entries)) }
    ensures text { IfOk result (λ text. text.items ≡ copy_text line (copy_of delivery.now)) }
    ensures fits { IsFor (copy_names (parts_of (copy_of delivery.now)))
        (members_view kept.new.members.entries) }
    ensures kept { OnOk result (members_view kept.new.members.entries
        ≡ copy_members line (copy_of delivery.now)) }
{
    let Ok(()) = set_line(alloc, kept, line, delivery, before) else {
        *kept = Object::new(alloc);
        return Err(AllocError);
    };
    kept.line(alloc)
}

/// An object for copies without identifiers, interval and group, and one for those with each of these
/// alone. Other copies have their own.
pub struct Copies {
    plain: Object,
    ghost plain_names: { IsFor (copy_names (parts false false false))
        (members_view plain.members.entries) },
    with_ids: Object,
    ghost ids_names: { IsFor (copy_names (parts true false false))
        (members_view with_ids.members.entries) },
    with_expiry: Object,
    ghost expiry_names: { IsFor (copy_names (parts false true false))
        (members_view with_expiry.members.entries) },
    with_group: Object,
    ghost group_names: { IsFor (copy_names (parts false false true))
        (members_view with_group.members.entries) },
    snippets: Snippets,
}

// Opaque to callers' proofs: one step, and not one for each field (docs/explanation/gate.md).
impl Drop for Copies {
    fn drop(self) {
        let Copies {
            plain: _,
            with_ids: _,
            with_expiry: _,
            with_group: _,
            snippets: _,
        } = self;
    }
}

impl Copies {
    pub fn new(alloc: Global) -> Copies {
        Copies {
            plain: Object::new(alloc),
            with_ids: Object::new(alloc),
            with_expiry: Object::new(alloc),
            with_group: Object::new(alloc),
            snippets: Snippets::new(alloc),
        }
    }

    fn line(
        &mut self,
        alloc: Global,
        line: u64,
        delivery: &Delivery,
        before: Option<&Delivery>,
    ) -> Result<Vec<u8>, AllocError>
        requires { IfSome (option_copied before) (λ before. Follows line (copy_of before)
            (copy_of delivery.now) self.old.plain self.old.with_ids self.old.with_expiry
            self.old.with_group) }
        ensures text { IfOk result (λ text. text.items ≡ copy_text line (copy_of delivery.now)) }
        ensures kept { OnOk result
            (Keeps line (copy_of delivery.now) self.new.plain self.new.with_ids self.new.with_expiry
            self.new.with_group) }
    {
        match (delivery.ids.is_empty(), delivery.expiry, &delivery.group) {
            (true, None, None) => copy_line(alloc, &mut self.plain, line, delivery, before),
            (false, None, None) => copy_line(alloc, &mut self.with_ids, line, delivery, before),
            (true, Some(_), None) => {
                copy_line(alloc, &mut self.with_expiry, line, delivery, before)
            }
            (true, None, Some(_)) => copy_line(alloc, &mut self.with_group, line, delivery, before),
            _ => copy_line(alloc, &mut Object::new(alloc), line, delivery, None),
        }
    }

    // Prints the first copy's line whole, and of the next ones' what differs. Gives those that are
    // left.
    fn print_run<'a>(
        &mut self,
        alloc: Global,
        line: u64,
        first: &Delivery,
        others: &'a [Delivery],
        before: Option<&Delivery>,
        out: &mut Vec<u8>,
    ) -> Result<&'a [Delivery], AllocError>
        requires { IfSome (option_copied before) (λ before. Follows line (copy_of before)
            (copy_of first.now) self.old.plain self.old.with_ids self.old.with_expiry
            self.old.with_group) }
        ensures ok { IfOk result (λ left. AddsRun line first.now others.entry.now left.now
            out.old.items out.new.items) }
        ensures err { OnErr result ((more : List ℕ) × (out.new.items ≡ out.old.items ++ more)) }
        ensures kept { OnOk result
            (Keeps line (copy_of first.now) self.new.plain self.new.with_ids self.new.with_expiry
            self.new.with_group) }
    {
        let text = self.line(alloc, line, first, before)?;
        out.extend_from_slice(text.as_slice())?;
        let printed = Printed {
            line,
            copy: first,
            text,
        };
        let (clients, others) = others.split_at(count_clients(first, others));
        printed.add_clients(alloc, &mut self.snippets, clients, out)?;
        let (messages, left) = others.split_at(count_messages(first, others));
        printed.add_messages(alloc, &mut self.snippets, messages, out)?;
        Ok(left)
    }

    /// Adds a line for each copy. Of those that differ from one before them in their clients alone,
    /// or in topic and payload, these texts are printed, and the rest is copied from its line.
    pub fn print_all(
        &mut self,
        alloc: Global,
        line: u64,
        all: &[Delivery],
        out: &mut Vec<u8>,
    ) -> Result<(), AllocError>
        ensures ok { OnOk result (out.new.items ≡ out.old.items
            ++ flat_map (copy_text line) (map copy_of all.now)) }
        ensures err { OnErr result ((more : List ℕ) × (out.new.items ≡ out.old.items ++ more)) }
    {
        let mut before: Option<&Delivery> = None;
        let mut left = all;
        while let Some((first, others)) = left.split_first() {
            let alike = match before {
                Some(before) if is_alike(before, first) => Some(before),
                _ => None,
            };
            left = self.print_run(alloc, line, first, others, alike, out)?;
            before = Some(first);
        }
        Ok(())
    }
}
