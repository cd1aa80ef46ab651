//! Copies of one publish share their text, and so do, in part, those that one client is sent: of a
//! further line the texts that differ are printed, and the rest is copied from the first one's.
ghost use Rattle.std.specs.Prelude.{◌≡◌, ◌++◌, ◌+◌, ◌-◌, ◌≤◌, ℕ, List, None, All, OnOk, OnErr};
ghost use Rattle.std.specs.Prelude.{codes, length, map, take, drop};
ghost use Rattle.std.specs.List.{flat_map};
ghost use Rattle.serde_json.specs.Data.{string};
ghost use Rattle.serde_json.specs.Written.{compact_text};
ghost use Rattle.mq_world.specs.Views.{copy_of};
ghost use Rattle.mq_jsonl.specs.Printed.{copy_text, line_text};
ghost use Rattle.mq_jsonl.specs.Shared.{SameButClient, SameButMessage, with_client, with_message};
ghost use Rattle.mq_jsonl.specs.Shared.{behind_members};

use crate::snippets::Snippets;
use crate::texts::topic_of;
use mq_world::Delivery;
use std::alloc::{AllocError, Global};

// Of a line's end: its closing bracket and its line feed.
const END: usize = 2;

// What stands before and behind the part of a line that begins there and is so long.
fn around(line: &[u8], start: usize, len: usize) -> (&[u8], &[u8])
    requires { start + len ≤ length line.now }
    ensures front { result.0.now ≡ take start line.now }
    ensures behind { result.1.now ≡ drop len (drop start line.now) }
{
    let (front, rest) = line.split_at(start);
    let (_, behind) = rest.split_at(len);
    (front, behind)
}

// What stands before and behind a part that is so long and has so much behind it.
fn around_before(line: &[u8], len: usize, rest: usize) -> (&[u8], &[u8])
    requires { len + rest ≤ length line.now }
    ensures front { result.0.now ≡ take (length line.now - (len + rest)) line.now }
    ensures behind { result.1.now ≡ drop len (drop (length line.now - (len + rest)) line.now) }
{
    around(line, line.len() - (len + rest), len)
}

// Adds a text, and what stands before and behind it.
fn add(front: &[u8], text: &[u8], behind: &[u8], out: &mut Vec<u8>) -> Result<(), AllocError>
    ensures ok { OnOk result (out.new.items ≡ out.old.items
        ++ (front.now ++ (text.now ++ behind.now))) }
    ensures err { OnErr result ((more : List ℕ) × (out.new.items ≡ out.old.items ++ more)) }
{
    out.extend_from_slice(front)?;
    out.extend_from_slice(text)?;
    out.extend_from_slice(behind)
}

// Adds two texts, and what stands before, between and behind them.
fn add_two(
    front: &[u8],
    first: &[u8],
    between: &[u8],
    second: &[u8],
    behind: &[u8],
    out: &mut Vec<u8>,
) -> Result<(), AllocError>
    ensures ok { OnOk result (out.new.items ≡ out.old.items
        ++ (front.now ++ (first.now ++ (between.now ++ (second.now ++ behind.now))))) }
    ensures err { OnErr result ((more : List ℕ) × (out.new.items ≡ out.old.items ++ more)) }
{
    add(front, first, between, out)?;
    out.extend_from_slice(second)?;
    out.extend_from_slice(behind)
}

/// The line of a copy, as it was printed.
pub struct Printed<'a> {
    pub line: u64,
    pub copy: &'a Delivery,
    pub text: Vec<u8>,
    ghost is_line: { text.items ≡ copy_text line (copy_of copy.now) },
}

// Opaque to callers' proofs: one step, and not one for each field (docs/explanation/gate.md).
impl Drop for Printed<'_> {
    fn drop(self) {
        let Printed {
            line: _,
            copy: _,
            text: _,
        } = self;
    }
}

impl Printed<'_> {
    // What stands before and behind the client, whichever it is.
    fn around_client(&self, start: usize, client: usize) -> (&[u8], &[u8])
        requires start { start ≡ length (compact_text (string (codes "client"))) + 2 }
        requires client { client
            ≡ length (compact_text (string (copy_of self.now.copy.now).client)) }
        ensures { (client : List ℕ)
            → copy_text self.now.line (with_client client (copy_of self.now.copy.now))
            ≡ result.0.now ++ (compact_text (string client) ++ result.1.now) }
    {
        around(self.text.as_slice(), start, client)
    }

    /// Adds the lines of copies that differ from it in their clients alone.
    pub fn add_clients(
        &self,
        alloc: Global,
        snippets: &mut Snippets,
        further: &[Delivery],
        out: &mut Vec<u8>,
    ) -> Result<(), AllocError>
        requires { All (λ d. SameButClient (copy_of self.now.copy.now) (copy_of d)) further.now }
        ensures ok { OnOk result (out.new.items ≡ out.old.items
            ++ flat_map (copy_text self.now.line) (map copy_of further.now)) }
        ensures err { OnErr result ((more : List ℕ) × (out.new.items ≡ out.old.items ++ more)) }
    {
        if further.is_empty() {
            return Ok(());
        }
        let start = snippets.client_start(alloc)?;
        let client = snippets.text(alloc, self.copy.client.as_str())?;
        let (front, behind) = self.around_client(start, client.len());
        for copy in further {
            let client = snippets.text(alloc, copy.client.as_str())?;
            add(front, client.as_slice(), behind, out)?;
        }
        Ok(())
    }

    // What stands before the topic, and behind it, whichever it is.
    fn around_topic(&self, topic: usize) -> (&[u8], &[u8])
        requires { topic ≡ length (compact_text (string (copy_of self.now.copy.now).topic)) }
        ensures { (topic : List ℕ) → copy_text self.now.line
            (with_message topic (copy_of self.now.copy.now).payload (copy_of self.now.copy.now))
            ≡ result.0.now ++ (compact_text (string topic) ++ result.1.now) }
    {
        around_before(self.text.as_slice(), topic, END)
    }

    // What stands before the payload, between it and the topic, and behind the topic, whichever
    // they are.
    fn around_message(&self, payload: usize, topic: usize, rest: usize) -> (&[u8], &[u8], &[u8])
        requires group { (copy_of self.now.copy.now).group ≡ None }
        requires payload { payload
            ≡ length (compact_text (string (copy_of self.now.copy.now).payload)) }
        requires topic { topic ≡ length (compact_text (string (copy_of self.now.copy.now).topic)) }
        requires rest { rest ≡ length (line_text (behind_members (copy_of self.now.copy.now))) }
        ensures { (topic payload : List ℕ)
            → copy_text self.now.line (with_message topic payload (copy_of self.now.copy.now))
            ≡ result.0.now ++ (compact_text (string payload) ++ (result.1.now
            ++ (compact_text (string topic) ++ result.2.now))) }
    {
        let (front, behind) = around_before(self.text.as_slice(), payload, rest);
        let (between, end) = around_before(behind, topic, END);
        (front, between, end)
    }

    /// Adds the lines of copies that differ from it in topic and payload alone.
    pub fn add_messages(
        &self,
        alloc: Global,
        snippets: &mut Snippets,
        further: &[Delivery],
        out: &mut Vec<u8>,
    ) -> Result<(), AllocError>
        requires { All (λ d. SameButMessage (copy_of self.now.copy.now) (copy_of d)) further.now }
        ensures ok { OnOk result (out.new.items ≡ out.old.items
            ++ flat_map (copy_text self.now.line) (map copy_of further.now)) }
        ensures err { OnErr result ((more : List ℕ) × (out.new.items ≡ out.old.items ++ more)) }
    {
        if further.is_empty() {
            return Ok(());
        }
        let payload = snippets.text(alloc, self.copy.payload.as_str())?;
        let topic = snippets.text(alloc, topic_of(self.copy))?;
        let rest = snippets.behind_len(alloc, self.copy)?;
        let (before, after) = self.around_topic(topic.len());
        let (front, between, end) = self.around_message(payload.len(), topic.len(), rest);
        for copy in further {
            let topic = snippets.text(alloc, topic_of(copy))?;
            // A payload such as `on` is that of many.
            if copy.payload == self.copy.payload {
                add(before, topic.as_slice(), after, out)?;
            } else {
                let payload = snippets.text(alloc, copy.payload.as_str())?;
                add_two(
                    front,
                    payload.as_slice(),
                    between,
                    topic.as_slice(),
                    end,
                    out,
                )?;
            }
        }
        Ok(())
    }
}
