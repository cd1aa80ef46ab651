//! From a line to a command.
//!
//! ```text
//! {"do":"subscribe","client":"a","filter":"a/#","qos":1}     a command
//! {"do":"subscribe","client":"a"}                            faulty: it has no filter
//! {"do":"subscribe","client":"a","filter":"a","fliter":"b"}  faulty: an unknown field
//! ```
ghost use Rattle.std.specs.Prelude.{◌≡◌, IfOk, IfSome, IsTrue, option_map};
ghost use Rattle.serde_json.specs.Data.{object};
ghost use Rattle.serde_json.specs.View.{view, members_view};
ghost use Rattle.mq_world.specs.Views.{request_of};
ghost use Rattle.mq_world.specs.Refusals.{is_valid};
ghost use Rattle.mq_jsonl.specs.Ahead.{finished};
ghost use Rattle.mq_jsonl.specs.Fields.{Gives, or_fault};
ghost use Rattle.mq_jsonl.specs.Reading.{connect_fields, disconnect_fields, subscribe_fields};
ghost use Rattle.mq_jsonl.specs.Reading.{unsubscribe_fields};
ghost use Rattle.mq_jsonl.specs.Reading.{publish_fields, acl_fields, advance_fields, stat_fields};
ghost use Rattle.mq_jsonl.specs.Reading.{command_of, value_of, reading, is_blank as blank};

use crate::fault::LineFault;
use crate::fields::{Fields, field};
use crate::object::members_of;
use mq_world::Command;
use serde_json::{Map, Value};
use std::alloc::Global;

/// How many bytes a line may have.
pub const LINE_LIMIT: usize = 1_048_576;

const MOST_QOS: u32 = 2;

const MOST_HANDLING: u32 = 2;

const MOST_ID: u32 = 268_435_455;

// The command, unless one of its fields has a fault or a member is left.
fn finish(fields: &Fields, command: Command) -> Result<Command, LineFault>
    ensures value { Gives request_of result (finished fields.now (request_of command)) }
    ensures valid { IsTrue (is_valid (request_of command))
        → IfOk result (λ c. IsTrue (is_valid (request_of c))) }
{
    if fields.are_faulty() {
        return Err(LineFault::BadField);
    }
    Ok(command)
}

fn connect(alloc: Global, members: &mut Map<String, Value>) -> Result<Command, LineFault>
    ensures value { Gives request_of result
        (connect_fields (object (members_view members.old.entries))) }
    ensures valid { IfOk result (λ c. IsTrue (is_valid (request_of c))) }
{
    let mut fields = Fields::of(alloc, members);
    let clean = fields.flag_or("clean", true);
    let client = fields.required_text("client");
    fields.skip("do");
    let session_expiry = fields.number_or_zero("session_expiry", u32::MAX);
    let user = fields.optional_text("user");
    finish(
        &fields,
        Command::Connect {
            client,
            user,
            clean,
            session_expiry,
        },
    )
}

fn disconnect(alloc: Global, members: &mut Map<String, Value>) -> Result<Command, LineFault>
    ensures value { Gives request_of result
        (disconnect_fields (object (members_view members.old.entries))) }
    ensures valid { IfOk result (λ c. IsTrue (is_valid (request_of c))) }
{
    let mut fields = Fields::of(alloc, members);
    let client = fields.required_text("client");
    fields.skip("do");
    finish(&fields, Command::Disconnect { client })
}

fn subscribe(alloc: Global, members: &mut Map<String, Value>) -> Result<Command, LineFault>
    ensures value { Gives request_of result
        (subscribe_fields (object (members_view members.old.entries))) }
    ensures valid { IfOk result (λ c. IsTrue (is_valid (request_of c))) }
{
    let mut fields = Fields::of(alloc, members);
    let client = fields.required_text("client");
    fields.skip("do");
    let filter = fields.required_text("filter");
    let handling = fields.number_or_zero("handling", MOST_HANDLING) as u8;
    let id = fields.optional_number("id", 1, MOST_ID);
    let no_local = fields.is_set("no_local");
    let qos = fields.number_or_zero("qos", MOST_QOS) as u8;
    let rap = fields.is_set("rap");
    finish(
        &fields,
        Command::Subscribe {
            client,
            filter,
            qos,
            no_local,
            rap,
            handling,
            id,
        },
    )
}

fn unsubscribe(alloc: Global, members: &mut Map<String, Value>) -> Result<Command, LineFault>
    ensures value { Gives request_of result
        (unsubscribe_fields (object (members_view members.old.entries))) }
    ensures valid { IfOk result (λ c. IsTrue (is_valid (request_of c))) }
{
    let mut fields = Fields::of(alloc, members);
    let client = fields.required_text("client");
    fields.skip("do");
    let filter = fields.required_text("filter");
    finish(&fields, Command::Unsubscribe { client, filter })
}

fn publish(alloc: Global, members: &mut Map<String, Value>) -> Result<Command, LineFault>
    ensures value { Gives request_of result
        (publish_fields (object (members_view members.old.entries))) }
    ensures valid { IfOk result (λ c. IsTrue (is_valid (request_of c))) }
{
    let mut fields = Fields::of(alloc, members);
    let client = fields.required_text("client");
    fields.skip("do");
    let expiry = fields.optional_number("expiry", 0, u32::MAX);
    let payload = fields.text_or_empty("payload");
    let qos = fields.number_or_zero("qos", MOST_QOS) as u8;
    let retain = fields.is_set("retain");
    let topic = fields.required_text("topic");
    finish(
        &fields,
        Command::Publish {
            client,
            topic,
            payload,
            qos,
            retain,
            expiry,
        },
    )
}

fn acl(alloc: Global, members: &mut Map<String, Value>) -> Result<Command, LineFault>
    ensures value { Gives request_of result
        (acl_fields (object (members_view members.old.entries))) }
    ensures valid { IfOk result (λ c. IsTrue (is_valid (request_of c))) }
{
    let mut fields = Fields::of(alloc, members);
    fields.skip("do");
    let text = fields.optional_text("text");
    finish(&fields, Command::SetAcl { text })
}

fn advance(alloc: Global, members: &mut Map<String, Value>) -> Result<Command, LineFault>
    ensures value { Gives request_of result
        (advance_fields (object (members_view members.old.entries))) }
    ensures valid { IfOk result (λ c. IsTrue (is_valid (request_of c))) }
{
    let mut fields = Fields::of(alloc, members);
    fields.skip("do");
    let seconds = fields.required_number("seconds");
    finish(&fields, Command::Advance { seconds })
}

fn stat(alloc: Global, members: &mut Map<String, Value>) -> Result<Command, LineFault>
    ensures value { Gives request_of result
        (stat_fields (object (members_view members.old.entries))) }
    ensures valid { IfOk result (λ c. IsTrue (is_valid (request_of c))) }
{
    let mut fields = Fields::of(alloc, members);
    fields.skip("do");
    finish(&fields, Command::Stat)
}

#[tactic(auto, unfolding(crate::specs::Reading::command_of, crate::specs::Reading::fields_of))]
fn command_in(alloc: Global, members: &mut Map<String, Value>) -> Result<Command, LineFault>
    ensures value { Gives request_of result
        (command_of (object (members_view members.old.entries))) }
    ensures valid { IfOk result (λ c. IsTrue (is_valid (request_of c))) }
{
    let Some(word) = field(members, "do").and_then(Value::as_str) else {
        return Err(LineFault::BadCommand);
    };
    match word {
        "connect" => connect(alloc, members),
        "disconnect" => disconnect(alloc, members),
        "subscribe" => subscribe(alloc, members),
        "unsubscribe" => unsubscribe(alloc, members),
        "publish" => publish(alloc, members),
        "acl" => acl(alloc, members),
        "advance" => advance(alloc, members),
        "stat" => stat(alloc, members),
        _ => Err(LineFault::BadCommand),
    }
}

// A value that is not an object has no members, and so no word.
fn command(alloc: Global, value: Value) -> Result<Command, LineFault>
    ensures value { Gives request_of result (command_of (view value)) }
    ensures valid { IfOk result (λ c. IsTrue (is_valid (request_of c))) }
{
    let mut members = members_of(alloc, value);
    command_in(alloc, &mut members)
}

fn is_blank(line: &[u8]) -> bool
    ensures { result ≡ blank line.now }
{
    line.iter()
        .all(|b| *b == b' ' || *b == b'\t' || *b == b'\r')
}

#[tactic(auto, unfolding(crate::specs::Reading::value_of))]
fn value(alloc: Global, line: &[u8]) -> Result<Value, LineFault>
    ensures { Gives view result (or_fault LineFault.BadJson (value_of line.now)) }
{
    match Value::from_slice(alloc, line) {
        Ok(value) => Ok(value),
        Err(e) => {
            if e.is_memory() {
                return Err(LineFault::Memory);
            }
            Err(LineFault::BadJson)
        }
    }
}

/// Reads a line of a script, without its line feed. A blank line, of spaces, tabs and carriage returns alone or of
/// nothing, has no command. Every other line is a JSON object whose `do` names its command.
#[tactic(auto, unfolding(crate::specs::Reading::reading))]
pub fn read_line(alloc: Global, line: &[u8]) -> Result<Option<Command>, LineFault>
    ensures value { Gives (option_map request_of) result (reading line.now) }
    ensures valid { IfOk result (λ o. IfSome o (λ c. IsTrue (is_valid (request_of c)))) }
{
    if line.len() > LINE_LIMIT {
        return Err(LineFault::LineTooLong);
    }
    if is_blank(line) {
        return Ok(None);
    }
    let value = value(alloc, line)?;
    Ok(Some(command(alloc, value)?))
}
