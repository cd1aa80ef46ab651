//! The rows of an access list.
ghost use Rattle.std.specs.Prelude.{◌≡◌, ◌⊎◌, Err, IfOk, IfErr, OnOk};
ghost use Rattle.mq_acl.specs.Rows.{out_of_memory, rows_by};
ghost use Rattle.mq_acl.specs.declared.rules.Rules.TheVariants.{Mosquitto};
ghost use Rattle.mq_ask.specs.Failures.{IsListFailure, IsNotTaken};
ghost use Rattle.mq_ask.specs.Lists.{AreRows, IsTaken};

use crate::failure::Failure;
use crate::faults::fault_words;
use crate::foreign::foreign_words;
use crate::reload::reload_words;
use mq_acl::{AclFault, AclKind, Row, Rules, read_rows_by};
use mq_print::ListText;
use std::alloc::{AllocError, Global};

fn line_failure<'a>(
    alloc: Global,
    rules: Rules,
    list: ListText<'a, '_>,
    fault: AclFault,
) -> Result<Failure<'a>, AllocError>
    ensures { rows_by rules list.entry.text.now ≡ Err fault
        → IfOk result (IsListFailure rules list.entry) }
{
    let file = list.file;
    if let Some(what) = foreign_words(list.text) {
        return Ok(Failure::Foreign(file, what));
    }
    let words = fault_words(alloc, rules, list.whole_line(fault.line), fault.kind)?;
    let line = fault.line;
    match rules {
        Rules::Own => Ok(Failure::Line { file, line, words }),
        Rules::Mosquitto => {
            let words = not_taken_words(alloc, file, words.as_str())?;
            Ok(Failure::Line { file, line, words })
        }
    }
}

// Why mosquitto doesn't take a list, and what it does with one.
fn not_taken_words(alloc: Global, file: &str, words: &str) -> Result<String, AllocError> {
    let reload = reload_words(alloc, file)?;
    format!(in alloc; "{words}. {reload}")
}

/// Why the list isn't read by these rules, where it has this fault, or memory ran out.
pub fn list_failure<'a>(
    alloc: Global,
    rules: Rules,
    list: ListText<'a, '_>,
    fault: AclFault,
) -> Failure<'a>
    ensures { (fault ≡ out_of_memory) ⊎ (rows_by rules list.entry.text.now ≡ Err fault)
        → IsListFailure rules list.entry result }
{
    if fault.kind == AclKind::Memory {
        return Failure::Memory;
    }
    match line_failure(alloc, rules, list, fault) {
        Ok(failure) => failure,
        Err(_) => Failure::Memory,
    }
}

fn not_taken<'a>(
    alloc: Global,
    list: ListText<'a, '_>,
    fault: AclFault,
) -> Result<Failure<'a>, AllocError>
    ensures { rows_by Mosquitto list.entry.text.now ≡ Err fault
        → IfOk result (IsNotTaken list.entry) }
{
    let file = list.file;
    if let Some(what) = foreign_words(list.text) {
        return Ok(Failure::Foreign(file, what));
    }
    let line = list.whole_line(fault.line);
    let words = fault_words(alloc, Rules::Mosquitto, line, fault.kind)?;
    Ok(Failure::NotTaken {
        file,
        line: fault.line,
        words: not_taken_words(alloc, file, words.as_str())?,
    })
}

/// That mosquitto takes the list; else its first line that it doesn't take.
pub fn check_taken<'a>(alloc: Global, list: ListText<'a, '_>) -> Result<(), Failure<'a>>
    ensures ok { OnOk result (IsTaken list.entry.text.now) }
    ensures err { IfErr result (IsNotTaken list.entry) }
{
    match read_rows_by(alloc, Rules::Mosquitto, list.text) {
        Ok(_) => Ok(()),
        Err(fault) if fault.kind == AclKind::Memory => Err(Failure::Memory),
        Err(fault) => Err(not_taken(alloc, list, fault)?),
    }
}

/// The rows of the list, read by these rules.
pub fn rows_in<'a>(
    alloc: Global,
    rules: Rules,
    list: ListText<'a, '_>,
) -> Result<Vec<Row>, Failure<'a>>
    ensures ok { IfOk result (λ rows. AreRows rules list.entry.text.now rows.items) }
    ensures err { IfErr result (IsListFailure rules list.entry) }
{
    match read_rows_by(alloc, rules, list.text) {
        Ok(rows) => Ok(rows),
        Err(fault) => Err(list_failure(alloc, rules, list, fault)),
    }
}
