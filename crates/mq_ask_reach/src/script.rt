//! The answer to `reach --script`.
ghost use Rattle.std.specs.Io.KnownBytes.{Consumes, IsAtEnd};
ghost use Rattle.std.specs.Prelude.{◌≡◌, ◌≢◌, ◌⊎◌, ◌<◌, [], ℕ, List, Option, IfOk, IfErr, OnOk};
ghost use Rattle.std.specs.Prelude.{true};
ghost use Rattle.mq_ask.specs.Failures.{IsListFailure};
ghost use Rattle.mq_ask.specs.Lists.{AreRows};
ghost use Rattle.mq_ask.specs.Statuses.{failure_status};
ghost use Rattle.mq_ask_reach.specs.Objects.{AreUnreachedWritten};
ghost use Rattle.mq_ask_reach.specs.Script.{IsScriptFailure, FindsUnreached, AreShown};
ghost use Rattle.mq_reach.specs.Faults.{IsScriptFault};

use crate::subscriptions::subscriptions_text;
use mq_acl::{Row, Rules};
use mq_ask::{Failure, Options, Outcome, print_outcome, rows_in};
use mq_print::ListText;
use mq_reach::{Findings, ScriptFault, SearchFault, find_unreached};
use std::alloc::Global;
use std::io::{Read, Write};

fn script_failure<'a>(
    rules: Rules,
    list: ListText<'a, '_>,
    rows: &[Row],
    script: &'a str,
    fault: ScriptFault,
) -> Failure<'a>
    requires { AreRows rules list.text.now rows.now }
    ensures { (before after : Option (List ℕ)) → IsScriptFault rules rows.now before after fault
        → IsListFailure rules list.entry result
        ⊎ IsScriptFailure rules list.entry.text.now script.entry.now before after result }
{
    match fault {
        ScriptFault::Read(error) => Failure::of_io(script, error),
        ScriptFault::TooLong => Failure::LongScript(script),
        ScriptFault::Search(SearchFault::Memory) => Failure::Memory,
        ScriptFault::Search(SearchFault::Row(line)) => Failure::Long {
            file: list.file,
            line,
        },
        ScriptFault::Search(SearchFault::Subscription(line)) => {
            Failure::LongSubscription { file: script, line }
        }
    }
}

// The findings, unless no line of the script is a command.
fn unless_no_command<'a>(findings: Findings, script: &'a str) -> Result<Findings, Failure<'a>>
    ensures ok { IfOk result (λ kept. (kept ≡ findings) × (0 < findings.counts.commands)) }
    ensures err { IfErr result (λ failure. (findings.counts.commands ≡ 0)
        × ((failure ≡ Failure.NoCommand script.entry findings.counts.lines)
        ⊎ (failure ≡ Failure.Log script.entry findings.counts.lines))) }
{
    if findings.counts.commands > 0 {
        return Ok(findings);
    }
    let lines = findings.counts.lines;
    if findings.is_log {
        return Err(Failure::Log {
            file: script,
            lines,
        });
    }
    Err(Failure::NoCommand {
        file: script,
        lines,
    })
}

/// The subscriptions of the script that this reader gives, with this name, that can receive nothing
/// under the list. A script of which no line is a command is a failure: it is another file than was
/// meant.
pub fn find_subscriptions<'a, R: Read>(
    alloc: Global,
    rules: Rules,
    list: ListText<'a, '_>,
    script: &'a str,
    reader: &mut R,
) -> Result<Findings, Failure<'a>>
    ensures ok { IfOk result (λ findings. (given : List ℕ)
        × Consumes (R.remaining reader.old) (R.remaining reader.new) given
        × IsAtEnd (R.remaining reader.new)
        × FindsUnreached rules list.entry.text.now given findings) }
    ensures err { IfErr result (λ failure. IsListFailure rules list.entry failure
        ⊎ IsScriptFailure rules list.entry.text.now script.entry.now (R.remaining reader.old)
        (R.remaining reader.new) failure) }
{
    let rows = rows_in(alloc, rules, list)?;
    match find_unreached(alloc, rules, &rows, reader) {
        Ok(findings) => unless_no_command(findings, script),
        Err(fault) => Err(script_failure(rules, list, &rows, script, fault)),
    }
}

// Whether there are any.
fn outcome_of(findings: &Findings) -> Outcome
    ensures clear { result ≡ Outcome.Clear → findings.now.unreached.items ≡ [] }
    ensures remark { result ≡ Outcome.Remark → findings.now.unreached.items ≢ [] }
{
    if findings.unreached.is_empty() {
        return Outcome::Clear;
    }
    Outcome::Remark
}

/// Shows the subscriptions of the script that this reader gives, with this name, that can receive
/// nothing under the list.
pub fn show_subscriptions<'a, R: Read, W: Write>(
    alloc: Global,
    list: ListText<'a, '_>,
    script: &'a str,
    reader: &mut R,
    options: Options,
    out: &mut W,
) -> Result<Outcome, Failure<'a>>
    ensures ok { IfOk result (λ outcome. (given : List ℕ)
        × Consumes (R.remaining reader.old) (R.remaining reader.new) given
        × IsAtEnd (R.remaining reader.new) × AreShown options.rules list.entry.text.now given outcome) }
    ensures unread { IfErr result (λ failure. failure_status failure ≡ 2 → out.new ≡ out.old) }
    ensures json { OnOk result (options.json ≡ true → (given : List ℕ)
        × Consumes (R.remaining reader.old) (R.remaining reader.new) given
        × IsAtEnd (R.remaining reader.new)
        × AreUnreachedWritten options.rules list.entry.text.now script.entry.now given
        (W.contents out.old) (W.contents out.new)) }
{
    let findings = find_subscriptions(alloc, options.rules, list, script, reader)?;
    let outcome = outcome_of(&findings);
    let text = subscriptions_text(alloc, script, &findings, options.json)?;
    print_outcome(out, Ok(text), outcome)
}
