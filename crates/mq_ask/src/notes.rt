//! For which clients an answer is, where it isn't for all.
ghost use Rattle.std.specs.Prelude.{◌≡◌, ◌++◌, OnOk, false, string_bytes, true};
ghost use Rattle.mq_acl.specs.declared.rules.Rules.TheVariants.{Own, Mosquitto};
ghost use Rattle.mq_ask.specs.Notes.{limit_line};
ghost use Rattle.mq_ask.specs.Objects.{limit_text};

use mq_acl::Rules;
use mq_print::{Datum, add_object};
use std::alloc::{AllocError, Global};

/// For which clients by mosquitto's rules `who`, `test` and `reach --any` answer, in JSON and XML. To others no `pattern`
/// line of a list grants anything.
pub const LIMITED_TO: &str =
    "client ids without + and #, and user names without them or in the list; others may do no more";

/// Adds by mosquitto's rules for which clients `who`, `test` and `reach --any` answer: behind what is shown, as a line or as a
/// JSON object.
pub fn add_limit(
    alloc: Global,
    text: &mut String,
    rules: Rules,
    json: bool,
) -> Result<(), AllocError>
    ensures own { OnOk result (rules ≡ Own → text.new ≡ text.old) }
    ensures words { OnOk result (rules ≡ Mosquitto → json ≡ false
        → string_bytes text.new ≡ string_bytes text.old ++ limit_line) }
    ensures object { OnOk result (rules ≡ Mosquitto → json ≡ true
        → string_bytes text.new ≡ string_bytes text.old ++ limit_text) }
{
    if rules == Rules::Own {
        return Ok(());
    }
    if json {
        return add_object(alloc, text, &[("limited_to", Datum::Text(LIMITED_TO))]);
    }
    writeln!(text, "the answer is for {LIMITED_TO}")
}
