//! Whether subscriptions can be sent anything.
ghost use Rattle.std.specs.Prelude.{◌≡◌, ◌≤◌, ◌∷◌, ℕ, List, [], IfOk, IfErr, false};
ghost use Rattle.std.specs.Option.{option_copied};
ghost use Rattle.mq_acl_args.specs.CommandLine.{ReadsInputOnce, files_of, reach_view};
ghost use Rattle.mq_acl_args.specs.Files.{input_count, is_input as is_dash};
ghost use Rattle.mq_ask_reach.specs.Reach.{IsReached};
ghost use Rattle.mq_ask_who.specs.ReachAny.{IsReachedByAny};
ghost use Rattle.mq_ask_reach.specs.Script.{AreShown};
ghost use Rattle.mq_ask.specs.Statuses.{failure_status};
ghost use Rattle.mqroute_acl.specs.Files.{IsTextOf};
ghost use Rattle.mqroute_acl.specs.Program.{IsAnswer};

use crate::files::text_of;
use mq_acl_args::{Reach, Subscriptions, is_input};
use mq_ask::{Client, Failure, Options, Outcome};
use mq_ask_reach::{show_reach, show_subscriptions};
use mq_ask_who::show_reach_any;
use mq_print::ListText;
use std::alloc::Global;
use std::fs;
use std::io::{Read, Write};
use std::rt::Files;

/// Of a client and its subscription.
fn answer_reach_one<'a, R: Files, I: Read, W: Write>(
    rt: &R,
    alloc: Global,
    file: &'a str,
    about: (Client<'a>, &'a str),
    options: Options,
    input: &mut I,
    out: &mut W,
) -> Result<Outcome, Failure<'a>>
    ensures ok { IfOk result (λ outcome. (text : List ℕ)
        × IsTextOf (I.remaining input.old) file.entry.now text
        × IsReached options.rules text about.entry.0.id.now (option_copied about.entry.0.user)
        about.entry.1.now outcome) }
    ensures unread { IfErr result (λ failure. failure_status failure ≡ 2 → out.new ≡ out.old) }
    ensures kept { input_count (file.entry.now ∷ []) ≡ 0 → input.new ≡ input.old }
{
    let text = text_of(rt, alloc, file, input)?;
    let list = ListText {
        file,
        text: text.as_str(),
    };
    show_reach(alloc, list, about.0, about.1, options, out)
}

/// Of a file, a user name or none, and a filter: of clients with any id.
fn answer_reach_any<'a, R: Files, I: Read, W: Write>(
    rt: &R,
    alloc: Global,
    about: (&'a str, Option<&'a str>, &'a str),
    options: Options,
    input: &mut I,
    out: &mut W,
) -> Result<Outcome, Failure<'a>>
    ensures ok { IfOk result (λ outcome. (text : List ℕ)
        × IsTextOf (I.remaining input.old) about.entry.0.now text
        × IsReachedByAny options.rules text (option_copied about.entry.1) about.entry.2.now outcome) }
    ensures unread { IfErr result (λ failure. failure_status failure ≡ 2 → out.new ≡ out.old) }
    ensures kept { input_count (about.entry.0.now ∷ []) ≡ 0 → input.new ≡ input.old }
{
    let text = text_of(rt, alloc, about.0, input)?;
    let list = ListText {
        file: about.0,
        text: text.as_str(),
    };
    show_reach_any(alloc, list, about.1, about.2, options, out)
}

/// Of the script in a file.
fn answer_script<'a, R: Files, I: Read, W: Write>(
    rt: &R,
    alloc: Global,
    list: ListText<'a, '_>,
    script: &'a str,
    options: Options,
    input: &mut I,
    out: &mut W,
) -> Result<Outcome, Failure<'a>>
    ensures ok { IfOk result (λ outcome. (lines : List ℕ)
        × IsTextOf (I.remaining input.old) script.entry.now lines
        × AreShown options.rules list.entry.text.now lines outcome) }
    ensures unread { IfErr result (λ failure. failure_status failure ≡ 2 → out.new ≡ out.old) }
    ensures kept { is_dash script.entry.now ≡ false → input.new ≡ input.old }
{
    if is_input(script) {
        return show_subscriptions(alloc, list, script, input, options, out);
    }
    match fs::open(rt, script) {
        Ok(mut opened) => show_subscriptions(alloc, list, script, &mut opened, options, out),
        Err(error) => Err(Failure::of_io(script, error)),
    }
}

/// Of all subscriptions of a script.
fn answer_reach_all<'a, R: Files, I: Read, W: Write>(
    rt: &R,
    alloc: Global,
    file: &'a str,
    script: &'a str,
    options: Options,
    input: &mut I,
    out: &mut W,
) -> Result<Outcome, Failure<'a>>
    requires { input_count (file.now ∷ script.now ∷ []) ≤ 1 }
    ensures ok { IfOk result (λ outcome. (text lines : List ℕ)
        × IsTextOf (I.remaining input.old) file.entry.now text
        × IsTextOf (I.remaining input.old) script.entry.now lines
        × AreShown options.rules text lines outcome) }
    ensures unread { IfErr result (λ failure. failure_status failure ≡ 2 → out.new ≡ out.old) }
    ensures kept { input_count (file.entry.now ∷ script.entry.now ∷ []) ≡ 0
        → input.new ≡ input.old }
{
    let text = text_of(rt, alloc, file, input)?;
    let list = ListText {
        file,
        text: text.as_str(),
    };
    answer_script(rt, alloc, list, script, options, input, out)
}

/// Of a list, and of subscriptions.
pub(crate) fn answer_reach<'a, R: Files, I: Read, W: Write>(
    rt: &R,
    alloc: Global,
    asked: Reach<'a>,
    options: Options,
    input: &mut I,
    out: &mut W,
) -> Result<Outcome, Failure<'a>>
    requires { ReadsInputOnce (reach_view asked.file.now asked.subscriptions) }
    ensures ok { IfOk result (λ outcome. IsAnswer options.rules
        (I.remaining input.old) (reach_view asked.entry.file.now asked.entry.subscriptions) outcome) }
    ensures unread { IfErr result (λ failure. failure_status failure ≡ 2 → out.new ≡ out.old) }
    ensures kept { input_count (files_of (reach_view asked.entry.file.now asked.entry.subscriptions)) ≡ 0
        → input.new ≡ input.old }
{
    let file = asked.file;
    match asked.subscriptions {
        Subscriptions::Of { client, filter } => {
            let about = (client, filter);
            answer_reach_one(rt, alloc, file, about, options, input, out)
        }
        Subscriptions::OfAny { user, wanted } => {
            let about = (file, user, wanted);
            answer_reach_any(rt, alloc, about, options, input, out)
        }
        Subscriptions::In(script) => {
            answer_reach_all(rt, alloc, file, script, options, input, out)
        }
    }
}
