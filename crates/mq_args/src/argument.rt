//! Arguments of a command.
ghost use Rattle.std.specs.Prelude.{◌≡◌, false, map, IfOk};
ghost use Rattle.clap.specs.Words.{app_of, new_app, rule_of};
ghost use Rattle.clap.specs.declared.builder.command.Command.TheViews.{out-Command as fields_of};
ghost use Rattle.mq_args.specs.Arguments.{rule_for, with_rules};

use clap::builder::ValueParser;
use clap::{Arg, ArgAction, Command};
use std::alloc::{AllocError, Global};

/// An argument of a command: its name, its kind, and its help.
#[derive(Drop)]
pub struct Argument<'a>(pub &'a str, pub ArgumentKind<'a>, pub &'a str);

/// Which words an argument takes. The text of a kind is what help has for the value.
#[derive(Clone, Copy, Drop)]
pub enum ArgumentKind<'a> {
    /// One that has to be there; help has its name.
    Required,
    /// One that has to be there, and may be there several times.
    Several,
    /// One that may be left out.
    Optional(&'a str),
    /// Any number of them.
    Any,
    /// `--NAME VALUE`
    Option(&'a str),
    /// The same, also taken by an old name, which help leaves out.
    Renamed(&'a str, &'a str),
    /// `--NAME N`, a whole number of 32 bits.
    Number,
    /// `--NAME`
    Flag,
}

impl<'a> Argument<'a> {
    // In the words of `clap`. The parser of an unsigned number refuses every minus sign; that of
    // `u32` takes `-0` for 0.
    fn arg(&self, alloc: Global) -> Result<Arg<'a>, AllocError>
        ensures rule { IfOk result (λ a. rule_of a ≡ rule_for self.now) }
        ensures local { IfOk result (λ a. a.global ≡ false) }
    {
        let Argument(name, kind, help) = *self;
        let arg = Arg::new(alloc, name).help(help);
        Ok(match kind {
            ArgumentKind::Required => arg.value_name(name).required(true),
            ArgumentKind::Several => arg
                .value_name(name)
                .required(true)
                .action(ArgAction::Append),
            ArgumentKind::Optional(value) => arg.value_name(value),
            ArgumentKind::Any => arg.value_name(name).action(ArgAction::Append),
            ArgumentKind::Option(value) => arg.long(name).value_name(value),
            ArgumentKind::Renamed(value, old) => arg.long(name).alias(old)?.value_name(value),
            ArgumentKind::Number => arg
                .long(name)
                .value_name("N")
                .value_parser(ValueParser::unsigned(0, u64::from(u32::MAX))),
            ArgumentKind::Flag => arg.long(name).action(ArgAction::SetTrue),
        })
    }
}

/// A command with its name and its help.
pub fn described<'a>(
    alloc: Global,
    name: &'a str,
    about: &'a str,
    after_help: &'a str,
) -> Command<'a>
    ensures app { app_of result ≡ new_app name.entry.now }
    ensures local { (fields_of result).has_globals ≡ false }
{
    Command::new(alloc, name)
        .about(about)
        .after_help(after_help)
}

/// The command with these arguments too, in the order of help.
pub fn with_arguments<'a>(
    alloc: Global,
    mut command: Command<'a>,
    arguments: &[Argument<'a>],
) -> Result<Command<'a>, AllocError>
    ensures app { IfOk result (λ c. app_of c
        ≡ with_rules (app_of command.entry) (map rule_for arguments.now)) }
    ensures local { (fields_of command.entry).has_globals ≡ false
        → IfOk result (λ c. (fields_of c).has_globals ≡ false) }
{
    for argument in arguments {
        command = command.arg(argument.arg(alloc)?)?;
    }
    Ok(command)
}
