ghost use Rattle.clap.specs.Words.{Kinds, HasKind, IsAmong};
ghost use Rattle.mq_args.specs.Usage.{IsFaultOf};

use clap::Error;
use clap::error::ErrorKind;
use std::alloc::{AllocError, Global};

/// Why the words of a command line are not understood.
#[derive(Debug, Drop)]
pub enum UsageFault {
    /// Help is asked for; the text is to be printed on standard output.
    Help(String),
    /// The words are not understood; the text says why.
    Usage(String),
    /// There was no memory.
    Memory,
}

impl From<AllocError> for UsageFault {
    ghost use Rattle.std.specs.Prelude.{◌≡◌};
    ghost use Rattle.mq_args.specs.declared.usage.UsageFault.TheVariants.{Memory};

    ghost from_gives = { λ _ fault. fault ≡ Memory };

    fn from(_: AllocError) -> UsageFault {
        UsageFault::Memory
    }
}

impl UsageFault {
    /// Why `clap` refused the words.
    pub fn of(alloc: Global, error: &Error) -> UsageFault
        ensures { (kinds : Kinds) → HasKind kinds error.now → IsFaultOf kinds result }
    {
        let Ok(text) = error.to_string(alloc) else {
            return UsageFault::Memory;
        };
        match error.kind() {
            ErrorKind::DisplayHelp => UsageFault::Help(text),
            ErrorKind::OutOfMemory => UsageFault::Memory,
            _ => UsageFault::Usage(text),
        }
    }

    /// Why the value of an option is refused that is none of these words, in the form of `clap`.
    pub fn of_value(alloc: Global, value: &str, option: &str, words: &str) -> UsageFault
        ensures { (kinds : Kinds) → IsAmong ErrorKind.InvalidValue kinds → IsFaultOf kinds result }
    {
        match value_text(alloc, value, option, words) {
            Ok(text) => UsageFault::Usage(text),
            Err(_) => UsageFault::Memory,
        }
    }
}

fn value_text(alloc: Global, value: &str, option: &str, words: &str) -> Result<String, AllocError> {
    let mut text = String::from_str(alloc, "error: ")?;
    if value.is_empty() {
        write!(
            text,
            "a value is required for '{option}' but none was supplied"
        )?;
    } else {
        write!(text, "invalid value '{value}' for '{option}'")?;
    }
    write!(
        text,
        "\n  [possible values: {words}]\n\nFor more information, try '--help'.\n"
    )?;
    Ok(text)
}
