//! What mosquitto refuses by itself, in words and as JSON.
ghost use Rattle.std.specs.Prelude.{◌≡◌, ◌++◌, OnOk, string_bytes};
ghost use Rattle.mq_ask.specs.Objects.{refused_texts};

use crate::words::access_word;
use mq_acl::Direction;
use mq_print::{Datum, add_object};
use std::alloc::{AllocError, Global};

const READING: &str =
    "mosquitto lets no client read topics that begin with $share, whatever the list says";

const WRITING: &str = "mosquitto lets no client write topics that begin with $share, or with $SYS \
    but for $SYS/broker/connection/+/state, whatever the list says";

/// What it refuses, in words.
pub fn refused_words(direction: Direction) -> &'static str {
    match direction {
        Direction::Reading => READING,
        Direction::Writing => WRITING,
    }
}

/// Adds a line for each direction.
pub fn add_refused(text: &mut String, directions: &[Direction]) -> Result<(), AllocError> {
    for direction in directions {
        writeln!(text, "{}", refused_words(*direction))?;
    }
    Ok(())
}

/// Adds an object for each of them.
pub fn add_refused_json(
    alloc: Global,
    text: &mut String,
    directions: &[Direction],
) -> Result<(), AllocError>
    ensures { OnOk result (string_bytes text.new
        ≡ string_bytes text.old ++ refused_texts directions.now) }
{
    for direction in directions {
        let access = Datum::Text(access_word(*direction));
        add_object(alloc, text, &[("refused", access)])?;
    }
    Ok(())
}
