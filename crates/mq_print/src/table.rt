//! Columns.
ghost use Rattle.std.specs.Prelude.{◌≡◌, ◌++◌, OnOk, max, replicate, string_bytes};
ghost use Rattle.mq_print.specs.Columns.{cell, width_of};

use std::alloc::AllocError;

fn width_of(text: &str) -> usize
    ensures { result ≡ width_of text.now }
{
    text.chars().count()
}

/// The greater of a width and that of a text, in characters.
pub fn widened(width: usize, text: &str) -> usize
    ensures { result ≡ max width (width_of text.now) }
{
    width.max(width_of(text))
}

fn add_blanks(line: &mut String, count: usize) -> Result<(), AllocError>
    ensures { OnOk result (string_bytes line.new
        ≡ string_bytes line.old ++ replicate count 32) }
{
    for _ in 0..count {
        line.push(' ')?;
    }
    Ok(())
}

/// Adds a text, and blanks up to the width and two more.
pub fn add_cell(line: &mut String, text: &str, width: usize) -> Result<(), AllocError>
    ensures { OnOk result (string_bytes line.new
        ≡ string_bytes line.old ++ cell width text.now) }
{
    line.push_str(text)?;
    add_blanks(line, width.saturating_sub(width_of(text)))?;
    line.push_str("  ")
}
