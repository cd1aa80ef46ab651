//! Lines of a list.
use crate::list::ListText;
use std::alloc::AllocError;

/// Adds the line with this number as it stands, behind the file and the number.
pub fn add_line(text: &mut String, list: ListText<'_, '_>, number: u64) -> Result<(), AllocError> {
    let file = list.file;
    let line = list.line(number);
    writeln!(text, "{file}:{number}  {line}")
}
