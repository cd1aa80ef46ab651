//! The lists that expectations are judged of.
ghost use Rattle.std.specs.Option.{option_copied};
ghost use Rattle.std.specs.Prelude.{◌≡◌, ◌⊎◌, IfOk, IfErr, Some, None, Ok, Err, find};
ghost use Rattle.mq_acl.specs.Rows.{out_of_memory, row_lines_by, rows_by};
ghost use Rattle.mq_acl.specs.Views.{line_views, row_views};
ghost use Rattle.mq_ask_test.specs.Lists.{is_in, rows_in};

use crate::fault::TestFault;
use mq_acl::{AclFault, Row, Rules, read_rows_by};
use mq_print::ListText;
use std::alloc::Global;

/// An access list that was read.
pub struct ReadList<'a, 't> {
    /// The name of its file, and its text.
    pub list: ListText<'a, 't>,
    /// Its rows.
    pub rows: Vec<Row>,
}

// Opaque to callers' proofs: one step, and not one for each field (docs/explanation/gate.md).
impl Drop for ReadList<'_, '_> {
    fn drop(self) {
        let ReadList { list: _, rows: _ } = self;
    }
}

/// The list, read by these rules, or its first faulty line.
pub fn read_list<'a, 't>(
    alloc: Global,
    rules: Rules,
    list: ListText<'a, 't>,
) -> Result<ReadList<'a, 't>, AclFault>
    ensures list { IfOk result (λ read. read.list ≡ list.entry) }
    ensures rows { IfOk result (λ read.
        rows_by rules list.entry.text.now ≡ Ok (row_views read.rows.items)) }
    ensures lines { IfOk result (λ read.
        line_views read.rows.items ≡ row_lines_by rules list.entry.text.now) }
    ensures fault { IfErr result (λ fault. (fault ≡ out_of_memory)
        ⊎ (rows_by rules list.entry.text.now ≡ Err fault)) }
{
    let rows = read_rows_by(alloc, rules, list.text)?;
    Ok(ReadList { list, rows })
}

/// The rows of a list, with the name of its file.
#[derive(Clone, Copy, Drop)]
pub(crate) struct Listed<'a, 'l> {
    pub(crate) file: &'a str,
    pub(crate) rows: &'l [Row],
}

// The first list of this file.
pub(crate) fn first_in<'l, 'a, 't>(
    lists: &'l [ReadList<'a, 't>],
    file: &str,
) -> Option<&'l ReadList<'a, 't>>
    ensures { option_copied result ≡ find (is_in file.now) lists.entry.now }
{
    lists.iter().find(|read| read.list.file == file)
}

/// The list of this file, of those that were read.
pub(crate) fn list_in<'a, 'l>(
    lists: &'l [ReadList<'_, '_>],
    file: &'a str,
) -> Result<Listed<'a, 'l>, TestFault<'a>>
    ensures file { IfOk result (λ listed. listed.file ≡ file.entry) }
    ensures rows { IfOk result (λ listed.
        rows_in lists.entry.now file.entry.now ≡ Some listed.rows.now) }
    ensures missing { IfErr result (λ fault. (fault ≡ TestFault.Missing file.entry)
        × (rows_in lists.entry.now file.entry.now ≡ None)) }
{
    match first_in(lists, file) {
        Some(read) => Ok(Listed {
            file,
            rows: &read.rows,
        }),
        None => Err(TestFault::Missing(file)),
    }
}
