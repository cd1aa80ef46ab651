//! What is odd about the lines of an access list.
ghost use Rattle.std.specs.Prelude.{◌≡◌, ◌++◌, ◌∷◌, [], ◌&&◌, ◌||◌, List, IfOk, OnOk, not, codes};
ghost use Rattle.std.specs.List.{list_any};
ghost use Rattle.mq_acl.specs.Lines.{lines};
ghost use Rattle.mq_acl.specs.Rows.{entry_by, faults_by};
ghost use Rattle.mq_acl.specs.Views.{row_view};
ghost use Rattle.mq_lint.specs.Blanks.{is_indented_comment, is_tabbed};
ghost use Rattle.mq_lint.specs.Remarks.{is_odd_by, is_unmarked, entry_kind, kind_if, remark_on};
ghost use Rattle.mq_lint.specs.Remarks.{line_remarks, remarks_of, faults_shown};

use crate::blanks::{is_indented_comment, is_tabbed};
use crate::hidden::is_obscure;
use crate::remark::{Remark, RemarkKind};
use mq_acl::{AclKind, Owner, Row, Rules, has_mark, read_rows_by};
use mq_topic::LevelText;
use std::alloc::{AllocError, Global};

// Whether it is the row of a `pattern` line without a mark.
fn is_unmarked(row: &Row) -> bool
    ensures { result ≡ is_unmarked (row_view row.now) }
{
    matches!(row.owner, Owner::Everyone) && !has_mark(row.filter.text())
}

fn has_unmarked(rows: &[Row]) -> bool
    ensures { result ≡ list_any (λ row. is_unmarked (row_view row)) rows.now }
{
    rows.iter().any(|row| is_unmarked(row))
}

fn kind_if(holds: bool, kind: RemarkKind) -> Option<RemarkKind>
    ensures { result ≡ kind_if holds kind }
{
    holds.then_some(kind)
}

// What is odd about what the line says.
fn entry_kind(alloc: Global, rules: Rules, line: &str) -> Result<Option<RemarkKind>, AllocError>
    requires { lines line.now ≡ line.now ∷ [] }
    ensures { IfOk result (λ kind. kind ≡ entry_kind (entry_by rules line.now)) }
{
    match read_rows_by(alloc, rules, line) {
        Ok(rows) => Ok(kind_if(has_unmarked(&rows), RemarkKind::NoMark)),
        Err(fault) => match fault.kind {
            AclKind::Memory => Err(AllocError),
            kind => Ok(Some(RemarkKind::Fault(kind))),
        },
    }
}

fn add(remarks: &mut Vec<Remark>, line: u64, kind: Option<RemarkKind>) -> Result<(), AllocError>
    ensures { OnOk result (remarks.new.items ≡ remarks.old.items ++ remark_on line kind) }
{
    let Some(kind) = kind else {
        return Ok(());
    };
    remarks.push(Remark { line, kind })?;
    Ok(())
}

// Whether it is odd that mosquitto reads a line otherwise: by its own rules it doesn't.
fn is_odd_by(rules: Rules, odd: bool) -> bool
    ensures { result ≡ is_odd_by rules odd }
{
    match rules {
        Rules::Own => odd,
        Rules::Mosquitto => false,
    }
}

// Adds what is odd about the line.
fn add_line(
    alloc: Global,
    rules: Rules,
    remarks: &mut Vec<Remark>,
    line: &str,
    number: u64,
) -> Result<(), AllocError>
    requires { lines line.now ≡ line.now ∷ [] }
    ensures { OnOk result (remarks.new.items ≡ remarks.old.items ++ line_remarks rules number line.now) }
{
    let bytes = line.as_bytes();
    let entry = entry_kind(alloc, rules, line)?;
    let comment = kind_if(
        is_odd_by(rules, is_indented_comment(bytes)),
        RemarkKind::IndentedComment,
    );
    let tab = kind_if(is_odd_by(rules, is_tabbed(bytes)), RemarkKind::Tab);
    let hidden = kind_if(is_obscure(bytes), RemarkKind::Hidden);
    add(remarks, number, entry)?;
    add(remarks, number, comment)?;
    add(remarks, number, tab)?;
    add(remarks, number, hidden)
}

/// What is odd about the lines of the access list with this text, read by these rules, in their
/// order: each fault, and not the first alone; `pattern` lines without a mark; and, by our own
/// rules, what mosquitto 2.0 reads otherwise, or doesn't start with; and characters that a terminal
/// acts on, or that can't be seen.
pub fn remarks(alloc: Global, rules: Rules, text: &str) -> Result<Vec<Remark>, AllocError>
    ensures all { IfOk result (λ remarks. remarks.items ≡ remarks_of rules text.now) }
    ensures faults { IfOk result (λ remarks. faults_shown remarks.items
        ≡ faults_by rules (lines text.now)) }
{
    let mut remarks = Vec::new(alloc);
    let mut number = 0u64;
    for line in text.split('\n') {
        number += 1;
        add_line(alloc, rules, &mut remarks, line, number)?;
    }
    Ok(remarks)
}
