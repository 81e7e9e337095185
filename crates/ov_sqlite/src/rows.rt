//! Tests of rows that were read.

ghost use Rattle.std.specs.Prelude.{◌≡◌, ◌↔◌, ◌<ℤ◌, OnOk, IfSome, IsTrue, Err};
ghost use Rattle.std.specs.List.{AllByRecursion};
ghost use Rattle.ov_tables.specs.Format.{IsLine, IsHead};
ghost use Rattle.ov_tables.specs.Holding.{IsNumbered};
ghost use Rattle.ov_sqlite.specs.Joining.{AreNumbered};

use crate::columns::{head_columns_of, line_columns_of};
use crate::value::number_at;
use ov_keeper::KeepFault;
use sqlite::Row;

/// Whether a row's number is greater than the last one.
pub(crate) fn is_above(number: i64, last: Option<i64>) -> bool
    ensures { IsTrue result → IfSome last (λ n. n <ℤ number) }
{
    match last {
        Some(last) => last < number,
        None => true,
    }
}

/// Checks that the numbers of the rows ascend. If they do not, that is a wrong answer of the device, since a table is read in
/// the order of its numbers.
pub(crate) fn test_numbers(rows: &[Row]) -> Result<(), KeepFault>
    ensures numbered { OnOk result (IsNumbered (λ r. r) rows.now) }
    ensures distinct { OnOk result (AreNumbered rows.now) }
    ensures fault { result ≡ Err KeepFault.Format → ⊥ }
    ensures ours { result ≡ Err KeepFault.NotOurs → ⊥ }
{
    let mut last = None;
    for row in rows {
        let Some(number) = number_at(row, 0) else {
            return Err(KeepFault::Device);
        };
        if !is_above(number, last) {
            return Err(KeepFault::Device);
        }
        last = Some(number);
    }
    Ok(())
}

/// Whether each row is a line.
pub(crate) fn are_lines(rows: &[Row]) -> bool
    ensures { IsTrue result ↔ AllByRecursion IsLine rows.now }
{
    for row in rows {
        if !is_line(row) {
            return false;
        }
    }
    true
}

fn is_line(row: &Row) -> bool
    ensures { IsTrue result ↔ IsLine row.now }
{
    line_columns_of(row).is_some()
}

/// Whether each row is a head.
pub(crate) fn are_heads(rows: &[Row]) -> bool
    ensures { IsTrue result ↔ AllByRecursion IsHead rows.now }
{
    for row in rows {
        if !is_head(row) {
            return false;
        }
    }
    true
}

fn is_head(row: &Row) -> bool
    ensures { IsTrue result ↔ IsHead row.now }
{
    head_columns_of(row).is_some()
}
