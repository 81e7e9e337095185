//! The heads with their cells.

ghost use Rattle.std.specs.Prelude.{◌≡◌, ◌<◌, [], length, slice_get, map, true, false, IfOk};
ghost use Rattle.std.specs.Prelude.{IfSome, IfNone, MatchOption, OnOk};
ghost use Rattle.std.specs.List.{AllByRecursion, list_any};
ghost use Rattle.ov_specs.specs.rows.Database.{same_key};
ghost use Rattle.ov_keeper.specs.Views.{cell_entry};
ghost use Rattle.ov_tables.specs.Format.{IsHead, IsCell, row_key};
ghost use Rattle.ov_sqlite.specs.Joining.{line_parts, head_parts, with_cell, entry_in};

use crate::columns::{cell_columns_of, head_columns_of};
use crate::rows::is_above;
use crate::value::number_at;
use ov_base::{Bytes, Text};
use ov_keeper::{Cell, CellLine};
use ov_tables::TakesRows;
use sqlite::Row;
use std::alloc::{AllocError, Global};
use uuid::Uuid;

/// The rows of the heads, without cells. `None` if a row is no head.
pub(crate) fn lines_of_heads(
    alloc: Global,
    heads: &[Row],
) -> Result<Option<Vec<CellLine>>, AllocError>
    ensures some { IfOk result (λ all. IfSome all
        (λ lines. map line_parts lines.items ≡ map (head_parts []) heads.now)) }
    ensures none { IfOk result (λ all. IfNone all (¬ AllByRecursion IsHead heads.now)) }
{
    let mut lines = Vec::with_capacity(alloc, heads.len())?;
    for head in heads {
        let Some(parts) = head_columns_of(head) else {
            return Ok(None);
        };
        lines.push(CellLine {
            table: Text::from_str(alloc, parts.table)?,
            id: parts.id,
            version: parts.version,
            cells: Vec::new(alloc),
        })?;
    }
    Ok(Some(lines))
}

/// Whether the row has this key.
fn is_at(line: &CellLine, table: &str, id: Uuid) -> bool
    ensures { result ≡ same_key (line_parts line.now).0 (table.now, id) }
{
    line.table.as_str() == table && line.id == id
}

/// The place of the row with this key, searched from a place on, and then from the start: cells are mostly in the order of
/// their rows, since both are written together.
fn place_of(lines: &[CellLine], from: usize, table: &str, id: Uuid) -> Option<usize>
    ensures { MatchOption result (list_any
        (λ l. same_key (line_parts l).0 (table.now, id)) lines.now ≡ false)
        (λ at. (at < length lines.now)
        × IfSome (slice_get lines.now at) (λ l. same_key (line_parts l).0 (table.now, id) ≡ true)) }
{
    for at in from..lines.len() {
        if is_at(&lines[at], table, id) {
            return Some(at);
        }
    }
    lines.iter().position(|line| is_at(line, table, id))
}

/// Adds a cell to the row at a place.
fn add_cell(lines: &mut Vec<CellLine>, at: usize, cell: Cell) -> Result<(), AllocError>
    requires { at < length lines.old.items }
    ensures { OnOk result (map line_parts lines.new.items
        ≡ with_cell at (cell_entry cell) (map line_parts lines.old.items)) }
{
    lines[at].cells.push(cell)?;
    Ok(())
}

/// A cell with these columns.
fn to_cell(alloc: Global, column: &str, body: &[u8]) -> Result<Cell, AllocError>
    ensures { IfOk result (λ cell. cell_entry cell ≡ (column.now, body.now)) }
{
    Ok(Cell {
        column: Text::from_str(alloc, column)?,
        body: Bytes::from_slice(alloc, body)?,
    })
}

/// Adds the cell to the row with its key, and returns the place of that row; `None` if it is no cell, or there is no such row.
fn put_cell(
    alloc: Global,
    lines: &mut Vec<CellLine>,
    last: usize,
    cell: &Row,
) -> Result<Option<usize>, AllocError>
    ensures is_cell { IfOk result (λ o. IfSome o (λ _. IsCell cell.now)) }
    ensures put { IfOk result (λ o. IfSome o (λ at. (at < length lines.old.items)
        × IfSome (slice_get lines.old.items at)
        (λ l. same_key (line_parts l).0 (row_key cell.now) ≡ true)
        × (map line_parts lines.new.items
        ≡ with_cell at (entry_in cell.now) (map line_parts lines.old.items)))) }
    ensures none { IfOk result (λ o. IfNone o (IsCell cell.now
        → list_any (λ l. same_key (line_parts l).0 (row_key cell.now)) lines.old.items ≡ false)) }
{
    let Some(parts) = cell_columns_of(cell) else {
        return Ok(None);
    };
    let Some(at) = place_of(lines.as_slice(), last, parts.table, parts.id) else {
        return Ok(None);
    };
    let made = to_cell(alloc, parts.column, parts.body)?;
    add_cell(lines, at, made)?;
    Ok(Some(at))
}

/// The rows with the cells that were put into them so far. It takes the rows of `cell` one at a time.
#[derive(Drop)]
pub(crate) struct Joining {
    alloc: Global,
    pub lines: Vec<CellLine>,
    /// The place of the row that got the last cell.
    place: usize,
    /// The number of the last cell.
    number: Option<i64>,
    /// The last row was refused, since it is no cell or has no head.
    pub is_malformed: bool,
}

impl Joining {
    /// Begins with rows that have no cells.
    pub(crate) fn new(alloc: Global, lines: Vec<CellLine>) -> Joining
        ensures lines { result.lines ≡ lines }
        ensures sound { result.is_malformed ≡ false }
    {
        Joining {
            alloc,
            lines,
            place: 0,
            number: None,
            is_malformed: false,
        }
    }
}

impl TakesRows for Joining {
    ghost use Rattle.ov_sqlite.specs.Joined.{HasJoined, HasRefused};

    ghost has_taken = { HasJoined };

    ghost has_refused = { HasRefused };

    fn take(&mut self, row: &Row) -> Result<bool, AllocError> {
        let Some(number) = number_at(row, 0) else {
            return Ok(false);
        };
        if !is_above(number, self.number) {
            return Ok(false);
        }
        let Some(place) = put_cell(self.alloc, &mut self.lines, self.place, row)? else {
            self.is_malformed = true;
            return Ok(false);
        };
        self.place = place;
        self.number = Some(number);
        Ok(true)
    }
}
