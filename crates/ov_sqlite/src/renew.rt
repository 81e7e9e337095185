//! Changing a row in place: its head gets the version, and each cell that differs gets its body.

ghost use Rattle.std.specs.Prelude.{◌≡◌, ◌<◌, length, map, IsTrue, IfSome};
ghost use Rattle.std.specs.declared.cmp.Ordering.TheVariants.{Less};
ghost use Rattle.std.specs.FinMap.{from_entries};
ghost use Rattle.sqlite.specs.Order.{column};
ghost use Rattle.sqlite_value.specs.Order.{bytes};
ghost use Rattle.ov_specs.specs.schema.SchemaTypes.{name_cmp};
ghost use Rattle.ov_keeper.specs.Views.{cells_view};
ghost use Rattle.ov_tables.specs.Holding.{MayHoldCells};
ghost use Rattle.ov_sqlite.specs.Changing.{MakesRows};
ghost use Rattle.ov_sqlite.specs.Writing.{WritesTables};
ghost use Rattle.ov_sqlite.specs.Renewing.{DoCellsAscend, AreOfColumns, shown_entry};
ghost use Rattle.ov_sqlite.specs.Renewing.{HasVersion, HasBody, IsBodyChanged, IsChangedInPlace};

use crate::value::{id_bytes, is_blob_at, is_text_at};
use ov_keeper::{Cell, CellLine};
use sqlite::types::ValueRef;
use sqlite::{Alter, Error, Row, Transaction};
use std::cmp::Ordering;

/// Whether the name is above the last one.
fn is_after(name: &str, last: Option<&str>) -> bool
    ensures { IsTrue result → IfSome last.entry (λ l. name_cmp l.now name.now ≡ Less) }
{
    match last {
        Some(last) => match last.cmp(name) {
            Ordering::Less => true,
            _ => false,
        },
        None => true,
    }
}

/// Whether the names of the cells' columns ascend.
fn do_ascend(cells: &[Cell]) -> bool
    ensures { IsTrue result → DoCellsAscend cells.now }
{
    let mut last = None;
    for cell in cells {
        let name = cell.column.as_str();
        if !is_after(name, last) {
            return false;
        }
        last = Some(name);
    }
    true
}

/// Whether each row is of the column of the cell at its place.
fn have_columns(rows: &[Row], cells: &[Cell]) -> bool
    requires { length rows.now ≡ length cells.now }
    ensures { IsTrue result → AreOfColumns rows.now cells.now }
{
    for at in 0..cells.len() {
        if !is_text_at(&rows[at], 0, cells[at].column.as_str().as_bytes()) {
            return false;
        }
    }
    true
}

/// Whether there is a row for each cell, of its column, in the same order, at least one, and the columns' names ascend.
pub(crate) fn are_of(rows: &[Row], cells: &[Cell]) -> bool
    ensures some { IsTrue result → 0 < length rows.now }
    ensures as_many { IsTrue result → length rows.now ≡ length cells.now }
    ensures columns { IsTrue result → AreOfColumns rows.now cells.now }
    ensures ascend { IsTrue result → DoCellsAscend cells.now }
{
    if rows.len() == 0 || rows.len() != cells.len() {
        return false;
    }
    do_ascend(cells) && have_columns(rows, cells)
}

/// Gives the head of this row the row's version.
pub(crate) fn update_head<S: Alter>(
    tx: &mut Transaction<'_, S>,
    line: &CellLine,
) -> Result<(), Error>
    ensures writes { WritesTables S.Store result MayHoldCells
        (MakesRows (HasVersion (line.now.table, line.now.id) line.now.version))
        tx.old.conn tx.new.conn }
{
    let values = [
        ValueRef::Text(line.table.as_str().as_bytes()),
        ValueRef::Blob(id_bytes(&line.id)),
        ValueRef::Blob(id_bytes(&line.version)),
    ];
    tx.execute("UPDATE head SET ver=?3 WHERE tbl=?1 AND id=?2", &values)?;
    Ok(())
}

/// Gives the cell of this column in this row the cell's body.
fn update_cell<S: Alter>(
    tx: &mut Transaction<'_, S>,
    line: &CellLine,
    cell: &Cell,
) -> Result<(), Error>
    ensures writes { WritesTables S.Store result MayHoldCells
        (MakesRows (HasBody (line.now.table, line.now.id) cell.now.column cell.now.body))
        tx.old.conn tx.new.conn }
{
    let values = [
        ValueRef::Text(line.table.as_str().as_bytes()),
        ValueRef::Blob(id_bytes(&line.id)),
        ValueRef::Text(cell.column.as_str().as_bytes()),
        ValueRef::Blob(cell.body.as_slice()),
    ];
    tx.execute(
        "UPDATE cell SET body=?4 WHERE tbl=?1 AND id=?2 AND col=?3",
        &values,
    )?;
    Ok(())
}

/// Gives a cell its body, unless the body that was read is the same.
fn renew_cell<S: Alter>(
    tx: &mut Transaction<'_, S>,
    line: &CellLine,
    cell: &Cell,
    row: &Row,
) -> Result<(), Error>
    ensures writes { WritesTables S.Store result MayHoldCells
        (MakesRows (IsBodyChanged (line.now.table, line.now.id)
        cell.now.column (bytes (column row.now 1)) cell.now.body)) tx.old.conn tx.new.conn }
{
    if is_blob_at(row, 1, cell.body.as_slice()) {
        return Ok(());
    }
    update_cell(tx, line, cell)
}

/// Gives each cell of the row its body. `rows` are what was read of these cells; a cell that has its body is left as it is.
pub(crate) fn update_cells<S: Alter>(
    tx: &mut Transaction<'_, S>,
    line: &CellLine,
    rows: &[Row],
) -> Result<(), Error>
    requires as_many { length rows.now ≡ length line.now.cells.items }
    requires columns { AreOfColumns rows.now line.now.cells.items }
    requires ascend { DoCellsAscend line.now.cells.items }
    ensures writes { WritesTables S.Store result MayHoldCells
        (MakesRows (IsChangedInPlace (line.now.table, line.now.id)
        (line.now.version, from_entries (map shown_entry rows.now))
        (line.now.version, cells_view line.now.cells.items))) tx.old.conn tx.new.conn }
{
    let cells = line.cells.as_slice();
    for at in 0..cells.len() {
        renew_cell(tx, line, &cells[at], &rows[at])?;
    }
    Ok(())
}
