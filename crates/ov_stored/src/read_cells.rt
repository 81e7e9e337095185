ghost use Rattle.std.specs.Prelude.{◌≡◌, IfOk, Some};
ghost use Rattle.std.specs.FinMap.{keys};
ghost use Rattle.ov_rows.specs.Named.{DoAscend};
ghost use Rattle.ov_specs.specs.rows.Cells.{cells_of};
ghost use Rattle.ov_specs.specs.rows.Held.{OfCells, columns_stored, row_of_body, value_held};
ghost use Rattle.ov_keeper.specs.Views.{cells_view};
ghost use Rattle.ov_stored.specs.Loading.{IsLoaded, cells_entry};
ghost use Rattle.ov_stored.specs.Stored.{AreCellsRead, named_datum, row_stored};

use crate::cells::{are_cells_of, are_same, body_at, cells_of};
use crate::fault::OpenFault;
use crate::read::{are_values_for, tree_of, value_in};
use ov_atoms::{AtomFault, Datum, RowShape};
use ov_keeper::{Cell, CellLine, KeepFault};
use ov_rows::{BodyReader, Columns, NamedValues, Row};
use ov_schema::{Column, Schema, Table, is_own};
use std::alloc::{AllocError, Global};

/// The room that the text of a row's cells is given, in bytes. Most have fewer.
const TEXT_ROOM: usize = 256;

/// The row that is stored as these cells. Refused as `BadBody` if the schema has no such table, if a column has no cell with a
/// fitting value, if there is a cell for no column, or if a value would be stored as other bytes, even by one space.
pub(crate) fn row_of_cells(
    alloc: Global,
    reader: &mut BodyReader,
    schema: &Schema,
    line: &CellLine,
) -> Result<Row, OpenFault>
    ensures { IsLoaded (λ row. row) (row_stored schema.now (cells_entry line.now).0
        (cells_entry line.now).1) result }
{
    match schema.table(line.table.as_str()) {
        Some(table) => row_in_cells(alloc, reader, table, line),
        None => Err(OpenFault::BadBody),
    }
}

/// The row of a table that is stored as these cells. If guessing finds no row, each column is looked for.
fn row_in_cells(
    alloc: Global,
    reader: &mut BodyReader,
    table: &Table,
    line: &CellLine,
) -> Result<Row, OpenFault>
    ensures { IsLoaded (λ row. row) (row_of_body table.now line.now.version
        (OfCells (cells_view line.now.cells.items))) result }
{
    match cells_by_guess(alloc, reader, table, line) {
        Ok(row) => Ok(row),
        Err(AtomFault::Memory) => Err(OpenFault::Keeping(KeepFault::Memory)),
        Err(AtomFault::Syntax | AtomFault::Clash) => cells_in_full(alloc, table, line),
    }
}

/// The row of a table whose cells these are, if guessing finds it: always if they stand in ascending order of the columns'
/// names. Any fault other than `Memory` only says that it found none.
fn cells_by_guess(
    alloc: Global,
    reader: &mut BodyReader,
    table: &Table,
    line: &CellLine,
) -> Result<Row, AtomFault>
    ensures { IfOk result (λ row. row_of_body table.now line.now.version
        (OfCells (cells_view line.now.cells.items)) ≡ Some row) }
{
    let columns = guessed_columns(alloc, reader, table.row_shape(), line.cells.as_slice())?;
    if !are_values_for(table, columns.values()) {
        return Err(AtomFault::Syntax);
    }
    Ok(Row {
        version: line.version,
        columns,
    })
}

/// The columns of exactly these names whose cells these are, if guessing finds them. The cells are read as one text.
fn guessed_columns(
    alloc: Global,
    reader: &mut BodyReader,
    shape: &RowShape,
    cells: &[Cell],
) -> Result<Columns, AtomFault>
    requires { DoAscend shape.now.names }
    ensures names { IfOk result (λ columns. keys columns ≡ shape.now.names) }
    ensures cells { IfOk result (λ columns. cells_view cells.now ≡ cells_of columns) }
    ensures read { IfOk result (λ columns. AreCellsRead columns) }
{
    let text = text_of_cells(alloc, cells)?;
    let columns = reader.columns(alloc, shape, text.as_slice())?;
    if are_cells_of(alloc, &columns, cells)? {
        Ok(columns)
    } else {
        Err(AtomFault::Syntax)
    }
}

// Nothing here promises a text that can be read: names are not escaped. The caller compares the cells of what was read with the
// cells that it was read from.

/// These cells as the members of one object, as format 1 stores a row.
fn text_of_cells(alloc: Global, cells: &[Cell]) -> Result<Vec<u8>, AllocError> {
    let mut text = Vec::with_capacity(alloc, TEXT_ROOM)?;
    text.push(b'{')?;
    for cell in cells {
        if text.len() > 1 {
            text.push(b',')?;
        }
        text.push(b'"')?;
        text.extend_from_slice(cell.column.as_str().as_bytes())?;
        text.extend_from_slice(b"\":")?;
        text.extend_from_slice(cell.body.as_slice())?;
    }
    text.push(b'}')?;
    Ok(text)
}

/// The row of a table that is stored as these cells, in any order.
fn cells_in_full(alloc: Global, table: &Table, line: &CellLine) -> Result<Row, OpenFault>
    ensures { IsLoaded (λ row. row) (row_of_body table.now line.now.version
        (OfCells (cells_view line.now.cells.items))) result }
{
    let columns = columns_in_cells(alloc, table, line.cells.as_slice())?;
    let written = cells_of(alloc, &columns)?;
    if !are_same(written.as_slice(), line.cells.as_slice()) {
        return Err(OpenFault::BadBody);
    }
    Ok(Row {
        version: line.version,
        columns,
    })
}

/// All columns of the table except those that every row has by itself, each with the value of its cell.
fn columns_in_cells(alloc: Global, table: &Table, cells: &[Cell]) -> Result<Columns, OpenFault>
    ensures { IsLoaded (λ columns. columns) (columns_stored (OfCells (cells_view cells.now))
        table.now) result }
{
    let values = values_in_cells(alloc, table, cells)?;
    Ok(Columns::of(alloc, table.row_shape(), values)?)
}

/// The values of the cells of all columns of the table except those that every row has by itself.
fn values_in_cells(alloc: Global, table: &Table, cells: &[Cell]) -> Result<NamedValues, OpenFault>
    ensures { IsLoaded (λ values. values) (columns_stored (OfCells (cells_view cells.now))
        table.now) result }
{
    let mut values = NamedValues::new(alloc);
    for (name, column) in table.columns() {
        if !is_own(name.as_str()) {
            let datum = value_in_cell(alloc, cells, name.as_str(), column)?;
            values.insert(String::from_str(alloc, name.as_str())?, datum)?;
        }
    }
    Ok(values)
}

/// The value of a column's cell, if there is one and its value fits.
fn value_in_cell(
    alloc: Global,
    cells: &[Cell],
    name: &str,
    column: &Column,
) -> Result<Datum, OpenFault>
    ensures { IsLoaded (named_datum name.now) (value_held (OfCells (cells_view cells.now))
        (name.now, column.now)) result }
{
    let Some(body) = body_at(cells, name) else {
        return Err(OpenFault::BadBody);
    };
    let Some(tree) = tree_of(alloc, body.as_slice())? else {
        return Err(OpenFault::BadBody);
    };
    value_in(alloc, &tree, column)
}
