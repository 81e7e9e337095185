ghost use Rattle.std.specs.Prelude.{◌≡◌, [], map, IfOk, IsTrue, option_copied};
ghost use Rattle.std.specs.Cmp.Lexicographic.{pointwise};
ghost use Rattle.std.specs.FinMap.{get, entries};
ghost use Rattle.ov_specs.specs.rows.Cells.{cell_body, cells_of};
ghost use Rattle.ov_specs.specs.rows.Held.{same_cell};
ghost use Rattle.ov_keeper.specs.Views.{cell_entry, cells_view};
ghost use Rattle.ov_stored.specs.CellLists.{agree, same_body};
ghost use Rattle.ov_stored.specs.Stored.{AreCellsRead, IsCellRead};

use json::Writer;
use ov_atoms::{Datum, put_datum};
use ov_base::{Bytes, Text};
use ov_keeper::Cell;
use ov_rows::Columns;
use std::alloc::{AllocError, Global};

/// The room that a new body is given, in bytes. Most have fewer.
const BODY_ROOM: usize = 32;

/// The body of a cell that stores this value, in this buffer, which must be empty and grows only if it is too small. It reads
/// back as written.
fn body_in(buffer: Vec<u8>, datum: &Datum) -> Result<Bytes, AllocError>
    requires { buffer.items ≡ [] }
    ensures body { IfOk result (λ body. body ≡ cell_body datum.now) }
    ensures read { IfOk result (λ body. IsCellRead datum.now) }
{
    let mut out = Writer::new(buffer);
    put_datum(&mut out, datum)?;
    Ok(Bytes::from_vec(out.into_inner()))
}

/// The cell of a column of this name with this value. It reads back.
fn cell_of(alloc: Global, name: &str, datum: &Datum) -> Result<Cell, AllocError>
    ensures cell { IfOk result (λ cell. cell_entry cell ≡ (name.now, cell_body datum.now)) }
    ensures read { IfOk result (λ cell. IsCellRead datum.now) }
{
    Ok(Cell {
        column: Text::from_str(alloc, name)?,
        body: body_in(Vec::with_capacity(alloc, BODY_ROOM)?, datum)?,
    })
}

/// The cells of a row with these columns, in ascending order of the columns' names. Each reads back.
pub(crate) fn cells_of(alloc: Global, columns: &Columns) -> Result<Vec<Cell>, AllocError>
    ensures cells { IfOk result (λ cells. cells_view cells.items ≡ cells_of columns.now) }
    ensures read { IfOk result (λ cells. AreCellsRead columns.now) }
{
    let mut cells = Vec::with_capacity(alloc, columns.names().len())?;
    for (name, datum) in columns.names().iter().zip(columns.values()) {
        cells.push(cell_of(alloc, name.as_str(), datum)?)?;
    }
    Ok(cells)
}

/// Whether these are the cells of a row with these columns, in ascending order of the columns' names, each written once.
pub(crate) fn are_cells_of(
    alloc: Global,
    columns: &Columns,
    cells: &[Cell],
) -> Result<bool, AllocError>
    ensures cells { IfOk result (λ are. IsTrue are → cells_view cells.now ≡ cells_of columns.now) }
    ensures read { IfOk result (λ are. IsTrue are → AreCellsRead columns.now) }
{
    let mut rest = cells;
    for (name, datum) in columns.names().iter().zip(columns.values()) {
        let Some((cell, others)) = rest.split_first() else {
            return Ok(false);
        };
        if !is_cell_of(alloc, name.as_str(), datum, cell)? {
            return Ok(false);
        }
        rest = others;
    }
    Ok(rest.is_empty())
}

/// Whether this is the cell of a column of this name with this value.
fn is_cell_of(alloc: Global, name: &str, datum: &Datum, cell: &Cell) -> Result<bool, AllocError>
    ensures cell { IfOk result (λ is. IsTrue is
        → cell_entry cell.now ≡ (name.now, cell_body datum.now)) }
    ensures read { IfOk result (λ is. IsTrue is → IsCellRead datum.now) }
{
    if name != cell.column.as_str() {
        return Ok(false);
    }
    let written = body_in(
        Vec::with_capacity(alloc, cell.body.as_slice().len())?,
        datum,
    )?;
    Ok(written.as_slice() == cell.body.as_slice())
}

/// The body of the first cell of this column.
pub(crate) fn body_at<'a>(cells: &'a [Cell], column: &str) -> Option<&'a Bytes>
    ensures { option_copied result ≡ get (cells_view cells.now) column.now }
{
    for cell in cells {
        if column == cell.column.as_str() {
            return Some(&cell.body);
        }
    }
    None
}

/// Whether both lists have the same bodies for the same columns. In each the first cell of a column counts.
pub(crate) fn are_same(a: &[Cell], b: &[Cell]) -> bool
    ensures { result ≡ pointwise same_cell (entries (cells_view a.now))
        (entries (cells_view b.now)) }
{
    agree(a, b) && agree(b, a)
}

/// Whether both lists have the same body for the column of each of these cells.
fn agree(cells: &[Cell], others: &[Cell]) -> bool
    ensures { result ≡ agree (cells_view cells.now) (cells_view others.now)
        (map cell_entry cells.now) }
{
    for cell in cells {
        let column = cell.column.as_str();
        if !is_same_body(body_at(cells, column), body_at(others, column)) {
            return false;
        }
    }
    true
}

/// Whether both are the same body, or neither is there.
fn is_same_body(a: Option<&Bytes>, b: Option<&Bytes>) -> bool
    ensures { result ≡ same_body (option_copied a.entry) (option_copied b.entry) }
{
    match (a, b) {
        (Some(a), Some(b)) => a.as_slice() == b.as_slice(),
        (None, None) => true,
        _ => false,
    }
}
