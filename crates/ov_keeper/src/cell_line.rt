ghost use Rattle.std.specs.Prelude.{◌≡◌, IfOk};
ghost use Rattle.std.specs.Ordering.{eq_by_cmp};
ghost use Rattle.ov_specs.specs.rows.Lines.{line_cmp};
ghost use Rattle.ov_keeper.specs.Views.{cell_line_entry};

use ov_base::{Bytes, Text};
use std::alloc::{AllocError, Global};
use uuid::Uuid;

/// A cell of a row: the name of a column, and the compact text of its written value (RFC 7047, 5.1, `<value>`).
#[derive(Drop)]
pub struct Cell {
    pub column: Text,
    pub body: Bytes,
}

impl Cell {
    /// A cell with the same parts.
    pub fn copy(&self, alloc: Global) -> Result<Cell, AllocError>
        ensures { IfOk result (λ copy. copy ≡ self.now) }
    {
        Ok(Cell {
            column: Text::from_str(alloc, self.column.as_str())?,
            body: Bytes::from_slice(alloc, self.body.as_slice())?,
        })
    }
}

/// A row as format 2 stores it: its table, its identifier, its version, and a cell for each of its columns. If two cells have
/// the same column, the first counts.
#[derive(Drop)]
pub struct CellLine {
    pub table: Text,
    pub id: Uuid,
    pub version: Uuid,
    pub cells: Vec<Cell>,
}

impl CellLine {
    /// A row with the same parts.
    pub fn copy(&self, alloc: Global) -> Result<CellLine, AllocError>
        ensures { IfOk result (λ copy. cell_line_entry copy ≡ cell_line_entry self.now) }
    {
        Ok(CellLine {
            table: Text::from_str(alloc, self.table.as_str())?,
            id: self.id,
            version: self.version,
            cells: copy_cells(alloc, self.cells.as_slice())?,
        })
    }

    /// Whether it is the row of this table and identifier.
    pub(crate) fn is_at(&self, table: &str, id: Uuid) -> bool
        ensures { result ≡ eq_by_cmp line_cmp (table.now, id) (cell_line_entry self.now).0 }
    {
        self.id == id && self.table.as_str() == table
    }
}

/// A copy of each cell, in order.
pub(crate) fn copy_cells(alloc: Global, cells: &[Cell]) -> Result<Vec<Cell>, AllocError>
    ensures { IfOk result (λ copies. copies.items ≡ cells.now) }
{
    let mut copies = Vec::with_capacity(alloc, cells.len())?;
    for cell in cells {
        copies.push(cell.copy(alloc)?)?;
    }
    Ok(copies)
}
