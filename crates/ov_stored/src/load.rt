ghost use Rattle.std.specs.Prelude.{◌≡◌, ◌↔◌, IsTrue, map, Some, IfOk, IfErr, OnOk};
ghost use Rattle.std.specs.FinMap.{empty};
ghost use Rattle.serde_json.specs.Written.{compact_text};
ghost use Rattle.ov_specs.specs.rows.Cells.{format_of};
ghost use Rattle.ov_specs.specs.rows.Held.{held};
ghost use Rattle.ov_specs.specs.rows.Suits.{Suits};
ghost use Rattle.ov_keeper.specs.declared.fault.KeepFault.TheVariants.{Memory};
ghost use Rattle.ov_keeper.specs.Views.{lines_view};
ghost use Rattle.ov_stored.specs.Loading.{IsNotLoaded, IsLoaded, cells_entry, whole_entry, with_line};
ghost use Rattle.ov_stored.specs.Loading.{with_lines};
ghost use Rattle.ov_stored.specs.Stored.{KeepsRows};
ghost use Rattle.ov_stored.specs.declared.fault.OpenFault.TheVariants.{Keeping};

use crate::fault::OpenFault;
use crate::read::next_row;
use crate::read_cells::row_of_cells;
use ov_atoms::has_sixteen_bytes;
use ov_keeper::{CellLine, Line, Lines, Loaded};
use ov_rows::{BodyReader, RowKey, Rows};
use ov_schema::Schema;
use std::alloc::Global;

/// Whether the text that was loaded is the schema's. Refuses only if an allocation fails.
pub fn has_text(alloc: Global, schema: &Schema, loaded: &Loaded) -> Result<bool, OpenFault>
    ensures has { IfOk result (λ has. IsTrue has ↔ (loaded.now.schema
        ≡ compact_text schema.now.tree)) }
    ensures err { IfErr result (λ fault. fault ≡ Keeping Memory) }
{
    let text = schema.tree().to_bytes(alloc)?;
    Ok(loaded.schema.as_str().as_bytes() == text.as_slice())
}

/// The rows that were loaded. If two of them have the same key, the first counts. Those of format 2 read back. What a line
/// holds is dropped once its row is made, so the memory of lines and rows is not needed for all at once. Refused as `BadBody`
/// if what is stored of one of them is no row of the schema, and as the keeper's fault `Memory` if an allocation fails.
pub fn rows_of(alloc: Global, schema: &Schema, lines: Lines) -> Result<Rows, OpenFault>
    ensures loaded { IsLoaded (λ rows. rows) (held schema.now (lines_view lines)) result }
    ensures suits { IfOk result (Suits schema.now) }
    ensures kept { format_of (lines_view lines) ≡ 2 → IfOk result (KeepsRows schema.now) }
{
    match lines {
        Lines::Whole(lines) => rows_of_lines(alloc, schema, lines),
        Lines::InCells(lines) => rows_in_cells(alloc, schema, lines),
    }
}

/// The rows that the lines of format 1 store.
fn rows_of_lines(alloc: Global, schema: &Schema, lines: Vec<Line>) -> Result<Rows, OpenFault>
    ensures loaded { IsLoaded (λ rows. rows) (with_lines schema.now
        (map whole_entry lines.items) empty) result }
    ensures suits { IfOk result (Suits schema.now) }
{
    let mut reader = BodyReader::new(alloc);
    let mut rows = Rows::new(alloc);
    for line in lines {
        add_line(alloc, &mut reader, schema, &line, &mut rows)?;
    }
    Ok(rows)
}

/// Adds the row that a line stores, if its key has none yet.
fn add_line(
    alloc: Global,
    reader: &mut BodyReader,
    schema: &Schema,
    line: &Line,
    rows: &mut Rows,
) -> Result<(), OpenFault>
    ensures ok { OnOk result (with_line schema.now (whole_entry line.now) rows.old
        ≡ Some rows.new) }
    ensures suits { Suits schema.now rows.old → OnOk result (Suits schema.now rows.new) }
    ensures err { IfErr result (IsNotLoaded (with_line schema.now
        (whole_entry line.now) rows.old)) }
{
    let key = RowKey::new(alloc, line.table.as_str(), line.id)?;
    if rows.contains(&key) {
        return Ok(());
    }
    let row = match next_row(alloc, reader, schema, line) {
        Ok(row) => row,
        Err(fault) => return Err(fault),
    };
    has_sixteen_bytes(&line.id);
    has_sixteen_bytes(&line.version);
    rows.insert(alloc, &key, row)?;
    Ok(())
}

/// The rows that are stored in cells. Each of them reads back.
fn rows_in_cells(alloc: Global, schema: &Schema, lines: Vec<CellLine>) -> Result<Rows, OpenFault>
    ensures loaded { IsLoaded (λ rows. rows) (with_lines schema.now
        (map cells_entry lines.items) empty) result }
    ensures kept { IfOk result (KeepsRows schema.now) }
{
    let mut reader = BodyReader::new(alloc);
    let mut rows = Rows::new(alloc);
    for line in lines {
        add_cells(alloc, &mut reader, schema, &line, &mut rows)?;
    }
    Ok(rows)
}

/// Adds the row that is stored in these cells, if its key has none yet.
fn add_cells(
    alloc: Global,
    reader: &mut BodyReader,
    schema: &Schema,
    line: &CellLine,
    rows: &mut Rows,
) -> Result<(), OpenFault>
    ensures ok { OnOk result (with_line schema.now (cells_entry line.now) rows.old
        ≡ Some rows.new) }
    ensures kept { KeepsRows schema.now rows.old → OnOk result (KeepsRows schema.now rows.new) }
    ensures err { IfErr result (IsNotLoaded (with_line schema.now
        (cells_entry line.now) rows.old)) }
{
    let key = RowKey::new(alloc, line.table.as_str(), line.id)?;
    if rows.contains(&key) {
        return Ok(());
    }
    let row = match row_of_cells(alloc, reader, schema, line) {
        Ok(row) => row,
        Err(fault) => return Err(fault),
    };
    has_sixteen_bytes(&line.id);
    has_sixteen_bytes(&line.version);
    rows.insert(alloc, &key, row)?;
    Ok(())
}
