ghost use Rattle.std.specs.Prelude.{◌≡◌, ◌++◌, map, IfOk, OnOk};
ghost use Rattle.std.specs.FinMap.{entries};
ghost use Rattle.ov_specs.specs.rows.Cells.{RemoveCells, cell_line_of};
ghost use Rattle.ov_keeper.specs.Views.{changes_view, change_view, cell_line_entry};
ghost use Rattle.ov_rows.specs.Nested.{in_table};
ghost use Rattle.ov_stored.specs.Changing.{as_puts, change_of};
ghost use Rattle.ov_stored.specs.Stored.{AreCellsRead, IsPutRead, ArePutRead};

use crate::cells::cells_of;
use crate::delta::Delta;
use ov_base::Text;
use ov_keeper::{CellLine, Change};
use ov_rows::{Row, RowKey, Rows, TableRows};
use std::alloc::{AllocError, Global};
use uuid::Uuid;

/// What is stored of a row of the table of this name: its version, and a cell for each of its columns. Each cell reads back.
fn line_of(alloc: Global, table: &str, id: Uuid, row: &Row) -> Result<CellLine, AllocError>
    ensures line { IfOk result (λ line. cell_line_entry line
        ≡ ((table.now, id), cell_line_of row.now)) }
    ensures read { IfOk result (λ line. AreCellsRead row.now.columns) }
{
    Ok(CellLine {
        table: Text::from_str(alloc, table)?,
        id,
        version: row.version,
        cells: cells_of(alloc, &row.columns)?,
    })
}

/// The removal of what is stored under a key.
fn remove_of(alloc: Global, key: &RowKey) -> Result<Change, AllocError>
    ensures { IfOk result (λ change. change_view change ≡ RemoveCells key.now) }
{
    let table = Text::from_str(alloc, key.table())?;
    let id = key.id();
    Ok(Change::Remove { table, id })
}

/// What a change of a row makes of what is stored under its key.
fn change_of(alloc: Global, key: &RowKey, row: &Option<Row>) -> Result<Change, AllocError>
    ensures change { IfOk result (λ change. change_view change ≡ change_of (key.now, row.now)) }
    ensures read { IfOk result (λ change. IsPutRead row.now) }
{
    match row {
        Some(row) => Ok(Change::Put(line_of(alloc, key.table(), key.id(), row)?)),
        None => remove_of(alloc, key),
    }
}

/// The changes of what is stored that the changes of rows make, in ascending order of the rows' keys. Each row that they put
/// reads back from its cells. Refuses only if an allocation fails.
pub fn changes_of(alloc: Global, delta: &Delta) -> Result<Vec<Change>, AllocError>
    ensures changes { IfOk result (λ changes. changes_view changes.items
        ≡ map change_of (entries delta.now)) }
    ensures read { IfOk result (λ changes. ArePutRead (entries delta.now)) }
{
    let mut changes = Vec::new(alloc);
    for (key, row) in delta.map() {
        changes.push(change_of(alloc, key, row)?)?;
    }
    Ok(changes)
}

/// Puts the cells of the rows of a table.
fn put_table(
    alloc: Global,
    name: &str,
    table: &TableRows,
    changes: &mut Vec<Change>,
) -> Result<(), AllocError>
    ensures changes { OnOk result (changes_view changes.new.items
        ≡ changes_view changes.old.items ++ map change_of
        (as_puts (in_table name.now (entries table.now)))) }
    ensures read { OnOk result (ArePutRead (as_puts (in_table name.now (entries table.now)))) }
{
    for (id, row) in table.map() {
        changes.push(Change::Put(line_of(alloc, name, *id.as_uuid(), row)?))?;
    }
    Ok(())
}

/// The changes that put the cells of each row, in ascending order of the rows' keys. Each row reads back from its cells. Refuses
/// only if an allocation fails.
pub fn puts_of(alloc: Global, rows: &Rows) -> Result<Vec<Change>, AllocError>
    ensures changes { IfOk result (λ changes. changes_view changes.items
        ≡ map change_of (as_puts (entries rows.now))) }
    ensures read { IfOk result (λ changes. ArePutRead (as_puts (entries rows.now))) }
{
    let mut changes = Vec::new(alloc);
    for (name, table) in rows.tables() {
        put_table(alloc, name.as_str(), table, &mut changes)?;
    }
    Ok(changes)
}
