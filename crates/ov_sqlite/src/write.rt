//! Writing rows of stored format 2.

ghost use Rattle.std.specs.Prelude.{◌≡◌, ◌<◌, ◌∷◌, [], length, map, false, IsTrue, OnOk, OnErr};
ghost use Rattle.std.specs.Prelude.{IfErr};
ghost use Rattle.std.specs.FinMap.{empty, insert, remove};
ghost use Rattle.sqlite.specs.State.{HasCleanDisk, Survives, KeepsCommit, IsUnchanged};
ghost use Rattle.sqlite.specs.Held.{state};
ghost use Rattle.ov_specs.specs.rows.Cells.{after_cell_change, after_cell_changes};
ghost use Rattle.ov_keeper.specs.Views.{cell_entry, cells_view, cell_line_entry};
ghost use Rattle.ov_keeper.specs.Views.{change_view, changes_view};
ghost use Rattle.ov_tables.specs.WriteError.{IsBefore};
ghost use Rattle.ov_tables.specs.Holding.{MayHoldCells};
ghost use Rattle.ov_sqlite.specs.Changing.{MakesRows, Becomes, IsEmptied, IsRowBegun, IsCellAdded};
ghost use Rattle.ov_sqlite.specs.Changing.{AreCellsAdded, IsRefilled, IsRefusal};
ghost use Rattle.ov_sqlite.specs.Changing.{MayHave, MayBeEmpty, Stores, IsCommitImage};
ghost use Rattle.ov_sqlite.specs.Writing.{WritesTables, WritesOpenTables, MayHoldWith};
ghost use Rattle.ov_tables.specs.Querying.{IsAsBefore};

use crate::renew::{are_of, update_cells, update_head};
use crate::value::id_bytes;
use ov_keeper::{Cell, CellLine, Change};
use ov_tables::{WriteError, cells_of};
use sqlite::types::ValueRef;
use sqlite::{Alter, Connection, Error, ErrorCode, Transaction};
use uuid::Uuid;

/// Removes the cells of the row of this key.
fn remove_cells<S: Alter>(tx: &mut Transaction<'_, S>, table: &str, id: Uuid) -> Result<(), Error>
    ensures writes { WritesOpenTables S.Store result MayHoldCells
        (MakesRows (IsEmptied (table.now, id))) tx.old.conn tx.new.conn }
{
    let key = [
        ValueRef::Text(table.as_bytes()),
        ValueRef::Blob(id.as_bytes()),
    ];
    tx.execute("DELETE FROM cell WHERE tbl=?1 AND id=?2", &key)?;
    Ok(())
}

/// Removes the head of the row of this key, which has no cells.
fn remove_head<S: Alter>(tx: &mut Transaction<'_, S>, table: &str, id: Uuid) -> Result<(), Error>
    ensures writes { WritesTables S.Store result (MayHoldWith (MayBeEmpty (table.now, id)))
        (MakesRows (Becomes (λ m. remove m (table.now, id)))) tx.old.conn tx.new.conn }
{
    let key = [
        ValueRef::Text(table.as_bytes()),
        ValueRef::Blob(id.as_bytes()),
    ];
    tx.execute("DELETE FROM head WHERE tbl=?1 AND id=?2", &key)?;
    Ok(())
}

/// Removes the row of this key with all its cells.
fn remove_row<S: Alter>(tx: &mut Transaction<'_, S>, table: &str, id: Uuid) -> Result<(), Error>
    ensures writes { WritesOpenTables S.Store result MayHoldCells
        (MakesRows (Becomes (λ m. remove m (table.now, id)))) tx.old.conn tx.new.conn }
{
    remove_cells(tx, table, id)?;
    remove_head(tx, table, id)
}

/// Adds the head of a row that is not there. SQLite refuses a second head of one key; then nothing has changed.
fn insert_head<S: Alter>(tx: &mut Transaction<'_, S>, line: &CellLine) -> Result<(), Error>
    ensures writes { WritesOpenTables S.Store result MayHoldCells
        (MakesRows (IsRowBegun (line.now.table, line.now.id) line.now.version))
        tx.old.conn tx.new.conn }
    ensures refused { HasCleanDisk (state S.Store tx.new.conn.now)
        → IsTrue (state S.Store tx.old.conn.now).in_transaction
        → IfErr result (λ e. IsRefusal e
        → IsUnchanged (state S.Store tx.old.conn.now) (state S.Store tx.new.conn.now)) }
{
    let values = [
        ValueRef::Text(line.table.as_str().as_bytes()),
        ValueRef::Blob(id_bytes(&line.id)),
        ValueRef::Blob(id_bytes(&line.version)),
    ];
    tx.execute("INSERT INTO head(tbl,id,ver) VALUES(?1,?2,?3)", &values)?;
    Ok(())
}

/// Adds a cell to a row that is there. SQLite refuses a second cell of one column.
fn insert_cell<S: Alter>(
    tx: &mut Transaction<'_, S>,
    line: &CellLine,
    cell: &Cell,
) -> Result<(), Error>
    ensures writes { WritesTables S.Store result
        (MayHoldWith (MayHave (line.now.table, line.now.id) (λ _. Unit {0})))
        (MakesRows (IsCellAdded (line.now.table, line.now.id) cell.now.column cell.now.body))
        tx.old.conn tx.new.conn }
{
    let values = [
        ValueRef::Text(line.table.as_str().as_bytes()),
        ValueRef::Blob(id_bytes(&line.id)),
        ValueRef::Text(cell.column.as_str().as_bytes()),
        ValueRef::Blob(cell.body.as_slice()),
    ];
    tx.execute(
        "INSERT INTO cell(tbl,id,col,body) VALUES(?1,?2,?3,?4)",
        &values,
    )?;
    Ok(())
}

/// Adds four cells to a row that is there, by one statement. SQLite refuses a second cell of one column.
fn insert_four<S: Alter>(
    tx: &mut Transaction<'_, S>,
    line: &CellLine,
    a: &Cell,
    b: &Cell,
    c: &Cell,
    d: &Cell,
) -> Result<(), Error>
    ensures writes { WritesTables S.Store result
        (MayHoldWith (MayHave (line.now.table, line.now.id) (λ _. Unit {0})))
        (MakesRows (AreCellsAdded (line.now.table, line.now.id)
        (cell_entry a.now ∷ cell_entry b.now ∷ cell_entry c.now ∷ cell_entry d.now ∷ [])))
        tx.old.conn tx.new.conn }
{
    let values = [
        ValueRef::Text(line.table.as_str().as_bytes()),
        ValueRef::Blob(id_bytes(&line.id)),
        ValueRef::Text(a.column.as_str().as_bytes()),
        ValueRef::Blob(a.body.as_slice()),
        ValueRef::Text(b.column.as_str().as_bytes()),
        ValueRef::Blob(b.body.as_slice()),
        ValueRef::Text(c.column.as_str().as_bytes()),
        ValueRef::Blob(c.body.as_slice()),
        ValueRef::Text(d.column.as_str().as_bytes()),
        ValueRef::Blob(d.body.as_slice()),
    ];
    tx.execute(
        "INSERT INTO cell(tbl,id,col,body) VALUES(?1,?2,?3,?4),(?1,?2,?5,?6),(?1,?2,?7,?8),(?1,?2,?9,?10)",
        &values,
    )?;
    Ok(())
}

/// Adds cells to a row that is there, one by one.
fn insert_each<S: Alter>(
    tx: &mut Transaction<'_, S>,
    line: &CellLine,
    cells: &[Cell],
) -> Result<(), Error>
    ensures writes { WritesTables S.Store result
        (MayHoldWith (MayHave (line.now.table, line.now.id) (λ _. Unit {0})))
        (MakesRows (AreCellsAdded (line.now.table, line.now.id) (map cell_entry cells.now)))
        tx.old.conn tx.new.conn }
{
    for cell in cells {
        insert_cell(tx, line, cell)?;
    }
    Ok(())
}

/// Adds the cells of a row, whose head is there without any: four by one statement, while there are four.
fn insert_cells<S: Alter>(tx: &mut Transaction<'_, S>, line: &CellLine) -> Result<(), Error>
    ensures writes { WritesTables S.Store result
        (MayHoldWith (MayHave (line.now.table, line.now.id) (λ l. l ≡ (line.now.version, empty))))
        (MakesRows (IsRefilled (line.now.table, line.now.id)
        (line.now.version, cells_view line.now.cells.items))) tx.old.conn tx.new.conn }
{
    let cells = line.cells.as_slice();
    let mut done = 0;
    while cells.len() - done >= 4 {
        insert_four(
            tx,
            line,
            &cells[done],
            &cells[done + 1],
            &cells[done + 2],
            &cells[done + 3],
        )?;
        done += 4;
    }
    insert_each(tx, line, &cells[done..])
}

/// Removes the row of this key with all its cells, if there is one, and puts this one in its place.
fn replace_row<S: Alter>(tx: &mut Transaction<'_, S>, line: &CellLine) -> Result<(), Error>
    ensures writes { WritesOpenTables S.Store result MayHoldCells (MakesRows (Becomes
        (λ m. insert m (cell_line_entry line.now).0 (cell_line_entry line.now).1)))
        tx.old.conn tx.new.conn }
{
    remove_row(tx, line.table.as_str(), line.id)?;
    insert_head(tx, line)?;
    insert_cells(tx, line)
}

/// Puts a row in place of the one with its key. If that one has the same columns, only its version and the cells that differ
/// are written.
fn update_row<S: Alter>(tx: &mut Transaction<'_, S>, line: &CellLine) -> Result<(), Error>
    ensures writes { WritesOpenTables S.Store result MayHoldCells (MakesRows (Becomes
        (λ m. insert m (cell_line_entry line.now).0 (cell_line_entry line.now).1)))
        tx.old.conn tx.new.conn }
{
    let rows = cells_of(tx, line.table.as_str(), id_bytes(&line.id))?;
    if !are_of(rows.as_slice(), line.cells.as_slice()) {
        return replace_row(tx, line);
    }
    update_head(tx, line)?;
    update_cells(tx, line, rows.as_slice())
}

/// Puts a row in place of the one with its key. A new row takes only what adds it: where SQLite takes its head, there was none.
fn put_row<S: Alter>(tx: &mut Transaction<'_, S>, line: &CellLine) -> Result<(), Error>
    ensures writes { WritesOpenTables S.Store result MayHoldCells (MakesRows (Becomes
        (λ m. insert m (cell_line_entry line.now).0 (cell_line_entry line.now).1)))
        tx.old.conn tx.new.conn }
{
    match insert_head(tx, line) {
        Ok(()) => insert_cells(tx, line),
        Err(Error::SqliteFailure(ErrorCode::ConstraintViolation(_))) => update_row(tx, line),
        Err(other) => Err(other),
    }
}

/// Makes one change.
fn apply<S: Alter>(tx: &mut Transaction<'_, S>, change: &Change) -> Result<(), Error>
    ensures writes { WritesOpenTables S.Store result MayHoldCells (MakesRows (Becomes
        (after_cell_change (change_view change.now)))) tx.old.conn tx.new.conn }
{
    match change {
        Change::Put(line) => put_row(tx, line),
        Change::Remove { table, id } => remove_row(tx, table.as_str(), *id),
    }
}

/// Makes the changes in their order. Commits nothing.
pub(crate) fn apply_all<S: Alter>(
    tx: &mut Transaction<'_, S>,
    changes: &[Change],
) -> Result<(), Error>
    ensures writes { WritesTables S.Store result MayHoldCells (MakesRows (Becomes
        (after_cell_changes (changes_view changes.now)))) tx.old.conn tx.new.conn }
    ensures opened { HasCleanDisk (state S.Store tx.new.conn.now)
        → IsTrue (state S.Store tx.old.conn.now).in_transaction
        → OnOk result (0 < length changes.now → IsTrue (state S.Store tx.old.conn.now).is_open) }
{
    for change in changes {
        apply(tx, change)?;
    }
    Ok(())
}

/// Makes the changes in one transaction, in a database of stored format 2. After an error the connection is closed or shows
/// what it did before. After an error at the commit itself the changes may be stored.
pub fn write_all<S: Alter>(conn: &mut Connection<S>, changes: &[Change]) -> Result<(), WriteError>
    requires autocommit { conn.old.in_transaction ≡ false }
    requires some { 0 < length changes.now }
    ensures mode { conn.new.in_transaction ≡ false }
    ensures ok { HasCleanDisk (state S.Store conn.new) → (text : _)
        → MayHoldCells text (state S.Store conn.old)
        → OnOk result (Stores text (after_cell_changes (changes_view changes.now))
        (state S.Store conn.old) (state S.Store conn.new)) }
    ensures before { IfErr result (λ s. IsBefore s
        → Survives (state S.Store conn.old) (state S.Store conn.new) (λ _. ⊥)) }
    ensures crash { Survives (state S.Store conn.old) (state S.Store conn.new)
        (λ trees. (text : _) → MayHoldCells text (state S.Store conn.old)
        → IsCommitImage (after_cell_changes (changes_view changes.now))
        (state S.Store conn.old) trees) }
    ensures unmoved { HasCleanDisk (state S.Store conn.new)
        → OnErr result (KeepsCommit (state S.Store conn.old) (state S.Store conn.new)) }
    ensures same { HasCleanDisk (state S.Store conn.new)
        → OnErr result (IsAsBefore (state S.Store conn.old) (state S.Store conn.new)) }
{
    if !conn.is_autocommit() {
        return Err(WriteError::Before(Error::InvalidQuery));
    }
    let mut tx = conn.transaction();
    match apply_all(&mut tx, changes) {
        Ok(()) => {}
        Err(error) => return Err(WriteError::Before(error)),
    }
    match tx.commit() {
        Ok(()) => Ok(()),
        Err(error) => Err(WriteError::AtCommit(error)),
    }
}

/// Tests whether the connection still works, by a statement that does nothing. The connection keeps this statement, so only the
/// first call allocates.
pub(crate) fn probe<S: Alter>(conn: &mut Connection<S>) -> Result<(), Error>
    requires { conn.old.in_transaction ≡ false }
    ensures mode { conn.new.in_transaction ≡ false }
    ensures up { HasCleanDisk (state S.Store conn.new)
        → OnOk result (IsUnchanged (state S.Store conn.old) (state S.Store conn.new)) }
    ensures same { HasCleanDisk (state S.Store conn.new)
        → IsAsBefore (state S.Store conn.old) (state S.Store conn.new) }
    ensures unmoved { HasCleanDisk (state S.Store conn.new)
        → KeepsCommit (state S.Store conn.old) (state S.Store conn.new) }
    ensures survives { Survives (state S.Store conn.old) (state S.Store conn.new) (λ _. ⊥) }
{
    if !conn.is_autocommit() {
        return Err(Error::InvalidQuery);
    }
    match conn.prepare("") {
        Ok(_) => Ok(()),
        Err(error) => Err(error),
    }
}
