//! Making the tables of stored format 2.

ghost use Rattle.std.specs.Prelude.{◌≡◌, false, codes, IsTrue, IfErr, OnOk, OnErr};
ghost use Rattle.sqlite.specs.State.{HasCleanDisk, Survives, KeepsCommit};
ghost use Rattle.sqlite.specs.Held.{state};
ghost use Rattle.ov_tables.specs.Tables.{meta_table, head_table, cell_table};
ghost use Rattle.ov_tables.specs.Making.{MayMake, MayCreate, MayCreateRows, MayHaveCells};
ghost use Rattle.ov_tables.specs.Making.{MayBeBare, Creates, CreatesRows, AddsMeta, Fills};
ghost use Rattle.ov_tables.specs.Making.{MakesFilled, IsNew, IsNewBeside};
ghost use Rattle.ov_tables.specs.Inside.{Within, GoesOnInside};
ghost use Rattle.ov_tables.specs.WriteError.{IsBefore};

use crate::write_error::WriteError;
use ov_base::Text;
use sqlite::types::ValueRef;
use sqlite::{Alter, Connection, Error, Transaction};

/// The statement that makes `meta`, as SQLite lists it too.
pub(crate) const CREATE_META: &str = "CREATE TABLE meta(k TEXT PRIMARY KEY, v BLOB)";

/// The statement that made `line` in stored format 1, as SQLite lists it too.
pub(crate) const CREATE_LINE: &str =
    "CREATE TABLE line(tbl TEXT, id BLOB, ver BLOB, body BLOB, PRIMARY KEY(tbl,id))";

/// The statement that makes `head`, as SQLite lists it too.
pub(crate) const CREATE_HEAD: &str =
    "CREATE TABLE head(tbl TEXT, id BLOB, ver BLOB, PRIMARY KEY(tbl,id))";

/// The statement that makes `cell`, as SQLite lists it too.
pub(crate) const CREATE_CELL: &str =
    "CREATE TABLE cell(tbl TEXT, id BLOB, col TEXT, body BLOB, PRIMARY KEY(tbl,id,col))";

fn make_meta<S: Alter>(tx: &mut Transaction<'_, S>) -> Result<(), Error>
    ensures same_reference { tx.new.conn.ghost_name ≡ tx.old.conn.ghost_name }
    ensures ok { Within (MayCreate (codes "meta")) (Creates (meta_table 0))
        (state S.Store tx.old.conn.now) (state S.Store tx.new.conn.now) result }
    ensures goes_on { GoesOnInside (state S.Store tx.old.conn.now)
        (state S.Store tx.new.conn.now) result }
    ensures kept { HasCleanDisk (state S.Store tx.new.conn.now)
        → KeepsCommit (state S.Store tx.old.conn.now) (state S.Store tx.new.conn.now) }
    ensures survives { Survives (state S.Store tx.old.conn.now) (state S.Store tx.new.conn.now)
        (λ _. ⊥) }
{
    tx.execute(CREATE_META, &[])?;
    Ok(())
}

fn make_head<S: Alter>(tx: &mut Transaction<'_, S>) -> Result<(), Error>
    ensures same_reference { tx.new.conn.ghost_name ≡ tx.old.conn.ghost_name }
    ensures ok { Within (MayCreate (codes "head")) (Creates (head_table 0))
        (state S.Store tx.old.conn.now) (state S.Store tx.new.conn.now) result }
    ensures goes_on { GoesOnInside (state S.Store tx.old.conn.now)
        (state S.Store tx.new.conn.now) result }
    ensures kept { HasCleanDisk (state S.Store tx.new.conn.now)
        → KeepsCommit (state S.Store tx.old.conn.now) (state S.Store tx.new.conn.now) }
    ensures survives { Survives (state S.Store tx.old.conn.now) (state S.Store tx.new.conn.now)
        (λ _. ⊥) }
{
    tx.execute(CREATE_HEAD, &[])?;
    Ok(())
}

fn make_cell<S: Alter>(tx: &mut Transaction<'_, S>) -> Result<(), Error>
    ensures same_reference { tx.new.conn.ghost_name ≡ tx.old.conn.ghost_name }
    ensures ok { Within (MayCreate (codes "cell")) (Creates (cell_table 0))
        (state S.Store tx.old.conn.now) (state S.Store tx.new.conn.now) result }
    ensures goes_on { GoesOnInside (state S.Store tx.old.conn.now)
        (state S.Store tx.new.conn.now) result }
    ensures kept { HasCleanDisk (state S.Store tx.new.conn.now)
        → KeepsCommit (state S.Store tx.old.conn.now) (state S.Store tx.new.conn.now) }
    ensures survives { Survives (state S.Store tx.old.conn.now) (state S.Store tx.new.conn.now)
        (λ _. ⊥) }
{
    tx.execute(CREATE_CELL, &[])?;
    Ok(())
}

/// Makes `head` and `cell`.
pub(crate) fn make_rows<S: Alter>(tx: &mut Transaction<'_, S>) -> Result<(), Error>
    ensures same_reference { tx.new.conn.ghost_name ≡ tx.old.conn.ghost_name }
    ensures ok { Within MayCreateRows CreatesRows
        (state S.Store tx.old.conn.now) (state S.Store tx.new.conn.now) result }
    ensures goes_on { GoesOnInside (state S.Store tx.old.conn.now)
        (state S.Store tx.new.conn.now) result }
    ensures kept { HasCleanDisk (state S.Store tx.new.conn.now)
        → KeepsCommit (state S.Store tx.old.conn.now) (state S.Store tx.new.conn.now) }
    ensures survives { Survives (state S.Store tx.old.conn.now) (state S.Store tx.new.conn.now)
        (λ _. ⊥) }
{
    make_head(tx)?;
    make_cell(tx)
}

fn insert_meta<S: Alter>(tx: &mut Transaction<'_, S>, key: &str, value: &[u8]) -> Result<(), Error>
    ensures same_reference { tx.new.conn.ghost_name ≡ tx.old.conn.ghost_name }
    ensures ok { Within MayHaveCells (AddsMeta key.now value.now)
        (state S.Store tx.old.conn.now) (state S.Store tx.new.conn.now) result }
    ensures goes_on { GoesOnInside (state S.Store tx.old.conn.now)
        (state S.Store tx.new.conn.now) result }
    ensures kept { HasCleanDisk (state S.Store tx.new.conn.now)
        → KeepsCommit (state S.Store tx.old.conn.now) (state S.Store tx.new.conn.now) }
    ensures survives { Survives (state S.Store tx.old.conn.now) (state S.Store tx.new.conn.now)
        (λ _. ⊥) }
{
    tx.execute(
        "INSERT INTO meta(k,v) VALUES(?1,?2)",
        &[ValueRef::Text(key.as_bytes()), ValueRef::Blob(value)],
    )?;
    Ok(())
}

/// Writes the two rows of `meta`, which has none: that the format is 2, and the schema's text. Commits nothing, and refuses
/// only if SQLite does.
pub fn fill_meta<S: Alter>(tx: &mut Transaction<'_, S>, schema: &Text) -> Result<(), Error>
    ensures same_reference { tx.new.conn.ghost_name ≡ tx.old.conn.ghost_name }
    ensures ok { Within MayBeBare (Fills schema.now)
        (state S.Store tx.old.conn.now) (state S.Store tx.new.conn.now) result }
    ensures goes_on { GoesOnInside (state S.Store tx.old.conn.now)
        (state S.Store tx.new.conn.now) result }
    ensures kept { HasCleanDisk (state S.Store tx.new.conn.now)
        → KeepsCommit (state S.Store tx.old.conn.now) (state S.Store tx.new.conn.now) }
    ensures survives { Survives (state S.Store tx.old.conn.now) (state S.Store tx.new.conn.now)
        (λ _. ⊥) }
{
    insert_meta(tx, "format", b"2")?;
    insert_meta(tx, "schema", schema.as_str().as_bytes())
}

/// Makes the three tables and fills `meta`.
fn make_all<S: Alter>(tx: &mut Transaction<'_, S>, schema: &Text) -> Result<(), Error>
    ensures same_reference { tx.new.conn.ghost_name ≡ tx.old.conn.ghost_name }
    ensures ok { Within MayMake (MakesFilled schema.now)
        (state S.Store tx.old.conn.now) (state S.Store tx.new.conn.now) result }
    ensures goes_on { GoesOnInside (state S.Store tx.old.conn.now)
        (state S.Store tx.new.conn.now) result }
    ensures kept { HasCleanDisk (state S.Store tx.new.conn.now)
        → KeepsCommit (state S.Store tx.old.conn.now) (state S.Store tx.new.conn.now) }
    ensures survives { Survives (state S.Store tx.old.conn.now) (state S.Store tx.new.conn.now)
        (λ _. ⊥) }
{
    make_meta(tx)?;
    make_rows(tx)?;
    fill_meta(tx, schema)
}

/// Makes the three tables of stored format 2 after everything that is there, with a schema's text and no rows, in one
/// transaction.
pub fn make_tables<S: Alter>(conn: &mut Connection<S>, schema: &Text) -> Result<(), WriteError>
    requires { conn.old.in_transaction ≡ false }
    ensures mode { conn.new.in_transaction ≡ false }
    ensures settled { IsTrue (state S.Store conn.old).is_open
        → (state S.Store conn.old).now ≡ (state S.Store conn.old).committed }
    ensures ok { HasCleanDisk (state S.Store conn.new) → MayMake (state S.Store conn.old)
        → OnOk result (IsNew schema.now (state S.Store conn.old) (state S.Store conn.new)) }
    ensures before { IfErr result (λ s. IsBefore s
        → Survives (state S.Store conn.old) (state S.Store conn.new) (λ _. ⊥)) }
    ensures crash { Survives (state S.Store conn.old) (state S.Store conn.new)
        (λ trees. MayMake (state S.Store conn.old)
        → IsNewBeside schema.now (state S.Store conn.old) trees) }
    ensures unmoved { HasCleanDisk (state S.Store conn.new)
        → OnErr result (KeepsCommit (state S.Store conn.old) (state S.Store conn.new)) }
{
    // Its contract says that everything is committed.
    let _before = conn.is_autocommit();
    let mut tx = conn.transaction();
    match make_all(&mut tx, schema) {
        Ok(()) => {}
        Err(error) => return Err(WriteError::Before(error)),
    }
    match tx.commit() {
        Ok(()) => Ok(()),
        Err(error) => Err(WriteError::AtCommit(error)),
    }
}
