//! Queries that change nothing.

ghost use Rattle.std.specs.Prelude.{◌≡◌, IfOk, map, codes, true, false, [], IsTrue};
ghost use Rattle.std.specs.List.Sorted.{IsPermutation};
ghost use Rattle.sqlite.specs.State.{HasCleanDisk, Survives, Shown};
ghost use Rattle.sqlite.specs.Effect.{IsDatabase};
ghost use Rattle.sqlite.specs.Held.{state};
ghost use Rattle.ov_tables.specs.Format.{rows_of_meta, rows_of_line, rows_of_head};
ghost use Rattle.ov_tables.specs.Tables.{meta_table, line_table, head_table};
ghost use Rattle.ov_tables.specs.Querying.{IsAsBefore, MayRead, meta_selected, head_selected};
ghost use Rattle.ov_tables.specs.Querying.{row_selected, ReadsKey};
ghost use Rattle.ov_tables.specs.Holding.{MayHoldCells};
ghost use Rattle.ov_tables.specs.Inside.{WasOpenInside, GoesOnInside, CommitsNothing};

use sqlite::types::ValueRef;
use sqlite::{Alter, Connection, Error, Row, Transaction};

/// The rows that a query returns. It runs in a transaction that is rolled back, so nothing is committed.
fn query<S: Alter>(conn: &mut Connection<S>, sql: &str) -> Result<Vec<Row>, Error>
    requires { conn.old.in_transaction ≡ false }
    ensures mode { conn.new.in_transaction ≡ false }
    ensures rows { HasCleanDisk (state S.Store conn.new) → IfOk result (λ rows. (mid : _)
        × Shown sql.now []
        (state S.Store (record conn.old { in_transaction = true })) (state S.Store mid)
        rows.items) }
    ensures settled { IsTrue (state S.Store conn.old).is_open
        → ((state S.Store conn.old).now ≡ (state S.Store conn.old).committed)
        × IsDatabase (state S.Store conn.old).now }
    ensures same { HasCleanDisk (state S.Store conn.new)
        → IsAsBefore (state S.Store conn.old) (state S.Store conn.new) }
    ensures survives { Survives (state S.Store conn.old) (state S.Store conn.new) (λ _. ⊥) }
{
    if !conn.is_autocommit() {
        return Err(Error::InvalidQuery);
    }
    // Its contract says that the rows obey the schema.
    let _schema = conn.schema();
    let mut tx = conn.transaction();
    let rows = tx.query_all(sql, &[]);
    tx.rollback();
    rows
}

/// The rows of `meta`, each with its number. The connection holds what it held before, or is closed.
pub fn meta_rows<S: Alter>(conn: &mut Connection<S>) -> Result<Vec<Row>, Error>
    requires { conn.old.in_transaction ≡ false }
    ensures mode { conn.new.in_transaction ≡ false }
    ensures rows { HasCleanDisk (state S.Store conn.new)
        → MayRead meta_table (codes "meta") (state S.Store conn.old)
        → IfOk result (λ rows. IsTrue (state S.Store conn.old).is_open
        × IsPermutation
        (map meta_selected (rows_of_meta (state S.Store conn.old).now.trees)) rows.items) }
    ensures settled { IsTrue (state S.Store conn.old).is_open
        → ((state S.Store conn.old).now ≡ (state S.Store conn.old).committed)
        × IsDatabase (state S.Store conn.old).now }
    ensures same { HasCleanDisk (state S.Store conn.new)
        → IsAsBefore (state S.Store conn.old) (state S.Store conn.new) }
    ensures survives { Survives (state S.Store conn.old) (state S.Store conn.new) (λ _. ⊥) }
{
    query(conn, "SELECT rowid,k,v FROM meta")
}

/// The rows of `line`, each with its number. The connection holds what it held before, or is closed.
pub fn line_rows<S: Alter>(conn: &mut Connection<S>) -> Result<Vec<Row>, Error>
    requires { conn.old.in_transaction ≡ false }
    ensures mode { conn.new.in_transaction ≡ false }
    ensures rows { HasCleanDisk (state S.Store conn.new)
        → MayRead line_table (codes "line") (state S.Store conn.old)
        → IfOk result (λ rows. IsTrue (state S.Store conn.old).is_open
        × IsPermutation
        (map row_selected (rows_of_line (state S.Store conn.old).now.trees)) rows.items) }
    ensures settled { IsTrue (state S.Store conn.old).is_open
        → ((state S.Store conn.old).now ≡ (state S.Store conn.old).committed)
        × IsDatabase (state S.Store conn.old).now }
    ensures same { HasCleanDisk (state S.Store conn.new)
        → IsAsBefore (state S.Store conn.old) (state S.Store conn.new) }
    ensures survives { Survives (state S.Store conn.old) (state S.Store conn.new) (λ _. ⊥) }
{
    query(conn, "SELECT rowid,tbl,id,ver,body FROM line")
}

/// The rows of `head`, each with its number. The connection holds what it held before, or is closed.
pub fn head_rows<S: Alter>(conn: &mut Connection<S>) -> Result<Vec<Row>, Error>
    requires { conn.old.in_transaction ≡ false }
    ensures mode { conn.new.in_transaction ≡ false }
    ensures rows { HasCleanDisk (state S.Store conn.new)
        → MayRead head_table (codes "head") (state S.Store conn.old)
        → IfOk result (λ rows. IsTrue (state S.Store conn.old).is_open
        × IsPermutation
        (map head_selected (rows_of_head (state S.Store conn.old).now.trees)) rows.items) }
    ensures settled { IsTrue (state S.Store conn.old).is_open
        → ((state S.Store conn.old).now ≡ (state S.Store conn.old).committed)
        × IsDatabase (state S.Store conn.old).now }
    ensures same { HasCleanDisk (state S.Store conn.new)
        → IsAsBefore (state S.Store conn.old) (state S.Store conn.new) }
    ensures survives { Survives (state S.Store conn.old) (state S.Store conn.new) (λ _. ⊥) }
{
    query(conn, "SELECT rowid,tbl,id,ver FROM head")
}

/// The cells of the row of this key, each by the name of its column and its body. It changes nothing.
pub fn cells_of<S: Alter>(
    tx: &mut Transaction<'_, S>,
    table: &str,
    id: &[u8],
) -> Result<Vec<Row>, Error>
    ensures same_reference { tx.new.conn.ghost_name ≡ tx.old.conn.ghost_name }
    ensures cells { HasCleanDisk (state S.Store tx.new.conn.now)
        → IsTrue (state S.Store tx.old.conn.now).in_transaction → (text : _)
        → MayHoldCells text (state S.Store tx.old.conn.now)
        → IfOk result (λ rows. ReadsKey (table.now, id.now) rows.items
        (state S.Store tx.old.conn.now) (state S.Store tx.new.conn.now)) }
    ensures opened { WasOpenInside (state S.Store tx.old.conn.now)
        (state S.Store tx.new.conn.now) result }
    ensures goes_on { GoesOnInside (state S.Store tx.old.conn.now)
        (state S.Store tx.new.conn.now) result }
    ensures kept { CommitsNothing (state S.Store tx.old.conn.now) (state S.Store tx.new.conn.now) }
    ensures survives { Survives (state S.Store tx.old.conn.now) (state S.Store tx.new.conn.now)
        (λ _. ⊥) }
{
    let key = [ValueRef::Text(table.as_bytes()), ValueRef::Blob(id)];
    tx.query_all("SELECT col,body FROM cell WHERE tbl=?1 AND id=?2", &key)
}
