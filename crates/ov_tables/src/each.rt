//! The rows of a table, read one at a time.

ghost use Rattle.std.specs.Prelude.{◌≡◌, ◌∷◌, ◌++◌, [], List, IfOk, map, codes, false};
ghost use Rattle.std.specs.Prelude.{IsTrue, MatchBool};
ghost use Rattle.sqlite.specs.Order.{Row as Values};
ghost use Rattle.sqlite.specs.State.{HasCleanDisk, Survives};
ghost use Rattle.sqlite.specs.Held.{state};
ghost use Rattle.ov_tables.specs.Format.{rows_of_cell};
ghost use Rattle.ov_tables.specs.Tables.{cell_table};
ghost use Rattle.ov_tables.specs.Querying.{IsAsBefore, MayRead, GivesRows, row_selected};

use sqlite::{Alter, Connection, Error, Row};
use std::alloc::AllocError;

/// What takes rows one at a time, and may refuse one.
pub trait TakesRows {
    /// From its first state, it took these rows.
    ghost has_taken: { Self → Self → List Values → Type 0 };

    /// From its first state, it took these rows, but refused the last of them.
    ghost has_refused: { Self → Self → List Values → Type 0 };

    /// Takes one more row. Returns whether it takes it, and not refuses it.
    fn take(&mut self, row: &Row) -> Result<bool, AllocError>
        ensures { IfOk result (λ takes. (first : Self) → (rows : List Values)
            → has_taken first self.old rows
            → MatchBool takes (has_taken first self.new (rows ++ row.now ∷ []))
            (has_refused first self.new (rows ++ row.now ∷ []))) };
}

/// Gives each row of `cell`, with its number, until one is refused. Returns whether all were taken. The connection holds what it
/// held before, or is closed.
pub fn each_cell<S: Alter, T: TakesRows>(
    conn: &mut Connection<S>,
    taker: &mut T,
) -> Result<bool, Error>
    requires mode { conn.old.in_transaction ≡ false }
    requires fresh { T.has_taken taker.old taker.old [] }
    ensures mode { conn.new.in_transaction ≡ false }
    ensures rows { HasCleanDisk (state S.Store conn.new)
        → MayRead cell_table (codes "cell") (state S.Store conn.old)
        → IfOk result (λ all. IsTrue (state S.Store conn.old).is_open
        × GivesRows (T.has_taken taker.old taker.new) (T.has_refused taker.old taker.new)
        (map row_selected (rows_of_cell (state S.Store conn.old).now.trees)) all) }
    ensures same { HasCleanDisk (state S.Store conn.new)
        → IsAsBefore (state S.Store conn.old) (state S.Store conn.new) }
    ensures survives { Survives (state S.Store conn.old) (state S.Store conn.new) (λ _. ⊥) }
{
    if !conn.is_autocommit() {
        return Err(Error::InvalidQuery);
    }
    // Its contract says that the rows obey the schema.
    let _schema = conn.schema();
    let mut rows = conn.query("SELECT rowid,tbl,id,col,body FROM cell", &[])?;
    'rows: for _ in 0..u64::MAX {
        rows.advance()?;
        let Some(row) = rows.get() else {
            return Ok(true);
        };
        if !taker.take(row)? {
            return Ok(false);
        }
    }
    // Row numbers have 64 bits, so a table ends before.
    Err(Error::InvalidQuery)
}
