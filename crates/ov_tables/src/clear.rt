//! Emptying the tables of either stored format, and those of format 2 in their place.

ghost use Rattle.std.specs.Prelude.{◌≡◌, codes, IsTrue, OnOk};
ghost use Rattle.sqlite.specs.State.{HasCleanDisk, Survives};
ghost use Rattle.sqlite.specs.Held.{state};
ghost use Rattle.ov_tables.specs.Tables.{meta_table, line_table, head_table, cell_table};
ghost use Rattle.ov_tables.specs.Holding.{HoldsLines};
ghost use Rattle.ov_tables.specs.Inside.{Within, DoesInside, GoesOnInside, CommitsNothing};
ghost use Rattle.ov_tables.specs.Emptying.{MayClear, Clears, MayHold, Empties};

use crate::make::make_rows;
use sqlite::{Alter, Error, Transaction};

/// Removes every row of `meta`.
fn clear_meta<S: Alter>(tx: &mut Transaction<'_, S>) -> Result<(), Error>
    ensures same_reference { tx.new.conn.ghost_name ≡ tx.old.conn.ghost_name }
    ensures ok { Within (MayClear meta_table (codes "meta")) (Clears (codes "meta"))
        (state S.Store tx.old.conn.now) (state S.Store tx.new.conn.now) result }
    ensures goes_on { GoesOnInside (state S.Store tx.old.conn.now)
        (state S.Store tx.new.conn.now) result }
    ensures kept { CommitsNothing (state S.Store tx.old.conn.now) (state S.Store tx.new.conn.now) }
    ensures survives { Survives (state S.Store tx.old.conn.now) (state S.Store tx.new.conn.now)
        (λ _. ⊥) }
{
    tx.execute("DELETE FROM meta", &[])?;
    Ok(())
}

/// Removes every row of `line`.
fn clear_line<S: Alter>(tx: &mut Transaction<'_, S>) -> Result<(), Error>
    ensures same_reference { tx.new.conn.ghost_name ≡ tx.old.conn.ghost_name }
    ensures ok { Within (MayClear line_table (codes "line")) (Clears (codes "line"))
        (state S.Store tx.old.conn.now) (state S.Store tx.new.conn.now) result }
    ensures goes_on { GoesOnInside (state S.Store tx.old.conn.now)
        (state S.Store tx.new.conn.now) result }
    ensures kept { CommitsNothing (state S.Store tx.old.conn.now) (state S.Store tx.new.conn.now) }
    ensures survives { Survives (state S.Store tx.old.conn.now) (state S.Store tx.new.conn.now)
        (λ _. ⊥) }
{
    tx.execute("DELETE FROM line", &[])?;
    Ok(())
}

/// Removes every row of `head`.
fn clear_head<S: Alter>(tx: &mut Transaction<'_, S>) -> Result<(), Error>
    ensures same_reference { tx.new.conn.ghost_name ≡ tx.old.conn.ghost_name }
    ensures ok { Within (MayClear head_table (codes "head")) (Clears (codes "head"))
        (state S.Store tx.old.conn.now) (state S.Store tx.new.conn.now) result }
    ensures goes_on { GoesOnInside (state S.Store tx.old.conn.now)
        (state S.Store tx.new.conn.now) result }
    ensures kept { CommitsNothing (state S.Store tx.old.conn.now) (state S.Store tx.new.conn.now) }
    ensures survives { Survives (state S.Store tx.old.conn.now) (state S.Store tx.new.conn.now)
        (λ _. ⊥) }
{
    tx.execute("DELETE FROM head", &[])?;
    Ok(())
}

/// Removes every row of `cell`.
fn clear_cell<S: Alter>(tx: &mut Transaction<'_, S>) -> Result<(), Error>
    ensures same_reference { tx.new.conn.ghost_name ≡ tx.old.conn.ghost_name }
    ensures ok { Within (MayClear cell_table (codes "cell")) (Clears (codes "cell"))
        (state S.Store tx.old.conn.now) (state S.Store tx.new.conn.now) result }
    ensures goes_on { GoesOnInside (state S.Store tx.old.conn.now)
        (state S.Store tx.new.conn.now) result }
    ensures kept { CommitsNothing (state S.Store tx.old.conn.now) (state S.Store tx.new.conn.now) }
    ensures survives { Survives (state S.Store tx.old.conn.now) (state S.Store tx.new.conn.now)
        (λ _. ⊥) }
{
    tx.execute("DELETE FROM cell", &[])?;
    Ok(())
}

/// Empties the tables of stored format 2.
fn clear_cells<S: Alter>(tx: &mut Transaction<'_, S>) -> Result<(), Error>
    ensures same_reference { tx.new.conn.ghost_name ≡ tx.old.conn.ghost_name }
    ensures ok { DoesInside (λ _. Empties) (state S.Store tx.old.conn.now)
        (state S.Store tx.new.conn.now) result }
    ensures goes_on { GoesOnInside (state S.Store tx.old.conn.now)
        (state S.Store tx.new.conn.now) result }
    ensures kept { CommitsNothing (state S.Store tx.old.conn.now) (state S.Store tx.new.conn.now) }
    ensures survives { Survives (state S.Store tx.old.conn.now) (state S.Store tx.new.conn.now)
        (λ _. ⊥) }
{
    clear_cell(tx)?;
    clear_head(tx)?;
    clear_meta(tx)
}

/// Empties the tables of stored format 1, and makes `head` and `cell`. The empty `line` stays.
fn clear_lines<S: Alter>(tx: &mut Transaction<'_, S>) -> Result<(), Error>
    ensures same_reference { tx.new.conn.ghost_name ≡ tx.old.conn.ghost_name }
    ensures ok { HasCleanDisk (state S.Store tx.new.conn.now)
        → IsTrue (state S.Store tx.old.conn.now).in_transaction → (text : _)
        → (IsTrue (state S.Store tx.old.conn.now).is_open
        → HoldsLines text (state S.Store tx.old.conn.now).now)
        → OnOk result (Empties (state S.Store tx.old.conn.now) (state S.Store tx.new.conn.now)) }
    ensures goes_on { GoesOnInside (state S.Store tx.old.conn.now)
        (state S.Store tx.new.conn.now) result }
    ensures kept { CommitsNothing (state S.Store tx.old.conn.now) (state S.Store tx.new.conn.now) }
    ensures survives { Survives (state S.Store tx.old.conn.now) (state S.Store tx.new.conn.now)
        (λ _. ⊥) }
{
    clear_line(tx)?;
    clear_meta(tx)?;
    make_rows(tx)
}

/// Leaves the tables of stored format 2 without rows, from either format: `in_cells` says whether those of format 2 are there.
/// If they are not, makes `head` and `cell` beside the empty tables of format 1. Commits nothing, and refuses only if SQLite
/// does.
pub fn clear_tables<S: Alter>(tx: &mut Transaction<'_, S>, in_cells: bool) -> Result<(), Error>
    ensures same_reference { tx.new.conn.ghost_name ≡ tx.old.conn.ghost_name }
    ensures ok { HasCleanDisk (state S.Store tx.new.conn.now)
        → IsTrue (state S.Store tx.old.conn.now).in_transaction → (text : _)
        → MayHold in_cells text (state S.Store tx.old.conn.now)
        → OnOk result (Empties (state S.Store tx.old.conn.now) (state S.Store tx.new.conn.now)) }
    ensures goes_on { GoesOnInside (state S.Store tx.old.conn.now)
        (state S.Store tx.new.conn.now) result }
    ensures kept { CommitsNothing (state S.Store tx.old.conn.now) (state S.Store tx.new.conn.now) }
    ensures survives { Survives (state S.Store tx.old.conn.now) (state S.Store tx.new.conn.now)
        (λ _. ⊥) }
{
    if in_cells {
        clear_cells(tx)
    } else {
        clear_lines(tx)
    }
}
