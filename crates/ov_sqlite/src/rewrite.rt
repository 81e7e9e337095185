//! Replacing the schema's text and all rows, from either stored format, by rows of format 2.

ghost use Rattle.std.specs.Prelude.{◌≡◌, codes, false, is_some, OnOk, OnErr, IfErr};
ghost use Rattle.std.specs.FinMap.{empty};
ghost use Rattle.sqlite.specs.State.{HasCleanDisk, Survives, KeepsCommit};
ghost use Rattle.sqlite.specs.Held.{state};
ghost use Rattle.sqlite_schema.specs.Names.{table_named};
ghost use Rattle.ov_specs.specs.rows.Cells.{after_cell_changes};
ghost use Rattle.ov_keeper.specs.Views.{changes_view};
ghost use Rattle.ov_tables.specs.WriteError.{IsBefore};
ghost use Rattle.ov_tables.specs.Holding.{MayBeStored};
ghost use Rattle.ov_tables.specs.Querying.{IsAsBefore};
ghost use Rattle.ov_tables.specs.Emptying.{MayHold};
ghost use Rattle.ov_sqlite.specs.Writing.{WritesTables};
ghost use Rattle.ov_sqlite.specs.Rewriting.{Remakes, Rewrites, IsRewriteImage};

use crate::write::apply_all;
use ov_base::Text;
use ov_keeper::Change;
use ov_tables::{WriteError, clear_tables, fill_meta};
use sqlite::{Alter, Connection, Error, Transaction};
use sqlite_schema::schema::Schema;

/// Replaces the schema's text and all rows.
fn rewrite<S: Alter>(
    tx: &mut Transaction<'_, S>,
    in_cells: bool,
    schema: &Text,
    changes: &[Change],
) -> Result<(), Error>
    ensures writes { WritesTables S.Store result (MayHold in_cells)
        (λ _. Remakes schema.now (after_cell_changes (changes_view changes.now) empty))
        tx.old.conn tx.new.conn }
{
    clear_tables(tx, in_cells)?;
    fill_meta(tx, schema)?;
    apply_all(tx, changes)
}

/// Whether there is a table `head`, as in stored format 2 and not in format 1.
fn has_heads(schema: &Schema) -> bool
    ensures { result ≡ is_some (table_named schema.now (codes "head")) }
{
    schema.table_named(b"head").is_some()
}

/// Replaces the schema's text and all rows, in one transaction: empties the tables of either stored format, makes those of
/// format 2 if they are not there, and makes the changes. After an error the connection is closed or shows what it did before.
/// After an error at the commit itself the rewrite may be stored.
pub fn rewrite_all<S: Alter>(
    conn: &mut Connection<S>,
    schema: &Text,
    changes: &[Change],
) -> Result<(), WriteError>
    requires { conn.old.in_transaction ≡ false }
    ensures mode { conn.new.in_transaction ≡ false }
    ensures ok { HasCleanDisk (state S.Store conn.new) → (text : _)
        → MayBeStored text (state S.Store conn.old)
        → OnOk result (Rewrites schema.now (after_cell_changes (changes_view changes.now) empty)
        (state S.Store conn.old) (state S.Store conn.new)) }
    ensures before { IfErr result (λ s. IsBefore s
        → Survives (state S.Store conn.old) (state S.Store conn.new) (λ _. ⊥)) }
    ensures crash { Survives (state S.Store conn.old) (state S.Store conn.new)
        (λ trees. (text : _) → MayBeStored text (state S.Store conn.old)
        → IsRewriteImage schema.now (after_cell_changes (changes_view changes.now) empty)
        (state S.Store conn.old) trees) }
    ensures unmoved { HasCleanDisk (state S.Store conn.new)
        → OnErr result (KeepsCommit (state S.Store conn.old) (state S.Store conn.new)) }
    ensures same { HasCleanDisk (state S.Store conn.new)
        → OnErr result (IsAsBefore (state S.Store conn.old) (state S.Store conn.new)) }
{
    if !conn.is_autocommit() {
        return Err(WriteError::Before(Error::InvalidQuery));
    }
    let in_cells = has_heads(conn.schema());
    let mut tx = conn.transaction();
    match rewrite(&mut tx, in_cells, schema, changes) {
        Ok(()) => {}
        Err(error) => return Err(WriteError::Before(error)),
    }
    match tx.commit() {
        Ok(()) => Ok(()),
        Err(error) => Err(WriteError::AtCommit(error)),
    }
}
