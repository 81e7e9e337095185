ghost use Rattle.std.specs.Prelude.{◌≡◌, true, IfOk};
ghost use Rattle.ov_stored.specs.Changing.{SuitsChanges, applied};
ghost use Rattle.ov_specs.specs.integrity.Committed.{is_whole};
ghost use Rattle.ov_specs.specs.rows.Suits.{Suits};
ghost use Rattle.ov_specs.specs.values.Uuid.{is_uuid};

use ov_atoms::has_sixteen_bytes;
use ov_db::{Db, Delta, StoreAnswer, row_of};
use ov_integrity::{Finished, finish};
use ov_keeper::{Keeper, Line};
use ov_rows::RowKey;
use ov_stage::Stage;
use std::alloc::{AllocError, Global};
use std::test::Fail;
use uuid::Uuid;

/// What a commit with this version makes of a stage over the rows of a database.
fn finished<K: Keeper + Drop>(
    alloc: Global,
    db: &Db<K>,
    version: Uuid,
    stage: Stage<'_>,
) -> Result<Delta, Fail>
    requires before { stage.before ≡ db.now.committed }
    requires suits { Suits db.now.schema stage.now }
    requires version { is_uuid version ≡ true }
    ensures suits { IfOk result (SuitsChanges db.now.schema) }
    ensures whole { IfOk result
        (λ delta. is_whole db.now.schema (applied delta db.now.committed) ≡ true) }
{
    db.shows_kept();
    db.schema().shows_accepted();
    match finish(alloc, db.schema(), version, db.links(), db.indexes(), stage) {
        Finished::Changed(delta) => Ok(delta),
        Finished::Refused(error) => Err(Fail::new(error.text())),
        Finished::NoMemory => Err(AllocError.into()),
    }
}

/// Commits the row of a line.
pub fn put_line<K: Keeper + Drop>(
    alloc: Global,
    db: &mut Db<K>,
    line: &Line,
) -> Result<StoreAnswer, Fail> {
    has_sixteen_bytes(&line.id);
    has_sixteen_bytes(&line.version);
    db.shows_kept();
    let row = row_of(alloc, db.schema(), line)?;
    let columns = row.columns.copy(alloc)?;
    let key = RowKey::new(alloc, line.table.as_str(), line.id)?;
    let mut stage = Stage::new(alloc, db.rows());
    stage.put(key, line.version, columns)?;
    let delta = finished(alloc, db, line.version, stage)?;
    Ok(db.commit(alloc, delta))
}

/// Commits that a table has no row with this identifier.
pub fn remove_row<K: Keeper + Drop>(
    alloc: Global,
    db: &mut Db<K>,
    table: &str,
    id: Uuid,
) -> Result<StoreAnswer, Fail> {
    has_sixteen_bytes(&id);
    db.shows_kept();
    let key = RowKey::new(alloc, table, id)?;
    let mut stage = Stage::new(alloc, db.rows());
    stage.remove(key)?;
    let delta = finished(alloc, db, id, stage)?;
    Ok(db.commit(alloc, delta))
}

/// Commits no change.
pub fn commit_nothing<K: Keeper + Drop>(
    alloc: Global,
    db: &mut Db<K>,
) -> Result<StoreAnswer, Fail> {
    let version = Uuid::nil();
    has_sixteen_bytes(&version);
    db.shows_kept();
    let stage = Stage::new(alloc, db.rows());
    let delta = finished(alloc, db, version, stage)?;
    Ok(db.commit(alloc, delta))
}
