ghost use Rattle.std.specs.Prelude.{◌≡◌, IfOk, OnOk};
ghost use Rattle.std.specs.Option.{option_to_list};
ghost use Rattle.serde_json.specs.Data.{no_members, put};
ghost use Rattle.uuid.specs.Text.{hyphenated_text, lower};
ghost use Rattle.ov_stored.specs.Changing.{applied};
ghost use Rattle.ov_specs.specs.monitors.Updates as spec;
ghost use Rattle.ov_specs.specs.rows.Database.{placed};
ghost use Rattle.ov_watch.specs.Telling.{told_at_first, told_change};

use crate::object::Object;
use crate::row_update::{new_row, row_update};
use crate::table::MonitoredTable;
use ov_base::Tree;
use ov_db::Delta;
use ov_rows::{Row, RowKey, Rows};
use std::alloc::{AllocError, Global};
use uuid::Uuid;

/// Puts what is reported of a row under its identifier.
fn put_under_id(alloc: Global, told: &mut Object, id: &Uuid, update: Tree) -> Result<(), AllocError>
    ensures { OnOk result (told.new ≡ put (hyphenated_text lower id.now) update told.old) }
{
    let mut buffer = Uuid::encode_buffer();
    let name = id.hyphenated().encode_lower(&mut buffer);
    told.put(alloc, name, update)
}

/// Puts a row of the initial contents.
fn put_first(
    alloc: Global,
    told: &mut Object,
    table: &MonitoredTable,
    id: &Uuid,
    row: &Row,
) -> Result<(), AllocError>
    ensures { OnOk result (told.new
        ≡ placed told.old
        (option_to_list (told_at_first table.now ((table.now.table, id.now), row.now)))) }
{
    match new_row(alloc, &table.initial, id, row)? {
        Some(update) => put_under_id(alloc, told, id, update),
        None => Ok(()),
    }
}

/// Puts what is reported of a change, if it is a change of this table.
fn put_change(
    alloc: Global,
    told: &mut Object,
    table: &MonitoredTable,
    rows: &Rows,
    key: &RowKey,
    change: &Option<Row>,
) -> Result<(), AllocError>
    ensures { OnOk result (told.new
        ≡ placed told.old (option_to_list (told_change rows.now table.now (key.now, change.now)))) }
{
    if key.table() != table.table.as_str() {
        return Ok(());
    }
    let before = rows.row(key.table(), key.id());
    match row_update(alloc, table, key.as_id(), before, change.as_ref())? {
        Some(update) => put_under_id(alloc, told, key.as_id(), update),
        None => Ok(()),
    }
}

impl MonitoredTable {
    /// Its initial rows, under their identifiers (RFC 7047, 4.1.5).
    pub(crate) fn initial_rows(&self, alloc: Global, rows: &Rows) -> Result<Object, AllocError>
        ensures { IfOk result (λ o. o ≡ placed no_members (spec.initial_rows rows.now self.now)) }
    {
        let mut told = Object::new(alloc);
        let Some(rows) = rows.of_table(self.table.as_str()) else {
            return Ok(told);
        };
        for (id, row) in rows.map() {
            put_first(alloc, &mut told, self, id.as_uuid(), row)?;
        }
        Ok(told)
    }

    /// Its reported rows, under their identifiers (RFC 7047, 4.1.6, `<table-update>`).
    #[tactic(auto, using(crate::proofs::Changes::changes_told))]
    pub(crate) fn updated_rows(
        &self,
        alloc: Global,
        rows: &Rows,
        delta: &Delta,
    ) -> Result<Object, AllocError>
        ensures { IfOk result (λ o. o
            ≡ placed no_members
            (spec.updated_rows rows.now (applied delta.now rows.now) self.now)) }
    {
        let mut told = Object::new(alloc);
        for (key, change) in delta.map() {
            put_change(alloc, &mut told, self, rows, key, change)?;
        }
        Ok(told)
    }
}
