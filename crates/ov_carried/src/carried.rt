ghost use Rattle.std.specs.Prelude.{◌≡◌, IfOk, OnOk};
ghost use Rattle.ov_carried.specs.Making.{with_row};
ghost use Rattle.ov_carried.specs.Carrying.{carried_at, carried_of};
ghost use Rattle.ov_specs.specs.conversion.Carried as spec;
ghost use Rattle.ov_specs.specs.rows.Version.{row_now};

use crate::keys::keys_of;
use ov_atoms::Datum;
use ov_rows::{Columns, NamedValues, Row, RowKey, Rows};
use ov_schema::{Column, Schema, Table, is_own};
use std::alloc::{AllocError, Global};
use uuid::Uuid;

/// The value of a column of the new table: the row's, if the old table has the column, else the default (RFC 7047, 5.2.1).
fn carried_value(
    alloc: Global,
    old: &Table,
    columns: &Columns,
    name: &str,
    column: &Column,
) -> Result<Datum, AllocError>
    ensures { IfOk result (λ datum. datum
        ≡ spec.carried_value old.now columns.now (name.now, column.now)) }
{
    if is_own(name) || old.column(name).is_none() {
        return column.default_of(alloc);
    }
    match columns.get(name) {
        Some(datum) => datum.copy(alloc),
        None => column.default_of(alloc),
    }
}

/// The columns of a row of the old table as those of a row of the new one. Columns that only the old table has are dropped.
fn carried_columns(
    alloc: Global,
    old: &Table,
    new: &Table,
    columns: &Columns,
) -> Result<Columns, AllocError>
    ensures { IfOk result (λ carried. carried ≡ spec.carried_columns old.now new.now columns.now) }
{
    let mut named = NamedValues::new(alloc);
    for (name, column) in new.columns() {
        if !is_own(name.as_str()) {
            let datum = carried_value(alloc, old, columns, name.as_str(), column)?;
            named.insert(String::from_str(alloc, name.as_str())?, datum)?;
        }
    }
    Columns::sharing(alloc, new.row_shape(), named)
}

/// The row of this key with these columns: it has the version of the row before if there was one with the same columns, else
/// this one (RFC 7047, 3.2). Allocates nothing; the rows before are unchanged.
pub fn row_now(before: &Rows, version: Uuid, key: &RowKey, columns: Columns) -> Row
    ensures { result ≡ row_now before.now version key.now columns }
{
    match before.row(key.table(), key.id()) {
        Some(former) if former.columns.is_same(&columns) => Row {
            version: former.version,
            columns,
        },
        _ => Row { version, columns },
    }
}

/// The row of this key as one of the new schema, if both schemas have its table.
fn carried_row(
    alloc: Global,
    old: &Schema,
    new: &Schema,
    version: Uuid,
    before: &Rows,
    key: &RowKey,
    row: &Row,
) -> Result<Option<Row>, AllocError>
    ensures { IfOk result (λ carried. carried
        ≡ carried_at old.now new.now version before.now key.now row.now) }
{
    let Some(from) = old.table(key.table()) else {
        return Ok(None);
    };
    let Some(to) = new.table(key.table()) else {
        return Ok(None);
    };
    let columns = carried_columns(alloc, from, to, &row.columns)?;
    Ok(Some(row_now(before, version, key, columns)))
}

/// Adds the row of this key as one of the new schema, if both schemas have its table.
fn carry(
    alloc: Global,
    old: &Schema,
    new: &Schema,
    version: Uuid,
    before: &Rows,
    key: &RowKey,
    rows: &mut Rows,
) -> Result<(), AllocError>
    ensures { OnOk result (rows.new
        ≡ with_row key.now (carried_of old.now new.now version before.now key.now) rows.old) }
{
    let Some(row) = before.row(key.table(), key.id()) else {
        return Ok(());
    };
    match carried_row(alloc, old, new, version, before, key, row)? {
        Some(row) => rows.insert(alloc, key, row),
        None => Ok(()),
    }
}

/// The rows of the tables that both schemas have, as rows of the new schema: each column of both tables keeps its value, a new
/// column gets its default (RFC 7047, 5.2.1), and other columns are dropped. Rows that get or lose a column get this version,
/// others keep theirs. Whether the values fit their columns is not looked at.
///
/// Goes once over all rows, which are unchanged. Refused only if an allocation fails.
pub fn carried_rows(
    alloc: Global,
    old: &Schema,
    new: &Schema,
    version: Uuid,
    before: &Rows,
) -> Result<Rows, AllocError>
    ensures { IfOk result (λ rows. rows ≡ spec.carried old.now new.now version before.now) }
{
    let mut rows = Rows::new(alloc);
    for key in keys_of(alloc, before)? {
        carry(alloc, old, new, version, before, &key, &mut rows)?;
    }
    Ok(rows)
}
