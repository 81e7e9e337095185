ghost use Rattle.std.specs.Prelude.{◌≡◌, ◌&&◌, IfOk};
ghost use Rattle.std.specs.FinMap.{get};
ghost use Rattle.std.specs.List.{list_any};
ghost use Rattle.ov_specs.specs.conversion.Converted as spec;
ghost use Rattle.ov_specs.specs.conversion.Converted.{has_row, lacks_default};
ghost use Rattle.ov_specs.specs.rows.RowNames.{row_columns, without_own_columns};
ghost use Rattle.ov_specs.specs.schema.Schema.{is_some_and};

use ov_base::Text;
use ov_rows::Rows;
use ov_schema::{Column, Schema, Table, is_own};
use std::alloc::{AllocError, Global};

/// Whether the old table lacks this column, and its default does not fit it (RFC 7047, 5.2.1).
fn lacks_default(
    alloc: Global,
    old: &Table,
    name: &str,
    column: &Column,
) -> Result<bool, AllocError>
    ensures { IfOk result (λ lacks. lacks ≡ lacks_default old.now (name.now, column.now)) }
{
    if !is_own(name) && old.column(name).is_some() {
        return Ok(false);
    }
    let datum = column.default_of(alloc)?;
    Ok(!column.fits(&datum))
}

/// Whether the old table lacks one of these columns, and its default does not fit it.
fn is_any_unfit(alloc: Global, old: &Table, columns: &[(Text, Column)]) -> Result<bool, AllocError>
    ensures { IfOk result (λ unfit. unfit
        ≡ list_any (lacks_default old.now) (without_own_columns columns.now)) }
{
    for (name, column) in columns {
        if !is_own(name.as_str()) && lacks_default(alloc, old, name.as_str(), column)? {
            return Ok(true);
        }
    }
    Ok(false)
}

/// Whether the table of this name has a row.
fn has_row(rows: &Rows, name: &str) -> bool
    ensures { result ≡ has_row rows.now name.now }
{
    match rows.of_table(name) {
        Some(table) => !table.map().is_empty(),
        None => false,
    }
}

/// Whether both schemas have the table of this name, and it has a row and gets a column whose default does not fit it.
fn is_unfit_table(
    alloc: Global,
    old: &Schema,
    new: &Schema,
    rows: &Rows,
    name: &str,
) -> Result<bool, AllocError>
    ensures { IfOk result (λ gets. gets
        ≡ is_some_and (λ table. has_row rows.now name.now && is_some_and
        (λ former. list_any (lacks_default former) (row_columns table))
        (get old.now.tables name.now)) (get new.now.tables name.now)) }
{
    let Some(table) = new.table(name) else {
        return Ok(false);
    };
    if !has_row(rows, name) {
        return Ok(false);
    }
    match old.table(name) {
        Some(former) => is_any_unfit(alloc, former, table.columns()),
        None => Ok(false),
    }
}

/// Whether a table that has a row gets a column whose default does not fit it (RFC 7047, 5.2.1).
pub(crate) fn gets_unfit_default(
    alloc: Global,
    old: &Schema,
    new: &Schema,
    rows: &Rows,
) -> Result<bool, AllocError>
    ensures { IfOk result (λ gets. gets ≡ spec.gets_unfit_default old.now new.now rows.now) }
{
    for (name, _table) in new.tables() {
        if is_unfit_table(alloc, old, new, rows, name.as_str())? {
            return Ok(true);
        }
    }
    Ok(false)
}
