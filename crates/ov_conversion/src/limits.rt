ghost use Rattle.std.specs.Prelude.{◌≡◌, ◌||◌, false, IfOk};
ghost use Rattle.std.specs.FinMap.{entries};
ghost use Rattle.std.specs.List.{list_any};
ghost use Rattle.ov_conversion.specs.Asking.{at_key};
ghost use Rattle.ov_specs.specs.integrity.Limits as limits;
ghost use Rattle.ov_specs.specs.rows.Suits.{Suits};

use ov_atoms::Datum;
use ov_carried::keys_of;
use ov_index::{Indexes, is_over_limits};
use ov_rows::{Columns, RowKey, Rows};
use ov_schema::{Schema, Table};
use std::alloc::{AllocError, Global};

/// Whether the value has fewer atoms or pairs than the `min` of the column of this name (RFC 7047, 3.2, `<type>`, min).
fn has_too_few(table: &Table, name: &str, datum: &Datum) -> bool
    ensures { result ≡ limits.has_too_few table.now (name.now, datum.now) }
{
    match table.column(name) {
        Some(column) => (datum.count() as i128) < i128::from(column.min()),
        None => false,
    }
}

/// Whether a value of these columns has fewer atoms or pairs than its column's `min`.
fn have_too_few(table: &Table, columns: &Columns) -> bool
    ensures { result ≡ list_any (limits.has_too_few table.now) (entries columns.now) }
{
    for (name, datum) in columns.names().iter().zip(columns.values()) {
        if has_too_few(table, name.as_str(), datum) {
            return true;
        }
    }
    false
}

/// Whether there is a row of this key with such a value.
fn is_short(schema: &Schema, rows: &Rows, key: &RowKey) -> bool
    ensures { result ≡ at_key (limits.is_short schema.now) rows.now key.now }
{
    let Some(row) = rows.row(key.table(), key.id()) else {
        return false;
    };
    match schema.table(key.table()) {
        Some(table) => have_too_few(table, &row.columns),
        None => false,
    }
}

/// Whether a value of a row has fewer atoms or pairs than its column's `min`.
fn are_short(alloc: Global, schema: &Schema, rows: &Rows) -> Result<bool, AllocError>
    ensures { IfOk result (λ short. short
        ≡ list_any (limits.is_short schema.now) (entries rows.now)) }
{
    for key in keys_of(alloc, rows)? {
        if is_short(schema, rows, &key) {
            return Ok(true);
        }
    }
    Ok(false)
}

/// Whether a table has too many rows, or two rows that are equal in an index (RFC 7047, 3.2, `<table-schema>`, maxRows and
/// indexes).
fn are_over(alloc: Global, schema: &Schema, rows: &Rows) -> Result<bool, AllocError>
    requires suits { Suits schema.now rows.now }
    ensures { IfOk result (λ over. over ≡ limits.is_over_limits schema.now rows.now) }
{
    let indexes = Indexes::of(alloc, schema, rows)?;
    Ok(is_over_limits(schema, rows, &indexes))
}

/// Whether a value is too short, a table has too many rows, or two rows are equal in an index.
pub(crate) fn breaks_a_limit(
    alloc: Global,
    schema: &Schema,
    rows: &Rows,
) -> Result<bool, AllocError>
    requires suits { list_any (limits.is_short schema.now) (entries rows.now) ≡ false
        → Suits schema.now rows.now }
    ensures { IfOk result (λ broken. broken
        ≡ (list_any (limits.is_short schema.now) (entries rows.now) || limits.is_over_limits
        schema.now rows.now)) }
{
    if are_short(alloc, schema, rows)? {
        return Ok(true);
    }
    are_over(alloc, schema, rows)
}
