ghost use Rattle.std.specs.Prelude.{◌≡◌, IfOk};
ghost use Rattle.std.specs.List.{list_any};
ghost use Rattle.ov_conversion.specs.Asking.{at_key};
ghost use Rattle.ov_specs.specs.integrity.Committed.{is_missing};
ghost use Rattle.ov_specs.specs.integrity.References.{references, row_references};

use ov_carried::keys_of;
use ov_refs::targets_of;
use ov_rows::{Row, RowKey, Rows};
use ov_schema::Schema;
use std::alloc::{AllocError, Global};

/// Whether the row of this key refers strongly to a missing row.
fn row_misses(
    alloc: Global,
    schema: &Schema,
    rows: &Rows,
    key: &RowKey,
    row: &Row,
) -> Result<bool, AllocError>
    ensures { IfOk result (λ misses. misses
        ≡ list_any (is_missing rows.now) (row_references schema.now (key.now, row.now))) }
{
    for target in targets_of(alloc, schema, key.table(), &row.columns)? {
        if target.is_strong && !rows.contains(&target.key) {
            return Ok(true);
        }
    }
    Ok(false)
}

/// Whether there is a row of this key that refers strongly to a missing row.
fn misses_at(alloc: Global, schema: &Schema, rows: &Rows, key: &RowKey) -> Result<bool, AllocError>
    ensures { IfOk result (λ misses. misses
        ≡ at_key (λ r. list_any (is_missing rows.now) (row_references schema.now r)) rows.now
        key.now) }
{
    match rows.row(key.table(), key.id()) {
        Some(row) => row_misses(alloc, schema, rows, key, row),
        None => Ok(false),
    }
}

/// Whether a strong reference is to a missing row (RFC 7047, 3.2, `<base-type>`, refType).
pub(crate) fn misses(alloc: Global, schema: &Schema, rows: &Rows) -> Result<bool, AllocError>
    ensures { IfOk result (λ misses. misses
        ≡ list_any (is_missing rows.now) (references schema.now rows.now)) }
{
    for key in keys_of(alloc, rows)? {
        if misses_at(alloc, schema, rows, &key)? {
            return Ok(true);
        }
    }
    Ok(false)
}
