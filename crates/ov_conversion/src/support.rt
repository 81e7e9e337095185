ghost use Rattle.std.specs.Prelude.{◌≡◌, [], ◌∷◌, IfOk, OnOk};
ghost use Rattle.std.specs.FinMap.{empty};
ghost use Rattle.std.specs.List.{flat_map};
ghost use Rattle.ov_conversion.specs.Support.{Supports, is_of_other, references_at};
ghost use Rattle.ov_specs.specs.integrity.Kept.{is_in_root_table, kept, unsupported};
ghost use Rattle.ov_specs.specs.integrity.References.{row_references};
ghost use Rattle.ov_specs.specs.operations.MatchingRows.{without_rows};

use ov_carried::keys_of;
use ov_refs::{KeySet, Target, targets_of};
use ov_rows::{Row, RowKey, Rows};
use ov_schema::Schema;
use std::alloc::{AllocError, Global};

/// Whether the row of this key is in a root table.
fn is_in_root_table(schema: &Schema, key: &RowKey) -> bool
    ensures { result ≡ is_in_root_table schema.now key.now }
{
    match schema.table(key.table()) {
        Some(table) => table.is_root(),
        None => false,
    }
}

/// Whether the target of a row of this key is a strong one, and a different row.
fn is_of_other(from: &RowKey, target: &Target) -> bool
    ensures { result ≡ is_of_other from.now target.now }
{
    target.is_strong && target.key != *from
}

/// Adds the target of a row of this key, if the reference is a strong one to a different row.
fn add_target(
    alloc: Global,
    from: &RowKey,
    target: Target,
    held: &mut KeySet,
) -> Result<(), AllocError>
    ensures { OnOk result
        (Supports held.old (record { from = from.now; to = target } ∷ []) held.new) }
{
    if !is_of_other(from, &target) {
        return Ok(());
    }
    held.insert(alloc, target.key)?;
    Ok(())
}

/// Adds the different rows to which the row of this key refers strongly.
fn add_targets(
    alloc: Global,
    schema: &Schema,
    key: &RowKey,
    row: &Row,
    held: &mut KeySet,
) -> Result<(), AllocError>
    ensures { OnOk result
        (Supports held.old (row_references schema.now (key.now, row.now)) held.new) }
{
    for target in targets_of(alloc, schema, key.table(), &row.columns)? {
        add_target(alloc, key, target, held)?;
    }
    Ok(())
}

/// Adds the different rows to which the row of this key, if there is one, refers strongly.
fn add_row(
    alloc: Global,
    schema: &Schema,
    rows: &Rows,
    key: &RowKey,
    held: &mut KeySet,
) -> Result<(), AllocError>
    ensures { OnOk result (Supports held.old (references_at schema.now rows.now key.now) held.new) }
{
    match rows.row(key.table(), key.id()) {
        Some(row) => add_targets(alloc, schema, key, row, held),
        None => Ok(()),
    }
}

/// The rows to which different ones of these rows refer strongly.
fn held_by(
    alloc: Global,
    schema: &Schema,
    rows: &Rows,
    keys: &[RowKey],
) -> Result<KeySet, AllocError>
    ensures { IfOk result (Supports empty (flat_map (references_at schema.now rows.now) keys.now)) }
{
    let mut held = KeySet::new();
    for key in keys {
        add_row(alloc, schema, rows, key, &mut held)?;
    }
    Ok(held)
}

/// The keys of the rows that are in no root table and to which no different row refers strongly.
fn unsupported(alloc: Global, schema: &Schema, rows: &Rows) -> Result<Vec<RowKey>, AllocError>
    ensures { IfOk result (λ gone. gone.items ≡ unsupported schema.now rows.now) }
{
    let keys = keys_of(alloc, rows)?;
    let held = held_by(alloc, schema, rows, keys.as_slice())?;
    let mut gone = Vec::new(alloc);
    for key in keys {
        if !is_in_root_table(schema, &key) && !held.contains(&key) {
            gone.push(key)?;
        }
    }
    Ok(gone)
}

/// Removes the rows of these keys.
fn remove_all(rows: &mut Rows, gone: Vec<RowKey>)
    ensures { rows.new ≡ without_rows gone.items rows.old }
{
    for key in gone {
        rows.remove(&key);
    }
}

/// Removes the rows that nothing keeps, and no others (RFC 7047, 3.2, `<table-schema>`, isRoot). Each turn looks at all rows,
/// and removes those that have no support; the rows to which only they referred go in the next turn.
pub(crate) fn drop_unsupported(
    alloc: Global,
    schema: &Schema,
    rows: &mut Rows,
) -> Result<(), AllocError>
    ensures { OnOk result (rows.new ≡ kept schema.now rows.old) }
{
    // Each turn but the last removes a row, so there are no more turns than rows.
    for _row in keys_of(alloc, rows)? {
        let gone = unsupported(alloc, schema, rows)?;
        if gone.is_empty() {
            return Ok(());
        }
        remove_all(rows, gone);
    }
    Ok(())
}
