ghost use Rattle.std.specs.Prelude.{◌≡◌, T, not, IfOk, OnOk};
ghost use Rattle.std.specs.FinMap.{empty, entries, contains_key, from_sorted, is_sorted};
ghost use Rattle.std.specs.List.{list_any};
ghost use Rattle.ov_index.specs.Changing.{TellsAlike};
ghost use Rattle.ov_index.specs.Collecting.{has_unchanged, is_shared, with_changes};
ghost use Rattle.ov_index.specs.IndexKeys.{index_key};
ghost use Rattle.ov_index.specs.Nested.{key_in_table};
ghost use Rattle.ov_specs.specs.rows.Lines.{line_cmp};

use crate::id_set::IdSet;
use crate::ids_by_values::IdsByValues;
use crate::indexes::Indexes;
use crate::table_indexes::TableIndexes;
use ov_atoms::Datum;
use ov_rows::{Row, RowKey};
use ov_schema::Schema;
use std::alloc::{AllocError, Global};
use std::collections::BTreeMap;
use uuid::Uuid;

/// The indexes of only the rows that the changes put.
fn indexes_of(
    alloc: Global,
    schema: &Schema,
    changes: &BTreeMap<RowKey, Option<Row>>,
) -> Result<Indexes, AllocError>
    ensures indexes { IfOk result (λ indexes. indexes
        ≡ with_changes schema.now changes.now.entries empty) }
    ensures ascend { OnOk result (T (is_sorted line_cmp changes.now.entries)) }
{
    let mut indexes = Indexes::new(alloc);
    for (key, row) in changes {
        if let Some(row) = row {
            indexes.put_row(alloc, schema, key, &row.columns)?;
        }
    }
    Ok(indexes)
}

/// Whether the row of this identifier in the table of this name is changed.
fn is_changed(
    alloc: Global,
    changes: &BTreeMap<RowKey, Option<Row>>,
    table: &str,
    id: Uuid,
) -> Result<bool, AllocError>
    requires ascend { T (is_sorted line_cmp changes.now.entries) }
    ensures { IfOk result (λ is. is
        ≡ contains_key (from_sorted {R = line_cmp} changes.now.entries) (table.now, id)) }
{
    let key = RowKey::new(alloc, table, id)?;
    Ok(changes.contains_key(&key))
}

/// Whether one of these rows of a table is not changed.
fn is_any_unchanged(
    alloc: Global,
    changes: &BTreeMap<RowKey, Option<Row>>,
    table: &str,
    ids: &[Uuid],
) -> Result<bool, AllocError>
    requires ascend { T (is_sorted line_cmp changes.now.entries) }
    ensures { IfOk result (λ is. is
        ≡ list_any
        (λ id. not
        (contains_key (from_sorted {R = line_cmp} changes.now.entries) (table.now, id)))
        ids.now) }
{
    for id in ids {
        if !is_changed(alloc, changes, table, *id)? {
            return Ok(true);
        }
    }
    Ok(false)
}

/// Whether the table of this name has, at these values in the index of this number, a row that is not changed.
fn has_unchanged(
    alloc: Global,
    indexes: &Indexes,
    changes: &BTreeMap<RowKey, Option<Row>>,
    table: &str,
    number: usize,
    values: &[Datum],
) -> Result<bool, AllocError>
    requires ascend { T (is_sorted line_cmp changes.now.entries) }
    ensures { IfOk result (λ has. has
        ≡ has_unchanged indexes.now changes.now.entries (index_key table.now number values.now)) }
{
    match indexes.at(table, number, values) {
        Some(ids) => is_any_unchanged(alloc, changes, table, ids.as_slice()),
        None => Ok(false),
    }
}

/// Whether the changes put two rows at a key, or one at a key that has a row they do not change. `ids` has the rows that the
/// changes put there.
fn is_shared(
    alloc: Global,
    indexes: &Indexes,
    changes: &BTreeMap<RowKey, Option<Row>>,
    table: &str,
    number: usize,
    values: &[Datum],
    ids: &IdSet,
) -> Result<bool, AllocError>
    requires ascend { T (is_sorted line_cmp changes.now.entries) }
    ensures { IfOk result (λ is. is
        ≡ is_shared indexes.now changes.now.entries
        (index_key table.now number values.now, ids.now)) }
{
    Ok(1 < ids.len() || has_unchanged(alloc, indexes, changes, table, number, values)?)
}

/// Whether the changes put two rows at some values in the index of this number of the table of this name, or one at values
/// that a row has which they do not change. `new` has the rows in that index that the changes put.
fn is_any_shared_in_index(
    alloc: Global,
    indexes: &Indexes,
    changes: &BTreeMap<RowKey, Option<Row>>,
    table: &str,
    number: usize,
    new: &IdsByValues,
) -> Result<bool, AllocError>
    requires ascend { T (is_sorted line_cmp changes.now.entries) }
    ensures { IfOk result (λ is. is
        ≡ list_any
        (λ e. is_shared indexes.now changes.now.entries (index_key table.now number e.0, e.1))
        (entries new.now)) }
{
    for (values, ids) in new.map() {
        let values = values.as_slice();
        if is_shared(alloc, indexes, changes, table, number, values, ids)? {
            return Ok(true);
        }
    }
    Ok(false)
}

/// Whether the changes put two rows at a key of the table of this name, or one at a key that has a row they do not change.
/// `new` has the rows in its indexes that the changes put.
fn is_any_shared_in_table(
    alloc: Global,
    indexes: &Indexes,
    changes: &BTreeMap<RowKey, Option<Row>>,
    table: &str,
    new: &TableIndexes,
) -> Result<bool, AllocError>
    requires ascend { T (is_sorted line_cmp changes.now.entries) }
    ensures { IfOk result (λ is. is
        ≡ list_any
        (λ e. is_shared indexes.now changes.now.entries (key_in_table table.now e.0, e.1))
        (entries new.now)) }
{
    for (number, index) in new.map() {
        if is_any_shared_in_index(alloc, indexes, changes, table, *number, index)? {
            return Ok(true);
        }
    }
    Ok(false)
}

/// Whether two rows of a table are alike in one of its indexes after the changes (RFC 7047, 3.2, `<table-schema>`, indexes).
/// The indexes must be those of the rows before the changes, with no two alike: a changed row is not compared with what it
/// was. Examines only the changed rows.
pub fn are_made_alike(
    alloc: Global,
    schema: &Schema,
    indexes: &Indexes,
    changes: &BTreeMap<RowKey, Option<Row>>,
) -> Result<bool, AllocError>
    ensures { IfOk result (TellsAlike schema.now indexes.now changes.now.entries) }
{
    for (name, table) in indexes_of(alloc, schema, changes)?.tables() {
        if is_any_shared_in_table(alloc, indexes, changes, name.as_str(), table)? {
            return Ok(true);
        }
    }
    Ok(false)
}
