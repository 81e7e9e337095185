ghost use Rattle.std.specs.Prelude.{◌≡◌, option_copied, IfOk};
ghost use Rattle.std.specs.FinMap.{get};
ghost use Rattle.ov_index.specs.Collecting.{has_entry, is_entry, entries_from, entries_in};
ghost use Rattle.ov_index.specs.Collecting.{entries_of_row};

use crate::key::IndexKey;
use ov_rows::{Columns, Row, RowKey};
use ov_schema::{Schema, Table};
use std::alloc::{AllocError, Global};
use std::marker::Model;
use uuid::Uuid;

/// A key and a row at it.
#[derive(Drop)]
pub struct IndexEntry {
    pub key: IndexKey,
    /// The row's identifier.
    pub id: Uuid,
}

impl Model for IndexEntry {
    ghost use Rattle.ov_index.specs.IndexKeys as keys;
    ghost use Rattle.ov_index.specs.IndexKeys.{index_entry_code};

    ghost Value = { keys.IndexEntry };

    ghost coded = { index_entry_code };

    ghost view = { λ e. record { key = e.key; id = e.id } };
}

impl IndexEntry {
    /// A copy of the entry.
    pub(crate) fn copy(&self, alloc: Global) -> Result<IndexEntry, AllocError>
        ensures { IfOk result (λ entry. entry ≡ self.now) }
    {
        Ok(IndexEntry {
            key: self.key.copy(alloc)?,
            id: self.id,
        })
    }

    /// Whether it is the entry of this row at this key.
    fn is_of(&self, key: &IndexKey, id: Uuid) -> bool
        ensures { result ≡ is_entry key.now id self.now }
    {
        self.key == *key && self.id == id
    }
}

/// Whether the entry is one of these.
pub(crate) fn is_among(entries: &[IndexEntry], entry: &IndexEntry) -> bool
    ensures { result ≡ has_entry entry.now.key entry.now.id entries.now }
{
    for other in entries {
        if other.is_of(&entry.key, entry.id) {
            return true;
        }
    }
    false
}

/// The entries of a row with these columns in all indexes of its table, in the order of the schema.
fn entries_in(
    alloc: Global,
    table: &Table,
    key: &RowKey,
    columns: &Columns,
) -> Result<Vec<IndexEntry>, AllocError>
    ensures { IfOk result (λ entries. entries.items
        ≡ entries_from 0 key.now.0 table.now.indexes key.now.1 columns.now) }
{
    let mut entries = Vec::with_capacity(alloc, table.indexes().len())?;
    for index in table.indexes() {
        let number = entries.len();
        entries.push(IndexEntry {
            key: IndexKey::at(alloc, key.table(), number, index.as_slice(), columns)?,
            id: key.id(),
        })?;
    }
    Ok(entries)
}

/// The entries of a row with these columns in all indexes of its table; none if there is no such table.
pub(crate) fn entries_of(
    alloc: Global,
    schema: &Schema,
    key: &RowKey,
    columns: &Columns,
) -> Result<Vec<IndexEntry>, AllocError>
    ensures { IfOk result (λ entries. entries.items
        ≡ entries_in (get schema.now.tables key.now.0) key.now columns.now) }
{
    match schema.table(key.table()) {
        Some(table) => entries_in(alloc, table, key, columns),
        None => Ok(Vec::new(alloc)),
    }
}

/// The entries of the row of this key, if there is one.
pub(crate) fn entries_of_row(
    alloc: Global,
    schema: &Schema,
    key: &RowKey,
    row: Option<&Row>,
) -> Result<Vec<IndexEntry>, AllocError>
    ensures { IfOk result (λ entries. entries.items
        ≡ entries_of_row schema.now key.now (option_copied row.entry)) }
{
    match row {
        Some(row) => entries_of(alloc, schema, key, &row.columns),
        None => Ok(Vec::new(alloc)),
    }
}
