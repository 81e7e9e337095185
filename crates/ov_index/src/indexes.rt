ghost use Rattle.std.specs.Prelude.{◌≡◌, not, option_copied, string_bytes, IfOk, OnOk, OnErr};
ghost use Rattle.std.specs.FinMap.{empty, get, entries};
ghost use Rattle.ov_index.specs.Collecting.{entries_in, with_entry, with_entries, with_entries_of_rows};
ghost use Rattle.ov_index.specs.Collecting.{has_indexes, has_two};
ghost use Rattle.ov_index.specs.IndexKeys.{index_key};
ghost use Rattle.ov_index.specs.Indexing.{AreIndexesOf, is_indexed, with_id};
ghost use Rattle.ov_index.specs.Indexing.{without_entry, without_entries};
ghost use Rattle.ov_index.specs.Nested.{all_entries, key_in_table};
ghost use Rattle.ov_rows.specs.Nested.{in_table};

use crate::entry::{IndexEntry, entries_of};
use crate::id_set::IdSet;
use crate::table_indexes::TableIndexes;
use ov_atoms::Datum;
use ov_rows::{Columns, RowKey, Rows, TableRows};
use ov_schema::Schema;
use std::alloc::{AllocError, Global};
use std::collections::BTreeMap;
use std::marker::Model;
use uuid::Uuid;

/// The rows of a database by their values in the indexes of their tables (RFC 7047, 3.2, `<table-schema>`, indexes). If a
/// database is within its limits, each key has one row; during a commit it may have more.
#[derive(Drop)]
pub struct Indexes {
    /// A table stays when its indexes have lost their last row.
    tables: BTreeMap<String, TableIndexes>,
}

impl Model for Indexes {
    ghost use Rattle.std.specs.Prelude.{T, string_bytes};
    ghost use Rattle.std.specs.FinMap.{is_sorted};
    ghost use Rattle.ov_index.specs.Indexing as indexing;
    ghost use Rattle.ov_index.specs.Indexing.{indexes_code};
    ghost use Rattle.ov_index.specs.Nested.{by_table};
    ghost use Rattle.ov_specs.specs.schema.SchemaTypes.{name_cmp};

    ghost Value = { indexing.Indexes };

    ghost coded = { indexes_code };

    ghost view = { λ i. by_table i.tables.entries };

    ghost invariant = { λ i.
        T (is_sorted (λ a b. name_cmp (string_bytes a) (string_bytes b)) i.tables.entries) };
}

impl Indexes {
    /// No rows at any key.
    pub fn new(alloc: Global) -> Indexes
        ensures { result ≡ empty }
    {
        Indexes {
            tables: BTreeMap::new(alloc),
        }
    }

    /// The rows that have these values in the columns of the index of this number, counted from 0, of the table of this name,
    /// if there are any. Allocates nothing.
    pub fn at(&self, table: &str, number: usize, values: &[Datum]) -> Option<&IdSet>
        ensures { option_copied result ≡ get self.now (index_key table.now number values.now) }
    {
        match self.tables.get(table) {
            Some(indexes) => indexes.at(number, values),
            None => None,
        }
    }

    /// The indexes of all tables that ever had a row in one, by the names of the tables, ascending.
    pub(crate) fn tables(&self) -> &BTreeMap<String, TableIndexes>
        ensures { all_entries (λ name. key_in_table (string_bytes name)) result.now.entries
            ≡ entries self.now }
    {
        &self.tables
    }

    /// Whether some key has two rows.
    pub(crate) fn has_two(&self) -> bool
        ensures { result ≡ has_two (entries self.now) }
    {
        for (_name, table) in self.tables() {
            if table.has_two() {
                return true;
            }
        }
        false
    }

    /// Adds the row at this key, unless it is there; returns whether it was added. If an allocation fails, nothing is changed.
    fn add_at(
        &mut self,
        alloc: Global,
        table: &str,
        number: usize,
        values: Vec<Datum>,
        id: Uuid,
    ) -> Result<bool, AllocError>
        ensures ok { OnOk result (self.new
            ≡ with_id (index_key table.now number values.items) id self.old) }
        ensures is_new { IfOk result (λ is_new. is_new
            ≡ not (is_indexed self.old (index_key table.now number values.items) id)) }
        ensures err { OnErr result (self.new ≡ self.old) }
    {
        match self.tables.get_mut(table) {
            Some(indexes) => indexes.add(alloc, number, values, id),
            None => {
                let indexes = TableIndexes::of(alloc, number, values, id)?;
                self.tables
                    .insert(String::from_str(alloc, table)?, indexes)?;
                Ok(true)
            }
        }
    }

    /// Adds the row of the entry at its key, unless it is there; returns whether it was added. If an allocation fails,
    /// nothing is changed.
    pub(crate) fn add(&mut self, alloc: Global, entry: IndexEntry) -> Result<bool, AllocError>
        ensures ok { OnOk result (self.new ≡ with_entry entry self.old) }
        ensures is_new { IfOk result (λ is_new. is_new
            ≡ not (is_indexed self.old entry.key entry.id)) }
        ensures err { OnErr result (self.new ≡ self.old) }
    {
        let IndexEntry { key, id } = entry;
        let (table, number, values) = key.into_parts();
        self.add_at(alloc, table.as_str(), number, values, id)
    }

    /// Adds these entries.
    fn add_all(&mut self, alloc: Global, entries: Vec<IndexEntry>) -> Result<(), AllocError>
        ensures { OnOk result (self.new ≡ with_entries entries.items self.old) }
    {
        for entry in entries {
            self.add(alloc, entry)?;
        }
        Ok(())
    }

    /// Adds the row of this key, which has these columns, at its index keys.
    pub(crate) fn put_row(
        &mut self,
        alloc: Global,
        schema: &Schema,
        key: &RowKey,
        columns: &Columns,
    ) -> Result<(), AllocError>
        ensures { OnOk result (self.new
            ≡ with_entries (entries_in (get schema.now.tables key.now.0) key.now columns.now)
            self.old) }
    {
        self.add_all(alloc, entries_of(alloc, schema, key, columns)?)
    }

    /// Adds the rows of the table of this name.
    fn add_rows(
        &mut self,
        alloc: Global,
        schema: &Schema,
        name: &str,
        rows: &TableRows,
    ) -> Result<(), AllocError>
        ensures { OnOk result (self.new
            ≡ with_entries_of_rows schema.now (in_table name.now (entries rows.now)) self.old) }
    {
        for (id, row) in rows.map() {
            let key = RowKey::new(alloc, name, *id.as_uuid())?;
            self.put_row(alloc, schema, &key, &row.columns)?;
        }
        Ok(())
    }

    /// Adds the rows of the table of this name. Reads them only if the table has indexes.
    fn add_table(
        &mut self,
        alloc: Global,
        schema: &Schema,
        name: &str,
        rows: &TableRows,
    ) -> Result<(), AllocError>
        ensures { OnOk result (self.new
            ≡ with_entries_of_rows schema.now (in_table name.now (entries rows.now)) self.old) }
    {
        if has_indexes(schema, name) {
            self.add_rows(alloc, schema, name, rows)
        } else {
            Ok(())
        }
    }

    /// The indexes of these rows. Reads all rows of tables that have indexes.
    pub fn of(alloc: Global, schema: &Schema, rows: &Rows) -> Result<Indexes, AllocError>
        ensures { IfOk result (AreIndexesOf schema.now rows.now) }
    {
        let mut indexes = Indexes::new(alloc);
        for (name, table) in rows.tables() {
            indexes.add_table(alloc, schema, name.as_str(), table)?;
        }
        Ok(indexes)
    }

    /// Removes the entry, if it is there, and its key if no row is left.
    fn take_one_out(&mut self, entry: &IndexEntry)
        ensures { self.new ≡ without_entry entry.now self.old }
    {
        if let Some(indexes) = self.tables.get_mut(entry.key.table()) {
            indexes.take_out(entry.key.number(), entry.key.values(), entry.id);
        }
    }

    /// Removes those of these entries that are there. Allocates nothing.
    pub fn take_out(&mut self, entries: &[IndexEntry])
        ensures { self.new ≡ without_entries entries.now self.old }
    {
        for entry in entries {
            self.take_one_out(entry);
        }
    }
}

/// Whether the table of this name has indexes.
fn has_indexes(schema: &Schema, name: &str) -> bool
    ensures { result ≡ has_indexes (get schema.now.tables name.now) }
{
    match schema.table(name) {
        Some(table) => !table.indexes().is_empty(),
        None => false,
    }
}
