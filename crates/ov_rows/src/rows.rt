ghost use Rattle.std.specs.Prelude.{◌≡◌, option_copied, OnOk, OnErr, None};
ghost use Rattle.std.specs.List.{filter};
ghost use Rattle.std.specs.FinMap.{empty, get, contains_key, insert, remove, entries};
ghost use Rattle.std.specs.Str.{bytes_eq};
ghost use Rattle.ov_rows.specs.Named.{named};
ghost use Rattle.ov_rows.specs.Nested.{all_rows, rows_in};

use crate::key::RowKey;
use crate::row::Row;
use crate::table_rows::TableRows;
use std::alloc::{AllocError, Global};
use std::collections::BTreeMap;
use std::marker::Model;
use uuid::Uuid;

/// The rows of a database, by their tables and identifiers (RFC 7047, 3.2). Contracts see them by their keys.
pub struct Rows {
    /// A table stays when it has lost its last row.
    tables: BTreeMap<String, TableRows>,
}

impl Model for Rows {
    ghost use Rattle.std.specs.Prelude.{T};
    ghost use Rattle.std.specs.FinMap.{is_sorted};
    ghost use Rattle.ov_specs.specs.rows.Database.{Database};
    ghost use Rattle.ov_specs.specs.schema.SchemaTypes.{name_cmp};
    ghost use Rattle.ov_rows.specs.Named.{named};
    ghost use Rattle.ov_rows.specs.Resident.{database_code, nested_of};

    ghost Value = { Database };

    ghost coded = { database_code };

    ghost view = { λ r. nested_of r.tables.entries };

    ghost invariant = { λ r. T (is_sorted name_cmp (named r.tables.entries)) };
}

impl Drop for Rows {
    // An explicit drop, so that crates above need not prove the drop of its parts again.
    fn drop(self) {
        let Rows { tables } = self;
        drop(tables);
    }
}

impl Rows {
    /// No rows.
    pub fn new(alloc: Global) -> Rows
        ensures { result ≡ empty }
    {
        Rows {
            tables: BTreeMap::new(alloc),
        }
    }

    /// The row of this identifier in the table of this name.
    pub fn row(&self, table: &str, id: Uuid) -> Option<&Row>
        ensures { option_copied result ≡ get self.now (table.now, id) }
    {
        match self.tables.get(table) {
            Some(rows) => rows.row(id),
            None => None,
        }
    }

    /// Whether there is a row of this key.
    pub fn contains(&self, key: &RowKey) -> bool
        ensures { result ≡ contains_key self.now key.now }
    {
        self.row(key.table(), key.id()).is_some()
    }

    /// The rows of the table of this name, if it ever had one.
    pub fn of_table(&self, table: &str) -> Option<&TableRows>
        ensures { rows_in table.now (option_copied result)
            ≡ filter (λ r. bytes_eq r.0.0 table.now) (entries self.now) }
    {
        self.tables.get(table)
    }

    /// The rows of all tables that ever had one, in ascending order of the tables' names.
    pub fn tables(&self) -> &BTreeMap<String, TableRows>
        ensures { all_rows (named result.now.entries) ≡ entries self.now }
    {
        &self.tables
    }

    /// Inserts the row, in place of any row of its key. Fails only if the key is new and an allocation fails; then nothing
    /// is changed.
    pub fn insert(&mut self, alloc: Global, key: &RowKey, row: Row) -> Result<(), AllocError>
        ensures ok { OnOk result (self.new ≡ insert self.old key.now row) }
        ensures err { OnErr result (self.new ≡ self.old) }
        ensures absent { OnErr result (get self.old key.now ≡ None) }
    {
        match self.tables.get_mut(key.table()) {
            Some(rows) => rows.insert(key.id(), row),
            None => {
                let rows = TableRows::of_row(alloc, key.id(), row)?;
                self.tables
                    .insert(String::from_str(alloc, key.table())?, rows)?;
                Ok(())
            }
        }
    }

    /// Removes the row of the key, if there is one.
    pub fn remove(&mut self, key: &RowKey)
        ensures { self.new ≡ remove self.old key.now }
    {
        if let Some(rows) = self.tables.get_mut(key.table()) {
            rows.remove(key.id());
        }
    }
}
