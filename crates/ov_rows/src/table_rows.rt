ghost use Rattle.std.specs.Prelude.{◌≡◌, option_copied, IfOk, OnOk, OnErr, None};
ghost use Rattle.std.specs.FinMap.{empty, get, insert, remove, entries};

use crate::id::RowId;
use crate::row::Row;
use std::alloc::{AllocError, Global};
use std::collections::BTreeMap;
use std::marker::Model;
use uuid::Uuid;

/// The rows of one table, by their identifiers (RFC 7047, 3.2).
#[derive(Drop)]
pub struct TableRows {
    rows: BTreeMap<RowId, Row>,
}

impl Model for TableRows {
    ghost use Rattle.std.specs.Prelude.{T};
    ghost use Rattle.std.specs.FinMap.{is_sorted};
    ghost use Rattle.ov_rows.specs.Nested as nested;
    ghost use Rattle.ov_rows.specs.Nested.{id_cmp};
    ghost use Rattle.ov_rows.specs.Resident.{table_rows_code, table_rows_of};

    ghost Value = { nested.TableRows };

    ghost coded = { table_rows_code };

    ghost view = { λ t. table_rows_of t.rows.entries };

    ghost invariant = { λ t. T (is_sorted id_cmp t.rows.entries) };
}

impl TableRows {
    /// A table with this row alone.
    pub(crate) fn of_row(alloc: Global, id: Uuid, row: Row) -> Result<TableRows, AllocError>
        ensures { IfOk result (λ table. table ≡ insert empty id row) }
    {
        let mut table = TableRows {
            rows: BTreeMap::new(alloc),
        };
        table.insert(id, row)?;
        Ok(table)
    }

    /// The row of this identifier.
    pub fn row(&self, id: Uuid) -> Option<&Row>
        ensures { option_copied result ≡ get self.now id }
    {
        self.rows.get(&RowId::new(id))
    }

    /// All rows, in ascending order of their identifiers.
    pub fn map(&self) -> &BTreeMap<RowId, Row>
        ensures { result.now.entries ≡ entries self.now }
    {
        &self.rows
    }

    /// Inserts the row, in place of any row of its identifier. Fails only if the identifier is new and an allocation fails;
    /// then nothing is changed.
    pub(crate) fn insert(&mut self, id: Uuid, row: Row) -> Result<(), AllocError>
        ensures ok { OnOk result (self.new ≡ insert self.old id row) }
        ensures err { OnErr result (self.new ≡ self.old) }
        ensures absent { OnErr result (get self.old id ≡ None) }
    {
        match self.rows.insert(RowId::new(id), row) {
            Ok(_) => Ok(()),
            Err(_) => Err(AllocError),
        }
    }

    /// Removes the row of the identifier, if there is one.
    pub(crate) fn remove(&mut self, id: Uuid)
        ensures { self.new ≡ remove self.old id }
    {
        self.rows.remove(&RowId::new(id));
    }
}
