ghost use Rattle.std.specs.Prelude.{◌≡◌, ◌==◌, option_copied, OnOk, OnErr};
ghost use Rattle.std.specs.FinMap.{empty, entries, get, remove, len};
ghost use Rattle.ov_specs.specs.schema.Schema.{is_some_and};
ghost use Rattle.ov_refs.specs.Holding.{with_holder, with_fewer, without_holder};

use crate::key_set::KeySet;
use ov_rows::{RowId, RowKey};
use std::alloc::{AllocError, Global};
use std::collections::BTreeMap;
use std::marker::Model;
use uuid::Uuid;

/// For each row of one table that is referred to, even if it does not exist yet or any more, the rows that refer to it.
#[derive(Drop)]
pub struct TableHolders {
    rows: BTreeMap<RowId, KeySet>,
}

impl Model for TableHolders {
    ghost use Rattle.std.specs.Prelude.{T};
    ghost use Rattle.std.specs.FinMap.{is_sorted};
    ghost use Rattle.ov_rows.specs.Nested.{id_cmp};
    ghost use Rattle.ov_rows.specs.Resident.{table_rows_of};
    ghost use Rattle.ov_refs.specs.Holding as holding;
    ghost use Rattle.ov_refs.specs.Holding.{table_holders_code};

    ghost Value = { holding.TableHolders };

    ghost coded = { table_holders_code };

    ghost view = { λ t. table_rows_of t.rows.entries };

    ghost invariant = { λ t. T (is_sorted id_cmp t.rows.entries) };
}

impl TableHolders {
    /// No row refers to any row of the table.
    pub(crate) fn new(alloc: Global) -> TableHolders
        ensures { result ≡ empty }
    {
        TableHolders {
            rows: BTreeMap::new(alloc),
        }
    }

    /// The rows that refer to the row of this identifier.
    pub fn of(&self, id: Uuid) -> Option<&KeySet>
        ensures { option_copied result ≡ get self.now id }
    {
        self.rows.get(&RowId::new(id))
    }

    /// All rows of the table that are referred to, in ascending order of their identifiers, each with the rows that refer to
    /// it.
    pub fn map(&self) -> &BTreeMap<RowId, KeySet>
        ensures { result.now.entries ≡ entries self.now }
    {
        &self.rows
    }

    /// Adds `from` to the rows that refer to the row of this identifier, unless it is there. If an allocation fails, nothing
    /// is changed.
    pub(crate) fn add(&mut self, alloc: Global, id: Uuid, from: RowKey) -> Result<(), AllocError>
        ensures ok { OnOk result (self.new ≡ with_holder id from self.old) }
        ensures err { OnErr result (self.new ≡ self.old) }
    {
        let to = RowId::new(id);
        match self.rows.get_mut(&to) {
            Some(set) => set.insert(alloc, from),
            None => {
                let mut set = KeySet::new();
                set.insert(alloc, from)?;
                self.rows.insert(to, set)?;
                Ok(())
            }
        }
    }

    /// Removes `from` from the rows that refer to the row of this identifier, if it is there. If none is left, the row is not
    /// listed.
    pub(crate) fn remove(&mut self, id: Uuid, from: &RowKey)
        ensures { self.new ≡ without_holder id from.now self.old }
    {
        if self.take_from(id, from) {
            self.rows.remove(&RowId::new(id));
        }
    }

    /// Removes `from` from the rows that refer to the row of this identifier, if it is there; returns whether the row is
    /// listed and no row refers to it.
    fn take_from(&mut self, id: Uuid, from: &RowKey) -> bool
        ensures fewer { self.new ≡ with_fewer id from.now self.old }
        ensures none { result
            ≡ is_some_and (λ set. len (remove set from.now) == 0) (get self.old id) }
    {
        match self.rows.get_mut(&RowId::new(id)) {
            Some(set) => {
                set.remove(from);
                set.is_empty()
            }
            None => false,
        }
    }
}
