ghost use Rattle.std.specs.Prelude.{◌≡◌, option_and_then, option_copied, OnOk, OnErr};
ghost use Rattle.std.specs.FinMap.{empty, entries, get};
ghost use Rattle.ov_specs.specs.values.Uuid as uuids;
ghost use Rattle.ov_rows.specs.Named.{named};
ghost use Rattle.ov_rows.specs.Nested.{all_rows};
ghost use Rattle.ov_refs.specs.Holding.{is_holder, with_holder, without_holder};

use crate::key_set::KeySet;
use crate::table_holders::TableHolders;
use ov_rows::RowKey;
use std::alloc::{AllocError, Global};
use std::collections::BTreeMap;
use std::marker::Model;
use uuid::Uuid;

/// For each row that is referred to, even if it does not exist yet or any more, the rows that refer to it. Stored by the
/// table and the identifier of the row; contracts see it by the row's key.
#[derive(Drop)]
pub struct Holders {
    /// A table stays when none of its rows is referred to.
    tables: BTreeMap<String, TableHolders>,
}

impl Model for Holders {
    ghost use Rattle.std.specs.Prelude.{T};
    ghost use Rattle.std.specs.FinMap.{is_sorted};
    ghost use Rattle.ov_specs.specs.schema.SchemaTypes.{name_cmp};
    ghost use Rattle.ov_rows.specs.Named.{named};
    ghost use Rattle.ov_rows.specs.Resident.{nested_of};
    ghost use Rattle.ov_refs.specs.Holding as holding;
    ghost use Rattle.ov_refs.specs.Holding.{holders_code};

    ghost Value = { holding.Holders };

    ghost coded = { holders_code };

    ghost view = { λ h. nested_of h.tables.entries };

    ghost invariant = { λ h. T (is_sorted name_cmp (named h.tables.entries)) };
}

impl Holders {
    /// No row refers to any row.
    pub fn new(alloc: Global) -> Holders
        ensures { result ≡ empty }
    {
        Holders {
            tables: BTreeMap::new(alloc),
        }
    }

    /// The rows that refer to the row of this identifier in the table of this name.
    pub fn of(&self, table: &str, id: Uuid) -> Option<&KeySet>
        ensures { option_copied result ≡ get self.now (table.now, id) }
    {
        match self.tables.get(table) {
            Some(holders) => holders.of(id),
            None => None,
        }
    }

    /// Whether `from` refers to `to`.
    pub fn has(&self, to: &RowKey, from: &RowKey) -> bool
        ensures { result ≡ is_holder self.now to.now from.now }
    {
        match self.of(to.table(), to.id()) {
            Some(set) => set.contains(from),
            None => false,
        }
    }

    /// For the rows of the table of this name, the rows that refer to them, if the table ever had a row that is referred to.
    pub fn of_table(&self, table: &str) -> Option<&TableHolders>
        ensures { (id : uuids.Uuid)
            → option_and_then (λ holders. get holders id) (option_copied result)
            ≡ get self.now (table.now, id) }
    {
        self.tables.get(table)
    }

    /// All tables that ever had a row that is referred to, in ascending order of their names, each with the rows that refer
    /// to its rows.
    pub fn tables(&self) -> &BTreeMap<String, TableHolders>
        ensures { all_rows (named result.now.entries) ≡ entries self.now }
    {
        &self.tables
    }

    /// Adds `from` to the rows that refer to `to`, unless it is there. If an allocation fails, nothing is changed.
    pub fn add(&mut self, alloc: Global, to: &RowKey, from: RowKey) -> Result<(), AllocError>
        ensures ok { OnOk result (self.new ≡ with_holder to.now from self.old) }
        ensures err { OnErr result (self.new ≡ self.old) }
    {
        match self.tables.get_mut(to.table()) {
            Some(holders) => holders.add(alloc, to.id(), from),
            None => {
                let mut holders = TableHolders::new(alloc);
                holders.add(alloc, to.id(), from)?;
                self.tables
                    .insert(String::from_str(alloc, to.table())?, holders)?;
                Ok(())
            }
        }
    }

    /// Removes `from` from the rows that refer to `to`, if it is there. If none is left, `to` is not listed.
    pub fn remove(&mut self, to: &RowKey, from: &RowKey)
        ensures { self.new ≡ without_holder to.now from.now self.old }
    {
        if let Some(holders) = self.tables.get_mut(to.table()) {
            holders.remove(to.id(), from);
        }
    }
}
