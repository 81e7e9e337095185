ghost use Rattle.std.specs.Prelude.{◌≡◌, ◌==◌, OnOk, OnErr, option_copied};
ghost use Rattle.std.specs.FinMap.{empty, get, insert, remove, entries, len};

use ov_rows::{Row, RowKey};
use std::alloc::{AllocError, Global};
use std::collections::BTreeMap;
use std::marker::Model;

/// Changes of a database: for each key, the new row, or `None` if the row is removed.
#[derive(Drop)]
pub struct Delta {
    pub(crate) changes: BTreeMap<RowKey, Option<Row>>,
}

impl Model for Delta {
    ghost use Rattle.std.specs.Prelude.{T};
    ghost use Rattle.std.specs.FinMap.{is_sorted};
    ghost use Rattle.ov_specs.specs.rows.Lines.{line_cmp};
    ghost use Rattle.ov_stored.specs.Changing as changing;
    ghost use Rattle.ov_stored.specs.DeltaModel.{delta_code, delta_of};

    ghost Value = { changing.Delta };

    ghost coded = { delta_code };

    ghost view = { λ d. delta_of d.changes.entries };

    ghost invariant = { λ d. T (is_sorted line_cmp d.changes.entries) };
}

impl Delta {
    /// No changes.
    pub fn new(alloc: Global) -> Delta
        ensures { result ≡ empty }
    {
        Delta {
            changes: BTreeMap::new(alloc),
        }
    }

    /// Whether there are no changes.
    pub fn is_empty(&self) -> bool
        ensures { result ≡ (len self.now == 0) }
    {
        self.changes.is_empty()
    }

    /// The change of this key: the new row, or `None` if the row is removed.
    pub fn change(&self, key: &RowKey) -> Option<&Option<Row>>
        ensures { option_copied result ≡ get self.now key.now }
    {
        self.changes.get(key)
    }

    /// All changes, in ascending order of their keys: grouped by table, and by identifier within a table.
    pub fn map(&self) -> &BTreeMap<RowKey, Option<Row>>
        ensures { result.now.entries ≡ entries self.now }
    {
        &self.changes
    }

    /// Puts a change, replacing any with the same key. If an allocation fails, nothing changes.
    pub fn insert(&mut self, key: RowKey, row: Option<Row>) -> Result<(), AllocError>
        ensures ok { OnOk result (self.new ≡ insert self.old key row) }
        ensures err { OnErr result (self.new ≡ self.old) }
    {
        self.changes.insert(key, row)?;
        Ok(())
    }

    /// Removes the change of the key, if there is one.
    pub fn remove(&mut self, key: &RowKey)
        ensures { self.new ≡ remove self.old key.now }
    {
        self.changes.remove(key);
    }
}
