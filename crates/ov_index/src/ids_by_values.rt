ghost use Rattle.std.specs.Prelude.{◌≡◌, not, option_copied, IfOk, OnOk, OnErr};
ghost use Rattle.std.specs.FinMap.{empty, get, remove, entries};
ghost use Rattle.ov_index.specs.Collecting.{has_two};
ghost use Rattle.ov_index.specs.Indexing.{is_indexed, lacking, has_no_rows};
ghost use Rattle.ov_index.specs.Indexing.{with_id, with_ids, without_id};
ghost use Rattle.ov_index.specs.Nested.{seen};

use crate::id_set::IdSet;
use ov_atoms::Datum;
use std::alloc::{AllocError, Global};
use std::collections::BTreeMap;
use std::marker::Model;
use uuid::Uuid;

/// The rows of one index, by their values in its columns.
#[derive(Drop)]
pub(crate) struct IdsByValues {
    ids: BTreeMap<Vec<Datum>, IdSet>,
}

impl Model for IdsByValues {
    ghost use Rattle.std.specs.Prelude.{T};
    ghost use Rattle.std.specs.FinMap.{is_sorted};
    ghost use Rattle.ov_index.specs.IndexKeys.{values_cmp};
    ghost use Rattle.ov_index.specs.Nested as nested;
    ghost use Rattle.ov_index.specs.Nested.{ids_by_values_code, by_values};

    ghost Value = { nested.IdsByValues };

    ghost coded = { ids_by_values_code };

    ghost view = { λ m. by_values m.ids.entries };

    ghost invariant = { λ m. T (is_sorted (λ a b. values_cmp a.items b.items) m.ids.entries) };
}

impl IdsByValues {
    /// This row alone, at these values.
    pub(crate) fn of(alloc: Global, values: Vec<Datum>, id: Uuid) -> Result<IdsByValues, AllocError>
        ensures { IfOk result (λ all. all ≡ with_id values.items id empty) }
    {
        let mut all = IdsByValues {
            ids: BTreeMap::new(alloc),
        };
        all.add(alloc, values, id)?;
        Ok(all)
    }

    /// The rows at these values, if there are any.
    pub(crate) fn at(&self, values: &[Datum]) -> Option<&IdSet>
        ensures { option_copied result ≡ get self.now values.now }
    {
        self.ids.get(values)
    }

    /// All values that have rows, ascending, each with its rows.
    pub(crate) fn map(&self) -> &BTreeMap<Vec<Datum>, IdSet>
        ensures { seen (λ values. values.items) result.now.entries ≡ entries self.now }
    {
        &self.ids
    }

    /// Whether some values have two rows.
    pub(crate) fn has_two(&self) -> bool
        ensures { result ≡ has_two (entries self.now) }
    {
        for (_values, ids) in self.map() {
            if 1 < ids.len() {
                return true;
            }
        }
        false
    }

    /// Adds the row at these values, unless it is there; returns whether it was added. If an allocation fails, nothing is
    /// changed.
    pub(crate) fn add(
        &mut self,
        alloc: Global,
        values: Vec<Datum>,
        id: Uuid,
    ) -> Result<bool, AllocError>
        ensures ok { OnOk result (self.new ≡ with_id values.items id self.old) }
        ensures is_new { IfOk result
            (λ is_new. is_new ≡ not (is_indexed self.old values.items id)) }
        ensures err { OnErr result (self.new ≡ self.old) }
    {
        match self.ids.get_mut(values.as_slice()) {
            Some(ids) => ids.insert(id),
            None => {
                self.ids.insert(values, IdSet::of(alloc, id)?)?;
                Ok(true)
            }
        }
    }

    /// Removes the row from these values, and returns whether no row is left there.
    fn lose(&mut self, values: &[Datum], id: Uuid) -> bool
        ensures lost { self.new
            ≡ with_ids values.now (lacking (get self.old values.now) id) self.old }
        ensures left { result ≡ has_no_rows (get self.new values.now) }
    {
        match self.ids.get_mut(values) {
            Some(ids) => {
                ids.remove(id);
                ids.is_empty()
            }
            None => false,
        }
    }

    /// Removes the values with all their rows.
    fn drop_values(&mut self, values: &[Datum])
        ensures { self.new ≡ remove self.old values.now }
    {
        self.ids.remove(values);
    }

    /// Removes the row from these values, if it is there, and the values if no row is left. Allocates nothing.
    pub(crate) fn take_out(&mut self, values: &[Datum], id: Uuid)
        ensures { self.new ≡ without_id values.now id self.old }
    {
        if self.lose(values, id) {
            self.drop_values(values);
        }
    }
}
