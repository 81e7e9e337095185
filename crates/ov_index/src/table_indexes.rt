ghost use Rattle.std.specs.Prelude.{◌≡◌, not, option_copied, IfOk, OnOk, OnErr};
ghost use Rattle.std.specs.FinMap.{empty, get, entries};
ghost use Rattle.ov_index.specs.Collecting.{has_two};
ghost use Rattle.ov_index.specs.Indexing.{is_indexed, with_id, without_id};
ghost use Rattle.ov_index.specs.Nested.{all_entries, numbered};

use crate::id_set::IdSet;
use crate::ids_by_values::IdsByValues;
use ov_atoms::Datum;
use std::alloc::{AllocError, Global};
use std::collections::BTreeMap;
use std::marker::Model;
use uuid::Uuid;

/// The rows of one table in its indexes, by the numbers of the indexes and the values there.
#[derive(Drop)]
pub(crate) struct TableIndexes {
    /// An index stays when it has lost its last row.
    indexes: BTreeMap<usize, IdsByValues>,
}

impl Model for TableIndexes {
    ghost use Rattle.std.specs.Prelude.{T};
    ghost use Rattle.std.specs.FinMap.{is_sorted};
    ghost use Rattle.std.specs.Ordering.{nat_cmp};
    ghost use Rattle.ov_index.specs.Nested as nested;
    ghost use Rattle.ov_index.specs.Nested.{table_indexes_code, by_number};

    ghost Value = { nested.TableIndexes };

    ghost coded = { table_indexes_code };

    ghost view = { λ t. by_number t.indexes.entries };

    ghost invariant = { λ t. T (is_sorted nat_cmp t.indexes.entries) };
}

impl TableIndexes {
    /// This row alone, at these values in the index of this number.
    pub(crate) fn of(
        alloc: Global,
        number: usize,
        values: Vec<Datum>,
        id: Uuid,
    ) -> Result<TableIndexes, AllocError>
        ensures { IfOk result (λ table. table ≡ with_id (numbered number values.items) id empty) }
    {
        let mut table = TableIndexes {
            indexes: BTreeMap::new(alloc),
        };
        table.add(alloc, number, values, id)?;
        Ok(table)
    }

    /// The rows at these values in the index of this number, if there are any.
    pub(crate) fn at(&self, number: usize, values: &[Datum]) -> Option<&IdSet>
        ensures { option_copied result ≡ get self.now (numbered number values.now) }
    {
        match self.indexes.get(&number) {
            Some(index) => index.at(values),
            None => None,
        }
    }

    /// All indexes that ever had a row, by their numbers, ascending.
    pub(crate) fn map(&self) -> &BTreeMap<usize, IdsByValues>
        ensures { all_entries numbered result.now.entries ≡ entries self.now }
    {
        &self.indexes
    }

    /// Whether some values in an index have two rows.
    pub(crate) fn has_two(&self) -> bool
        ensures { result ≡ has_two (entries self.now) }
    {
        for (_number, index) in self.map() {
            if index.has_two() {
                return true;
            }
        }
        false
    }

    /// Adds the row at these values in the index of this number, unless it is there; returns whether it was added. If an
    /// allocation fails, nothing is changed.
    pub(crate) fn add(
        &mut self,
        alloc: Global,
        number: usize,
        values: Vec<Datum>,
        id: Uuid,
    ) -> Result<bool, AllocError>
        ensures ok { OnOk result (self.new ≡ with_id (numbered number values.items) id self.old) }
        ensures is_new { IfOk result (λ is_new. is_new
            ≡ not (is_indexed self.old (numbered number values.items) id)) }
        ensures err { OnErr result (self.new ≡ self.old) }
    {
        match self.indexes.get_mut(&number) {
            Some(index) => index.add(alloc, values, id),
            None => {
                let index = IdsByValues::of(alloc, values, id)?;
                self.indexes.insert(number, index)?;
                Ok(true)
            }
        }
    }

    /// Removes the row from these values in the index of this number, if it is there, and the values if no row is left.
    /// Allocates nothing.
    pub(crate) fn take_out(&mut self, number: usize, values: &[Datum], id: Uuid)
        ensures { self.new ≡ without_id (numbered number values.now) id self.old }
    {
        if let Some(index) = self.indexes.get_mut(&number) {
            index.take_out(values, id);
        }
    }
}
