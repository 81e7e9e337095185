ghost use Rattle.std.specs.Prelude.{◌≡◌, IfOk, IfSome};
ghost use Rattle.std.specs.FinMap.{keys};
ghost use Rattle.ov_index.specs.IndexKeys.{index_key};
ghost use Rattle.ov_index.specs.Indexing.{AreIndexesOf, Ascend, ids_at};
ghost use Rattle.ov_specs.specs.rows.Database as rows;
ghost use Rattle.ov_stage.specs.Asked.{AreIdsOf, AreValuesAt, AreValuesOf, IsValueOf};

use ov_atoms::Datum;
use ov_base::Text;
use ov_conds::Condition;
use ov_index::Indexes;
use ov_schema::{Schema, Table, is_own};
use std::alloc::{AllocError, Global};
use uuid::Uuid;

/// The indexes of rows, and the schema that defines their columns.
#[derive(Clone, Copy)]
pub(crate) struct Indexed<'a> {
    pub(crate) schema: &'a Schema,
    pub(crate) indexes: &'a Indexes,
}

/// The value in the column of this name of every row that meets all conditions, if one of them asks for it.
fn value_asked<'a>(conditions: &'a [Condition], column: &str) -> Option<&'a Datum>
    ensures { IfSome result (λ value. IsValueOf conditions.now column.now value.now) }
{
    if is_own(column) {
        return None;
    }
    for condition in conditions {
        if let Some(value) = condition.equals(column) {
            return Some(value);
        }
    }
    None
}

/// The values in the columns of the index, if conditions ask for each of them.
fn values_asked(
    alloc: Global,
    conditions: &[Condition],
    index: &[Text],
) -> Result<Option<Vec<Datum>>, AllocError>
    ensures { IfOk result
        (λ asked. IfSome asked (λ values. AreValuesOf conditions.now index.now values.items)) }
{
    let mut values = Vec::new(alloc);
    for column in index {
        match value_asked(conditions, column.as_str()) {
            Some(value) => values.push(value.copy(alloc)?)?,
            None => return Ok(None),
        }
    }
    Ok(Some(values))
}

/// The number of the first index of the table whose columns the conditions all ask for, and the values that they ask for.
fn index_asked(
    alloc: Global,
    conditions: &[Condition],
    table: &Table,
) -> Result<Option<(usize, Vec<Datum>)>, AllocError>
    ensures { IfOk result
        (λ asked. IfSome asked (λ p. AreValuesAt conditions.now table.now p.0 p.1.items)) }
{
    for (number, index) in table.indexes().iter().enumerate() {
        if let Some(values) = values_asked(alloc, conditions, index.as_slice())? {
            return Ok(Some((number, values)));
        }
    }
    Ok(None)
}

/// The identifiers of the rows at these values in the index of this number of the table of this name, ascending.
fn ids_at<'a>(indexes: &'a Indexes, table: &str, number: usize, values: &[Datum]) -> &'a [Uuid]
    ensures { result.now ≡ keys (ids_at indexes.now (index_key table.now number values.now)) }
{
    match indexes.at(table, number, values) {
        Some(ids) => ids.as_slice(),
        None => &[],
    }
}

impl<'a> Indexed<'a> {
    /// Ascending identifiers that include those of all rows of the table of this name that meet all conditions, if the
    /// conditions ask for values in all columns of an index.
    pub(crate) fn ids_asked(
        self,
        alloc: Global,
        conditions: &[Condition],
        name: &str,
    ) -> Result<Option<&'a [Uuid]>, AllocError>
        ensures ascending { IfOk result (λ asked. IfSome asked (λ ids. Ascend ids.now)) }
        ensures all { (before : rows.Database)
            → AreIndexesOf self.entry.schema.now before self.entry.indexes.now
            → IfOk result
            (λ asked. IfSome asked (λ ids. AreIdsOf conditions.now before name.now ids.now)) }
    {
        let Some(table) = self.schema.table(name) else {
            return Ok(None);
        };
        match index_asked(alloc, conditions, table)? {
            Some((number, values)) => {
                let ids = ids_at(self.indexes, name, number, values.as_slice());
                Ok(Some(ids))
            }
            None => Ok(None),
        }
    }
}
