ghost use Rattle.std.specs.Prelude.{◌≡◌, IfOk};
ghost use Rattle.ov_index.specs.IndexKeys.{index_key, key_at, values_in};

use ov_atoms::Datum;
use ov_base::Text;
use ov_rows::Columns;
use std::alloc::{AllocError, Global};
use std::cmp::Ordering;
use std::marker::Model;

/// The key of rows in an index: the table, the number of the index in the table's list, counted from 0, and the values in
/// the columns of the index, in its order (RFC 7047, 3.2, `<table-schema>`, indexes).
#[derive(Drop)]
pub struct IndexKey {
    table: Text,
    number: usize,
    values: Vec<Datum>,
}

impl Model for IndexKey {
    ghost use Rattle.ov_index.specs.IndexKeys as keys;
    ghost use Rattle.ov_index.specs.IndexKeys.{index_key, index_key_code};

    ghost Value = { keys.IndexKey };

    ghost coded = { index_key_code };

    ghost view = { λ k. index_key k.table k.number k.values.items };
}

impl IndexKey {
    /// The key of a row with these columns in this index, which has this number in the table of this name.
    pub fn at(
        alloc: Global,
        table: &str,
        number: usize,
        index: &[Text],
        columns: &Columns,
    ) -> Result<IndexKey, AllocError>
        ensures { IfOk result (λ key. key ≡ key_at table.now number index.now columns.now) }
    {
        Ok(IndexKey {
            table: Text::from_str(alloc, table)?,
            number,
            values: values_in(alloc, index, columns)?,
        })
    }

    /// The name of the table.
    pub fn table(&self) -> &str
        ensures { result.now ≡ self.now.table }
    {
        self.table.as_str()
    }

    /// The number of the index.
    pub fn number(&self) -> usize
        ensures { result ≡ self.now.number }
    {
        self.number
    }

    /// The values, in the order of the index's columns.
    pub fn values(&self) -> &[Datum]
        ensures { result.now ≡ self.now.values }
    {
        self.values.as_slice()
    }

    /// A copy of the key.
    pub fn copy(&self, alloc: Global) -> Result<IndexKey, AllocError>
        ensures { IfOk result (λ key. key ≡ self.now) }
    {
        Ok(IndexKey {
            table: Text::from_str(alloc, self.table.as_str())?,
            number: self.number,
            values: copied(alloc, self.values.as_slice())?,
        })
    }

    /// The table's name, the number of the index and the values, which are not copied.
    pub(crate) fn into_parts(self) -> (Text, usize, Vec<Datum>)
        ensures { index_key result.0 result.1 result.2.items ≡ self }
    {
        let IndexKey {
            table,
            number,
            values,
        } = self;
        (table, number, values)
    }
}

/// The values of a row in the columns of an index, in the index's order.
fn values_in(alloc: Global, index: &[Text], columns: &Columns) -> Result<Vec<Datum>, AllocError>
    ensures { IfOk result (λ values. values.items ≡ values_in index.now columns.now) }
{
    let mut values = Vec::with_capacity(alloc, index.len())?;
    for name in index {
        if let Some(datum) = columns.get(name.as_str()) {
            values.push(datum.copy(alloc)?)?;
        }
    }
    Ok(values)
}

/// A copy of these values.
fn copied(alloc: Global, values: &[Datum]) -> Result<Vec<Datum>, AllocError>
    ensures { IfOk result (λ copies. copies.items ≡ values.now) }
{
    let mut copies = Vec::with_capacity(alloc, values.len())?;
    for datum in values {
        copies.push(datum.copy(alloc)?)?;
    }
    Ok(copies)
}

impl PartialEq for IndexKey {
    ghost use Rattle.std.specs.Ordering.{eq_by_cmp};
    ghost use Rattle.std.specs.Cmp.{partial_equiv_from_equiv, eq_by_cmp_equiv};
    ghost use Rattle.ov_index.specs.IndexKeys.{index_cmp};
    ghost use Rattle.ov_index.specs.KeyOrder.{index_total};

    ghost eq = { eq_by_cmp index_cmp };

    ghost laws = { partial_equiv_from_equiv (eq_by_cmp_equiv index_total) };

    fn eq(&self, other: &IndexKey) -> bool {
        self.cmp(other) == Ordering::Equal
    }
}

impl Eq for IndexKey {
    ghost use Rattle.std.specs.Cmp.{eq_by_cmp_equiv};
    ghost use Rattle.ov_index.specs.KeyOrder.{index_total};

    ghost laws = { eq_by_cmp_equiv index_total };
}

impl PartialOrd for IndexKey {
    ghost use Rattle.std.specs.Prelude.{Some, refl};
    ghost use Rattle.std.specs.Cmp.{partial_order_from_agreeing_total};
    ghost use Rattle.ov_index.specs.IndexKeys.{index_cmp};
    ghost use Rattle.ov_index.specs.KeyOrder.{index_total};

    ghost partial_cmp = { λ a b. Some (index_cmp a b) };

    ghost laws = { partial_order_from_agreeing_total index_cmp index_total (λ a b. refl)
        (λ a b. refl) };

    fn partial_cmp(&self, other: &IndexKey) -> Option<Ordering> {
        Some(self.cmp(other))
    }
}

impl Ord for IndexKey {
    ghost use Rattle.std.specs.Prelude.{refl};
    ghost use Rattle.ov_index.specs.IndexKeys.{index_cmp};
    ghost use Rattle.ov_index.specs.KeyOrder.{index_total};

    ghost cmp = { index_cmp };

    ghost total = { index_total };

    ghost matches_partial_cmp = { λ a b. refl };

    ghost matches_eq = { λ a b. refl };

    /// Compares the bytes of the tables' names, then the numbers of the indexes, then the values, one by one.
    fn cmp(&self, other: &IndexKey) -> Ordering {
        match self.table.as_str().cmp(other.table.as_str()) {
            Ordering::Equal => match self.number.cmp(&other.number) {
                Ordering::Equal => self.values.as_slice().cmp(other.values.as_slice()),
                by_number => by_number,
            },
            by_table => by_table,
        }
    }
}
