ghost use Rattle.std.specs.Prelude.{◌≡◌, IfOk, map, option_copied, string_bytes};
ghost use Rattle.std.specs.FinMap.{get, insert, keys, values, entries};
ghost use Rattle.ov_specs.specs.rows.Database.{same_columns};
ghost use Rattle.ov_rows.specs.Named.{columns_at, place_from, IsListed};

use crate::marks::{copied, marks_of, own_among, spread_out};
use crate::named_values::NamedValues;
use crate::value_iter::{ValueIter, are_same};
use ov_atoms::{Datum, RowShape};
use std::alloc::{AllocError, Global};
use std::marker::Model;

/// The values of a row (RFC 7047, 5.1, `<row>`), in the order of their columns' names, which other rows share. A
/// row does not store defaults: a bit for each of its first 64 columns marks them, and they are read from the shape.
pub struct Columns {
    shape: RowShape,
    /// The bits, the lowest for the first column.
    marks: u64,
    /// The values of the columns whose bit is not set, in their order.
    own: Vec<Datum>,
}

impl Model for Columns {
    ghost use Rattle.ov_specs.specs.rows.Database as database;
    ghost use Rattle.ov_rows.specs.Resident.{columns_code};
    ghost use Rattle.ov_rows.specs.Named.{columns_at, IsListed};
    ghost use Rattle.ov_rows.specs.Spread.{spread};

    ghost Value = { database.Columns };

    ghost coded = { columns_code };

    ghost view = { λ c. columns_at c.shape.names (spread c.marks c.shape.defaults c.own.items) };

    ghost invariant = { λ c. IsListed c.shape.names
        (spread c.marks c.shape.defaults c.own.items) };
}

impl Drop for Columns {
    // An explicit drop, so that crates above need not prove the drop of its parts again.
    fn drop(self) {
        let Columns {
            shape,
            marks: _,
            own,
        } = self;
        drop(shape);
        drop(own);
    }
}

impl Columns {
    /// These values, each in the column of the name at its place. Neither the names nor the defaults are copied.
    pub(crate) fn listed(
        alloc: Global,
        shape: RowShape,
        values: Vec<Datum>,
    ) -> Result<Columns, AllocError>
        requires { IsListed shape.names values.items }
        ensures { IfOk result (λ columns. columns ≡ columns_at shape.names values.items) }
    {
        let marks = marks_of(shape.defaults(), values.as_slice());
        let own = own_among(alloc, marks, values)?;
        Ok(Columns { shape, marks, own })
    }

    /// These values, in columns of exactly these names. Neither the names nor the defaults are copied.
    pub fn of(alloc: Global, shape: &RowShape, named: NamedValues) -> Result<Columns, AllocError>
        requires { keys named ≡ shape.now.names }
        ensures { IfOk result (λ columns. columns ≡ named) }
    {
        Columns::listed(alloc, shape.share()?, named.into_values(alloc)?)
    }

    /// These values, under names that no other row shares, and without defaults.
    pub fn with_own_names(alloc: Global, named: NamedValues) -> Result<Columns, AllocError>
        ensures { IfOk result (λ columns. columns ≡ named) }
    {
        let shape = RowShape::new(alloc, named.names(alloc)?, Vec::new(alloc))?;
        Columns::of(alloc, &shape, named)
    }

    /// These values. If their columns have exactly these names, the names and the defaults are not copied.
    pub fn sharing(
        alloc: Global,
        shape: &RowShape,
        named: NamedValues,
    ) -> Result<Columns, AllocError>
        ensures { IfOk result (λ columns. columns ≡ named) }
    {
        if named.has_names(shape.names()) {
            Columns::of(alloc, shape, named)
        } else {
            Columns::with_own_names(alloc, named)
        }
    }

    /// A copy of the values, under the same names, which are not copied.
    pub fn copy(&self, alloc: Global) -> Result<Columns, AllocError>
        ensures { IfOk result (λ columns. columns ≡ self.now) }
    {
        Ok(Columns {
            shape: self.shape.share()?,
            marks: self.marks,
            own: copied(alloc, self.own.as_slice())?,
        })
    }

    /// A copy of the values, by the names of their columns.
    fn to_named(&self, alloc: Global) -> Result<NamedValues, AllocError>
        ensures { IfOk result (λ named. named ≡ self.now) }
    {
        let mut named = NamedValues::new(alloc);
        for (name, datum) in self.names().iter().zip(self.values()) {
            named.insert(String::from_str(alloc, name.as_str())?, datum.copy(alloc)?)?;
        }
        Ok(named)
    }

    /// These values with this one in the column of this name (RFC 7047, 5.2.3). If there is such a column, the names stay
    /// shared.
    pub fn with_value(self, alloc: Global, name: &str, datum: Datum) -> Result<Columns, AllocError>
        ensures { IfOk result (λ columns. columns ≡ insert self name.now datum) }
    {
        match place_of(self.shape.names(), name) {
            Some(place) => {
                let Columns { shape, marks, own } = self;
                let mut values = spread_out(alloc, marks, shape.defaults(), own)?;
                values[place] = datum;
                Columns::listed(alloc, shape, values)
            }
            None => {
                let mut named = self.to_named(alloc)?;
                named.insert(String::from_str(alloc, name)?, datum)?;
                Columns::with_own_names(alloc, named)
            }
        }
    }

    /// The names of the columns, ascending.
    pub fn names(&self) -> &[String]
        ensures { map string_bytes result.now ≡ keys self.now }
    {
        self.shape.names()
    }

    /// The values, in ascending order of the names of their columns.
    pub fn values(&self) -> ValueIter<'_>
        ensures { result ≡ values self.now }
    {
        ValueIter::new(self.marks, self.shape.defaults(), self.own.as_slice())
    }

    /// The value of the column of this name.
    pub fn get(&self, name: &str) -> Option<&Datum>
        ensures { option_copied result ≡ get self.now name.now }
    {
        for (known, datum) in self.names().iter().zip(self.values()) {
            if name == known.as_str() {
                return Some(datum);
            }
        }
        None
    }

    /// Whether both have the same values in the same columns.
    pub fn is_same(&self, other: &Columns) -> bool
        ensures { result ≡ same_columns (entries self.now) (entries other.now) }
    {
        self.names() == other.names() && are_same(self.values(), other.values())
    }
}

/// The place of this name, or the first of them if it occurs more than once.
fn place_of(names: &[String], name: &str) -> Option<usize>
    ensures { result ≡ place_from 0 name.now (map string_bytes names.now) }
{
    for place in 0..names.len() {
        if name == names[place].as_str() {
            return Some(place);
        }
    }
    None
}
