ghost use Rattle.std.specs.Prelude.{◌≡◌, IfOk, OnOk, OnErr, map, true, string_bytes};
ghost use Rattle.std.specs.FinMap.{empty, contains_key, insert, keys, values, entries};
ghost use Rattle.ov_rows.specs.Named.{named};

use ov_atoms::Datum;
use std::alloc::{AllocError, Global};
use std::collections::BTreeMap;
use std::marker::Model;

/// Values by the names of their columns, from which a row is built (RFC 7047, 5.1, `<row>`).
#[derive(Drop)]
pub struct NamedValues {
    values: BTreeMap<String, Datum>,
}

impl Model for NamedValues {
    ghost use Rattle.std.specs.Prelude.{T};
    ghost use Rattle.std.specs.FinMap.{is_sorted};
    ghost use Rattle.ov_specs.specs.rows.Database.{Columns};
    ghost use Rattle.ov_specs.specs.schema.SchemaTypes.{name_cmp};
    ghost use Rattle.ov_rows.specs.Resident.{columns_code};
    ghost use Rattle.ov_rows.specs.Named.{named, columns_of};

    ghost Value = { Columns };

    ghost coded = { columns_code };

    ghost view = { λ v. columns_of v.values.entries };

    ghost invariant = { λ v. T (is_sorted name_cmp (named v.values.entries)) };
}

impl NamedValues {
    /// No values.
    pub fn new(alloc: Global) -> NamedValues
        ensures { result ≡ empty }
    {
        NamedValues {
            values: BTreeMap::new(alloc),
        }
    }

    /// Whether there is a value for the column of this name.
    pub fn contains(&self, name: &str) -> bool
        ensures { result ≡ contains_key self.now name.now }
    {
        self.values.contains_key(name)
    }

    /// Inserts the value for the column of this name, in place of any value there. If an allocation fails, nothing is
    /// changed.
    pub fn insert(&mut self, name: String, datum: Datum) -> Result<(), AllocError>
        ensures ok { OnOk result (self.new ≡ insert self.old (string_bytes name) datum) }
        ensures err { OnErr result (self.new ≡ self.old) }
    {
        self.values.insert(name, datum)?;
        Ok(())
    }

    /// The values by the names of their columns, in ascending order of the names.
    pub fn map(&self) -> &BTreeMap<String, Datum>
        ensures { named result.now.entries ≡ entries self.now }
    {
        &self.values
    }

    /// Whether the columns that have a value are exactly those of these names.
    pub(crate) fn has_names(&self, listed: &[String]) -> bool
        ensures { result ≡ true → keys self.now ≡ map string_bytes listed.now }
    {
        let mut place: usize = 0;
        for (name, _datum) in &self.values {
            if place >= listed.len() || name.as_str() != listed[place].as_str() {
                return false;
            }
            place += 1;
        }
        place == listed.len()
    }

    /// The names of the columns that have a value, ascending.
    pub(crate) fn names(&self, alloc: Global) -> Result<Vec<String>, AllocError>
        ensures { IfOk result (λ names. map string_bytes names.items ≡ keys self.now) }
    {
        let mut names = Vec::new(alloc);
        for (name, _datum) in &self.values {
            names.push(String::from_str(alloc, name.as_str())?)?;
        }
        Ok(names)
    }

    /// The values without their names, in ascending order of the names.
    pub(crate) fn into_values(self, alloc: Global) -> Result<Vec<Datum>, AllocError>
        ensures { IfOk result (λ listed. listed.items ≡ values self) }
    {
        let NamedValues { values } = self;
        let mut listed = Vec::with_capacity(alloc, values.len())?;
        for (_name, datum) in values {
            listed.push(datum)?;
        }
        Ok(listed)
    }
}
