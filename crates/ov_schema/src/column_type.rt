ghost use Rattle.std.specs.Prelude.{◌≡◌, ◌&&◌, IfOk, option_and_then};
ghost use Rattle.std.specs.List.{list_all};
ghost use Rattle.std.specs.Option.{option_copied};
ghost use Rattle.ov_specs.specs.schema.SchemaTypes.{kinds_of};
ghost use Rattle.ov_specs.specs.operations.Conditions.{is_optional, is_scalar};
ghost use Rattle.ov_specs.specs.schema.Fitting.{atom_fits, value_fits, fits, default_of};
ghost use Rattle.ov_atoms.specs.Views.{kinds_view, atom_view, atoms_view, pairs_view};

use crate::base_type::{BaseType, Reference};
use crate::limits::is_between;
use ov_atoms::{Atom, Datum, Kinds};
use std::alloc::{AllocError, Global};
use std::marker::Model;

/// The type of a column (RFC 7047, 3.2, `<type>`): a map has a type for its values, and no maximum means "unlimited".
#[derive(Drop)]
pub struct ColumnType {
    pub(crate) key: BaseType,
    pub(crate) value: Option<BaseType>,
    pub(crate) min: i64,
    pub(crate) max: Option<i64>,
}

impl Model for ColumnType {
    ghost use Rattle.ov_specs.specs.schema.SchemaTypes as types;
    ghost use Rattle.ov_specs.specs.codes.SchemaCode.{column_type_code};

    ghost Value = { types.ColumnType };

    ghost coded = { column_type_code };

    ghost view = { λ t. record { key = t.key; value = t.value; min = t.min; max = t.max } };
}

impl ColumnType {
    /// The type of these parts.
    pub fn new(key: BaseType, value: Option<BaseType>, min: i64, max: Option<i64>) -> ColumnType
        ensures { result ≡ record { key = key; value = value; min = min; max = max } }
    {
        ColumnType {
            key,
            value,
            min,
            max,
        }
    }

    /// The table that the atoms, or the keys of a map, refer to, if any.
    pub(crate) fn key_refers(&self) -> Option<&Reference>
        ensures { option_copied result ≡ self.now.key.refers }
    {
        self.key.refers()
    }

    /// The table that the values of a map refer to, if any.
    pub(crate) fn value_refers(&self) -> Option<&Reference>
        ensures { option_copied result ≡ option_and_then (λ b. b.refers) self.now.value }
    {
        match &self.value {
            Some(value) => value.refers(),
            None => None,
        }
    }

    /// The minimum number of atoms or pairs.
    pub(crate) fn min(&self) -> i64
        ensures { result ≡ self.now.min }
    {
        self.min
    }

    /// What the column holds: atoms of one kind, or pairs of two.
    pub(crate) fn kinds(&self) -> Kinds
        ensures { kinds_view result ≡ kinds_of self.now }
    {
        match &self.value {
            Some(value) => Kinds::Pair(self.key.kind(), value.kind()),
            None => Kinds::Single(self.key.kind()),
        }
    }

    /// Whether it holds exactly one atom.
    pub(crate) fn is_scalar(&self) -> bool
        ensures { result ≡ is_scalar self.now }
    {
        match self.max {
            Some(max) => self.value.is_none() && self.min == 1 && max == 1,
            None => false,
        }
    }

    /// Whether it holds at most one atom, and may hold none.
    pub(crate) fn is_optional(&self) -> bool
        ensures { result ≡ is_optional self.now }
    {
        match self.max {
            Some(max) => self.value.is_none() && self.min == 0 && max == 1,
            None => false,
        }
    }

    /// Whether the count lies between `min` and `max`, and each atom fits.
    pub(crate) fn fits(&self, datum: &Datum) -> bool
        ensures { result ≡ fits self.now datum.now }
    {
        if !is_between(Some(self.min), self.max, datum.count() as i128) {
            return false;
        }
        if let Some(atoms) = datum.atoms() {
            return self.atoms_fit(atoms);
        }
        match datum.pairs() {
            Some(pairs) => self.pairs_fit(pairs),
            None => true,
        }
    }

    fn atoms_fit(&self, atoms: &[Atom]) -> bool
        ensures { result ≡ list_all (atom_fits self.now.key) (atoms_view atoms.now) }
    {
        for atom in atoms {
            if !self.key.atom_fits(atom) {
                return false;
            }
        }
        true
    }

    fn pairs_fit(&self, pairs: &[(Atom, Atom)]) -> bool
        ensures { result
            ≡ list_all (λ p. atom_fits self.now.key p.0 && value_fits self.now.value p.1)
            (pairs_view pairs.now) }
    {
        for (key, value) in pairs {
            if !self.key.atom_fits(key) || !self.value_fits(value) {
                return false;
            }
        }
        true
    }

    fn value_fits(&self, value: &Atom) -> bool
        ensures { result ≡ value_fits self.now.value (atom_view value.now) }
    {
        match &self.value {
            Some(type_of) => type_of.atom_fits(value),
            None => true,
        }
    }

    /// The empty value if the count may be 0, else one default atom or pair.
    pub(crate) fn default_of(&self, alloc: Global) -> Result<Datum, AllocError>
        ensures { IfOk result (λ d. d ≡ default_of self.now) }
    {
        if 0 < self.min {
            Datum::one_default_of(alloc, self.kinds())
        } else {
            Ok(Datum::nothing_of(alloc, self.kinds()))
        }
    }
}
