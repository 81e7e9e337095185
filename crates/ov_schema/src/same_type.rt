ghost use Rattle.std.specs.Prelude.{◌≡◌, option_map};
ghost use Rattle.std.specs.Cmp.Lexicographic.{pointwise};
ghost use Rattle.std.specs.FinMap.{keys};
ghost use Rattle.std.specs.Option.{option_copied, option_eq};
ghost use Rattle.std.specs.Ordering.{eq_by_cmp};
ghost use Rattle.ov_specs.specs.schema.SameType.{same_choices, same_reference, same_ranges};
ghost use Rattle.ov_specs.specs.schema.SameType.{same_base, same_type};
ghost use Rattle.ov_specs.specs.values.Value.{atom_cmp};
ghost use Rattle.ov_atoms.specs.Views.{atoms_view};
ghost use Rattle.ov_schema.specs.Sets.{set_in};

use crate::base_type::{BaseType, Reference};
use crate::column::Column;
use crate::column_type::ColumnType;
use ov_atoms::{Atom, Datum};

impl Column {
    /// Whether this column has the same type as the other (RFC 7047, 3.2, `<type>`): the same kinds, counts, `enum`s, ranges
    /// and references. Whether a column is ephemeral or mutable is no part of its type. It allocates nothing.
    pub fn same_type(&self, other: &Column) -> bool
        ensures { result ≡ same_type self.now.type_of other.now.type_of }
    {
        is_same_type(&self.type_of, &other.type_of)
    }
}

fn is_same_type(first: &ColumnType, second: &ColumnType) -> bool
    ensures { result ≡ same_type first.now second.now }
{
    is_same_base(&first.key, &second.key)
        && have_same_values(&first.value, &second.value)
        && first.min == second.min
        && first.max == second.max
}

/// Whether both are maps to values of the same type, or both are sets.
fn have_same_values(first: &Option<BaseType>, second: &Option<BaseType>) -> bool
    ensures { result ≡ option_eq same_base first.now second.now }
{
    match first {
        Some(base) => match second {
            Some(other) => is_same_base(base, other),
            None => false,
        },
        None => second.is_none(),
    }
}

fn is_same_base(first: &BaseType, second: &BaseType) -> bool
    ensures { result ≡ same_base first.now second.now }
{
    first.kind() == second.kind()
        && have_same_choices(&first.choices, &second.choices)
        && have_same_ranges(first, second)
        && have_same_references(first.refers(), second.refers())
}

fn have_same_ranges(first: &BaseType, second: &BaseType) -> bool
    ensures { result ≡ same_ranges first.now second.now }
{
    first.least == second.least
        && first.greatest == second.greatest
        && first.shortest == second.shortest
        && first.longest == second.longest
}

/// Whether both have the same `enum`, or neither has one.
fn have_same_choices(first: &Option<Datum>, second: &Option<Datum>) -> bool
    ensures { result
        ≡ option_eq same_choices (option_map set_in first.now) (option_map set_in second.now) }
{
    match first {
        Some(choices) => match second {
            Some(others) => are_same_atoms(atoms_of(choices), atoms_of(others)),
            None => false,
        },
        None => second.is_none(),
    }
}

/// The atoms of a set; a map has none.
fn atoms_of(set: &Datum) -> &[Atom]
    ensures { atoms_view result.now ≡ keys (set_in set.now) }
{
    match set.atoms() {
        Some(atoms) => atoms,
        None => &[],
    }
}

fn are_same_atoms(first: &[Atom], second: &[Atom]) -> bool
    ensures { result
        ≡ pointwise (eq_by_cmp atom_cmp) (atoms_view first.now) (atoms_view second.now) }
{
    first == second
}

/// Whether both refer to the same table in the same way, or neither refers to one.
fn have_same_references(first: Option<&Reference>, second: Option<&Reference>) -> bool
    ensures { result
        ≡ option_eq same_reference (option_copied first.entry) (option_copied second.entry) }
{
    match first {
        Some(reference) => match second {
            Some(other) => is_same_reference(reference, other),
            None => false,
        },
        None => second.is_none(),
    }
}

fn is_same_reference(first: &Reference, second: &Reference) -> bool
    ensures { result ≡ same_reference first.now second.now }
{
    first.table() == second.table() && first.is_strong() == second.is_strong()
}
