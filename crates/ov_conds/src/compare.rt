ghost use Rattle.std.specs.Prelude.{◌≡◌, int_lt, int_le};
ghost use Rattle.std.specs.Cmp.Lexicographic.{pointwise};
ghost use Rattle.ov_atoms.specs.Views.{atoms_view, pairs_view};
ghost use Rattle.ov_specs.specs.operations.Conditions.{are_numbers_so, compares};
ghost use Rattle.ov_specs.specs.rows.Database.{same_atom, same_pair};
ghost use Rattle.ov_specs.specs.values.Value.{Datum};
ghost use Rattle.ov_conds.specs.Compared.{elements_of, are_same, lists_include, lists_exclude};
ghost use Rattle.ov_conds.specs.ElementViews.{elements_view};
ghost use Rattle.ov_conds.specs.Views.{function_view};

use crate::elements::Elements;
use crate::function::Function;
use crate::walk::{excludes_atoms, excludes_pairs, includes_atoms, includes_pairs};
use ov_atoms::Atom;

fn is_below(first: Option<i64>, second: Option<i64>) -> bool
    ensures { result ≡ are_numbers_so int_lt first second }
{
    match (first, second) {
        (Some(first), Some(second)) => first < second,
        _ => false,
    }
}

fn is_at_most(first: Option<i64>, second: Option<i64>) -> bool
    ensures { result ≡ are_numbers_so int_le first second }
{
    match (first, second) {
        (Some(first), Some(second)) => first <= second,
        _ => false,
    }
}

fn are_atoms(first: &[Atom], second: &[Atom]) -> bool
    ensures { result ≡ pointwise same_atom (atoms_view first.now) (atoms_view second.now) }
{
    first == second
}

fn are_pairs(first: &[(Atom, Atom)], second: &[(Atom, Atom)]) -> bool
    ensures { result ≡ pointwise same_pair (pairs_view first.now) (pairs_view second.now) }
{
    first == second
}

impl Elements<'_> {
    /// Whether both are the same set or map.
    fn is_same(self, other: Elements<'_>) -> bool
        ensures { result ≡ are_same (elements_view self.entry) (elements_view other.entry) }
    {
        match (self, other) {
            (Elements::Atoms(atoms), Elements::Atoms(others)) => are_atoms(atoms, others),
            (Elements::Pairs(pairs), Elements::Pairs(others)) => are_pairs(pairs, others),
            _ => false,
        }
    }

    /// Whether everything in the value is here.
    fn includes(self, value: Elements<'_>) -> bool
        ensures { result ≡ lists_include (elements_view self.entry) (elements_view value.entry) }
    {
        match (self, value) {
            (Elements::Atoms(column), Elements::Atoms(value)) => includes_atoms(column, value),
            (Elements::Pairs(column), Elements::Pairs(value)) => includes_pairs(column, value),
            _ => false,
        }
    }

    /// Whether nothing in the value is here.
    fn excludes(self, value: Elements<'_>) -> bool
        ensures { result ≡ lists_exclude (elements_view self.entry) (elements_view value.entry) }
    {
        match (self, value) {
            (Elements::Atoms(column), Elements::Atoms(value)) => excludes_atoms(column, value),
            (Elements::Pairs(column), Elements::Pairs(value)) => excludes_pairs(column, value),
            _ => true,
        }
    }
}

impl Function {
    /// Whether a column with these contents stands in this relation to the value (RFC 7047, 5.1, `<function>`).
    #[tactic(auto, using(crate::proofs::CompareLemmas::by_elements))]
    pub(crate) fn compares(self, column: Elements<'_>, value: Elements<'_>) -> bool
        ensures { (d v : Datum) → elements_view column.entry ≡ elements_of d
            → elements_view value.entry ≡ elements_of v
            → result ≡ compares (function_view self) d v }
    {
        match self {
            Function::Less => is_below(column.number(), value.number()),
            Function::LessOrEqual => is_at_most(column.number(), value.number()),
            Function::Greater => is_below(value.number(), column.number()),
            Function::GreaterOrEqual => is_at_most(value.number(), column.number()),
            Function::Equal => column.is_same(value),
            Function::NotEqual => !column.is_same(value),
            Function::Includes => column.includes(value),
            Function::Excludes => column.excludes(value),
        }
    }
}
