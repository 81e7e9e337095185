ghost use Rattle.ov_specs.specs.operations.Mutators.{fitting, mutated};
ghost use Rattle.ov_atoms.specs.Views.{atoms_view};
ghost use Rattle.ov_mutate.specs.Computing.{distinct, set_computed};
ghost use Rattle.ov_mutate.specs.Faults.{IsMutated};
ghost use Rattle.ov_mutate.specs.Views.{operator_view, value_change_view};

use crate::arithmetic::each_computed;
use crate::change::ValueChange;
use crate::delete::deleted;
use crate::fault::MutateFault;
use crate::insert::inserted;
use crate::mutator::Operator;
use ov_atoms::{Atom, Datum};
use ov_schema::Column;
use std::alloc::Global;

/// The value, if it fits the column.
fn fitting(column: &Column, datum: Datum) -> Result<Datum, MutateFault>
    ensures { IsMutated (λ d. d) (fitting column.now.type_of datum) result }
{
    if column.fits(&datum) {
        Ok(datum)
    } else {
        Err(MutateFault::Constraint)
    }
}

/// The set of the atoms, if no two are equal and it fits the column. Equal atoms merge, so that a smaller set reveals them.
fn distinct(column: &Column, atoms: Vec<Atom>) -> Result<Datum, MutateFault>
    ensures { IsMutated (λ d. d) (distinct column.now.type_of (atoms_view atoms.items)) result }
{
    let count = atoms.len();
    let datum = Datum::of_atoms(atoms)?;
    if datum.count() != count {
        return Err(MutateFault::Constraint);
    }
    fitting(column, datum)
}

/// The set of what the operator makes of each atom.
fn set_computed(
    alloc: Global,
    column: &Column,
    operator: Operator,
    by: i64,
    atoms: &[Atom],
) -> Result<Datum, MutateFault>
    ensures { IsMutated (λ d. d)
        (set_computed column.now.type_of (operator_view operator) by (atoms_view atoms.now))
        result }
{
    let results = each_computed(alloc, operator, by, atoms)?;
    distinct(column, results)
}

impl ValueChange {
    /// What it makes of a value of the column.
    pub(crate) fn apply(
        &self,
        alloc: Global,
        column: &Column,
        datum: &Datum,
    ) -> Result<Datum, MutateFault>
        ensures { IsMutated (λ d. d)
            (mutated column.now.type_of (value_change_view self.now) datum.now) result }
    {
        match self {
            ValueChange::Compute(operator, by) => match datum.atoms() {
                Some(atoms) => set_computed(alloc, column, *operator, *by, atoms),
                None => Err(MutateFault::Constraint),
            },
            ValueChange::Insert(elements) => fitting(column, inserted(alloc, datum, elements)?),
            ValueChange::Delete(elements) => fitting(column, deleted(alloc, datum, elements)?),
        }
    }
}
