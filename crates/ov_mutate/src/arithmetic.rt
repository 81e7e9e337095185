ghost use Rattle.std.specs.Prelude.{◌≡◌, false};
ghost use Rattle.ov_specs.specs.operations.Mutators.{divides_by_zero};
ghost use Rattle.ov_atoms.specs.Views.{atom_view, atoms_view};
ghost use Rattle.ov_mutate.specs.Computing.{number_computed, atom_computed, each_computed};
ghost use Rattle.ov_mutate.specs.Faults.{IsMutated};
ghost use Rattle.ov_mutate.specs.Views.{operator_view};

use crate::fault::MutateFault;
use crate::mutator::Operator;
use ov_atoms::Atom;
use std::alloc::{AllocError, Global};

impl Operator {
    fn divides_by_zero(self, by: i64) -> bool
        ensures { result ≡ divides_by_zero (operator_view self) by }
    {
        match self {
            Operator::Over | Operator::Modulo => by == 0,
            Operator::Plus | Operator::Minus | Operator::Times => false,
        }
    }

    /// What it makes of a number, if the result is a 64-bit number. A division truncates toward zero, and a remainder has the
    /// sign of the dividend.
    fn computed(self, by: i64, number: i64) -> Option<i64>
        requires { divides_by_zero (operator_view self) by ≡ false }
        ensures { result ≡ number_computed (operator_view self) by number }
    {
        match self {
            Operator::Plus => number.checked_add(by),
            Operator::Minus => number.checked_sub(by),
            Operator::Times => number.checked_mul(by),
            Operator::Over => number.checked_div(by),
            Operator::Modulo => Some(number.wrapping_rem(by)),
        }
    }

    /// What it makes of an atom, which is a number.
    fn atom_computed(self, by: i64, atom: &Atom) -> Result<Atom, MutateFault>
        ensures { IsMutated atom_view (atom_computed (operator_view self) by (atom_view atom.now))
            result }
    {
        if self.divides_by_zero(by) {
            return Err(MutateFault::Domain);
        }
        let Atom::Integer(number) = atom else {
            return Err(MutateFault::Range);
        };
        match self.computed(by, *number) {
            Some(result) => Ok(Atom::Integer(result)),
            None => Err(MutateFault::Range),
        }
    }
}

/// What the operator makes of each atom, in order.
pub(crate) fn each_computed(
    alloc: Global,
    operator: Operator,
    by: i64,
    atoms: &[Atom],
) -> Result<Vec<Atom>, MutateFault>
    ensures { IsMutated (λ v. atoms_view v.items)
        (each_computed (operator_view operator) by (atoms_view atoms.now)) result }
{
    let mut results = Vec::new(alloc);
    for atom in atoms {
        let result = operator.atom_computed(by, atom)?;
        results.push(result).map_err(AllocError::from)?;
    }
    Ok(results)
}
