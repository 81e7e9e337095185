ghost use Rattle.std.specs.Prelude.{◌≡◌, ◌++◌, IfOk, OnOk, false};
ghost use Rattle.ov_specs.specs.rows.Database.{same_atom};
ghost use Rattle.ov_specs.specs.operations.Mutators.{inserted};
ghost use Rattle.ov_specs.specs.values.Reading.{has_clash};
ghost use Rattle.ov_specs.specs.values.Value as value;
ghost use Rattle.ov_atoms.specs.Views.{atom_view, pair_view, atoms_view, pairs_view};
ghost use Rattle.ov_conds.specs.Walks.{is_first};
ghost use Rattle.ov_mutate.specs.Remaining.{at_new_keys};

use ov_atoms::{Atom, Datum};
use ov_conds::{Elements, pairs_from};
use std::alloc::{AllocError, Global};

/// Appends copies of the atoms.
fn push_atoms(alloc: Global, list: &mut Vec<Atom>, atoms: &[Atom]) -> Result<(), AllocError>
    ensures { OnOk result (atoms_view list.new.items
        ≡ atoms_view list.old.items ++ atoms_view atoms.now) }
{
    for atom in atoms {
        list.push(atom.copy(alloc)?)?;
    }
    Ok(())
}

/// A copy of a pair.
pub(crate) fn copy_pair(alloc: Global, pair: &(Atom, Atom)) -> Result<(Atom, Atom), AllocError>
    ensures { IfOk result (λ copy. pair_view copy ≡ pair_view pair.now) }
{
    Ok((pair.0.copy(alloc)?, pair.1.copy(alloc)?))
}

/// Copies of the pairs.
fn copy_pairs(alloc: Global, pairs: &[(Atom, Atom)]) -> Result<Vec<(Atom, Atom)>, AllocError>
    ensures { IfOk result (λ v. pairs_view v.items ≡ pairs_view pairs.now) }
{
    let mut copies = Vec::new(alloc);
    for pair in pairs {
        copies.push(copy_pair(alloc, pair)?)?;
    }
    Ok(copies)
}

/// Whether the first of the pairs has this key.
fn begins_with(pairs: &[(Atom, Atom)], key: &Atom) -> bool
    ensures { result ≡ is_first (λ p. same_atom p.0 (atom_view key.now)) (pairs_view pairs.now) }
{
    match pairs.first() {
        Some(pair) => pair.0 == *key,
        None => false,
    }
}

/// The pairs of the column, and then those of the elements whose keys it lacks. Both ascend by their keys.
fn inserted_pairs(
    alloc: Global,
    column: &[(Atom, Atom)],
    elements: &[(Atom, Atom)],
) -> Result<Vec<(Atom, Atom)>, AllocError>
    ensures { IfOk result (λ v. pairs_view v.items
        ≡ pairs_view column.now ++ at_new_keys (pairs_view column.now) (pairs_view elements.now)) }
{
    let mut pairs = copy_pairs(alloc, column)?;
    let mut rest = column;
    for pair in elements {
        rest = pairs_from(rest, &pair.0);
        if !begins_with(rest, &pair.0) {
            pairs.push(copy_pair(alloc, pair)?)?;
        }
    }
    Ok(pairs)
}

/// The map of these pairs, no two of which have the same key.
pub(crate) fn map_of(pairs: Vec<(Atom, Atom)>) -> Result<Datum, AllocError>
    requires { has_clash (pairs_view pairs.items) ≡ false }
    ensures { IfOk result (λ d. d ≡ value.Pairs (value.map_of (pairs_view pairs.items))) }
{
    Ok(Datum::of_pairs(pairs)?.unwrap())
}

/// The union. A key that a map has keeps its value (RFC 7047, 5.1, `<mutator>`).
pub(crate) fn inserted(alloc: Global, column: &Datum, elements: &Datum) -> Result<Datum, AllocError>
    ensures { IfOk result (λ d. d ≡ inserted column.now elements.now) }
{
    match (Elements::of(column), Elements::of(elements)) {
        (Elements::Atoms(atoms), Elements::Atoms(others)) => {
            let mut union = Vec::new(alloc);
            push_atoms(alloc, &mut union, atoms)?;
            push_atoms(alloc, &mut union, others)?;
            Datum::of_atoms(union)
        }
        (Elements::Pairs(pairs), Elements::Pairs(others)) => {
            let union = inserted_pairs(alloc, pairs, others)?;
            map_of(union)
        }
        _ => column.copy(alloc),
    }
}
