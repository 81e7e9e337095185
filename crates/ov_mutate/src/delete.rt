ghost use Rattle.std.specs.Prelude.{◌≡◌, IfOk};
ghost use Rattle.ov_specs.specs.rows.Database.{same_pair};
ghost use Rattle.ov_specs.specs.operations.Mutators.{deleted};
ghost use Rattle.ov_atoms.specs.Views.{pair_view, atoms_view, pairs_view};
ghost use Rattle.ov_conds.specs.Walks.{is_first};
ghost use Rattle.ov_mutate.specs.Remaining as left;

use crate::insert::{copy_pair, map_of};
use ov_atoms::{Atom, Datum};
use ov_conds::{Elements, atoms_from, pairs_from};
use std::alloc::{AllocError, Global};

/// The atoms that are not among the deleted ones. Both ascend.
fn remaining_atoms(alloc: Global, atoms: &[Atom], gone: &[Atom]) -> Result<Vec<Atom>, AllocError>
    ensures { IfOk result (λ v. atoms_view v.items
        ≡ left.remaining_atoms (atoms_view gone.now) (atoms_view atoms.now)) }
{
    let mut left = Vec::new(alloc);
    let mut rest = gone;
    for atom in atoms {
        rest = atoms_from(rest, atom);
        if rest.first() != Some(atom) {
            left.push(atom.copy(alloc)?)?;
        }
    }
    Ok(left)
}

/// Whether the first of the pairs is this one.
fn begins_with(pairs: &[(Atom, Atom)], pair: &(Atom, Atom)) -> bool
    ensures { result ≡ is_first (λ p. same_pair p (pair_view pair.now)) (pairs_view pairs.now) }
{
    pairs.first() == Some(pair)
}

/// The pairs that are not among the deleted ones. Both ascend by their keys.
fn remaining_pairs(
    alloc: Global,
    pairs: &[(Atom, Atom)],
    gone: &[(Atom, Atom)],
) -> Result<Vec<(Atom, Atom)>, AllocError>
    ensures { IfOk result (λ v. pairs_view v.items
        ≡ left.remaining_pairs (pairs_view gone.now) (pairs_view pairs.now)) }
{
    let mut left = Vec::new(alloc);
    let mut rest = gone;
    for pair in pairs {
        rest = pairs_from(rest, &pair.0);
        if !begins_with(rest, pair) {
            left.push(copy_pair(alloc, pair)?)?;
        }
    }
    Ok(left)
}

/// The pairs whose keys are not among the deleted ones. Both ascend.
fn pairs_without_keys(
    alloc: Global,
    pairs: &[(Atom, Atom)],
    gone: &[Atom],
) -> Result<Vec<(Atom, Atom)>, AllocError>
    ensures { IfOk result (λ v. pairs_view v.items
        ≡ left.pairs_without_keys (atoms_view gone.now) (pairs_view pairs.now)) }
{
    let mut left = Vec::new(alloc);
    let mut rest = gone;
    for pair in pairs {
        rest = atoms_from(rest, &pair.0);
        if rest.first() != Some(&pair.0) {
            left.push(copy_pair(alloc, pair)?)?;
        }
    }
    Ok(left)
}

/// The difference. From a map, equal pairs are deleted, or the pairs with these keys (RFC 7047, 5.1, `<mutator>`).
pub(crate) fn deleted(alloc: Global, column: &Datum, elements: &Datum) -> Result<Datum, AllocError>
    ensures { IfOk result (λ d. d ≡ deleted column.now elements.now) }
{
    match (Elements::of(column), Elements::of(elements)) {
        (Elements::Atoms(atoms), Elements::Atoms(gone)) => {
            let left = remaining_atoms(alloc, atoms, gone)?;
            Datum::of_atoms(left)
        }
        (Elements::Pairs(pairs), Elements::Pairs(gone)) => {
            let left = remaining_pairs(alloc, pairs, gone)?;
            map_of(left)
        }
        (Elements::Pairs(pairs), Elements::Atoms(keys)) => {
            let left = pairs_without_keys(alloc, pairs, keys)?;
            map_of(left)
        }
        (Elements::Atoms(_), Elements::Pairs(_)) => column.copy(alloc),
    }
}
