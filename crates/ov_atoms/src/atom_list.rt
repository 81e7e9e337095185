ghost use Rattle.std.specs.Prelude.{◌≡◌, ◌∷◌, [], IfOk};
ghost use Rattle.ov_atoms.specs.Views.{atom_view, atoms_view};

use crate::atom::Atom;
use StoredAtoms::*;
use std::alloc::{AllocError, Global};
use std::marker::Model;
use std::slice;

/// Stores the atoms: a single one inline, as in most columns, others in a vector.
#[derive(Drop)]
enum StoredAtoms {
    One(Atom),
    Many(Vec<Atom>),
}

/// A list of atoms, which contracts see as those of the definitions.
pub(crate) struct AtomList {
    stored: StoredAtoms,
}

impl Model for AtomList {
    ghost use Rattle.std.specs.Prelude.{List};
    ghost use Rattle.std.specs.Coded.{coded_list};
    ghost use Rattle.ov_specs.specs.codes.ValueCode.{atom_code};
    ghost use Rattle.ov_specs.specs.values.Value as value;
    ghost use Rattle.ov_atoms.specs.Stored.{atoms_stored};

    ghost Value = { List value.Atom };

    ghost coded = { coded_list atom_code };

    ghost view = { λ l. atoms_stored l.stored };
}

impl Drop for AtomList {
    // An explicit drop, so that code that drops a value need not know where its atoms are stored.
    fn drop(self) {
        let AtomList { stored } = self;
        drop(stored);
    }
}

impl AtomList {
    /// The list of this one atom.
    pub(crate) fn one(atom: Atom) -> AtomList
        ensures { result ≡ atom_view atom ∷ [] }
    {
        AtomList { stored: One(atom) }
    }

    /// Takes these atoms without copying them.
    pub(crate) fn from_vec(atoms: Vec<Atom>) -> AtomList
        ensures { result ≡ atoms_view atoms.items }
    {
        let mut atoms = atoms;
        if atoms.len() == 1 {
            if let Some(atom) = atoms.pop() {
                return AtomList::one(atom);
            }
        }
        AtomList {
            stored: Many(atoms),
        }
    }

    /// The atoms as a slice.
    pub(crate) fn as_slice(&self) -> &[Atom]
        ensures { atoms_view result.now ≡ self.now }
    {
        match &self.stored {
            One(atom) => slice::from_ref(atom),
            Many(atoms) => atoms.as_slice(),
        }
    }

    /// A copy of the atoms.
    pub(crate) fn copy(&self, alloc: Global) -> Result<AtomList, AllocError>
        ensures { IfOk result (λ l. l ≡ self.now) }
    {
        match &self.stored {
            One(atom) => Ok(AtomList::one(atom.copy(alloc)?)),
            Many(atoms) => Ok(AtomList::from_vec(copied(alloc, atoms.as_slice())?)),
        }
    }
}

fn copied(alloc: Global, atoms: &[Atom]) -> Result<Vec<Atom>, AllocError>
    ensures { IfOk result (λ v. atoms_view v.items ≡ atoms_view atoms.now) }
{
    let mut copies = Vec::with_capacity(alloc, atoms.len())?;
    for atom in atoms {
        copies.push(atom.copy(alloc)?)?;
    }
    Ok(copies)
}
