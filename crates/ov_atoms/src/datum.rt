ghost use Rattle.std.specs.Prelude.{◌≡◌, ◌∷◌, [], IfOk, option_map, if◌then◌else◌, Some, None};
ghost use Rattle.std.specs.FinMap.{is_sorted};
ghost use Rattle.ov_specs.specs.values.Value as value;
ghost use Rattle.ov_specs.specs.values.Reading.{has_clash};
ghost use Rattle.ov_atoms.specs.Views.{atom_view, kinds_view, atoms_view, pairs_view};

use crate::atom::Atom;
use crate::atom_list::AtomList;
use crate::kind::Kinds;
use std::alloc::{AllocError, Global};
use std::cmp::Ordering;
use std::marker::Model;

/// A value of a column: a finite set of atoms or a finite map (RFC 7047, 5.1, `<value>`). A scalar is a set of one.
pub struct Datum {
    pub(crate) parts: SortedElements,
}

/// Atoms, or pairs by their keys, ascending and without repeats.
#[derive(Drop)]
pub(crate) enum SortedElements {
    Atoms(AtomList),
    Pairs(Vec<(Atom, Atom)>),
}

impl Model for Datum {
    ghost use Rattle.ov_specs.specs.codes.ValueCode.{datum_code};
    ghost use Rattle.ov_specs.specs.values.Value as value;
    ghost use Rattle.ov_atoms.specs.Sorted.{sorted_view, IsAscending};

    ghost Value = { value.Datum };

    ghost coded = { datum_code };

    ghost view = { λ d. sorted_view d.parts };

    ghost invariant = { λ d. IsAscending d.parts };
}

impl Drop for Datum {
    // An explicit drop, so that crates above need not prove the drop of its parts again.
    fn drop(self) {
        let Datum { parts } = self;
        drop(parts);
    }
}

impl Datum {
    /// The set of this one atom: a scalar.
    pub fn of_atom(atom: Atom) -> Datum
        ensures { result ≡ value.Atoms (value.set_of (atom_view atom ∷ [])) }
    {
        Datum {
            parts: SortedElements::Atoms(AtomList::one(atom)),
        }
    }

    /// The set of these atoms, in any order. Equal ones merge.
    pub fn of_atoms(atoms: Vec<Atom>) -> Result<Datum, AllocError>
        ensures { IfOk result (λ d. d ≡ value.Atoms (value.set_of (atoms_view atoms.items))) }
    {
        let mut atoms = atoms;
        // This sort merges ascending lists, such as those of two sets, in one pass.
        atoms.sort()?;
        atoms.dedup();
        Ok(Datum {
            parts: SortedElements::Atoms(AtomList::from_vec(atoms)),
        })
    }

    /// The map of these pairs, in any order, or `None` if a key has two values. Equal pairs merge.
    pub fn of_pairs(pairs: Vec<(Atom, Atom)>) -> Result<Option<Datum>, AllocError>
        ensures { IfOk result (λ o. o
            ≡ (if has_clash (pairs_view pairs.items) then None else Some
            (value.Pairs (value.map_of (pairs_view pairs.items))))) }
    {
        let mut pairs = pairs;
        // This sort merges ascending lists, such as those of two maps, in one pass.
        pairs.sort()?;
        pairs.dedup();
        if do_ascend(pairs.as_slice()) {
            return Ok(Some(Datum {
                parts: SortedElements::Pairs(pairs),
            }));
        }
        // Neighbours that still have the same key have two values for it.
        Ok(None)
    }

    /// The empty set or the empty map: the default of a column whose `min` is 0 (RFC 7047, 5.2.1).
    pub fn nothing_of(alloc: Global, kinds: Kinds) -> Datum
        ensures { result ≡ value.nothing_of (kinds_view kinds) }
    {
        match kinds {
            Kinds::Single(_) => Datum {
                parts: SortedElements::Atoms(AtomList::from_vec(Vec::new(alloc))),
            },
            Kinds::Pair(_, _) => Datum {
                parts: SortedElements::Pairs(Vec::new(alloc)),
            },
        }
    }

    /// One default atom, or one pair of two: the default of a column whose `min` is 1 (RFC 7047, 5.2.1).
    pub fn one_default_of(alloc: Global, kinds: Kinds) -> Result<Datum, AllocError>
        ensures { IfOk result (λ d. d ≡ value.one_default_of (kinds_view kinds)) }
    {
        match kinds {
            Kinds::Single(kind) => Ok(Datum::of_atom(Atom::default_of(alloc, kind))),
            Kinds::Pair(key, value) => {
                let mut pairs = Vec::new(alloc);
                pairs.push((Atom::default_of(alloc, key), Atom::default_of(alloc, value)))?;
                Ok(Datum {
                    parts: SortedElements::Pairs(pairs),
                })
            }
        }
    }

    /// The atoms of a set, ascending, or `None` if it is a map.
    pub fn atoms(&self) -> Option<&[Atom]>
        ensures { option_map (λ xs. atoms_view xs.now) result ≡ value.atoms_in self.now }
    {
        match &self.parts {
            SortedElements::Atoms(atoms) => Some(atoms.as_slice()),
            SortedElements::Pairs(_) => None,
        }
    }

    /// The pairs of a map, ascending by their keys, or `None` if it is a set.
    pub fn pairs(&self) -> Option<&[(Atom, Atom)]>
        ensures { option_map (λ ps. pairs_view ps.now) result ≡ value.pairs_in self.now }
    {
        match &self.parts {
            SortedElements::Atoms(_) => None,
            SortedElements::Pairs(pairs) => Some(pairs.as_slice()),
        }
    }

    /// The number of atoms or pairs.
    pub fn count(&self) -> usize
        ensures { result ≡ value.count self.now }
    {
        match &self.parts {
            SortedElements::Atoms(atoms) => atoms.as_slice().len(),
            SortedElements::Pairs(pairs) => pairs.as_slice().len(),
        }
    }

    /// A copy of the value.
    pub fn copy(&self, alloc: Global) -> Result<Datum, AllocError>
        ensures { IfOk result (λ d. d ≡ self.now) }
    {
        match &self.parts {
            SortedElements::Atoms(atoms) => {
                let atoms = atoms.copy(alloc)?;
                Ok(Datum {
                    parts: SortedElements::Atoms(atoms),
                })
            }
            SortedElements::Pairs(pairs) => {
                let pairs = copy_pairs(alloc, pairs.as_slice())?;
                Ok(Datum {
                    parts: SortedElements::Pairs(pairs),
                })
            }
        }
    }
}

/// Whether each key comes before the next one.
fn do_ascend(pairs: &[(Atom, Atom)]) -> bool
    ensures { result ≡ is_sorted value.atom_cmp (pairs_view pairs.now) }
{
    for at in 1..pairs.len() {
        match pairs[at - 1].0.cmp(&pairs[at].0) {
            Ordering::Less => {}
            Ordering::Equal | Ordering::Greater => return false,
        }
    }
    true
}

fn copy_pairs(alloc: Global, pairs: &[(Atom, Atom)]) -> Result<Vec<(Atom, Atom)>, AllocError>
    ensures { IfOk result (λ v. pairs_view v.items ≡ pairs_view pairs.now) }
{
    let mut copies = Vec::with_capacity(alloc, pairs.len())?;
    for pair in pairs {
        copies.push((pair.0.copy(alloc)?, pair.1.copy(alloc)?))?;
    }
    Ok(copies)
}
