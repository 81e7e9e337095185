ghost use Rattle.std.specs.Prelude.{◌≡◌};
ghost use Rattle.ov_atoms.specs.Views.{atom_view, atoms_view, pairs_view};
ghost use Rattle.ov_conds.specs.Walks as walks;
ghost use Rattle.ov_conds.specs.Walks.{includes_atoms, includes_pairs, excludes_atoms};
ghost use Rattle.ov_conds.specs.Walks.{excludes_pairs};

use ov_atoms::Atom;

/// The rest of an ascending list of atoms, from the first that is not below this one. A caller that asks for ascending atoms,
/// each time in the rest returned before, goes through the list once.
pub fn atoms_from<'a>(atoms: &'a [Atom], atom: &Atom) -> &'a [Atom]
    ensures { atoms_view result.now ≡ walks.atoms_from (atom_view atom.now) (atoms_view atoms.now) }
{
    for (i, other) in atoms.iter().enumerate() {
        if other >= atom {
            return &atoms[i..];
        }
    }
    &[]
}

/// The rest of an ascending list of pairs, from the first whose key is not below this one, like `atoms_from`.
pub fn pairs_from<'a>(pairs: &'a [(Atom, Atom)], key: &Atom) -> &'a [(Atom, Atom)]
    ensures { pairs_view result.now ≡ walks.pairs_from (atom_view key.now) (pairs_view pairs.now) }
{
    for (i, pair) in pairs.iter().enumerate() {
        if pair.0 >= *key {
            return &pairs[i..];
        }
    }
    &[]
}

/// Whether every atom of the value is in the column. Both ascend.
pub(crate) fn includes_atoms(column: &[Atom], value: &[Atom]) -> bool
    ensures { result ≡ includes_atoms (atoms_view column.now) (atoms_view value.now) }
{
    let mut rest = column;
    for atom in value {
        rest = atoms_from(rest, atom);
        if rest.first() != Some(atom) {
            return false;
        }
    }
    true
}

/// Whether every pair of the value is in the column. Both ascend by their keys.
pub(crate) fn includes_pairs(column: &[(Atom, Atom)], value: &[(Atom, Atom)]) -> bool
    ensures { result ≡ includes_pairs (pairs_view column.now) (pairs_view value.now) }
{
    let mut rest = column;
    for pair in value {
        rest = pairs_from(rest, &pair.0);
        if rest.first() != Some(pair) {
            return false;
        }
    }
    true
}

/// Whether no atom of the value is in the column. Both ascend.
pub(crate) fn excludes_atoms(column: &[Atom], value: &[Atom]) -> bool
    ensures { result ≡ excludes_atoms (atoms_view column.now) (atoms_view value.now) }
{
    let mut rest = column;
    for atom in value {
        rest = atoms_from(rest, atom);
        if rest.first() == Some(atom) {
            return false;
        }
    }
    true
}

/// Whether no pair of the value is in the column. Both ascend by their keys.
pub(crate) fn excludes_pairs(column: &[(Atom, Atom)], value: &[(Atom, Atom)]) -> bool
    ensures { result ≡ excludes_pairs (pairs_view column.now) (pairs_view value.now) }
{
    let mut rest = column;
    for pair in value {
        rest = pairs_from(rest, &pair.0);
        if rest.first() == Some(pair) {
            return false;
        }
    }
    true
}
