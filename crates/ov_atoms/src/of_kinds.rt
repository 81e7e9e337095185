ghost use Rattle.std.specs.Prelude.{◌≡◌};
ghost use Rattle.std.specs.List.{list_all};
ghost use Rattle.ov_specs.specs.values.Value.{is_in_64_bits, is_atom_of, is_pair_of, is_of};
ghost use Rattle.ov_atoms.specs.Views.{kind_view, kinds_view, atom_view, pair_view, atoms_view};
ghost use Rattle.ov_atoms.specs.Views.{pairs_view};

use crate::atom::Atom;
use crate::datum::{Datum, SortedElements};
use crate::identifier::has_sixteen_bytes;
use crate::kind::{AtomKind, Kinds};
use crate::read::is_text;

impl Datum {
    /// Whether it is a value of these kinds, as a value that was read by them is: a set of atoms of the kind, or a map
    /// between the two (RFC 7047, 5.1, `<value>`). A text with U+0000 is of no kind.
    pub fn is_of(&self, kinds: Kinds) -> bool
        ensures { result ≡ is_of (kinds_view kinds) self.now }
    {
        match kinds {
            Kinds::Single(kind) => match &self.parts {
                SortedElements::Atoms(atoms) => are_atoms_of(atoms.as_slice(), kind),
                SortedElements::Pairs(_) => false,
            },
            Kinds::Pair(key, value) => match &self.parts {
                SortedElements::Atoms(_) => false,
                SortedElements::Pairs(pairs) => are_pairs_of(pairs.as_slice(), key, value),
            },
        }
    }
}

fn are_atoms_of(atoms: &[Atom], kind: AtomKind) -> bool
    ensures { result ≡ list_all (is_atom_of (kind_view kind)) (atoms_view atoms.now) }
{
    for atom in atoms {
        if !is_atom_of(atom, kind) {
            return false;
        }
    }
    true
}

fn are_pairs_of(pairs: &[(Atom, Atom)], key: AtomKind, value: AtomKind) -> bool
    ensures { result
        ≡ list_all (is_pair_of (kind_view key) (kind_view value)) (pairs_view pairs.now) }
{
    for pair in pairs {
        if !is_pair_of(pair, key, value) {
            return false;
        }
    }
    true
}

fn is_pair_of(pair: &(Atom, Atom), key: AtomKind, value: AtomKind) -> bool
    ensures { result ≡ is_pair_of (kind_view key) (kind_view value) (pair_view pair.now) }
{
    is_atom_of(&pair.0, key) && is_atom_of(&pair.1, value)
}

fn is_atom_of(atom: &Atom, kind: AtomKind) -> bool
    ensures { result ≡ is_atom_of (kind_view kind) (atom_view atom.now) }
{
    match atom {
        Atom::Integer(number) => matches!(kind, AtomKind::Integer) && is_integer(*number),
        Atom::Boolean(_) => matches!(kind, AtomKind::Boolean),
        Atom::Text(text) => matches!(kind, AtomKind::Text) && is_text(text.as_str()),
        Atom::Uuid(uuid) => {
            has_sixteen_bytes(uuid);
            matches!(kind, AtomKind::Uuid)
        }
    }
}

/// Whether the number is within the bounds, as every number of this type is.
fn is_integer(number: i64) -> bool
    ensures { result ≡ is_in_64_bits number }
{
    let _ = number;
    true
}
