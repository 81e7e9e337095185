ghost use Rattle.std.specs.Prelude.{◌≡◌, IfOk, true, false};
ghost use Rattle.serde_json.specs.Data.{string, array};
ghost use Rattle.serde_json.specs.View.{view, items_view};
ghost use Rattle.ov_specs.specs.wire.Tree.{has_real};
ghost use Rattle.ov_specs.specs.values.Value.{Kinds, is_of};
ghost use Rattle.ov_specs.specs.values.Uuid.{Names};
ghost use Rattle.ov_specs.specs.values.Reading.{Reads, reads};
ghost use Rattle.ov_specs.specs.values.Writing.{two, atom_tree, pair_tree, set_tree, map_tree};
ghost use Rattle.ov_specs.specs.values.Writing.{tree};
ghost use Rattle.ov_atoms.specs.Views.{atom_view, pair_view, atoms_view, pairs_view};

use crate::atom::Atom;
use crate::datum::{Datum, SortedElements};
use serde_json::Value;
use std::alloc::{AllocError, Global};
use uuid::Uuid;

/// An array of two.
fn two(alloc: Global, first: Value, second: Value) -> Result<Value, AllocError>
    ensures { IfOk result (λ v. view v ≡ two (view first) (view second)) }
{
    let mut items = Vec::with_capacity(alloc, 2)?;
    items.push(first)?;
    items.push(second)?;
    Ok(Value::Array(items))
}

/// A text as a tree.
fn text(alloc: Global, text: &str) -> Result<Value, AllocError>
    ensures { IfOk result (λ v. view v ≡ string text.now) }
{
    Ok(Value::String(String::from_str(alloc, text)?))
}

/// A word followed by a list, as in `["set",[..]]`.
fn listed(alloc: Global, word: &str, items: Vec<Value>) -> Result<Value, AllocError>
    ensures { IfOk result (λ v. view v ≡ two (string word.now) (array (items_view items.items))) }
{
    two(alloc, text(alloc, word)?, Value::Array(items))
}

fn write_atom(alloc: Global, atom: &Atom) -> Result<Value, AllocError>
    ensures written { IfOk result (λ v. view v ≡ atom_tree (atom_view atom.now)) }
    ensures plain { IfOk result (λ v. has_real (view v) ≡ false) }
{
    match atom {
        Atom::Integer(n) => Ok(Value::from(*n)),
        Atom::Boolean(b) => Ok(Value::Bool(*b)),
        Atom::Text(written) => text(alloc, written.as_str()),
        Atom::Uuid(uuid) => {
            let mut buffer = Uuid::encode_buffer();
            let written = uuid.hyphenated().encode_lower(&mut buffer);
            two(alloc, text(alloc, "uuid")?, text(alloc, written)?)
        }
    }
}

fn write_pair(alloc: Global, pair: &(Atom, Atom)) -> Result<Value, AllocError>
    ensures written { IfOk result (λ v. view v ≡ pair_tree (pair_view pair.now)) }
    ensures plain { IfOk result (λ v. has_real (view v) ≡ false) }
{
    two(
        alloc,
        write_atom(alloc, &pair.0)?,
        write_atom(alloc, &pair.1)?,
    )
}

/// Writes a set of one as the bare atom.
fn write_atoms(alloc: Global, atoms: &[Atom]) -> Result<Value, AllocError>
    ensures written { IfOk result (λ v. view v ≡ set_tree (atoms_view atoms.now)) }
    ensures plain { IfOk result (λ v. has_real (view v) ≡ false) }
{
    if atoms.len() == 1 {
        return write_atom(alloc, &atoms[0]);
    }
    let mut items = Vec::with_capacity(alloc, atoms.len())?;
    for atom in atoms {
        items.push(write_atom(alloc, atom)?)?;
    }
    listed(alloc, "set", items)
}

fn write_pairs(alloc: Global, pairs: &[(Atom, Atom)]) -> Result<Value, AllocError>
    ensures written { IfOk result (λ v. view v ≡ map_tree (pairs_view pairs.now)) }
    ensures plain { IfOk result (λ v. has_real (view v) ≡ false) }
{
    let mut items = Vec::with_capacity(alloc, pairs.len())?;
    for pair in pairs {
        items.push(write_pair(alloc, pair)?)?;
    }
    listed(alloc, "map", items)
}

/// The written form (RFC 7047, 5.1, `<value>`): a set of one as its atom, every other set and each map with its elements in
/// ascending order, UUIDs in lower case. It reads back as the value.
pub fn write_datum(alloc: Global, datum: &Datum) -> Result<Value, AllocError>
    ensures written { IfOk result (λ v. view v ≡ tree datum.now) }
    ensures plain { IfOk result (λ v. has_real (view v) ≡ false) }
    ensures reads_back { IfOk result (λ v. (names : Names) (kinds : Kinds) → is_of kinds datum.now
        ≡ true
        → reads names kinds (view v) ≡ Reads datum.now) }
{
    match &datum.parts {
        SortedElements::Atoms(atoms) => write_atoms(alloc, atoms.as_slice()),
        SortedElements::Pairs(pairs) => write_pairs(alloc, pairs.as_slice()),
    }
}
