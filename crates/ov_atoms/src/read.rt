ghost use Rattle.std.specs.Prelude.{◌≡◌, IfOk, true, option_map, option_and_then};
ghost use Rattle.serde_json.specs.Find.{as_number, as_str};
ghost use Rattle.serde_json.specs.View.{view, items_view};
ghost use Rattle.ov_specs.specs.values.Uuid.{AreUuids};
ghost use Rattle.ov_specs.specs.values.Value.{has_nul, is_text, is_atom_of, is_of};
ghost use Rattle.ov_specs.specs.values.Reading.{integer_read, text_read, atom_read, pair_read};
ghost use Rattle.ov_specs.specs.values.Reading.{each_read, atoms_read, pairs_read, reads};
ghost use Rattle.ov_atoms.specs.Views.{kind_view, kinds_view, atom_view, pair_view, atoms_view};
ghost use Rattle.ov_atoms.specs.Views.{pairs_view};
ghost use Rattle.ov_atoms.specs.Answers.{IsAnswer, reading_of};

use crate::atom::Atom;
use crate::datum::Datum;
use crate::fault::AtomFault;
use crate::identifier::uuid_of;
use crate::kind::{AtomKind, Kinds};
use crate::names::Names;
use crate::two::{as_two, tagged};
use ov_base::Text;
use serde_json::Value;
use std::alloc::{AllocError, Global};

/// The number of a tree.
fn integer_of(tree: &Value) -> Option<i64>
    ensures { result ≡ option_and_then integer_read (as_number (view tree.now)) }
{
    match tree.as_i64() {
        Some(number) => Some(number),
        None => None,
    }
}

/// The text of an atom.
fn text_of(alloc: Global, tree: &Value) -> Result<Option<Text>, AllocError>
    ensures { IfOk result (λ o. o ≡ option_and_then text_read (as_str (view tree.now))) }
{
    let Some(text) = tree.as_str() else {
        return Ok(None);
    };
    if !is_text(text) {
        return Ok(None);
    }
    Ok(Some(Text::from_str(alloc, text)?))
}

/// Whether an atom may hold the text, which is UTF-8 by its type.
pub(crate) fn is_text(text: &str) -> bool
    ensures { result ≡ is_text text.now }
{
    !has_nul(text.as_bytes())
}

fn has_nul(bytes: &[u8]) -> bool
    ensures { result ≡ has_nul bytes.now }
{
    for byte in bytes {
        if *byte == 0 {
            return true;
        }
    }
    false
}

/// The atom of this kind that a tree stands for.
fn atom_of<N: Names>(
    alloc: Global,
    tree: &Value,
    kind: AtomKind,
    names: &N,
) -> Result<Option<Atom>, AllocError>
    ensures { IfOk result (λ o. option_map atom_view o
        ≡ atom_read (N.names names.now) (kind_view kind) (view tree.now)) }
{
    match kind {
        AtomKind::Integer => Ok(integer_of(tree).map(Atom::Integer)),
        AtomKind::Boolean => Ok(tree.as_bool().map(Atom::Boolean)),
        AtomKind::Text => Ok(text_of(alloc, tree)?.map(Atom::Text)),
        AtomKind::Uuid => Ok(uuid_of(tree, names).map(Atom::Uuid)),
    }
}

/// The atom of the kind that a tree stands for (RFC 7047, 5.1, `<atom>`).
pub fn read_atom<N: Names>(
    alloc: Global,
    tree: &Value,
    kind: AtomKind,
    names: &N,
) -> Result<Atom, AtomFault>
    ensures value { IsAnswer atom_view
        (reading_of (atom_read (N.names names.now) (kind_view kind) (view tree.now))) result }
    ensures of_kind { AreUuids (N.names names.now)
        → IfOk result (λ a. is_atom_of (kind_view kind) (atom_view a) ≡ true) }
{
    atom_of(alloc, tree, kind, names)?.ok_or(AtomFault::Syntax)
}

fn each_atom<N: Names>(
    alloc: Global,
    items: &Vec<Value>,
    kind: AtomKind,
    names: &N,
) -> Result<Option<Vec<Atom>>, AllocError>
    ensures { IfOk result (λ o. option_map (λ v. atoms_view v.items) o
        ≡ each_read (atom_read (N.names names.now) (kind_view kind)) (items_view items.now.items)) }
{
    let mut atoms = Vec::with_capacity(alloc, items.len())?;
    for item in items {
        match atom_of(alloc, item, kind, names)? {
            Some(atom) => atoms.push(atom)?,
            None => return Ok(None),
        }
    }
    Ok(Some(atoms))
}

/// The atoms of `["set",[..]]` or of one atom, in their order.
fn atoms_of<N: Names>(
    alloc: Global,
    tree: &Value,
    kind: AtomKind,
    names: &N,
) -> Result<Option<Vec<Atom>>, AllocError>
    ensures { IfOk result (λ o. option_map (λ v. atoms_view v.items) o
        ≡ atoms_read (N.names names.now) (kind_view kind) (view tree.now)) }
{
    match tagged("set", tree) {
        Some(list) => match list.as_array() {
            Some(items) => each_atom(alloc, items, kind, names),
            None => Ok(None),
        },
        None => match atom_of(alloc, tree, kind, names)? {
            Some(atom) => {
                let mut atoms = Vec::with_capacity(alloc, 1)?;
                atoms.push(atom)?;
                Ok(Some(atoms))
            }
            None => Ok(None),
        },
    }
}

fn pair_of<N: Names>(
    alloc: Global,
    tree: &Value,
    key: AtomKind,
    value: AtomKind,
    names: &N,
) -> Result<Option<(Atom, Atom)>, AllocError>
    ensures { IfOk result (λ o. option_map pair_view o
        ≡ pair_read (N.names names.now) (kind_view key) (kind_view value) (view tree.now)) }
{
    let Some((first, second)) = as_two(tree) else {
        return Ok(None);
    };
    let Some(key) = atom_of(alloc, first, key, names)? else {
        return Ok(None);
    };
    let Some(value) = atom_of(alloc, second, value, names)? else {
        return Ok(None);
    };
    Ok(Some((key, value)))
}

fn each_pair<N: Names>(
    alloc: Global,
    items: &Vec<Value>,
    key: AtomKind,
    value: AtomKind,
    names: &N,
) -> Result<Option<Vec<(Atom, Atom)>>, AllocError>
    ensures { IfOk result (λ o. option_map (λ v. pairs_view v.items) o
        ≡ each_read (pair_read (N.names names.now) (kind_view key) (kind_view value))
        (items_view items.now.items)) }
{
    let mut pairs = Vec::with_capacity(alloc, items.len())?;
    for item in items {
        match pair_of(alloc, item, key, value, names)? {
            Some(pair) => pairs.push(pair)?,
            None => return Ok(None),
        }
    }
    Ok(Some(pairs))
}

/// The pairs of `["map",[..]]`, in their order.
fn pairs_of<N: Names>(
    alloc: Global,
    tree: &Value,
    key: AtomKind,
    value: AtomKind,
    names: &N,
) -> Result<Option<Vec<(Atom, Atom)>>, AllocError>
    ensures { IfOk result (λ o. option_map (λ v. pairs_view v.items) o
        ≡ pairs_read (N.names names.now) (kind_view key) (kind_view value) (view tree.now)) }
{
    match tagged("map", tree) {
        Some(list) => match list.as_array() {
            Some(items) => each_pair(alloc, items, key, value, names),
            None => Ok(None),
        },
        None => Ok(None),
    }
}

/// The value of these kinds that a tree stands for (RFC 7047, 5.1, `<value>`). A set is `["set",[atom,..]]` or one atom, a
/// map `["map",[[key,value],..]]`; equal atoms and equal pairs merge. `Syntax` takes precedence over `Clash`, wherever the
/// two occur.
pub fn read_datum<N: Names>(
    alloc: Global,
    tree: &Value,
    kinds: Kinds,
    names: &N,
) -> Result<Datum, AtomFault>
    ensures value { IsAnswer (λ d. d) (reads (N.names names.now) (kinds_view kinds) (view tree.now))
        result }
    ensures of_kinds { AreUuids (N.names names.now)
        → IfOk result (λ d. is_of (kinds_view kinds) d ≡ true) }
{
    match kinds {
        Kinds::Single(kind) => match atoms_of(alloc, tree, kind, names)? {
            Some(atoms) => Ok(Datum::of_atoms(atoms)?),
            None => Err(AtomFault::Syntax),
        },
        Kinds::Pair(key, value) => match pairs_of(alloc, tree, key, value, names)? {
            Some(pairs) => Datum::of_pairs(pairs)?.ok_or(AtomFault::Clash),
            None => Err(AtomFault::Syntax),
        },
    }
}
