ghost use Rattle.std.specs.Prelude.{flat_map};
ghost use Rattle.ov_specs.specs.values.Value as value;
ghost use Rattle.ov_specs.specs.values.Writing.{atom_tree, pair_tree, set_tree, map_tree, tree};
ghost use Rattle.ov_atoms.specs.Tokens.{Puts, tokens_of};
ghost use Rattle.ov_atoms.specs.Views.{atom_view, pair_view, atoms_view, pairs_view};

use crate::atom::Atom;
use crate::datum::{Datum, SortedElements};
use json::Writer;
use std::alloc::AllocError;
use uuid::Uuid;

/// Appends the written form of a value (RFC 7047, 5.1, `<value>`): the text of the tree that `write_datum` makes, without
/// building the tree. If an allocation fails, a part of it may have been written.
pub fn put_datum(out: &mut Writer, datum: &Datum) -> Result<(), AllocError>
    ensures { Puts result out.old out.new (tokens_of (tree datum.now)) }
{
    match &datum.parts {
        SortedElements::Atoms(atoms) => put_atoms(out, atoms.as_slice()),
        SortedElements::Pairs(pairs) => put_pairs(out, pairs.as_slice()),
    }
}

/// Writes a set of one as the bare atom.
fn put_atoms(out: &mut Writer, atoms: &[Atom]) -> Result<(), AllocError>
    ensures { Puts result out.old out.new (tokens_of (set_tree (atoms_view atoms.now))) }
{
    if atoms.len() == 1 {
        return put_atom(out, &atoms[0]);
    }
    out.begin_array()?;
    out.string("set")?;
    out.begin_array()?;
    put_each_atom(out, atoms)?;
    out.end_array()?;
    out.end_array()
}

fn put_pairs(out: &mut Writer, pairs: &[(Atom, Atom)]) -> Result<(), AllocError>
    ensures { Puts result out.old out.new (tokens_of (map_tree (pairs_view pairs.now))) }
{
    out.begin_array()?;
    out.string("map")?;
    out.begin_array()?;
    put_each_pair(out, pairs)?;
    out.end_array()?;
    out.end_array()
}

fn put_each_atom(out: &mut Writer, atoms: &[Atom]) -> Result<(), AllocError>
    ensures { Puts result out.old out.new
        (flat_map (λ a. tokens_of (atom_tree a)) (atoms_view atoms.now)) }
{
    for atom in atoms {
        put_atom(out, atom)?;
    }
    Ok(())
}

fn put_each_pair(out: &mut Writer, pairs: &[(Atom, Atom)]) -> Result<(), AllocError>
    ensures { Puts result out.old out.new
        (flat_map (λ p. tokens_of (pair_tree p)) (pairs_view pairs.now)) }
{
    for pair in pairs {
        put_pair(out, pair)?;
    }
    Ok(())
}

fn put_pair(out: &mut Writer, pair: &(Atom, Atom)) -> Result<(), AllocError>
    ensures { Puts result out.old out.new (tokens_of (pair_tree (pair_view pair.now))) }
{
    out.begin_array()?;
    put_atom(out, &pair.0)?;
    put_atom(out, &pair.1)?;
    out.end_array()
}

fn put_atom(out: &mut Writer, atom: &Atom) -> Result<(), AllocError>
    ensures { Puts result out.old out.new (tokens_of (atom_tree (atom_view atom.now))) }
{
    match atom {
        Atom::Integer(n) => out.i64(*n),
        Atom::Boolean(b) => out.boolean(*b),
        Atom::Text(text) => out.string(text.as_str()),
        Atom::Uuid(uuid) => put_uuid(out, uuid),
    }
}

fn put_uuid(out: &mut Writer, uuid: &Uuid) -> Result<(), AllocError>
    ensures { Puts result out.old out.new (tokens_of (atom_tree (value.Uuid uuid.now))) }
{
    let mut buffer = Uuid::encode_buffer();
    out.begin_array()?;
    out.string("uuid")?;
    out.string(uuid.hyphenated().encode_lower(&mut buffer))?;
    out.end_array()
}
