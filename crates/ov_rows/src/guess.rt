ghost use Rattle.std.specs.Prelude.{◌≡◌, ◌<◌, ◌≤◌, length, IfOk, OnOk};

use json::{Reader, Token};
use ov_atoms::{Atom, AtomFault, Datum};
use ov_base::Text;
use std::alloc::{AllocError, Global};
use uuid::Uuid;

// Nothing here promises to read correctly, or to refuse what is not a value: names, most words and most closing brackets are
// skipped. The caller compares the text of what was read with the text that it was read from.

/// The values of the first `count` members of an object.
pub(crate) fn guess_values(
    alloc: Global,
    count: usize,
    reader: &mut Reader<'_>,
) -> Result<Vec<Datum>, AtomFault>
    ensures { IfOk result (λ values. length values.items ≡ count) }
{
    let _brace = reader.next();
    let mut values = Vec::with_capacity(alloc, count)?;
    for _place in 0..count {
        let _name = reader.next();
        let datum = guess_datum(alloc, reader)?;
        values.push(datum).map_err(AllocError::from)?;
    }
    Ok(values)
}

/// The next value.
fn guess_datum(alloc: Global, reader: &mut Reader<'_>) -> Result<Datum, AtomFault> {
    let token = reader.next().ok_or(AtomFault::Syntax)?;
    match token {
        Token::BeginArray => guess_listed(alloc, reader),
        _ => Ok(Datum::of_atom(scalar_of(alloc, token)?)),
    }
}

/// A value whose first bracket has been read: `["uuid",text]`, `["set",[..]]` or `["map",[..]]`.
fn guess_listed(alloc: Global, reader: &mut Reader<'_>) -> Result<Datum, AtomFault> {
    let Some(Token::String(word)) = reader.next() else {
        return Err(AtomFault::Syntax);
    };
    if word == "uuid" {
        return Ok(Datum::of_atom(guess_uuid(reader)?));
    }
    let _bracket = reader.next();
    let datum = if word == "set" {
        guess_set(alloc, reader)?
    } else {
        guess_map(alloc, reader)?
    };
    let _end = reader.next();
    Ok(datum)
}

/// The set of the atoms up to the next closing bracket.
fn guess_set(alloc: Global, reader: &mut Reader<'_>) -> Result<Datum, AtomFault> {
    let mut atoms = Vec::new(alloc);
    'atoms: while !reader.take_end_array() {
        let atom = guess_atom(alloc, reader)?;
        atoms.push(atom).map_err(AllocError::from)?;
    }
    atoms.shrink_to_fit();
    Ok(Datum::of_atoms(atoms)?)
}

/// The map of the pairs up to the next closing bracket.
fn guess_map(alloc: Global, reader: &mut Reader<'_>) -> Result<Datum, AtomFault> {
    let mut pairs = Vec::new(alloc);
    'pairs: while !reader.take_end_array() {
        let pair = guess_pair(alloc, reader)?;
        pairs.push(pair).map_err(AllocError::from)?;
    }
    pairs.shrink_to_fit();
    Datum::of_pairs(pairs)?.ok_or(AtomFault::Clash)
}

/// The next `[key,value]`.
fn guess_pair(alloc: Global, reader: &mut Reader<'_>) -> Result<(Atom, Atom), AtomFault>
    ensures shorter { OnOk result (length reader.new < length reader.old) }
{
    let _bracket = reader.next();
    let key = guess_atom(alloc, reader)?;
    let value = guess_atom(alloc, reader)?;
    let _end = reader.next();
    Ok((key, value))
}

/// The next atom.
fn guess_atom(alloc: Global, reader: &mut Reader<'_>) -> Result<Atom, AtomFault>
    ensures shorter { OnOk result (length reader.new < length reader.old) }
{
    let token = reader.next().ok_or(AtomFault::Syntax)?;
    match token {
        Token::BeginArray => {
            let _word = reader.next();
            guess_uuid(reader)
        }
        _ => scalar_of(alloc, token),
    }
}

/// The identifier of `["uuid",text]`, whose text is next.
fn guess_uuid(reader: &mut Reader<'_>) -> Result<Atom, AtomFault>
    ensures shorter { length reader.new ≤ length reader.old }
{
    let Some(Token::String(text)) = reader.next() else {
        return Err(AtomFault::Syntax);
    };
    let _end = reader.next();
    match Uuid::parse_str(text) {
        Ok(uuid) => Ok(Atom::Uuid(uuid)),
        Err(_) => Err(AtomFault::Syntax),
    }
}

/// The atom that a single token stands for.
fn scalar_of(alloc: Global, token: Token<'_>) -> Result<Atom, AtomFault> {
    match token {
        Token::String(text) => Ok(Atom::Text(Text::from_str(alloc, text)?)),
        Token::Number(text) => match text.parse::<i64>() {
            Ok(number) => Ok(Atom::Integer(number)),
            Err(_) => Err(AtomFault::Syntax),
        },
        Token::Bool(truth) => Ok(Atom::Boolean(truth)),
        _ => Err(AtomFault::Syntax),
    }
}
