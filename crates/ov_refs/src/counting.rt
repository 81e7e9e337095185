ghost use Rattle.std.specs.Prelude.{◌≡◌, map, option_and_then, Some};
ghost use Rattle.std.specs.FinMap.{get, keys};
ghost use Rattle.std.specs.List.{flat_map, sum_by};
ghost use Rattle.ov_atoms.specs.Views.{atom_view, atoms_view, pairs_view};
ghost use Rattle.ov_specs.specs.integrity.References.{column_targets, datum_targets, targets_in};
ghost use Rattle.ov_refs.specs.Counting.{hits, hits_at, hits_beside};
ghost use Rattle.ov_specs.specs.values.Capped.{capped_to_64_bits};
ghost use Rattle.ov_refs.specs.Targets.{all_targets, key_atoms, one_target, value_atoms};

use crate::borrowed_key::BorrowedKey;
use crate::key_set::KeySet;
use ov_atoms::{Atom, Datum};
use ov_rows::{Columns, RowKey, Rows};
use ov_schema::{Column, Reference, Schema, Table};

/// How many strong references to the row an atom is: one or none.
fn count_atom(refers: &Reference, atom: &Atom, to: &BorrowedKey<'_>) -> u64
    ensures { result ≡ hits to.now (one_target refers.now (atom_view atom.now)) }
{
    if let Atom::Uuid(id) = atom {
        if refers.is_strong() && refers.table() == to.table() && *id == to.id() {
            return 1;
        }
    }
    0
}

/// How many strong references to the row these atoms are.
fn count_atoms(refers: &Reference, atoms: &[Atom], to: &BorrowedKey<'_>) -> u64
    ensures { result
        ≡ capped_to_64_bits
        (hits to.now (flat_map (one_target refers.now) (atoms_view atoms.now))) }
{
    let mut count: u64 = 0;
    for atom in atoms {
        count = count.saturating_add(count_atom(refers, atom, to));
    }
    count
}

/// How many strong references to the row the keys of pairs are.
fn count_keys(refers: &Reference, pairs: &[(Atom, Atom)], to: &BorrowedKey<'_>) -> u64
    ensures { result
        ≡ capped_to_64_bits
        (hits to.now
        (flat_map (one_target refers.now) (map (λ p. p.0) (pairs_view pairs.now)))) }
{
    let mut count: u64 = 0;
    for pair in pairs {
        count = count.saturating_add(count_atom(refers, &pair.0, to));
    }
    count
}

/// How many strong references to the row the values of pairs are.
fn count_values(refers: &Reference, pairs: &[(Atom, Atom)], to: &BorrowedKey<'_>) -> u64
    ensures { result
        ≡ capped_to_64_bits
        (hits to.now
        (flat_map (one_target refers.now) (map (λ p. p.1) (pairs_view pairs.now)))) }
{
    let mut count: u64 = 0;
    for pair in pairs {
        count = count.saturating_add(count_atom(refers, &pair.1, to));
    }
    count
}

/// How many strong references to the row the atoms of a set, or the keys of a map, are.
fn count_key_atoms(refers: &Reference, datum: &Datum, to: &BorrowedKey<'_>) -> u64
    ensures { result
        ≡ capped_to_64_bits
        (hits to.now (flat_map (one_target refers.now) (key_atoms datum.now))) }
{
    if let Some(atoms) = datum.atoms() {
        return count_atoms(refers, atoms, to);
    }
    match datum.pairs() {
        Some(pairs) => count_keys(refers, pairs, to),
        None => 0,
    }
}

/// How many strong references to the row the values of a map are.
fn count_value_atoms(refers: &Reference, datum: &Datum, to: &BorrowedKey<'_>) -> u64
    ensures { result
        ≡ capped_to_64_bits
        (hits to.now (flat_map (one_target refers.now) (value_atoms datum.now))) }
{
    match datum.pairs() {
        Some(pairs) => count_values(refers, pairs, to),
        None => 0,
    }
}

/// How many strong references to the row the atoms of a set, or the keys of a map, are, if their type has a table to refer to.
fn count_by_key(column: &Column, datum: &Datum, to: &BorrowedKey<'_>) -> u64
    ensures { result
        ≡ capped_to_64_bits
        (hits to.now (all_targets column.now.type_of.key.refers (key_atoms datum.now))) }
{
    match column.key_refers() {
        Some(refers) => count_key_atoms(refers, datum, to),
        None => 0,
    }
}

/// How many strong references to the row the values of a map are, if their type has a table to refer to.
fn count_by_value(column: &Column, datum: &Datum, to: &BorrowedKey<'_>) -> u64
    ensures { result
        ≡ capped_to_64_bits
        (hits to.now
        (all_targets (option_and_then (λ b. b.refers) column.now.type_of.value)
        (value_atoms datum.now))) }
{
    match column.value_refers() {
        Some(refers) => count_value_atoms(refers, datum, to),
        None => 0,
    }
}

/// How many strong references to the row the value of a column has.
fn count_datum(column: &Column, datum: &Datum, to: &BorrowedKey<'_>) -> u64
    ensures { result
        ≡ capped_to_64_bits (hits to.now (datum_targets column.now.type_of datum.now)) }
{
    count_by_key(column, datum, to).saturating_add(count_by_value(column, datum, to))
}

/// How many strong references to the row the value of the column of this name, at this place of a row, has, if there is such
/// a column.
fn count_column(table: &Table, place: usize, name: &str, datum: &Datum, to: &BorrowedKey<'_>) -> u64
    ensures { result
        ≡ capped_to_64_bits
        (hits to.now (column_targets (get table.now.columns name.now) datum.now)) }
{
    match table.column_near(place, name) {
        Some(column) => count_datum(column, datum, to),
        None => 0,
    }
}

/// How many strong references to the row the columns of a row of the table have.
fn count_columns(table: &Table, columns: &Columns, to: &BorrowedKey<'_>) -> u64
    ensures { result ≡ capped_to_64_bits (hits to.now (targets_in (Some table.now) columns.now)) }
{
    let mut count: u64 = 0;
    let mut place: usize = 0;
    for (name, datum) in columns.names().iter().zip(columns.values()) {
        count = count.saturating_add(count_column(table, place, name.as_str(), datum, to));
        // The place only says where to look for the column first, so any place would do.
        place = place.wrapping_add(1);
    }
    count
}

/// How many strong references to the row `to` the row `from` has, if it exists.
fn count_row(schema: &Schema, rows: &Rows, from: &RowKey, to: &BorrowedKey<'_>) -> u64
    ensures { result ≡ capped_to_64_bits (hits_at schema.now rows.now to.now from.now) }
{
    let Some(row) = rows.row(from.table(), from.id()) else {
        return 0;
    };
    match schema.table(from.table()) {
        Some(table) => count_columns(table, &row.columns, to),
        None => 0,
    }
}

/// How many strong references to the row these rows have, without its own.
pub(crate) fn count_holders(
    schema: &Schema,
    rows: &Rows,
    holders: &KeySet,
    to: &BorrowedKey<'_>,
) -> u64
    ensures { result
        ≡ capped_to_64_bits (sum_by (hits_beside schema.now rows.now to.now) (keys holders.now)) }
{
    let mut count: u64 = 0;
    for from in holders.iter() {
        if !to.is(from) {
            count = count.saturating_add(count_row(schema, rows, from, to));
        }
    }
    count
}
