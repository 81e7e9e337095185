ghost use Rattle.std.specs.Prelude.{◌≡◌, ◌++◌, map, option_and_then, option_copied, Some, IfOk};
ghost use Rattle.std.specs.Prelude.{OnOk};
ghost use Rattle.std.specs.List.{flat_map};
ghost use Rattle.std.specs.FinMap.{get};
ghost use Rattle.ov_atoms.specs.Views.{atom_view, atoms_view, pairs_view};
ghost use Rattle.ov_specs.specs.integrity.References.{column_targets, datum_targets, targets_in};
ghost use Rattle.ov_refs.specs.Placed.{targets_at};
ghost use Rattle.ov_refs.specs.Targets.{key_atoms, value_atoms, one_target, all_targets};

use crate::target::Target;
use ov_atoms::{Atom, Datum};
use ov_rows::{Columns, Row, RowKey};
use ov_schema::{Column, Reference, Schema, Table};
use std::alloc::{AllocError, Global};

/// Adds what an atom refers to, if it is an identifier.
fn push_target(
    alloc: Global,
    targets: &mut Vec<Target>,
    refers: &Reference,
    atom: &Atom,
) -> Result<(), AllocError>
    ensures { OnOk result (targets.new.items
        ≡ targets.old.items ++ one_target refers.now (atom_view atom.now)) }
{
    if let Atom::Uuid(id) = atom {
        targets.push(Target {
            key: RowKey::new(alloc, refers.table(), *id)?,
            is_strong: refers.is_strong(),
        })?;
    }
    Ok(())
}

fn push_atoms(
    alloc: Global,
    targets: &mut Vec<Target>,
    refers: &Reference,
    atoms: &[Atom],
) -> Result<(), AllocError>
    ensures { OnOk result (targets.new.items
        ≡ targets.old.items ++ flat_map (one_target refers.now) (atoms_view atoms.now)) }
{
    for atom in atoms {
        push_target(alloc, targets, refers, atom)?;
    }
    Ok(())
}

/// Adds what the keys of pairs refer to.
fn push_keys(
    alloc: Global,
    targets: &mut Vec<Target>,
    refers: &Reference,
    pairs: &[(Atom, Atom)],
) -> Result<(), AllocError>
    ensures { OnOk result (targets.new.items
        ≡ targets.old.items ++ flat_map (one_target refers.now)
        (map (λ p. p.0) (pairs_view pairs.now))) }
{
    for pair in pairs {
        push_target(alloc, targets, refers, &pair.0)?;
    }
    Ok(())
}

/// Adds what the values of pairs refer to.
fn push_values(
    alloc: Global,
    targets: &mut Vec<Target>,
    refers: &Reference,
    pairs: &[(Atom, Atom)],
) -> Result<(), AllocError>
    ensures { OnOk result (targets.new.items
        ≡ targets.old.items ++ flat_map (one_target refers.now)
        (map (λ p. p.1) (pairs_view pairs.now))) }
{
    for pair in pairs {
        push_target(alloc, targets, refers, &pair.1)?;
    }
    Ok(())
}

/// Adds what the atoms of a set, or the keys of a map, refer to.
fn push_key_atoms(
    alloc: Global,
    targets: &mut Vec<Target>,
    refers: &Reference,
    datum: &Datum,
) -> Result<(), AllocError>
    ensures { OnOk result (targets.new.items
        ≡ targets.old.items ++ flat_map (one_target refers.now) (key_atoms datum.now)) }
{
    if let Some(atoms) = datum.atoms() {
        return push_atoms(alloc, targets, refers, atoms);
    }
    match datum.pairs() {
        Some(pairs) => push_keys(alloc, targets, refers, pairs),
        None => Ok(()),
    }
}

/// Adds what the values of a map refer to.
fn push_value_atoms(
    alloc: Global,
    targets: &mut Vec<Target>,
    refers: &Reference,
    datum: &Datum,
) -> Result<(), AllocError>
    ensures { OnOk result (targets.new.items
        ≡ targets.old.items ++ flat_map (one_target refers.now) (value_atoms datum.now)) }
{
    match datum.pairs() {
        Some(pairs) => push_values(alloc, targets, refers, pairs),
        None => Ok(()),
    }
}

/// Adds what the atoms of a set, or the keys of a map, refer to, if their type has a table to refer to.
fn push_by_key(
    alloc: Global,
    targets: &mut Vec<Target>,
    column: &Column,
    datum: &Datum,
) -> Result<(), AllocError>
    ensures { OnOk result (targets.new.items
        ≡ targets.old.items ++ all_targets column.now.type_of.key.refers (key_atoms datum.now)) }
{
    match column.key_refers() {
        Some(refers) => push_key_atoms(alloc, targets, refers, datum),
        None => Ok(()),
    }
}

/// Adds what the values of a map refer to, if their type has a table to refer to.
fn push_by_value(
    alloc: Global,
    targets: &mut Vec<Target>,
    column: &Column,
    datum: &Datum,
) -> Result<(), AllocError>
    ensures { OnOk result (targets.new.items
        ≡ targets.old.items ++ all_targets
        (option_and_then (λ b. b.refers) column.now.type_of.value) (value_atoms datum.now)) }
{
    match column.value_refers() {
        Some(refers) => push_value_atoms(alloc, targets, refers, datum),
        None => Ok(()),
    }
}

/// Adds what the value of a column refers to.
fn push_datum(
    alloc: Global,
    targets: &mut Vec<Target>,
    column: &Column,
    datum: &Datum,
) -> Result<(), AllocError>
    ensures { OnOk result (targets.new.items
        ≡ targets.old.items ++ datum_targets column.now.type_of datum.now) }
{
    push_by_key(alloc, targets, column, datum)?;
    push_by_value(alloc, targets, column, datum)
}

/// Adds what the value of the column of this name, at this place of a row, refers to, if there is such a column.
fn push_column(
    alloc: Global,
    targets: &mut Vec<Target>,
    table: &Table,
    place: usize,
    name: &str,
    datum: &Datum,
) -> Result<(), AllocError>
    ensures { OnOk result (targets.new.items
        ≡ targets.old.items ++ column_targets (get table.now.columns name.now) datum.now) }
{
    match table.column_near(place, name) {
        Some(column) => push_datum(alloc, targets, column, datum),
        None => Ok(()),
    }
}

/// What the columns of a row of the table refer to.
fn targets_in(alloc: Global, table: &Table, columns: &Columns) -> Result<Vec<Target>, AllocError>
    ensures { IfOk result (λ targets. targets.items ≡ targets_in (Some table.now) columns.now) }
{
    let mut targets = Vec::new(alloc);
    let mut place: usize = 0;
    for (name, datum) in columns.names().iter().zip(columns.values()) {
        push_column(alloc, &mut targets, table, place, name.as_str(), datum)?;
        // The place only says where to look for the column first, so any place would do.
        place = place.wrapping_add(1);
    }
    Ok(targets)
}

/// What these columns of a row of the table of this name refer to, with repeats: column by column in ascending order of
/// their names, the keys of a map before its values (RFC 7047, 3.2, `<base-type>`, refTable).
pub fn targets_of(
    alloc: Global,
    schema: &Schema,
    table: &str,
    columns: &Columns,
) -> Result<Vec<Target>, AllocError>
    ensures { IfOk result (λ targets. targets.items
        ≡ targets_in (get schema.now.tables table.now) columns.now) }
{
    match schema.table(table) {
        Some(table) => targets_in(alloc, table, columns),
        None => Ok(Vec::new(alloc)),
    }
}

/// What the row at this key refers to, if there is one.
pub(crate) fn targets_at(
    alloc: Global,
    schema: &Schema,
    key: &RowKey,
    row: Option<&Row>,
) -> Result<Vec<Target>, AllocError>
    ensures { IfOk result (λ targets. targets.items
        ≡ targets_at schema.now key.now (option_copied row.entry)) }
{
    match row {
        Some(row) => targets_of(alloc, schema, key.table(), &row.columns),
        None => Ok(Vec::new(alloc)),
    }
}
