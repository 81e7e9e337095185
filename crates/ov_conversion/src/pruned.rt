ghost use Rattle.std.specs.Prelude.{◌≡◌, ◌++◌, not, filter, Some, option_copied, IfOk, OnOk};
ghost use Rattle.std.specs.FinMap.{keys};
ghost use Rattle.std.specs.List.{filter_map};
ghost use Rattle.std.specs.Option.{option_to_list};
ghost use Rattle.ov_atoms.specs.Views.{atom_view, atoms_view, pair_view, pairs_view};
ghost use Rattle.ov_carried.specs.Making.{keyed};
ghost use Rattle.ov_conversion.specs.Pruning.{repaired, repaired_at};
ghost use Rattle.ov_specs.specs.integrity.Committed as committed;
ghost use Rattle.ov_specs.specs.integrity.Committed.{is_dangling};
ghost use Rattle.ov_specs.specs.integrity.References.{target_of};
ghost use Rattle.ov_specs.specs.operations.GivenRow.{with_values};
ghost use Rattle.ov_specs.specs.schema.Schema.{is_some_and};

use ov_atoms::{Atom, Datum};
use ov_carried::{keys_of, row_now};
use ov_refs::targets_of;
use ov_rows::{Columns, Row, RowKey, Rows};
use ov_schema::{Column, Reference, Schema, Table};
use std::alloc::{AllocError, Global};
use uuid::Uuid;

/// Whether an atom is anything but a weak reference to a missing row.
fn stays(
    alloc: Global,
    rows: &Rows,
    refers: Option<&Reference>,
    atom: &Atom,
) -> Result<bool, AllocError>
    ensures { IfOk result (λ stays. stays
        ≡ not
        (is_some_and (is_dangling rows.now)
        (target_of (option_copied refers.entry) (atom_view atom.now)))) }
{
    let Some(refers) = refers else {
        return Ok(true);
    };
    match atom {
        Atom::Uuid(id) if !refers.is_strong() => {
            let key = RowKey::new(alloc, refers.table(), *id)?;
            Ok(rows.contains(&key))
        }
        _ => Ok(true),
    }
}

/// The atoms of a set without weak references to missing rows.
fn pruned_atoms(
    alloc: Global,
    rows: &Rows,
    column: &Column,
    atoms: &[Atom],
) -> Result<Vec<Atom>, AllocError>
    ensures { IfOk result (λ left. atoms_view left.items
        ≡ filter (committed.stays rows.now column.now.type_of.key) (atoms_view atoms.now)) }
{
    let mut left = Vec::new(alloc);
    for atom in atoms {
        if stays(alloc, rows, column.key_refers(), atom)? {
            left.push(atom.copy(alloc)?)?;
        }
    }
    Ok(left)
}

/// Whether neither the key nor the value of a pair is a weak reference to a missing row.
fn pair_stays(
    alloc: Global,
    rows: &Rows,
    column: &Column,
    pair: &(Atom, Atom),
) -> Result<bool, AllocError>
    ensures { IfOk result (λ it_stays. it_stays
        ≡ committed.pair_stays rows.now column.now.type_of (pair_view pair.now)) }
{
    Ok(
        stays(alloc, rows, column.key_refers(), &pair.0)?
            && stays(alloc, rows, column.value_refers(), &pair.1)?,
    )
}

/// The pairs of a map in which neither part is a weak reference to a missing row.
fn pruned_pairs(
    alloc: Global,
    rows: &Rows,
    column: &Column,
    pairs: &[(Atom, Atom)],
) -> Result<Vec<(Atom, Atom)>, AllocError>
    ensures { IfOk result (λ left. pairs_view left.items
        ≡ filter (committed.pair_stays rows.now column.now.type_of) (pairs_view pairs.now)) }
{
    let mut left = Vec::new(alloc);
    for pair in pairs {
        if pair_stays(alloc, rows, column, pair)? {
            left.push((pair.0.copy(alloc)?, pair.1.copy(alloc)?))?;
        }
    }
    Ok(left)
}

/// The value of a column without weak references to missing rows (RFC 7047, 3.2, `<base-type>`, refType).
fn pruned_datum(
    alloc: Global,
    rows: &Rows,
    column: &Column,
    datum: &Datum,
) -> Result<Datum, AllocError>
    ensures { IfOk result (λ left. left
        ≡ committed.pruned_datum rows.now column.now.type_of datum.now) }
{
    if let Some(atoms) = datum.atoms() {
        return Datum::of_atoms(pruned_atoms(alloc, rows, column, atoms)?);
    }
    match datum.pairs() {
        Some(pairs) => {
            let left = pruned_pairs(alloc, rows, column, pairs)?;
            match Datum::of_pairs(left)? {
                Some(datum) => Ok(datum),
                None => datum.copy(alloc),
            }
        }
        None => datum.copy(alloc),
    }
}

/// The columns of a row of the table without weak references to missing rows.
fn pruned_columns(
    alloc: Global,
    rows: &Rows,
    table: &Table,
    columns: &Columns,
) -> Result<Columns, AllocError>
    ensures { IfOk result (λ left. left
        ≡ committed.pruned_columns rows.now (Some table.now) columns.now) }
{
    let mut left = columns.copy(alloc)?;
    for (name, datum) in columns.names().iter().zip(columns.values()) {
        if let Some(column) = table.column(name.as_str()) {
            let datum = pruned_datum(alloc, rows, column, datum)?;
            left = left.with_value(alloc, name.as_str(), datum)?;
        }
    }
    Ok(left)
}

/// Whether the row of this key has a weak reference to a missing row.
fn dangles(
    alloc: Global,
    schema: &Schema,
    rows: &Rows,
    key: &RowKey,
    row: &Row,
) -> Result<bool, AllocError>
    ensures { IfOk result (λ it_dangles. it_dangles
        ≡ committed.dangles schema.now rows.now (key.now, row.now)) }
{
    for target in targets_of(alloc, schema, key.table(), &row.columns)? {
        if !target.is_strong && !rows.contains(&target.key) {
            return Ok(true);
        }
    }
    Ok(false)
}

/// The row of this key without weak references to missing rows, if it has some.
fn repaired(
    alloc: Global,
    schema: &Schema,
    before: &Rows,
    version: Uuid,
    rows: &Rows,
    key: &RowKey,
    row: &Row,
) -> Result<Option<Row>, AllocError>
    ensures { IfOk result (λ left. left
        ≡ repaired schema.now before.now version rows.now key.now row.now) }
{
    if !dangles(alloc, schema, rows, key, row)? {
        return Ok(None);
    }
    let columns = match schema.table(key.table()) {
        Some(table) => pruned_columns(alloc, rows, table, &row.columns)?,
        None => row.columns.copy(alloc)?,
    };
    Ok(Some(row_now(before, version, key, columns)))
}

/// Adds the row of this key, if there is one and it has weak references to missing rows, without them.
fn push_repaired(
    alloc: Global,
    schema: &Schema,
    before: &Rows,
    version: Uuid,
    rows: &Rows,
    key: RowKey,
    found: &mut Vec<(RowKey, Row)>,
) -> Result<(), AllocError>
    ensures { OnOk result (found.new.items
        ≡ found.old.items ++ option_to_list
        (keyed (repaired_at schema.now before.now version rows.now) key)) }
{
    let Some(row) = rows.row(key.table(), key.id()) else {
        return Ok(());
    };
    if let Some(left) = repaired(alloc, schema, before, version, rows, &key, row)? {
        found.push((key, left))?;
    }
    Ok(())
}

/// The rows that have weak references to missing rows, without them.
fn all_repaired(
    alloc: Global,
    schema: &Schema,
    before: &Rows,
    version: Uuid,
    rows: &Rows,
) -> Result<Vec<(RowKey, Row)>, AllocError>
    ensures { IfOk result (λ found. found.items
        ≡ filter_map (keyed (repaired_at schema.now before.now version rows.now)) (keys rows.now)) }
{
    let mut found = Vec::new(alloc);
    for key in keys_of(alloc, rows)? {
        push_repaired(alloc, schema, before, version, rows, key, &mut found)?;
    }
    Ok(found)
}

/// Puts these rows in place of those of their keys.
fn put_all(alloc: Global, rows: &mut Rows, found: Vec<(RowKey, Row)>) -> Result<(), AllocError>
    ensures { OnOk result (rows.new ≡ with_values found.items rows.old) }
{
    for (key, row) in found {
        rows.insert(alloc, &key, row)?;
    }
    Ok(())
}

/// Removes all weak references to missing rows (RFC 7047, 3.2, `<base-type>`, refType). A row that had one gets this version,
/// unless it has the same columns as before.
pub(crate) fn prune(
    alloc: Global,
    schema: &Schema,
    before: &Rows,
    version: Uuid,
    rows: &mut Rows,
) -> Result<(), AllocError>
    ensures { OnOk result (rows.new ≡ committed.pruned schema.now before.now version rows.old) }
{
    let found = all_repaired(alloc, schema, before, version, rows)?;
    put_all(alloc, rows, found)
}
