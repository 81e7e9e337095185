ghost use Rattle.std.specs.Prelude.{◌≡◌, ◌++◌, not, filter, Some, option_copied, true, false, IfOk};
ghost use Rattle.std.specs.Prelude.{OnOk};
ghost use Rattle.std.specs.FinMap.{entries, get, keys};
ghost use Rattle.std.specs.List.{list_any};
ghost use Rattle.ov_atoms.specs.Views.{atom_view, atoms_view, pair_view, pairs_view};
ghost use Rattle.ov_refs.specs.Linking.{AreLinksOf};
ghost use Rattle.ov_specs.specs.integrity.Committed as committed;
ghost use Rattle.ov_specs.specs.integrity.Committed.{is_dangling, is_whole, pruned};
ghost use Rattle.ov_specs.specs.integrity.Limits as limits;
ghost use Rattle.ov_specs.specs.integrity.References.{target_of};
ghost use Rattle.ov_specs.specs.rows.Database as database;
ghost use Rattle.ov_specs.specs.rows.Suits.{Suits};
ghost use Rattle.ov_specs.specs.schema.Schema.{is_some_and};
ghost use Rattle.ov_specs.specs.values.Uuid.{is_uuid};
ghost use Rattle.ov_integrity.specs.Pruning.{is_short_at, may_dangle_by, pruned_at, MayDangle};

use ov_atoms::{Atom, Datum, has_sixteen_bytes};
use ov_refs::{KeySet, Links, targets_of};
use ov_rows::{Columns, Row, RowKey};
use ov_schema::{Column, Reference, Schema, Table};
use ov_stage::Stage;
use std::alloc::{AllocError, Global};
use uuid::Uuid;

/// Whether an atom is anything but a weak reference to a missing row.
fn stays(
    alloc: Global,
    stage: &Stage<'_>,
    refers: Option<&Reference>,
    atom: &Atom,
) -> Result<bool, AllocError>
    ensures { IfOk result (λ stays. stays
        ≡ not
        (is_some_and (is_dangling stage.now.now)
        (target_of (option_copied refers.entry) (atom_view atom.now)))) }
{
    let Some(refers) = refers else {
        return Ok(true);
    };
    match atom {
        Atom::Uuid(id) if !refers.is_strong() => {
            let key = RowKey::new(alloc, refers.table(), *id)?;
            Ok(stage.contains(&key))
        }
        _ => Ok(true),
    }
}

/// The atoms of a set without weak references to missing rows.
fn pruned_atoms(
    alloc: Global,
    stage: &Stage<'_>,
    column: &Column,
    atoms: &[Atom],
) -> Result<Vec<Atom>, AllocError>
    ensures { IfOk result (λ left. atoms_view left.items
        ≡ filter (committed.stays stage.now.now column.now.type_of.key) (atoms_view atoms.now)) }
{
    let mut left = Vec::new(alloc);
    for atom in atoms {
        if stays(alloc, stage, column.key_refers(), atom)? {
            left.push(atom.copy(alloc)?)?;
        }
    }
    Ok(left)
}

/// Whether neither the key nor the value of a pair is a weak reference to a missing row.
fn pair_stays(
    alloc: Global,
    stage: &Stage<'_>,
    column: &Column,
    pair: &(Atom, Atom),
) -> Result<bool, AllocError>
    ensures { IfOk result (λ it_stays. it_stays
        ≡ committed.pair_stays stage.now.now column.now.type_of (pair_view pair.now)) }
{
    Ok(
        stays(alloc, stage, column.key_refers(), &pair.0)?
            && stays(alloc, stage, column.value_refers(), &pair.1)?,
    )
}

/// The pairs of a map in which neither part is a weak reference to a missing row.
fn pruned_pairs(
    alloc: Global,
    stage: &Stage<'_>,
    column: &Column,
    pairs: &[(Atom, Atom)],
) -> Result<Vec<(Atom, Atom)>, AllocError>
    ensures { IfOk result (λ left. pairs_view left.items
        ≡ filter (committed.pair_stays stage.now.now column.now.type_of) (pairs_view pairs.now)) }
{
    let mut left = Vec::new(alloc);
    for pair in pairs {
        if pair_stays(alloc, stage, column, pair)? {
            left.push((pair.0.copy(alloc)?, pair.1.copy(alloc)?))?;
        }
    }
    Ok(left)
}

/// The value of a column without weak references to missing rows (RFC 7047, 3.2, `<base-type>`, refType).
fn pruned_datum(
    alloc: Global,
    stage: &Stage<'_>,
    column: &Column,
    datum: &Datum,
) -> Result<Datum, AllocError>
    ensures { IfOk result (λ left. left
        ≡ committed.pruned_datum stage.now.now column.now.type_of datum.now) }
{
    if let Some(atoms) = datum.atoms() {
        return Datum::of_atoms(pruned_atoms(alloc, stage, column, atoms)?);
    }
    match datum.pairs() {
        Some(pairs) => {
            let left = pruned_pairs(alloc, stage, column, pairs)?;
            match Datum::of_pairs(left)? {
                Some(datum) => Ok(datum),
                None => datum.copy(alloc),
            }
        }
        None => datum.copy(alloc),
    }
}

/// The columns of a row of the table without weak references to missing rows.
fn pruned_columns(
    alloc: Global,
    stage: &Stage<'_>,
    table: &Table,
    columns: &Columns,
) -> Result<Columns, AllocError>
    ensures { IfOk result (λ left. left
        ≡ committed.pruned_columns stage.now.now (Some table.now) columns.now) }
{
    let mut left = columns.copy(alloc)?;
    for (name, datum) in columns.names().iter().zip(columns.values()) {
        if let Some(column) = table.column(name.as_str()) {
            let datum = pruned_datum(alloc, stage, column, datum)?;
            left = left.with_value(alloc, name.as_str(), datum)?;
        }
    }
    Ok(left)
}

/// Whether a value of these columns has fewer atoms or pairs than its column's `min`.
fn is_short(table: &Table, columns: &Columns) -> bool
    ensures { result ≡ list_any (limits.has_too_few table.now) (entries columns.now) }
{
    for (name, datum) in columns.names().iter().zip(columns.values()) {
        if has_too_few(table, name.as_str(), datum) {
            return true;
        }
    }
    false
}

/// Whether the value has fewer atoms or pairs than the `min` of the column of this name (RFC 7047, 3.2, `<type>`, min).
fn has_too_few(table: &Table, name: &str, datum: &Datum) -> bool
    ensures { result ≡ limits.has_too_few table.now (name.now, datum.now) }
{
    match table.column(name) {
        Some(column) => (datum.count() as i128) < i128::from(column.min()),
        None => false,
    }
}

/// Whether the row of this key has a weak reference to a missing row.
fn dangles(
    alloc: Global,
    schema: &Schema,
    stage: &Stage<'_>,
    key: &RowKey,
    row: &Row,
) -> Result<bool, AllocError>
    ensures { IfOk result (λ it_dangles. it_dangles
        ≡ committed.dangles schema.now stage.now.now (key.now, row.now)) }
{
    for target in targets_of(alloc, schema, key.table(), &row.columns)? {
        if !target.is_strong && !stage.contains(&target.key) {
            return Ok(true);
        }
    }
    Ok(false)
}

/// Tells contracts that this version, and that of the row of this key before the transaction, have sixteen bytes (RFC 4122,
/// 4.1.2).
fn have_sixteen_bytes(stage: &Stage<'_>, key: &RowKey, version: Uuid)
    ensures version { is_uuid version ≡ true }
    ensures former { (row : database.Row) → get stage.now.before key.now ≡ Some row
        → is_uuid row.version ≡ true }
{
    has_sixteen_bytes(&version);
    if let Some(row) = stage.before().row(key.table(), key.id()) {
        has_sixteen_bytes(&row.version);
    }
}

/// Removes the weak references to missing rows from the row of this key, if it has some. Returns whether one of its values is
/// then too short.
fn prune_row(
    alloc: Global,
    schema: &Schema,
    version: Uuid,
    stage: &mut Stage<'_>,
    key: RowKey,
) -> Result<bool, AllocError>
    ensures before { stage.new.before ≡ stage.old.before }
    ensures now { OnOk result (stage.new.now
        ≡ pruned_at schema.now stage.old.before version key stage.old.now) }
    ensures short { IfOk result (λ short. short ≡ is_short_at schema.now key stage.new.now) }
    ensures suits { IfOk result (λ short. short ≡ false → Suits schema.now stage.old.now
        → Suits schema.now stage.new.now) }
{
    let Some(table) = schema.table(key.table()) else {
        return Ok(false);
    };
    let Some(row) = stage.row(&key) else {
        return Ok(false);
    };
    if !dangles(alloc, schema, stage, &key, row)? {
        return Ok(is_short(table, &row.columns));
    }
    let columns = pruned_columns(alloc, stage, table, &row.columns)?;
    let short = is_short(table, &columns);
    have_sixteen_bytes(stage, &key, version);
    stage.put(key, version, columns)?;
    Ok(short)
}

/// Adds these keys.
fn push_keys(alloc: Global, found: &mut Vec<RowKey>, others: &KeySet) -> Result<(), AllocError>
    ensures { OnOk result (found.new.items ≡ found.old.items ++ keys others.now) }
{
    for key in others.iter() {
        found.push(RowKey::new(alloc, key.table(), key.id())?)?;
    }
    Ok(())
}

/// Adds the key of a change whose row has a weak reference to a missing row; if the change removes its row, adds the keys of
/// the rows that referred to it weakly.
fn push_candidates(
    alloc: Global,
    schema: &Schema,
    links: &Links,
    stage: &Stage<'_>,
    key: &RowKey,
    change: &Option<Row>,
    found: &mut Vec<RowKey>,
) -> Result<(), AllocError>
    ensures { OnOk result (found.new.items
        ≡ found.old.items ++ may_dangle_by schema.now stage.now.now links.now.weak
        (key.now, change.now)) }
{
    if let Some(row) = change {
        if dangles(alloc, schema, stage, key, row)? {
            found.push(RowKey::new(alloc, key.table(), key.id())?)?;
        }
        return Ok(());
    }
    match links.weak().of(key.table(), key.id()) {
        Some(holders) => push_keys(alloc, found, holders),
        None => Ok(()),
    }
}

/// The keys of the rows that may have weak references to missing rows: the changed rows that have some, and the rows that
/// referred to removed ones.
fn candidates(
    alloc: Global,
    schema: &Schema,
    links: &Links,
    stage: &Stage<'_>,
) -> Result<Vec<RowKey>, AllocError>
    requires whole { is_whole schema.now stage.now.before ≡ true }
    requires linked { AreLinksOf schema.now stage.now.before links.now }
    ensures { IfOk result (λ keys. MayDangle schema.now stage.now.now keys.items) }
{
    let mut found = Vec::new(alloc);
    for (key, change) in stage.changes().map() {
        push_candidates(alloc, schema, links, stage, key, change, &mut found)?;
    }
    Ok(found)
}

/// Removes all weak references to missing rows. Returns whether a value is then too short (RFC 7047, 3.2, `<base-type>`,
/// refType). Looks only at the rows that the transaction has changed, and at those that referred to rows that are gone.
pub(crate) fn prune(
    alloc: Global,
    schema: &Schema,
    version: Uuid,
    links: &Links,
    stage: &mut Stage<'_>,
) -> Result<bool, AllocError>
    requires whole { is_whole schema.now stage.old.before ≡ true }
    requires linked { AreLinksOf schema.now stage.old.before links.now }
    requires suits { Suits schema.now stage.old.now }
    ensures now { OnOk result (stage.new
        ≡ record stage.old { now = pruned schema.now stage.old.before version stage.old.now }) }
    ensures short { IfOk result (λ short. short
        ≡ list_any (limits.is_short schema.now) (entries stage.new.now)) }
    ensures suits { IfOk result (λ short. short ≡ false → Suits schema.now stage.new.now) }
{
    let mut short = false;
    for key in candidates(alloc, schema, links, stage)? {
        if prune_row(alloc, schema, version, stage, key)? {
            short = true;
        }
    }
    Ok(short)
}
