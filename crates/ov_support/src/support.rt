ghost use Rattle.std.specs.Prelude.{◌≡◌, ◌∷◌, ◌++◌, ◌+◌, ◌≤◌, true, length, IfOk, OnOk};
ghost use Rattle.std.specs.FinMap.{keys};
ghost use Rattle.std.specs.List.{list_any};
ghost use Rattle.ov_refs.specs.Linking.{AreLinksOf};
ghost use Rattle.ov_support.specs.Changes.{AreChanges};
ghost use Rattle.ov_support.specs.Linked.{AreLinked, some_holds, is_unchanged_beside};
ghost use Rattle.ov_support.specs.Linked.{is_there_beside};
ghost use Rattle.ov_support.specs.Supporting.{MayLack, strong_keys};
ghost use Rattle.ov_specs.specs.integrity.Committed.{is_whole};
ghost use Rattle.ov_specs.specs.integrity.Kept.{is_in_root_table, is_supported, kept};
ghost use Rattle.ov_specs.specs.integrity.References.{references};

use crate::changes::Changes;
use ov_refs::{KeySet, Links, Target, targets_of};
use ov_rows::RowKey;
use ov_schema::Schema;
use ov_stage::Stage;
use std::alloc::{AllocError, Global};

/// Whether the row of this key is in a root table.
fn is_in_root_table(schema: &Schema, key: &RowKey) -> bool
    ensures { result ≡ is_in_root_table schema.now key.now }
{
    match schema.table(key.table()) {
        Some(table) => table.is_root(),
        None => false,
    }
}

/// Whether one of these rows exists, is unchanged since before the transaction, and is not the one of the key.
fn has_unchanged_beside(
    holders: &KeySet,
    changes: &Changes,
    stage: &Stage<'_>,
    key: &RowKey,
) -> bool
    ensures { result
        ≡ list_any (is_unchanged_beside stage.now.now changes.now.keys key.now) (keys holders.now) }
{
    for from in holders.iter() {
        if from != key && !changes.keys().contains(from) && stage.contains(from) {
            return true;
        }
    }
    false
}

/// Whether one of these rows exists and is not the one of the key.
fn has_beside(holders: &KeySet, stage: &Stage<'_>, key: &RowKey) -> bool
    ensures { result ≡ list_any (is_there_beside stage.now.now key.now) (keys holders.now) }
{
    for from in holders.iter() {
        if from != key && stage.contains(from) {
            return true;
        }
    }
    false
}

/// Whether another existing row, unchanged since before the transaction, refers strongly to the one of this key.
fn is_held_by_unchanged(links: &Links, changes: &Changes, stage: &Stage<'_>, key: &RowKey) -> bool
    ensures { result
        ≡ some_holds links.now.strong key.now
        (is_unchanged_beside stage.now.now changes.now.keys key.now) }
{
    match links.strong().of(key.table(), key.id()) {
        Some(holders) => has_unchanged_beside(holders, changes, stage, key),
        None => false,
    }
}

/// Whether another existing row, which the transaction has changed, refers strongly to the one of this key.
fn is_held_by_changed(changes: &Changes, stage: &Stage<'_>, key: &RowKey) -> bool
    ensures { result
        ≡ some_holds changes.now.strong key.now (is_there_beside stage.now.now key.now) }
{
    match changes.strong().of(key.table(), key.id()) {
        Some(holders) => has_beside(holders, stage, key),
        None => false,
    }
}

/// Whether the row of this key is in a root table, or another existing row refers strongly to it (RFC 7047, 3.2,
/// `<table-schema>`, isRoot).
fn is_supported(
    schema: &Schema,
    links: &Links,
    changes: &Changes,
    stage: &Stage<'_>,
    key: &RowKey,
) -> bool
    requires linked { AreLinked schema.now stage.now.now links.now.strong changes.now }
    ensures { result ≡ is_supported schema.now stage.now.now key.now }
{
    if is_in_root_table(schema, key) {
        return true;
    }
    if is_held_by_unchanged(links, changes, stage, key) {
        return true;
    }
    is_held_by_changed(changes, stage, key)
}

/// Adds the keys of the rows that are strongly referred to.
fn push_strong(work: &mut Vec<RowKey>, targets: Vec<Target>) -> Result<(), AllocError>
    ensures { OnOk result (work.new.items ≡ work.old.items ++ strong_keys targets.items) }
{
    for target in targets {
        if target.is_strong {
            work.push(target.key)?;
        }
    }
    Ok(())
}

/// The keys of the rows that may have lost all support: new rows of tables that are not root tables, and rows to which
/// changed rows referred before.
fn candidates(
    alloc: Global,
    schema: &Schema,
    changes: &Changes,
    stage: &Stage<'_>,
) -> Result<Vec<RowKey>, AllocError>
    requires whole { is_whole schema.now stage.now.before ≡ true }
    requires changed { AreChanges schema.now stage.now.before stage.now.now changes.now }
    ensures { IfOk result (λ work. MayLack schema.now stage.now.now work.items) }
{
    let mut work = Vec::new(alloc);
    for key in changes.keys().iter() {
        match stage.before().row(key.table(), key.id()) {
            Some(row) => {
                let targets = targets_of(alloc, schema, key.table(), &row.columns)?;
                push_strong(&mut work, targets)?;
            }
            None => {
                if !is_in_root_table(schema, key) {
                    work.push(RowKey::new(alloc, key.table(), key.id())?)?;
                }
            }
        }
    }
    Ok(work)
}

/// Removes the row of the key if it has no support. The rows to which it referred strongly may then have lost theirs.
fn drop_one(
    alloc: Global,
    schema: &Schema,
    links: &Links,
    changes: &Changes,
    stage: &mut Stage<'_>,
    key: RowKey,
    work: &mut Vec<RowKey>,
) -> Result<(), AllocError>
    requires linked { AreLinked schema.now stage.old.now links.now.strong changes.now }
    requires lacking { MayLack schema.now stage.old.now (key ∷ work.old.items) }
    ensures before { stage.new.before ≡ stage.old.before }
    ensures kept { OnOk result (kept schema.now stage.new.now ≡ kept schema.now stage.old.now) }
    ensures linked { OnOk result (AreLinked schema.now stage.new.now links.now.strong changes.now) }
    ensures lacking { OnOk result (MayLack schema.now stage.new.now work.new.items) }
    ensures smaller { OnOk result
        (length work.new.items + length (references schema.now stage.new.now)
        ≤ length work.old.items + length (references schema.now stage.old.now)) }
{
    let Some(row) = stage.row(&key) else {
        return Ok(());
    };
    if is_supported(schema, links, changes, stage, &key) {
        return Ok(());
    }
    let targets = targets_of(alloc, schema, key.table(), &row.columns)?;
    stage.remove(key)?;
    push_strong(work, targets)
}

/// Removes the rows that nothing keeps, and no others. These changes are those of the stage.
fn drop_lacking(
    alloc: Global,
    schema: &Schema,
    links: &Links,
    changes: &Changes,
    stage: &mut Stage<'_>,
) -> Result<(), AllocError>
    requires whole { is_whole schema.now stage.old.before ≡ true }
    requires linked { AreLinksOf schema.now stage.old.before links.now }
    requires changed { AreChanges schema.now stage.old.before stage.old.now changes.now }
    ensures { OnOk result (stage.new ≡ record stage.old { now = kept schema.now stage.old.now }) }
{
    let mut work = candidates(alloc, schema, changes, stage)?;
    while let Some(key) = work.pop() {
        drop_one(alloc, schema, links, changes, stage, key, &mut work)?;
    }
    Ok(())
}

/// Removes the rows of a stage that nothing keeps (RFC 7047, 3.2, `<table-schema>`, isRoot), and no others. The rows before the
/// transaction are whole, and the links are theirs. Looks only at rows whose support the transaction has changed. Refused only
/// if an allocation fails; some of these rows may then be removed.
pub fn drop_unsupported(
    alloc: Global,
    schema: &Schema,
    links: &Links,
    stage: &mut Stage<'_>,
) -> Result<(), AllocError>
    requires whole { is_whole schema.now stage.old.before ≡ true }
    requires linked { AreLinksOf schema.now stage.old.before links.now }
    ensures { OnOk result (stage.new ≡ record stage.old { now = kept schema.now stage.old.now }) }
{
    let changes = Changes::of(alloc, schema, stage)?;
    drop_lacking(alloc, schema, links, &changes, stage)
}
