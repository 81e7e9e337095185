ghost use Rattle.std.specs.Prelude.{◌≡◌, not, true, IfOk};
ghost use Rattle.std.specs.FinMap.{contains_key, keys};
ghost use Rattle.std.specs.List.{list_any};
ghost use Rattle.ov_refs.specs.Linking.{AreLinksOf};
ghost use Rattle.ov_integrity.specs.Missing.{is_held_beside, misses_by};
ghost use Rattle.ov_specs.specs.integrity.Committed.{is_missing, is_whole};
ghost use Rattle.ov_specs.specs.integrity.References.{references, row_references};

use ov_refs::{KeySet, Links, targets_of};
use ov_rows::{Row, RowKey};
use ov_schema::Schema;
use ov_stage::Stage;
use ov_stored::Delta;
use std::alloc::{AllocError, Global};

/// Whether the row of this key refers strongly to a missing row.
fn row_misses(
    alloc: Global,
    schema: &Schema,
    stage: &Stage<'_>,
    key: &RowKey,
    row: &Row,
) -> Result<bool, AllocError>
    ensures { IfOk result (λ misses. misses
        ≡ list_any (is_missing stage.now.now) (row_references schema.now (key.now, row.now))) }
{
    for target in targets_of(alloc, schema, key.table(), &row.columns)? {
        if target.is_strong && !stage.contains(&target.key) {
            return Ok(true);
        }
    }
    Ok(false)
}

/// Whether one of these keys is not among the changed ones.
fn has_untouched(set: &KeySet, changes: &Delta) -> bool
    ensures { result ≡ list_any (λ key. not (contains_key changes.now key)) (keys set.now) }
{
    for key in set.iter() {
        if changes.change(key).is_none() {
            return true;
        }
    }
    false
}

/// Whether an unchanged row refers strongly to the one of this key.
fn is_held_beside(links: &Links, changes: &Delta, key: &RowKey) -> bool
    ensures { result ≡ is_held_beside links.now.strong changes.now key.now }
{
    match links.strong().of(key.table(), key.id()) {
        Some(holders) => has_untouched(holders, changes),
        None => false,
    }
}

/// Whether the row that a change puts refers strongly to a missing row, or an unchanged row refers to the row that the change
/// removes.
fn change_misses(
    alloc: Global,
    schema: &Schema,
    links: &Links,
    stage: &Stage<'_>,
    changes: &Delta,
    key: &RowKey,
    change: &Option<Row>,
) -> Result<bool, AllocError>
    ensures { IfOk result (λ misses. misses
        ≡ misses_by schema.now stage.now.now links.now.strong changes.now (key.now, change.now)) }
{
    match change {
        Some(row) => row_misses(alloc, schema, stage, key, row),
        None => Ok(is_held_beside(links, changes, key)),
    }
}

/// Whether a strong reference is to a missing row (RFC 7047, 3.2, `<base-type>`, refType). Such a reference belongs to a
/// changed row, or leads to a removed one.
pub(crate) fn misses(
    alloc: Global,
    schema: &Schema,
    links: &Links,
    stage: &Stage<'_>,
) -> Result<bool, AllocError>
    requires whole { is_whole schema.now stage.now.before ≡ true }
    requires linked { AreLinksOf schema.now stage.now.before links.now }
    ensures { IfOk result (λ misses. misses
        ≡ list_any (is_missing stage.now.now) (references schema.now stage.now.now)) }
{
    let changes = stage.changes();
    for (key, change) in changes.map() {
        if change_misses(alloc, schema, links, stage, changes, key, change)? {
            return Ok(true);
        }
    }
    Ok(false)
}
