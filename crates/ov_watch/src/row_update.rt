ghost use Rattle.std.specs.Prelude.{◌≡◌, List, ℕ, IfOk, Some, codes, filter, option_map};
ghost use Rattle.std.specs.Option.{option_copied};
ghost use Rattle.serde_json.specs.Data.{object, no_members, member};
ghost use Rattle.ov_specs.specs.monitors.Updates as spec;

use crate::object::Object;
use crate::table::MonitoredTable;
use ov_base::{Text, Tree};
use ov_projection::ShownRow;
use ov_rows::{Row, RowView};
use std::alloc::{AllocError, Global};
use uuid::Uuid;

/// These columns of a row.
fn shown(alloc: Global, names: &[Text], id: &Uuid, row: &Row) -> Result<Tree, AllocError>
    ensures { (table : List ℕ)
        → IfOk result (λ t. t ≡ spec.shown names.now ((table, id.now), row.now)) }
{
    let shown = ShownRow::of(alloc, names, &RowView { id, row })?;
    shown.tree(alloc)
}

/// An object of one member.
fn alone(alloc: Global, name: &str, tree: Tree) -> Result<Tree, AllocError>
    ensures { IfOk result (λ t. t ≡ object (member name.now tree no_members)) }
{
    let mut update = Object::new(alloc);
    update.put(alloc, name, tree)?;
    Ok(update.into_tree())
}

/// An object of the columns' new and old values.
fn new_and_old(alloc: Global, new: Tree, old: Tree) -> Result<Tree, AllocError>
    ensures { IfOk result (λ t. t
        ≡ object (member (codes "new") new (member (codes "old") old no_members))) }
{
    let mut update = Object::new(alloc);
    update.put(alloc, "new", new)?;
    update.put(alloc, "old", old)?;
    Ok(update.into_tree())
}

/// These columns of a row that exists or was inserted, if they are reported (RFC 7047, 4.1.6, `<row-update>`).
pub(crate) fn new_row(
    alloc: Global,
    names: &Option<Vec<Text>>,
    id: &Uuid,
    row: &Row,
) -> Result<Option<Tree>, AllocError>
    ensures { (table : List ℕ)
        → IfOk result (λ o. o
        ≡ option_map (λ names. spec.with_new names ((table, id.now), row.now))
        (option_map (λ v. v.items) names.now)) }
{
    let Some(names) = names else {
        return Ok(None);
    };
    let row = shown(alloc, names.as_slice(), id, row)?;
    Ok(Some(alone(alloc, "new", row)?))
}

/// These columns of a row that was deleted, if they are reported (RFC 7047, 4.1.6, `<row-update>`).
fn old_row(
    alloc: Global,
    names: &Option<Vec<Text>>,
    id: &Uuid,
    row: &Row,
) -> Result<Option<Tree>, AllocError>
    ensures { (table : List ℕ)
        → IfOk result (λ o. o
        ≡ option_map (λ names. spec.with_old names ((table, id.now), row.now))
        (option_map (λ v. v.items) names.now)) }
{
    let Some(names) = names else {
        return Ok(None);
    };
    let row = shown(alloc, names.as_slice(), id, row)?;
    Ok(Some(alone(alloc, "old", row)?))
}

/// Whether the row had another value in the column before. The row's identifier is the same.
fn is_modified(before: &Row, after: &Row, name: &str) -> bool
    ensures { (table : List ℕ) (id : List ℕ) → result
        ≡ spec.is_modified ((table, id), before.now) ((table, id), after.now) name.now }
{
    if name == "_uuid" {
        return false;
    }
    if name == "_version" {
        return before.version != after.version;
    }
    match (before.columns.get(name), after.columns.get(name)) {
        (Some(old), Some(new)) => old != new,
        (None, None) => false,
        _ => true,
    }
}

/// Those of these columns that are modified in the row.
fn modified_columns(
    alloc: Global,
    names: &[Text],
    before: &Row,
    after: &Row,
) -> Result<Vec<Text>, AllocError>
    ensures { (table : List ℕ) (id : List ℕ)
        → IfOk result (λ v. v.items
        ≡ filter (spec.is_modified ((table, id), before.now) ((table, id), after.now))
        names.now) }
{
    let mut modified = Vec::new(alloc);
    for name in names {
        if is_modified(before, after, name.as_str()) {
            modified.push(Text::from_str(alloc, name.as_str())?)?;
        }
    }
    Ok(modified)
}

/// These columns of a row that exists before and after, and the former values of those that are modified; nothing if none is
/// (RFC 7047, 4.1.6, `<row-update>`).
fn modification(
    alloc: Global,
    names: &[Text],
    id: &Uuid,
    before: &Row,
    after: &Row,
) -> Result<Option<Tree>, AllocError>
    ensures { (table : List ℕ)
        → IfOk result (λ o. o
        ≡ spec.modification names.now ((table, id.now), before.now)
        ((table, id.now), after.now)) }
{
    let modified = modified_columns(alloc, names, before, after)?;
    if modified.is_empty() {
        return Ok(None);
    }
    let new = shown(alloc, names, id, after)?;
    let old = shown(alloc, modified.as_slice(), id, before)?;
    Ok(Some(new_and_old(alloc, new, old)?))
}

/// What is reported of a row that existed before.
fn former_update(
    alloc: Global,
    table: &MonitoredTable,
    id: &Uuid,
    before: &Row,
    after: Option<&Row>,
) -> Result<Option<Tree>, AllocError>
    ensures { (name : List ℕ)
        → IfOk result (λ o. o
        ≡ spec.row_update table.now (name, id.now) (Some before.now)
        (option_copied after.entry)) }
{
    let Some(after) = after else {
        return old_row(alloc, &table.deleted, id, before);
    };
    match &table.modified {
        Some(names) => modification(alloc, names.as_slice(), id, before, after),
        None => Ok(None),
    }
}

/// What is reported of a row, given what its identifier refers to before and after (RFC 7047, 4.1.6, `<row-update>`).
pub(crate) fn row_update(
    alloc: Global,
    table: &MonitoredTable,
    id: &Uuid,
    before: Option<&Row>,
    after: Option<&Row>,
) -> Result<Option<Tree>, AllocError>
    ensures { (name : List ℕ)
        → IfOk result (λ o. o
        ≡ spec.row_update table.now (name, id.now) (option_copied before.entry)
        (option_copied after.entry)) }
{
    if let Some(before) = before {
        return former_update(alloc, table, id, before, after);
    }
    match after {
        Some(after) => new_row(alloc, &table.inserted, id, after),
        None => Ok(None),
    }
}
