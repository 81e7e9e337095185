ghost use Rattle.std.specs.Prelude.{◌≡◌, map, option_map, option_to_list, IfOk};
ghost use Rattle.std.specs.FinMap.{get};
ghost use Rattle.std.specs.List.{flat_map};
ghost use Rattle.ov_stored.specs.Changing.{applied};
ghost use Rattle.ov_rows.specs.Lending.{lent_row, lent_row_of};
ghost use Rattle.ov_stage.specs.Asked.{rows_of_ids};
ghost use Rattle.ov_stage.specs.Staging.{entry_if_found};

use ov_rows::{Row, RowId, RowKey, RowView, Rows, TableRows};
use ov_stored::Delta;
use std::alloc::{AllocError, Global};
use uuid::Uuid;

/// The row of this identifier in a table.
fn row_in<'a>(table: &'a TableRows, id: Uuid) -> Option<RowView<'a>>
    ensures { option_map lent_row result ≡ entry_if_found id (get table.now id) }
{
    match table.map().get_key_value(&RowId::new(id)) {
        Some((id, row)) => Some(RowView {
            id: id.as_uuid(),
            row,
        }),
        None => None,
    }
}

/// The row of this key.
fn row_before<'a>(rows: &'a Rows, key: &RowKey) -> Option<RowView<'a>>
    ensures { option_map (lent_row_of key.now.0) result
        ≡ entry_if_found key.now (get rows.now key.now) }
{
    match rows.of_table(key.table()) {
        Some(table) => row_in(table, key.id()),
        None => None,
    }
}

/// The change of this key, with its identifier.
fn change_at<'a>(delta: &'a Delta, key: &RowKey) -> Option<(&'a Uuid, &'a Option<Row>)>
    ensures { entry_if_found key.now.1 (get delta.now key.now)
        ≡ option_map (λ c. (c.0.now, c.1.now)) result }
{
    match delta.map().get_key_value(key) {
        Some((key, change)) => Some((key.as_id(), change)),
        None => None,
    }
}

/// The row of this key after the changes. Looks at no other row.
pub(crate) fn row_after<'a>(rows: &'a Rows, delta: &'a Delta, key: &RowKey) -> Option<RowView<'a>>
    ensures { option_map (lent_row_of key.now.0) result
        ≡ entry_if_found key.now (get (applied delta.now rows.now) key.now) }
{
    match change_at(delta, key) {
        Some((id, Some(row))) => Some(RowView { id, row }),
        Some((_, None)) => None,
        None => row_before(rows, key),
    }
}

/// The rows of these identifiers that exist in a table.
fn listed_at<'a>(
    alloc: Global,
    table: &'a TableRows,
    ids: &[Uuid],
) -> Result<Vec<RowView<'a>>, AllocError>
    ensures { IfOk result (λ rows. map lent_row rows.items
        ≡ flat_map (λ id. option_to_list (entry_if_found id (get table.now id))) ids.now) }
{
    let mut rows = Vec::with_capacity(alloc, ids.len())?;
    for id in ids {
        if let Some(row) = row_in(table, *id) {
            rows.push(row)?;
        }
    }
    Ok(rows)
}

/// The rows of these identifiers that exist in the table of this name. Looks at no other row.
pub(crate) fn rows_of_ids<'a>(
    alloc: Global,
    rows: &'a Rows,
    table: &str,
    ids: &[Uuid],
) -> Result<Vec<RowView<'a>>, AllocError>
    ensures { IfOk result (λ listed. map (lent_row_of table.now) listed.items
        ≡ rows_of_ids rows.now table.now ids.now) }
{
    match rows.of_table(table) {
        Some(rows) => listed_at(alloc, rows, ids),
        None => Ok(Vec::new(alloc)),
    }
}
