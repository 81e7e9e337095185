ghost use Rattle.std.specs.Prelude.{◌≡◌, ◌++◌, T, map, IfOk, OnOk};
ghost use Rattle.std.specs.List.{filter, flat_map};
ghost use Rattle.std.specs.FinMap.{entries, is_sorted};
ghost use Rattle.ov_rows.specs.Lending.{lent_row, lent_row_of};
ghost use Rattle.ov_rows.specs.Nested.{id_cmp};
ghost use Rattle.std.specs.Str.{bytes_eq};
ghost use Rattle.ov_specs.specs.rows.Lines.{line_cmp};
ghost use Rattle.ov_stage.specs.Asked.{changes_of, rows_after};
ghost use Rattle.ov_stage.specs.Staging.{row_made, place_each};

use ov_rows::{Row, RowView, Rows, TableRows};
use ov_stored::Delta;
use std::alloc::{AllocError, Global};
use std::cmp::Ordering;
use uuid::Uuid;

/// The rows of a table, in ascending order of their identifiers.
fn listed<'a>(alloc: Global, table: &'a TableRows) -> Result<Vec<RowView<'a>>, AllocError>
    ensures { IfOk result (λ rows. map lent_row rows.items ≡ entries table.now) }
{
    let mut rows = Vec::with_capacity(alloc, table.map().len())?;
    for (id, row) in table.map() {
        rows.push(RowView {
            id: id.as_uuid(),
            row,
        })?;
    }
    Ok(rows)
}

/// The rows of the table of this name, in ascending order of their identifiers.
pub(crate) fn rows_of<'a>(
    alloc: Global,
    rows: &'a Rows,
    table: &str,
) -> Result<Vec<RowView<'a>>, AllocError>
    ensures { IfOk result (λ listed. map (lent_row_of table.now) listed.items
        ≡ filter (λ r. bytes_eq r.0.0 table.now) (entries rows.now)) }
{
    match rows.of_table(table) {
        Some(rows) => listed(alloc, rows),
        None => Ok(Vec::new(alloc)),
    }
}

/// The changes of the table of this name, in ascending order of their identifiers. Looks at all changes.
fn changes_of<'a>(
    alloc: Global,
    delta: &'a Delta,
    table: &str,
) -> Result<Vec<(&'a Uuid, &'a Option<Row>)>, AllocError>
    ensures { IfOk result (λ changes. map (λ c. ((table.now, c.0.now), c.1.now)) changes.items
        ≡ changes_of delta.now table.now) }
{
    let mut changes = Vec::new(alloc);
    for (key, change) in delta.map() {
        if key.table() == table {
            changes.push((key.as_id(), change))?;
        }
    }
    Ok(changes)
}

/// Adds the row that the change makes, if it makes one.
fn push_change<'a>(
    merged: &mut Vec<RowView<'a>>,
    change: (&'a Uuid, &'a Option<Row>),
) -> Result<(), AllocError>
    ensures { OnOk result (map lent_row merged.new.items
        ≡ map lent_row merged.old.items ++ row_made (change.entry.0.now, change.entry.1.now)) }
{
    if let Some(row) = change.1 {
        merged.push(RowView { id: change.0, row })?;
    }
    Ok(())
}

fn push_changes<'a>(
    merged: &mut Vec<RowView<'a>>,
    changes: &[(&'a Uuid, &'a Option<Row>)],
) -> Result<(), AllocError>
    ensures { OnOk result (map lent_row merged.new.items
        ≡ map lent_row merged.old.items ++ flat_map row_made
        (map (λ c. (c.0.now, c.1.now)) changes.now)) }
{
    for change in changes {
        push_change(merged, *change)?;
    }
    Ok(())
}

/// The rows after the changes, in ascending order: a change replaces or removes the row of its identifier, and a new row is
/// inserted at its place. Looks at each row and each change once.
fn merged<'a>(
    alloc: Global,
    rows: &[RowView<'a>],
    changes: &[(&'a Uuid, &'a Option<Row>)],
) -> Result<Vec<RowView<'a>>, AllocError>
    requires rows { T (is_sorted id_cmp (map lent_row rows.now)) }
    requires changes { T (is_sorted id_cmp (map (λ c. (c.0.now, c.1.now)) changes.now)) }
    ensures { IfOk result (λ merged. map lent_row merged.items
        ≡ place_each id_cmp (map (λ c. (c.0.now, c.1.now)) changes.now) (map lent_row rows.now)) }
{
    let mut merged = Vec::with_capacity(alloc, rows.len())?;
    let mut i = 0;
    let mut j = 0;
    'turns: while i < rows.len() && j < changes.len() {
        let row = rows[i];
        let change = changes[j];
        match row.id.cmp(change.0) {
            Ordering::Less => {
                merged.push(row)?;
                i += 1;
            }
            Ordering::Equal => {
                push_change(&mut merged, change)?;
                i += 1;
                j += 1;
            }
            Ordering::Greater => {
                push_change(&mut merged, change)?;
                j += 1;
            }
        }
    }
    merged.extend_from_slice(&rows[i..])?;
    push_changes(&mut merged, &changes[j..])?;
    Ok(merged)
}

/// These rows of the table of this name, after the changes of the table.
pub(crate) fn rows_after<'a>(
    alloc: Global,
    rows: Vec<RowView<'a>>,
    delta: &'a Delta,
    table: &str,
) -> Result<Vec<RowView<'a>>, AllocError>
    requires { T (is_sorted line_cmp (map (lent_row_of table.now) rows.items)) }
    ensures { IfOk result (λ after. map (lent_row_of table.now) after.items
        ≡ rows_after delta.now table.now (map (lent_row_of table.now) rows.entry.items)) }
{
    if delta.is_empty() {
        return Ok(rows);
    }
    let changes = changes_of(alloc, delta, table)?;
    merged(alloc, rows.as_slice(), changes.as_slice())
}
