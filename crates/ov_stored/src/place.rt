ghost use Rattle.std.specs.Prelude.{◌≡◌, [], true, false, is_some, OnOk, None};
ghost use Rattle.std.specs.FinMap.{get, contains_key};
ghost use Rattle.std.specs.Ordering.{eq_by_cmp};
ghost use Rattle.ov_specs.specs.operations.MatchingRows.{without_rows};
ghost use Rattle.ov_specs.specs.rows.Lines.{LineKey, line_cmp};
ghost use Rattle.ov_stored.specs.Adding.{lent_keys};
ghost use Rattle.ov_stored.specs.Changing.{applied, with_row_change};
ghost use Rattle.ov_stored.specs.Placing.{HasPlacesFor, IsSameBeside};

use crate::delta::Delta;
use ov_atoms::RowShape;
use ov_rows::{Columns, NamedValues, Row, RowKey, Rows};
use std::alloc::{AllocError, Global};
use uuid::Uuid;

/// Puts an empty row at each new key that the changes give a row, so that nothing has to grow later. Lists the new keys in
/// `added`, also those before an allocation that fails: `take_out_rows` then makes the rows what they were.
pub fn place_rows<'a>(
    alloc: Global,
    rows: &mut Rows,
    delta: &'a Delta,
    added: &mut Vec<&'a RowKey>,
) -> Result<(), AllocError>
    requires { added.old.items ≡ [] }
    ensures added { without_rows (lent_keys added.new.items) rows.new ≡ rows.old }
    ensures same { OnOk result (IsSameBeside delta.now rows.old rows.new) }
    ensures placed { OnOk result (HasPlacesFor delta.now rows.new) }
{
    let nothing = RowShape::new(alloc, Vec::new(alloc), Vec::new(alloc))?;
    for (key, row) in &delta.changes {
        place_one(alloc, rows, key, row, &nothing, added)?;
    }
    Ok(())
}

/// Puts an empty row at the key if the key is new and the change gives it a row.
fn place_one<'a>(
    alloc: Global,
    rows: &mut Rows,
    key: &'a RowKey,
    row: &Option<Row>,
    nothing: &RowShape,
    added: &mut Vec<&'a RowKey>,
) -> Result<(), AllocError>
    requires { nothing.now.names ≡ [] }
    ensures added { without_rows (lent_keys added.new.items) rows.new
        ≡ without_rows (lent_keys added.old.items) rows.old }
    ensures same { (other : LineKey) → eq_by_cmp line_cmp other key.now ≡ false
        → get rows.new other ≡ get rows.old other }
    ensures stays { (other : LineKey) → contains_key rows.old other ≡ true
        → contains_key rows.new other ≡ true }
    ensures placed { OnOk result (is_some row.now ≡ true → contains_key rows.new key.now ≡ true) }
{
    if row.is_none() || rows.contains(key) {
        return Ok(());
    }
    place_at(alloc, rows, key, nothing, added)
}

/// Puts an empty row at a new key and lists the key. If an allocation fails, nothing changes.
fn place_at<'a>(
    alloc: Global,
    rows: &mut Rows,
    key: &'a RowKey,
    nothing: &RowShape,
    added: &mut Vec<&'a RowKey>,
) -> Result<(), AllocError>
    requires absent { contains_key rows.old key.now ≡ false }
    requires nothing { nothing.now.names ≡ [] }
    ensures added { without_rows (lent_keys added.new.items) rows.new
        ≡ without_rows (lent_keys added.old.items) rows.old }
    ensures same { (other : LineKey) → eq_by_cmp line_cmp other key.now ≡ false
        → get rows.new other ≡ get rows.old other }
    ensures stays { (other : LineKey) → contains_key rows.old other ≡ true
        → contains_key rows.new other ≡ true }
    ensures placed { OnOk result (contains_key rows.new key.now ≡ true) }
{
    added.reserve(1)?;
    let row = Row {
        version: Uuid::nil(),
        columns: Columns::of(alloc, nothing, NamedValues::new(alloc))?,
    };
    rows.insert(alloc, key, row)?;
    added.push_reserved(key);
    Ok(())
}

/// Removes the rows of these keys again, the last one first. Allocates nothing.
pub fn take_out_rows(rows: &mut Rows, added: Vec<&RowKey>)
    ensures { rows.new ≡ without_rows (lent_keys added.entry.items) rows.old }
{
    let mut added = added;
    while let Some(key) = added.pop() {
        rows.remove(key);
    }
}

/// Makes the changes. Nothing grows, since each new row has a place, as `place_rows` made it.
pub fn make_changes(alloc: Global, rows: &mut Rows, delta: Delta)
    requires { HasPlacesFor delta rows.old }
    ensures { rows.new ≡ applied delta rows.old }
{
    for (key, row) in delta.changes {
        make_one(alloc, rows, &key, row);
    }
}

/// Makes one change. If it puts a row, there is a place for it.
fn make_one(alloc: Global, rows: &mut Rows, key: &RowKey, row: Option<Row>)
    requires { contains_key rows.old key.now ≡ false → row ≡ None }
    ensures { rows.new ≡ with_row_change key.now row rows.old }
{
    match row {
        Some(row) => {
            let _ = rows.insert(alloc, key, row);
        }
        None => rows.remove(key),
    }
}
