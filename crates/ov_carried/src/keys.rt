ghost use Rattle.std.specs.Prelude.{◌≡◌, ◌++◌, map, IfOk, OnOk};
ghost use Rattle.std.specs.FinMap.{entries, keys};
ghost use Rattle.ov_rows.specs.Nested.{in_table};

use ov_rows::{RowKey, Rows, TableRows};
use std::alloc::{AllocError, Global};

/// Adds the keys of the rows of the table of this name.
fn push_keys(
    alloc: Global,
    found: &mut Vec<RowKey>,
    name: &str,
    rows: &TableRows,
) -> Result<(), AllocError>
    ensures { OnOk result (found.new.items
        ≡ found.old.items ++ map (λ r. r.0) (in_table name.now (entries rows.now))) }
{
    for (id, _row) in rows.map() {
        found.push(RowKey::new(alloc, name, *id.as_uuid())?)?;
    }
    Ok(())
}

/// The keys of all rows, ascending. Refused only if an allocation fails.
pub fn keys_of(alloc: Global, rows: &Rows) -> Result<Vec<RowKey>, AllocError>
    ensures { IfOk result (λ found. found.items ≡ keys rows.now) }
{
    let mut found = Vec::new(alloc);
    for (name, table) in rows.tables() {
        push_keys(alloc, &mut found, name.as_str(), table)?;
    }
    Ok(found)
}
