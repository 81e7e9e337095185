ghost use Rattle.std.specs.Prelude.{◌≡◌};
ghost use Rattle.std.specs.FinMap.{get};
ghost use Rattle.std.specs.Option.{option_copied};
ghost use Rattle.ov_stage.specs.Staging.{has_columns};

use ov_rows::{Columns, Row, RowKey, Rows};

/// Whether there is a row, and it has these columns.
fn has_columns(row: Option<&Row>, columns: &Columns) -> bool
    ensures { result ≡ has_columns columns.now (option_copied row.entry) }
{
    match row {
        Some(row) => row.columns.is_same(columns),
        None => false,
    }
}

/// Whether a row of these columns was at this key before the transaction (RFC 7047, 3.2).
pub(crate) fn is_former(before: &Rows, key: &RowKey, columns: &Columns) -> bool
    ensures { result ≡ has_columns columns.now (get before.now key.now) }
{
    has_columns(before.row(key.table(), key.id()), columns)
}
