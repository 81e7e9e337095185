use crate::columns::Columns;
use std::marker::Model;
use uuid::Uuid;

/// A row (RFC 7047, 3.2).
pub struct Row {
    /// Its version, the column `_version`.
    pub version: Uuid,
    /// Its columns except `_uuid` and `_version`.
    pub columns: Columns,
}

impl Model for Row {
    ghost use Rattle.ov_specs.specs.rows.Database as database;
    ghost use Rattle.ov_rows.specs.Resident.{row_code};

    ghost Value = { database.Row };

    ghost coded = { row_code };

    ghost view = { λ r. record { version = r.version; columns = r.columns } };
}

impl Drop for Row {
    // An explicit drop, so that crates above need not prove the drop of its parts again.
    fn drop(self) {
        let Row {
            columns,
            version: _,
        } = self;
        drop(columns);
    }
}
