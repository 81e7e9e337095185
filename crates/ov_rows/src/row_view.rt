use crate::row::Row;
use uuid::Uuid;

/// A borrowed row with its identifier (RFC 7047, 3.2).
#[derive(Clone, Copy)]
pub struct RowView<'a> {
    /// Its identifier, the column `_uuid`.
    pub id: &'a Uuid,
    /// Its version and its other columns.
    pub row: &'a Row,
}
