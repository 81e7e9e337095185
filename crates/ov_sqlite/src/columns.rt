//! The columns of rows that were read.

ghost use Rattle.std.specs.Prelude.{◌≡◌, MatchOption};
ghost use Rattle.ov_tables.specs.Format.{IsKeyed, IsLine, IsHead, IsCell, row_key, entry};
ghost use Rattle.sqlite_value.specs.Order.{bytes};
ghost use Rattle.sqlite.specs.Order.{column};

use crate::value::{blob_at, number_at, text_at, uuid_at};
use sqlite::Row;
use uuid::Uuid;

/// The key of a row: its table's name, and its identifier.
#[derive(Clone, Copy)]
pub(crate) struct RowKey<'a> {
    pub table: &'a str,
    pub id: Uuid,
}

/// The row's key, if it begins with its number and a key.
pub(crate) fn key_of(row: &Row) -> Option<RowKey<'_>>
    ensures { MatchOption result (¬ IsKeyed row.now)
        (λ key. IsKeyed row.now × ((key.table.now, key.id) ≡ row_key row.now)) }
{
    let _number = number_at(row, 0)?;
    let table = text_at(row, 1)?;
    let id = uuid_at(row, 2)?;
    Some(RowKey { table, id })
}

/// The columns of a row that is a line.
#[derive(Clone, Copy)]
pub(crate) struct LineColumns<'a> {
    pub table: &'a str,
    pub id: Uuid,
    pub version: Uuid,
    pub body: &'a [u8],
}

/// The row's columns, if it is a line.
pub(crate) fn line_columns_of(row: &Row) -> Option<LineColumns<'_>>
    ensures { MatchOption result (¬ IsLine row.now) (λ parts. IsLine row.now
        × (((parts.table.now, parts.id), (parts.version, parts.body.now)) ≡ entry row.now)) }
{
    let Some(key) = key_of(row) else {
        return None;
    };
    let version = uuid_at(row, 3)?;
    let body = blob_at(row, 4)?;
    Some(LineColumns {
        table: key.table,
        id: key.id,
        version,
        body,
    })
}

/// The columns of a row that is a head.
#[derive(Clone, Copy)]
pub(crate) struct HeadColumns<'a> {
    pub table: &'a str,
    pub id: Uuid,
    pub version: Uuid,
}

/// The row's columns, if it is a head.
pub(crate) fn head_columns_of(row: &Row) -> Option<HeadColumns<'_>>
    ensures { MatchOption result (¬ IsHead row.now) (λ parts. IsHead row.now
        × ((parts.table.now, parts.id) ≡ row_key row.now)
        × (parts.version ≡ bytes (column row.now 3))) }
{
    let Some(key) = key_of(row) else {
        return None;
    };
    let version = uuid_at(row, 3)?;
    Some(HeadColumns {
        table: key.table,
        id: key.id,
        version,
    })
}

/// The columns of a row that is a cell.
#[derive(Clone, Copy)]
pub(crate) struct CellColumns<'a> {
    pub table: &'a str,
    pub id: Uuid,
    pub column: &'a str,
    pub body: &'a [u8],
}

/// The row's columns, if it is a cell.
pub(crate) fn cell_columns_of(row: &Row) -> Option<CellColumns<'_>>
    ensures { MatchOption result (¬ IsCell row.now) (λ parts. IsCell row.now
        × ((parts.table.now, parts.id) ≡ row_key row.now)
        × (parts.column.now ≡ bytes (column row.now 3))
        × (parts.body.now ≡ bytes (column row.now 4))) }
{
    let Some(key) = key_of(row) else {
        return None;
    };
    let column = text_at(row, 3)?;
    let body = blob_at(row, 4)?;
    Some(CellColumns {
        table: key.table,
        id: key.id,
        column,
        body,
    })
}
