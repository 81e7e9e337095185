//! The rows of `meta`.

ghost use Rattle.std.specs.Prelude.{MatchOption};
ghost use Rattle.ov_tables.specs.Format.{IsFormatRow, IsSchemaRow, IsMeta};

use crate::value::{blob_at, is_blob_at, is_text_at, number_at};
use sqlite::Row;

/// The number of the format, if the row names it.
fn format_in(row: &Row) -> Option<u8>
    ensures { MatchOption result ((n : _) → ¬ IsFormatRow n row.now) (λ n. IsFormatRow n row.now) }
{
    let _number = number_at(row, 0)?;
    if !is_text_at(row, 1, b"format") {
        return None;
    }
    if is_blob_at(row, 2, b"1") {
        return Some(1);
    }
    if is_blob_at(row, 2, b"2") {
        Some(2)
    } else {
        None
    }
}

/// The schema's text, if this is its row.
fn schema_in(row: &Row) -> Option<&str>
    ensures { MatchOption result ((text : _) → ¬ IsSchemaRow text row.now)
        (λ text. IsSchemaRow text.now row.now) }
{
    let _number = number_at(row, 0)?;
    if !is_text_at(row, 1, b"schema") {
        return None;
    }
    std::str::from_utf8(blob_at(row, 2)?).ok()
}

/// What the rows say, if they are two: the format, and the text of the schema.
#[derive(Clone, Copy)]
pub(crate) struct Meta<'a> {
    pub format: u8,
    pub schema: &'a str,
}

/// The two in this order.
fn in_order<'a>(format: &Row, schema: &'a Row) -> Option<Meta<'a>>
    ensures { MatchOption result ((n : _) → (text : _) → IsFormatRow n format.now
        → ¬ IsSchemaRow text schema.now)
        (λ meta. IsFormatRow meta.format format.now × IsSchemaRow meta.schema.now schema.now) }
{
    let format = format_in(format)?;
    let schema = schema_in(schema)?;
    Some(Meta { format, schema })
}

/// The format and the schema's text, if the rows are those of a stored format.
pub(crate) fn meta_of(rows: &[Row]) -> Option<Meta<'_>>
    ensures { MatchOption result ((n : _) → (text : _) → ¬ IsMeta n text rows.now)
        (λ meta. IsMeta meta.format meta.schema.now rows.now) }
{
    let [first, second] = rows else {
        return None;
    };
    match in_order(first, second) {
        Some(meta) => Some(meta),
        None => in_order(second, first),
    }
}
