//! The values of rows.

ghost use Rattle.std.specs.Prelude.{◌≡◌, ◌↔◌, MatchOption, IsUtf8, IsTrue, length};
ghost use Rattle.sqlite.specs.declared.types.Value.TheVariants.{Int, Text, Blob};
ghost use Rattle.sqlite.specs.Order.{column};
ghost use Rattle.ov_sqlite.specs.Reading.{IsNoNumber, IsNoText, IsNoBlob, IsNoUuid};

use sqlite::Row;
use sqlite::types::ValueRef;
use uuid::Uuid;

pub(crate) fn number_at(row: &Row, at: usize) -> Option<i64>
    ensures { MatchOption result (IsNoNumber (column row.now at)) (λ n. column row.now at ≡ Int n) }
{
    match row.get_ref(at) {
        Ok(ValueRef::Int(number)) => Some(number),
        _ => None,
    }
}

/// Whether the value is this text.
pub(crate) fn is_text_at(row: &Row, at: usize, text: &[u8]) -> bool
    ensures { IsTrue result ↔ (column row.now at ≡ Text text.now) }
{
    match row.get_ref(at) {
        Ok(ValueRef::Text(bytes)) => bytes == text,
        _ => false,
    }
}

/// Whether the value is a blob of these bytes.
pub(crate) fn is_blob_at(row: &Row, at: usize, blob: &[u8]) -> bool
    ensures { IsTrue result ↔ (column row.now at ≡ Blob blob.now) }
{
    match row.get_ref(at) {
        Ok(ValueRef::Blob(bytes)) => bytes == blob,
        _ => false,
    }
}

pub(crate) fn text_at(row: &Row, at: usize) -> Option<&str>
    ensures { MatchOption result (IsNoText (column row.now at))
        (λ t. (column row.now at ≡ Text t.now) × IsUtf8 t.now) }
{
    match row.get_ref(at) {
        Ok(ValueRef::Text(bytes)) => std::str::from_utf8(bytes).ok(),
        _ => None,
    }
}

pub(crate) fn blob_at(row: &Row, at: usize) -> Option<&[u8]>
    ensures { MatchOption result (IsNoBlob (column row.now at))
        (λ b. column row.now at ≡ Blob b.now) }
{
    match row.get_ref(at) {
        Ok(ValueRef::Blob(bytes)) => Some(bytes),
        _ => None,
    }
}

pub(crate) fn uuid_at(row: &Row, at: usize) -> Option<Uuid>
    ensures { MatchOption result (IsNoUuid (column row.now at))
        (λ id. (column row.now at ≡ Blob id) × (length id ≡ 16)) }
{
    let bytes = blob_at(row, at)?;
    Uuid::from_slice(bytes).ok()
}

/// The sixteen bytes of an identifier.
pub(crate) fn id_bytes(id: &Uuid) -> &[u8]
    ensures bytes { result.now ≡ id.now }
    ensures sixteen { length result.now ≡ 16 }
{
    id.as_bytes()
}
