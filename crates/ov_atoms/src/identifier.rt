ghost use Rattle.std.specs.Prelude.{◌≡◌, ◌<◌, length, All, true};
ghost use Rattle.serde_json.specs.View.{view};
ghost use Rattle.uuid.specs.Text.{parsed, parsed_hyphenated};
ghost use Rattle.ov_specs.specs.operations.InsertedIds.{id_read};
ghost use Rattle.ov_specs.specs.values.Uuid.{is_uuid};
ghost use Rattle.ov_specs.specs.values.Reading.{uuid_read};

use crate::id::is_id;
use crate::names::{Names, NoNames};
use crate::two::tagged;
use serde_json::Value;
use uuid::Uuid;

/// Tells contracts that a UUID has sixteen bytes (RFC 4122, 4.1.2). It is compiled away.
pub fn has_sixteen_bytes(uuid: &Uuid)
    ensures { is_uuid uuid.now ≡ true }
{
    are_sixteen(uuid.as_bytes());
}

// No clause can say that each byte of an array fits, so this loop reads them; it is compiled away.
fn are_sixteen(bytes: &[u8; 16])
    ensures length { length bytes.now ≡ 16 }
    ensures fit { All (λ b. b < 256) bytes.now }
{
    for index in 0..16 {
        let _ = bytes[index];
    }
}

/// The UUID of a text in any of its forms.
fn parse_any(text: &str) -> Option<Uuid>
    ensures { result ≡ parsed text.now }
{
    Uuid::parse_str(text).ok()
}

/// The UUID of a text of 36 characters, with hyphens.
fn parse_uuid(text: &str) -> Option<Uuid>
    ensures { result ≡ parsed_hyphenated text.now }
{
    if text.len() == 36 {
        parse_any(text)
    } else {
        None
    }
}

/// The UUID of `["uuid",text]` or `["named-uuid",id]`.
pub(crate) fn uuid_of<N: Names>(tree: &Value, names: &N) -> Option<Uuid>
    ensures { result ≡ uuid_read (N.names names.now) (view tree.now) }
{
    if let Some(text) = tagged("uuid", tree).and_then(Value::as_str)
        && let Some(uuid) = parse_uuid(text)
    {
        return Some(uuid);
    }
    let name = tagged("named-uuid", tree)?.as_str()?;
    if is_id(name) {
        names.uuid_of(name)
    } else {
        None
    }
}

/// The UUID of a text of 36 characters, with hyphens, or of `["uuid",text]` (RFC 7047, 5.1, `<uuid>`; that the text may stand
/// alone is this server's).
pub fn read_uuid(tree: &Value) -> Option<Uuid>
    ensures { result ≡ id_read (view tree.now) }
{
    if let Some(text) = tree.as_str()
        && let Some(uuid) = parse_uuid(text)
    {
        return Some(uuid);
    }
    uuid_of(tree, &NoNames)
}
