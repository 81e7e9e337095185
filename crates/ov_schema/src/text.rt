ghost use Rattle.std.specs.Prelude.{◌≡◌, IfOk};
ghost use Rattle.serde_json.specs.Written.{compact_text};

use crate::schema::Schema;
use ov_base::Text;
use std::alloc::{AllocError, Global};

/// The compact text of a schema, which a store keeps.
pub fn text_of(alloc: Global, schema: &Schema) -> Result<Text, AllocError>
    ensures { IfOk result (λ text. text ≡ compact_text schema.now.tree) }
{
    let bytes = schema.tree().to_bytes(alloc)?;
    match String::from_utf8(bytes.into_vec()) {
        Ok(text) => Ok(Text::from_string(text)),
        Err(_) => Err(AllocError),
    }
}
