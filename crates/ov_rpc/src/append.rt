ghost use Rattle.std.specs.Prelude.{◌≡◌, ◌↔◌, IfOk, IsTrue, [], ◌∷◌, if◌then◌else◌};
ghost use Rattle.serde_json.specs.Data.{Data, Items, no_items, array};
ghost use Rattle.ov_specs.specs.wire.Frame.{frame, reply_tree};
ghost use Rattle.ov_specs.specs.operations.Transaction.{and_item};

use ov_base::{Bytes, Tree};
use std::alloc::{AllocError, Global};

/// What closes a reply whose result is an array.
const CLOSING: &[u8] = b"]}";

/// Appends this item to the array that is the result of a reply: the error of a commit comes after the results of all
/// operations (RFC 7047, 4.1.3). The array's items are not encoded again. `is_first` says that the array is empty.
pub fn append_item(
    alloc: Global,
    reply: &Bytes,
    is_first: bool,
    item: &Tree,
) -> Result<Bytes, AllocError>
    ensures { (id : Data) (items : Items) → reply.now ≡ frame (reply_tree id (array items))
        → (IsTrue is_first ↔ (items ≡ no_items))
        → IfOk result (λ b. b ≡ frame (reply_tree id (array (and_item items item.now)))) }
{
    let reply = reply.as_slice();
    let open = &reply[..reply.len().saturating_sub(CLOSING.len())];
    let item = item.to_bytes(alloc)?;
    let mut bytes = Vec::new(alloc);
    bytes.extend_from_slice(open)?;
    bytes.extend_from_slice(separator(is_first))?;
    bytes.extend_from_slice(item.as_slice())?;
    bytes.extend_from_slice(CLOSING)?;
    Ok(Bytes::from_vec(bytes))
}

/// What stands between an item and those before it.
fn separator(is_first: bool) -> &'static [u8]
    ensures { result.now ≡ (if is_first then [] else 44 ∷ []) }
{
    if is_first { b"" } else { b"," }
}
