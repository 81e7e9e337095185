ghost use Rattle.std.specs.Prelude.{◌≡◌, IfOk};
ghost use Rattle.serde_json.specs.Data.{string, item, no_items};
ghost use Rattle.ov_specs.specs.locks.Queues.{locked_notification, stolen_notification};
ghost use Rattle.ov_specs.specs.wire.Frame.{frame};

use ov_base::{Bytes, Trees};
use ov_rpc::notification;
use serde_json::Value;
use std::alloc::{AllocError, Global};

/// Notifies a session that it has become the owner of the lock because another left (RFC 7047, 4.1.9).
pub(crate) fn locked(alloc: Global, name: &str) -> Result<Bytes, AllocError>
    ensures { IfOk result (λ b. b ≡ frame (locked_notification name.now)) }
{
    notification(alloc, "locked", params(alloc, name)?)
}

/// Notifies a session that another has stolen the lock from it (RFC 7047, 4.1.10).
pub(crate) fn stolen(alloc: Global, name: &str) -> Result<Bytes, AllocError>
    ensures { IfOk result (λ b. b ≡ frame (stolen_notification name.now)) }
{
    notification(alloc, "stolen", params(alloc, name)?)
}

/// The params: the lock's name alone.
fn params(alloc: Global, name: &str) -> Result<Trees, AllocError>
    ensures { IfOk result (λ params. params ≡ item (string name.now) no_items) }
{
    let mut items = Vec::new(alloc);
    items.push(Value::String(String::from_str(alloc, name)?))?;
    Ok(Trees::new(items))
}
