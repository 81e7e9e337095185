ghost use Rattle.std.specs.Prelude.{◌≡◌, IfOk, codes};
ghost use Rattle.serde_json.specs.Data.{null, string, array, object, member, no_members};
ghost use Rattle.serde_json.specs.View.{view};
ghost use Rattle.ov_specs.specs.wire.Frame.{frame, reply_tree, failure_tree, notification_tree};

use ov_base::{Bytes, Tree, Trees};
use ov_results::ArrayText;
use serde_json::{Value, json};
use std::alloc::{AllocError, Global};

/// The reply to a call, with a result and no error (JSON-RPC 1.0, 1.2).
pub fn reply(alloc: Global, id: Tree, outcome: Tree) -> Result<Bytes, AllocError>
    ensures { IfOk result (λ b. b ≡ frame (reply_tree id outcome)) }
{
    let value = reply_value(alloc, id.into_value(), outcome.into_value())?;
    Tree::new(value).to_bytes(alloc)
}

fn reply_value(alloc: Global, id: Value, outcome: Value) -> Result<Value, AllocError>
    ensures { IfOk result (λ v. view v ≡ reply_tree (view id) (view outcome)) }
{
    json!(in alloc; {"error": null, "id": id, "result": outcome})
}

/// The reply to a call, whose result is the array of these results, which are not encoded again (JSON-RPC 1.0, 1.2).
pub fn reply_with(alloc: Global, id: &Tree, results: &ArrayText) -> Result<Bytes, AllocError>
    ensures { IfOk result (λ b. b ≡ frame (reply_tree id.now (array results.now))) }
{
    let id = id.to_bytes(alloc)?;
    let mut bytes = Vec::from_slice(alloc, b"{\"error\":null,\"id\":")?;
    bytes.extend_from_slice(id.as_slice())?;
    bytes.extend_from_slice(b",\"result\":[")?;
    bytes.extend_from_slice(results.as_slice())?;
    bytes.extend_from_slice(b"]}")?;
    Ok(Bytes::from_vec(bytes))
}

/// The reply to a call, with an error and no result (JSON-RPC 1.0, 1.2). The error is a plain text.
pub fn failure(alloc: Global, id: Tree, text: &str) -> Result<Bytes, AllocError>
    ensures { IfOk result (λ b. b ≡ frame (failure_tree id text.now)) }
{
    let value = failure_value(alloc, id.into_value(), text)?;
    Tree::new(value).to_bytes(alloc)
}

fn failure_value(alloc: Global, id: Value, text: &str) -> Result<Value, AllocError>
    ensures { IfOk result (λ v. view v ≡ failure_tree (view id) text.now) }
{
    json!(in alloc; {"error": text, "id": id, "result": null})
}

/// A notification, which has no id and gets no reply (JSON-RPC 1.0, 1.3).
pub fn notification(alloc: Global, method: &str, params: Trees) -> Result<Bytes, AllocError>
    ensures { IfOk result (λ b. b ≡ frame (notification_tree method.now params)) }
{
    let value = notification_value(alloc, method, params.into_tree().into_value())?;
    Tree::new(value).to_bytes(alloc)
}

fn notification_value(alloc: Global, method: &str, params: Value) -> Result<Value, AllocError>
    ensures { IfOk result (λ v. view v
        ≡ object
        (member (codes "id") null
        (member (codes "method") (string method.now)
        (member (codes "params") (view params) no_members)))) }
{
    json!(in alloc; {"id": null, "method": method, "params": params})
}
