ghost use Rattle.std.specs.Prelude.{◌≡◌, ◌≢◌, ℕ, List, None, option_map, option_and_then, false};
ghost use Rattle.std.specs.Option.{ForSome};
ghost use Rattle.serde_json.specs.View.{view, members_view};
ghost use Rattle.serde_json.specs.Find.{get_member, as_str, as_array};
ghost use Rattle.ov_specs.specs.wire.Tree.{has_real};
ghost use Rattle.ov_specs.specs.wire.Message as rpc;
ghost use Rattle.ov_specs.specs.wire.Message.{not_null};
ghost use Rattle.ov_rpc.specs.Message.{bad_kind_view, message_view};

use crate::message::{BadKind, Message};
use ov_base::{Text, Tree, Trees, has_real};
use serde_json::{Map, Value};

/// The message of a tree: the first case that applies decides. The contents of the tree are moved, not copied.
pub(crate) fn message_of(value: Value) -> Option<Message>
    ensures { option_map message_view result ≡ rpc.message_of (view value) }
{
    if has_real_id(&value) {
        None
    } else if has_real(&value) {
        Some(bad(asker_of(value), BadKind::Reals))
    } else if is_answer(&value) {
        Some(Message::Answer)
    } else {
        Some(request_of(value))
    }
}

/// Whether the id has a number that is not a 64-bit integer.
fn has_real_id(value: &Value) -> bool
    ensures { result ≡ rpc.has_real_id (view value.now) }
{
    match value.get("id") {
        Some(id) => has_real(id),
        None => false,
    }
}

/// Whether it has a result or an error, and no method.
fn is_answer(value: &Value) -> bool
    ensures { result ≡ rpc.is_answer (view value.now) }
{
    value.get("method").is_none() && (value.get("result").is_some() || value.get("error").is_some())
}

/// The id of the asker, if it has no reals.
fn asker_of(value: Value) -> Option<Tree>
    requires { rpc.has_real_id (view value) ≡ false }
    ensures { result ≡ rpc.asker_of (view value) }
{
    let Value::Object(mut members) = value else {
        return None;
    };
    asker(take_member(&mut members, "id"))
}

/// The message of a tree that has no reals and is not an answer: a call, a notification, or a malformed request.
fn request_of(value: Value) -> Message
    requires { has_real (view value) ≡ false }
    ensures { message_view result ≡ rpc.request_in (view value) }
{
    let Value::Object(mut members) = value else {
        return Message::Answer;
    };
    let method = text_of(take_member(&mut members, "method"));
    let params = items_of(take_member(&mut members, "params"));
    let asker = asker(take_member(&mut members, "id"));
    request(method, params, asker)
}

fn text_of(value: Option<Value>) -> Option<Text>
    ensures { result ≡ option_and_then as_str (option_map view value) }
{
    match value {
        Some(Value::String(text)) => Some(Text::from_string(text)),
        _ => None,
    }
}

fn items_of(value: Option<Value>) -> Option<Trees>
    requires { ForSome value (λ v. has_real (view v) ≡ false) }
    ensures { result ≡ option_and_then as_array (option_map view value) }
{
    match value {
        Some(Value::Array(items)) => Some(Trees::new(items)),
        _ => None,
    }
}

/// The id of the asker, from the member `id`; `None` if that is null or absent.
fn asker(id: Option<Value>) -> Option<Tree>
    requires { ForSome id (λ v. has_real (view v) ≡ false) }
    ensures { result ≡ option_and_then not_null (option_map view id) }
{
    match id {
        None | Some(Value::Null) => None,
        Some(id) => Some(Tree::new(id)),
    }
}

fn request(method: Option<Text>, params: Option<Trees>, asker: Option<Tree>) -> Message
    ensures { message_view result ≡ rpc.request method params asker }
{
    let (Some(method), Some(params)) = (method, params) else {
        return bad(asker, BadKind::Syntax);
    };
    match asker {
        Some(id) => Message::Call { id, method, params },
        None => Message::Notification { method, params },
    }
}

/// Reports the fault to the asker; if there is none, nothing is reported.
fn bad(asker: Option<Tree>, kind: BadKind) -> Message
    ensures { message_view result ≡ rpc.bad asker (bad_kind_view kind) }
{
    match asker {
        Some(id) => Message::Bad { id, kind },
        None => Message::Answer,
    }
}

/// Takes the member of this name out of an object.
fn take_member(members: &mut Map<String, Value>, name: &str) -> Option<Value>
    ensures value { option_map view result
        ≡ get_member name.now (members_view members.old.entries) }
    ensures others { (q : List ℕ) → q ≢ name.now
        → get_member q (members_view members.new.entries)
        ≡ get_member q (members_view members.old.entries) }
{
    members.remove(name)
}
