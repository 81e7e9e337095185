ghost use Rattle.std.specs.Prelude.{◌≡◌, ℕ, IfOk, Some, MatchOption, false, codes};
ghost use Rattle.std.specs.Str.{bytes_eq};
ghost use Rattle.serde_json.specs.Data.{no_items, item};
ghost use Rattle.serde_json.specs.View.{view};
ghost use Rattle.ov_locks.specs.Calls.{lock_call_view};
ghost use Rattle.ov_specs.specs.wire.Frame.{frame, failure_tree, reply_tree};
ghost use Rattle.ov_specs.specs.wire.Method.{database_names, bad_text};
ghost use Rattle.ov_specs.specs.machine.Machine.{State, work_of, call_of, notification_of};
ghost use Rattle.ov_specs.specs.machine.Machine.{cancel_notification, transact_call, transact_work};
ghost use Rattle.ov_specs.specs.machine.Machine.{schema_call, schema_call_on, lock_call};
ghost use Rattle.ov_specs.specs.machine.Machine.{monitor_call, monitor_cancel_call};
ghost use Rattle.ov_specs.specs.wire.Message as rpc;
ghost use Rattle.ov_rpc.specs.Incoming.{StandsFor, is_echo};
ghost use Rattle.ov_rpc.specs.Message.{message_view, bad_kind_view};
ghost use Rattle.ov_requests.specs.Asked.{IsWork};
ghost use Rattle.ov_requests.specs.declared.answer.Work.TheVariants.{Answer};
ghost use Rattle.ov_requests.specs.Params.{is_one_item, are_three_items};

use crate::waiting::Waiting;
use ov_atoms::is_id;
use ov_base::{Bytes, Text, Tree, Trees};
use ov_locks::LockCall;
use ov_rpc::{BadKind, Incoming, Message, failure, reply};
use ov_schema::Schema;
use serde_json::{Value, json};
use std::alloc::{AllocError, Global};

/// What a message asks for (RFC 7047, 4.1). Each variant but the first has the id for its reply.
#[derive(Drop)]
pub enum Work {
    /// A reply at once with this frame, or no reply.
    Answer(Option<Bytes>),
    /// A transaction of these operations.
    Transact(Tree, Trees),
    /// To cancel the session's waiting transaction with this id, which has this text.
    Cancel(Tree, Bytes),
    /// To ask for the lock of this name, or to give it up.
    Lock(LockCall, Tree, Text),
    /// A monitor of this name, with its requests.
    Monitor(Tree, Tree, Tree),
    /// To cancel the monitor of this name.
    CancelMonitor(Tree, Tree),
}

/// The most transactions of a session that may wait.
const MOST_WAITING: usize = 64;

/// The names of the databases (RFC 7047, 4.1.1).
fn names_of(alloc: Global, name: &Text) -> Result<Value, AllocError>
    ensures { IfOk result (λ v. view v ≡ database_names name.now) }
{
    json!(in alloc; [name.as_str()])
}

/// The error text for a request that can't be taken.
fn bad_kind_text(kind: BadKind) -> &'static str
    ensures { result.now ≡ bad_text (bad_kind_view kind) }
{
    match kind {
        BadKind::Syntax => "syntax error",
        BadKind::Reals => "reals not supported",
    }
}

/// Work that is answered at once, with a result.
fn answered_work(alloc: Global, id: Tree, tree: Tree) -> Result<Work, AllocError>
    ensures { IfOk result (λ w. w ≡ Answer (Some (frame (reply_tree id tree)))) }
{
    Ok(Work::Answer(Some(reply(alloc, id, tree)?)))
}

/// Work that is answered at once, with an error instead of a result.
fn refused_work(alloc: Global, id: Tree, text: &str) -> Result<Work, AllocError>
    ensures { IfOk result (λ w. w ≡ Answer (Some (frame (failure_tree id text.now)))) }
{
    Ok(Work::Answer(Some(failure(alloc, id, text)?)))
}

/// The first tree and those after it, not copied; `None` if there is no tree.
fn split_first(trees: Trees) -> Option<(Value, Trees)>
    ensures { MatchOption result (trees ≡ no_items) (λ parts. trees ≡ item (view parts.0) parts.1) }
{
    let Value::Array(mut items) = trees.into_tree().into_value() else {
        unreachable!()
    };
    if items.is_empty() {
        return None;
    }
    let first = items.remove(0);
    Some((first, Trees::new(items)))
}

/// The only tree, not copied; `None` if there is none or more than one.
fn only_tree(trees: Trees) -> Option<Tree>
    ensures { MatchOption result (is_one_item trees ≡ false) (λ tree. trees ≡ item tree no_items) }
{
    let Value::Array(mut items) = trees.into_tree().into_value() else {
        unreachable!()
    };
    if items.len() != 1 {
        return None;
    }
    Some(Tree::new(items.remove(0)))
}

/// The three trees in order, not copied; `None` unless there are exactly three.
fn three_trees(trees: Trees) -> Option<(Tree, Tree, Tree)>
    ensures { MatchOption result (are_three_items trees ≡ false) (λ t. trees
        ≡ item t.0 (item t.1 (item t.2 no_items))) }
{
    let Value::Array(mut items) = trees.into_tree().into_value() else {
        unreachable!()
    };
    if items.len() != 3 {
        return None;
    }
    let third = Tree::new(items.remove(2));
    let second = Tree::new(items.remove(1));
    let first = Tree::new(items.remove(0));
    Some((first, second, third))
}

/// What a transaction on this database asks for: it is tried, unless a transaction of its session with this id waits, or as
/// many of its session wait as may. If none waits, this allocates nothing.
fn transact_work(
    alloc: Global,
    waiting: &Waiting,
    session: u64,
    id: Tree,
    operations: Trees,
) -> Result<Work, AllocError>
    ensures { IfOk result (λ w. (s : State) → s.outstanding ≡ waiting.now.outstanding
        → IsWork s session (transact_work s session id operations) w) }
{
    if waiting.len() == 0 {
        return Ok(Work::Transact(id, operations));
    }
    let text = id.to_bytes(alloc)?;
    if waiting.has_text(session, text.as_slice()) {
        return refused_work(alloc, id, "duplicate request id");
    }
    if waiting.count_of(session) >= MOST_WAITING {
        return refused_work(alloc, id, "resources exhausted");
    }
    Ok(Work::Transact(id, operations))
}

/// What a call of "transact" asks for: its params are the database's name, then the operations (RFC 7047, 4.1.3).
fn transact_call(
    alloc: Global,
    name: &Text,
    waiting: &Waiting,
    session: u64,
    id: Tree,
    params: Trees,
) -> Result<Work, AllocError>
    ensures { IfOk result (λ w. (s : State) → s.schema.name ≡ name.now
        → s.outstanding ≡ waiting.now.outstanding
        → IsWork s session (transact_call s session id params) w) }
{
    let Some((first, operations)) = split_first(params) else {
        return refused_work(alloc, id, "syntax error");
    };
    match first.as_str() {
        None => refused_work(alloc, id, "syntax error"),
        Some(text) => {
            if text == name.as_str() {
                transact_work(alloc, waiting, session, id, operations)
            } else {
                refused_work(alloc, id, "unknown database")
            }
        }
    }
}

/// The schema, if its database is named.
fn schema_named(alloc: Global, schema: &Schema, id: Tree, name: &str) -> Result<Work, AllocError>
    ensures { IfOk result (λ w. (s : State) (session : ℕ) → s.schema ≡ schema.now
        → IsWork s session (schema_call_on s id (Some name.now)) w) }
{
    if name != schema.name().as_str() {
        return refused_work(alloc, id, "unknown database");
    }
    answered_work(alloc, id, schema.tree().copy()?)
}

/// What a call of "get_schema" asks for: its only param is the database's name (RFC 7047, 4.1.2).
fn schema_work(alloc: Global, schema: &Schema, id: Tree, params: &Trees) -> Result<Work, AllocError>
    ensures { IfOk result (λ w. (s : State) (session : ℕ) → s.schema ≡ schema.now
        → IsWork s session (schema_call s id params.now) w) }
{
    let items = params.as_slice();
    if items.len() != 1 {
        return refused_work(alloc, id, "syntax error");
    }
    match items[0].as_str() {
        Some(name) => schema_named(alloc, schema, id, name),
        None => refused_work(alloc, id, "syntax error"),
    }
}

/// What a call on a lock asks for: its only param is the lock's name, an `<id>` (RFC 7047, 4.1.8).
fn lock_work(alloc: Global, call: LockCall, id: Tree, params: Trees) -> Result<Work, AllocError>
    ensures { IfOk result (λ w. (s : State) (session : ℕ)
        → IsWork s session (lock_call s session id (lock_call_view call) params) w) }
{
    let Some(param) = only_tree(params) else {
        return refused_work(alloc, id, "syntax error");
    };
    match param.as_value().as_str() {
        Some(name) if is_id(name) => Ok(Work::Lock(call, id, Text::from_str(alloc, name)?)),
        _ => refused_work(alloc, id, "syntax error"),
    }
}

/// What a call of "monitor" asks for: its params are the database's name, the monitor's name, which may be any value, and an
/// object of requests (RFC 7047, 4.1.5).
fn monitor_work(alloc: Global, schema: &Schema, id: Tree, params: Trees) -> Result<Work, AllocError>
    ensures { IfOk result (λ w. (s : State) (session : ℕ) → s.schema ≡ schema.now
        → IsWork s session (monitor_call s session id params) w) }
{
    let Some((database, name, requests)) = three_trees(params) else {
        return refused_work(alloc, id, "syntax error");
    };
    if !requests.as_value().is_object() {
        return refused_work(alloc, id, "syntax error");
    }
    match database.as_value().as_str() {
        None => refused_work(alloc, id, "syntax error"),
        Some(text) => {
            if text == schema.name().as_str() {
                Ok(Work::Monitor(id, name, requests))
            } else {
                refused_work(alloc, id, "unknown database")
            }
        }
    }
}

/// What a call of "monitor_cancel" asks for: its only param is the monitor's name (RFC 7047, 4.1.7).
fn monitor_cancel_work(alloc: Global, id: Tree, params: Trees) -> Result<Work, AllocError>
    ensures { IfOk result (λ w. (s : State) (session : ℕ)
        → IsWork s session (monitor_cancel_call s session id params) w) }
{
    match only_tree(params) {
        Some(name) => Ok(Work::CancelMonitor(id, name)),
        None => refused_work(alloc, id, "syntax error"),
    }
}

/// What a call that is no echo asks for, method by method (RFC 7047, 4.1).
fn call_work(
    alloc: Global,
    schema: &Schema,
    waiting: &Waiting,
    session: u64,
    id: Tree,
    method: &str,
    params: Trees,
) -> Result<Work, AllocError>
    ensures { bytes_eq method.now (codes "echo") ≡ false
        → IfOk result (λ w. (s : State) → s.schema ≡ schema.now
        → s.outstanding ≡ waiting.now.outstanding
        → IsWork s session (call_of s session id method.now params) w) }
{
    match method {
        "list_dbs" => answered_work(alloc, id, Tree::new(names_of(alloc, schema.name())?)),
        "get_schema" => schema_work(alloc, schema, id, &params),
        "transact" => transact_call(alloc, schema.name(), waiting, session, id, params),
        "lock" => lock_work(alloc, LockCall::Lock, id, params),
        "steal" => lock_work(alloc, LockCall::Steal, id, params),
        "unlock" => lock_work(alloc, LockCall::Unlock, id, params),
        "monitor" => monitor_work(alloc, schema, id, params),
        "monitor_cancel" => monitor_cancel_work(alloc, id, params),
        _ => refused_work(alloc, id, "unknown method"),
    }
}

/// What the only param of "cancel" asks for: to cancel the session's waiting transaction with this id, if there is one.
fn cancel_work(alloc: Global, waiting: &Waiting, session: u64, id: Tree) -> Result<Work, AllocError>
    ensures { IfOk result (λ w. (s : State) → s.outstanding ≡ waiting.now.outstanding
        → IsWork s session (cancel_notification s session (item id no_items)) w) }
{
    let text = id.to_bytes(alloc)?;
    if waiting.has_text(session, text.as_slice()) {
        Ok(Work::Cancel(id, text))
    } else {
        Ok(Work::Answer(None))
    }
}

/// What the params of "cancel" ask for (RFC 7047, 4.1.4).
fn cancel_params(
    alloc: Global,
    waiting: &Waiting,
    session: u64,
    params: Trees,
) -> Result<Work, AllocError>
    ensures { IfOk result (λ w. (s : State) → s.outstanding ≡ waiting.now.outstanding
        → IsWork s session (cancel_notification s session params) w) }
{
    match only_tree(params) {
        Some(id) => cancel_work(alloc, waiting, session, id),
        None => Ok(Work::Answer(None)),
    }
}

/// What a notification asks for: only to cancel (RFC 7047, 4.1.4). If no transaction waits, this allocates nothing.
fn notification_work(
    alloc: Global,
    waiting: &Waiting,
    session: u64,
    method: &str,
    params: Trees,
) -> Result<Work, AllocError>
    ensures { IfOk result (λ w. (s : State) → s.outstanding ≡ waiting.now.outstanding
        → IsWork s session (notification_of s session method.now params) w) }
{
    if waiting.len() == 0 {
        return Ok(Work::Answer(None));
    }
    if method == "cancel" {
        cancel_params(alloc, waiting, session, params)
    } else {
        Ok(Work::Answer(None))
    }
}

/// What a message of a session that is no echo asks for.
fn message_work(
    alloc: Global,
    schema: &Schema,
    waiting: &Waiting,
    session: u64,
    message: Message,
) -> Result<Work, AllocError>
    ensures { is_echo (message_view message) ≡ false
        → IfOk result (λ w. (s : State) → s.schema ≡ schema.now
        → s.outstanding ≡ waiting.now.outstanding
        → IsWork s session (work_of s session (message_view message)) w) }
{
    match message {
        Message::Call { id, method, params } => {
            call_work(alloc, schema, waiting, session, id, method.as_str(), params)
        }
        Message::Notification { method, params } => {
            notification_work(alloc, waiting, session, method.as_str(), params)
        }
        Message::Bad { id, kind } => refused_work(alloc, id, bad_kind_text(kind)),
        Message::Answer => Ok(Work::Answer(None)),
    }
}

/// What a session asks for with what it takes in, given the database's schema and the waiting transactions. The reply to an
/// echo is passed on as it is.
pub fn work_of(
    alloc: Global,
    schema: &Schema,
    waiting: &Waiting,
    session: u64,
    incoming: Incoming,
) -> Result<Work, AllocError>
    ensures { IfOk result (λ w. (s : State) (message : rpc.Message) → StandsFor incoming message
        → s.schema ≡ schema.now → s.outstanding ≡ waiting.now.outstanding
        → IsWork s session (work_of s session message) w) }
{
    match incoming {
        Incoming::Echo(frame) => Ok(Work::Answer(Some(frame))),
        Incoming::Message(message) => message_work(alloc, schema, waiting, session, message),
    }
}
