ghost use Rattle.std.specs.Prelude.{◌≡◌, Some, None, IfOk};
ghost use Rattle.ov_specs.specs.wire.Message.{message_in};
ghost use Rattle.ov_rpc.specs.Message.{message_view};

use crate::fault::RpcFault;
use crate::request::message_of;
use ov_base::{Text, Tree, Trees};
use serde_json::Value;
use std::alloc::Global;

/// Why a request can't be taken.
#[derive(Clone, Copy, Debug, PartialEq, Eq)]
pub enum BadKind {
    /// It is malformed.
    Syntax,
    /// It has a number that is not a 64-bit integer.
    Reals,
}

/// What a peer sends (JSON-RPC 1.0, 1).
#[derive(Drop)]
pub enum Message {
    /// A request that expects a reply (JSON-RPC 1.0, 1.1).
    Call {
        id: Tree,
        method: Text,
        params: Trees,
    },
    /// A notification: its id is null or absent (JSON-RPC 1.0, 1.3).
    Notification {
        method: Text,
        params: Trees,
    },
    /// A reply to a request of ours (JSON-RPC 1.0, 1.2).
    Answer,
    /// A request that is answered with an error.
    Bad {
        id: Tree,
        kind: BadKind,
    },
}

impl Message {
    /// Reads the message of a text. The text is unreadable if it is not UTF-8 or not JSON, or if its id has a number that is
    /// not a 64-bit integer.
    ///
    /// A request that can't be taken is `Bad` if it has an id; otherwise it is `Answer`, which gets no reply. A text nests at
    /// most 127 levels deep, counting the message's own object; a deeper one is unreadable.
    pub fn read(alloc: Global, text: &[u8]) -> Result<Message, RpcFault>
        ensures message { IfOk result (λ m. message_in text.now ≡ Some (message_view m)) }
        ensures unreadable { result ≡ Err RpcFault.Unreadable → message_in text.now ≡ None }
    {
        let value = match Value::from_slice(alloc, text) {
            Ok(value) => value,
            Err(error) if error.is_memory() => return Err(RpcFault::Memory),
            Err(_) => return Err(RpcFault::Unreadable),
        };
        match message_of(value) {
            Some(message) => Ok(message),
            None => Err(RpcFault::Unreadable),
        }
    }
}
