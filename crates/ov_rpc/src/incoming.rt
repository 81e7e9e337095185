ghost use Rattle.std.specs.Prelude.{IfOk};
ghost use Rattle.ov_specs.specs.wire.Message as rpc;
ghost use Rattle.ov_rpc.specs.Message.{message_view};
ghost use Rattle.ov_rpc.specs.Incoming.{StandsFor};

use crate::frame::reply;
use crate::message::Message;
use ov_base::{Bytes, Text, Tree, Trees};
use std::alloc::{AllocError, Global};

/// A message as the machine receives it. The reply to an echo depends on no state, so the thread that reads the message writes
/// it, and a long echo does not delay other sessions.
#[derive(Drop)]
pub enum Incoming {
    /// The frame of the reply to an echo (RFC 7047, 4.1.11).
    Echo(Bytes),
    /// A message that is no echo.
    Message(Message),
}

impl Incoming {
    /// Writes the reply if the message is an echo, and keeps the message otherwise.
    pub(crate) fn new(alloc: Global, message: Message) -> Result<Incoming, AllocError>
        ensures { IfOk result (λ i. StandsFor i (message_view message)) }
    {
        match message {
            Message::Call { id, method, params } => call(alloc, id, method, params),
            message => Ok(Incoming::Message(message)),
        }
    }
}

/// Writes the reply of a call if its method is "echo".
fn call(alloc: Global, id: Tree, method: Text, params: Trees) -> Result<Incoming, AllocError>
    ensures { IfOk result (λ i. StandsFor i (rpc.Call id method params)) }
{
    if method.as_str() == "echo" {
        return Ok(Incoming::Echo(reply(alloc, id, params.into_tree())?));
    }
    Ok(Incoming::Message(Message::Call { id, method, params }))
}
