ghost use Rattle.std.specs.Prelude.{◌≡◌, Some, None, IfOk};
ghost use Rattle.ov_specs.specs.wire.Message.{message_in};
ghost use Rattle.ov_rpc.specs.Incoming.{StandsFor};

use crate::fault::RpcFault;
use crate::incoming::Incoming;
use crate::message::Message;
use ov_base::Bytes;
use std::alloc::Global;
use std::marker::Model;

/// A message as it is taken in, with the text that it was cut as. Contracts see it as the message.
#[derive(Drop)]
pub struct Received {
    incoming: Incoming,
    text: MessageText,
}

impl Model for Received {
    ghost use Rattle.ov_specs.specs.wire.Message.{Message};
    ghost use Rattle.std.specs.Coded.{codes};
    ghost use Rattle.ov_specs.specs.codes.TreeCode.{tree_code, items_code};
    ghost use Rattle.ov_rpc.specs.Incoming.{StandsFor};

    ghost Value = { Message };

    ghost coded = { Prim.hlevel (codes, tree_code, items_code) };

    ghost view = { λ r. r.text };

    ghost invariant = { λ r. StandsFor r.incoming r.text };
}

impl Received {
    /// Reads the message of a text, and keeps the text, which is not copied; writes the reply if the message is an echo.
    /// `Message::read` says when a text is unreadable.
    pub fn read(alloc: Global, text: Bytes) -> Result<Received, RpcFault>
        ensures message { IfOk result (λ m. message_in text ≡ Some m) }
        ensures unreadable { result ≡ Err RpcFault.Unreadable → message_in text ≡ None }
    {
        let message = Message::read(alloc, text.as_slice())?;
        let incoming = Incoming::new(alloc, message)?;
        let text = MessageText { text };
        Ok(Received { incoming, text })
    }

    /// Splits it into the message as it is taken in and its text.
    pub fn into_parts(self) -> (Incoming, MessageText)
        ensures incoming { StandsFor result.0 self }
        ensures text { result.1 ≡ self }
    {
        let Received { incoming, text } = self;
        (incoming, text)
    }
}

/// The text of a message, which contracts see as the message. It occupies only its bytes, while the tree of a message can
/// occupy many times as much.
#[derive(Drop)]
pub struct MessageText {
    text: Bytes,
}

impl Model for MessageText {
    ghost use Rattle.std.specs.Prelude.{◌≡◌, is_some, true};
    ghost use Rattle.ov_specs.specs.wire.Message.{Message, message_in};
    ghost use Rattle.std.specs.Coded.{codes};
    ghost use Rattle.ov_specs.specs.codes.TreeCode.{tree_code, items_code};
    ghost use Rattle.ov_rpc.specs.MessageText.{message_of_text};

    ghost Value = { Message };

    ghost coded = { Prim.hlevel (codes, tree_code, items_code) };

    ghost view = { λ t. message_of_text t.text };

    ghost invariant = { λ t. is_some (message_in t.text) ≡ true };
}

impl MessageText {
    /// The text.
    pub fn as_slice(&self) -> &[u8]
        ensures { message_in result.now ≡ Some self.now }
    {
        self.text.as_slice()
    }
}
