ghost use Rattle.std.specs.Prelude.{◌≡◌, ℕ, List};
ghost use Rattle.ov_cut.specs.Reading.{IsFed, ReadsPiece, ReadsText, ReadsTexts, first_fault};

use crate::cutter::{Cutter, Fed};
use crate::fault::{CutFault, StreamFault};
use ov_base::Bytes;
use ov_rpc::{Received, RpcFault};
use std::alloc::Global;

/// What was read of a piece of a stream.
#[derive(Drop)]
pub struct PieceRead {
    /// The messages that end in the piece, in order.
    pub messages: Vec<Received>,
    /// Why the stream can't be read on.
    pub fault: Option<StreamFault>,
}

impl Cutter {
    /// Takes the next piece of the stream, of any length, and reads the messages that end in it, up to the first that can't be
    /// read. A fault ends the stream; the contract says nothing of a later piece.
    pub fn read(&mut self, alloc: Global, piece: &[u8]) -> PieceRead
        ensures { (stream : List ℕ) → IsFed stream self.old
            → ReadsPiece stream piece.now result.messages.items result.fault self.new }
    {
        let Fed {
            messages: texts,
            fault: cut,
        } = self.feed(alloc, piece);
        let PieceRead { messages, fault } = read_texts(alloc, texts);
        PieceRead {
            messages,
            fault: fault_of(fault, cut),
        }
    }
}

/// Reads the messages of these texts, up to the first that can't be read.
fn read_texts(alloc: Global, texts: Vec<Bytes>) -> PieceRead
    ensures { ReadsTexts texts.items result.messages.items result.fault }
{
    let mut messages = Vec::new(alloc);
    for text in texts {
        if let Err(fault) = read_text(alloc, &mut messages, text) {
            return PieceRead {
                messages,
                fault: Some(fault),
            };
        }
    }
    PieceRead {
        messages,
        fault: None,
    }
}

/// Reads the message of a text, and appends it.
fn read_text(alloc: Global, messages: &mut Vec<Received>, text: Bytes) -> Result<(), StreamFault>
    ensures { ReadsText text messages.old.items result messages.new.items }
{
    let message = match Received::read(alloc, text) {
        Ok(message) => message,
        Err(RpcFault::Unreadable) => return Err(StreamFault::Damaged),
        Err(RpcFault::Memory) => return Err(StreamFault::Memory),
    };
    if messages.push(message).is_err() {
        return Err(StreamFault::Memory);
    }
    Ok(())
}

/// Why reading ended: by a text, or else by the cutter.
fn fault_of(text: Option<StreamFault>, cut: Option<CutFault>) -> Option<StreamFault>
    ensures { result ≡ first_fault text cut }
{
    match (text, cut) {
        (Some(fault), _) => Some(fault),
        (None, None) => None,
        (None, Some(CutFault::Damaged(_) | CutFault::TooLong)) => Some(StreamFault::Damaged),
        (None, Some(CutFault::Memory)) => Some(StreamFault::Memory),
    }
}
