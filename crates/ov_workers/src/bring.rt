ghost use Rattle.std.specs.Prelude.{◌≡◌, ◌++◌, ◌∷◌, [], ℕ, List};
ghost use Rattle.rtrb.specs.Ring.{sent};
ghost use Rattle.ov_workers.specs.Inlet.{SameInlet};
ghost use Rattle.ov_workers.specs.Bringing.{BringsAll, IsBrought, BroughtSoFar};

use crate::cause::ReadCause;
use crate::common::Common;
use crate::gate::{Gate, Point};
use crate::inlet::Inlet;
use ov_cut::{Cutter, PieceRead, StreamFault};
use ov_order::Brought;
use ov_rpc::Received;
use std::sync::Wait;
use std::sync::ledger::Ledger;

/// Brings the desk an item, after passing the gate.
pub(crate) fn bring<R: Wait, L: Ledger, G: Gate>(
    common: Common<'_, R, L, G>,
    inlet: &mut Inlet<L>,
    item: Brought<Received, ReadCause>,
)
    ensures inlet { SameInlet inlet.old inlet.new }
    ensures sent { sent inlet.new.ring ≡ sent inlet.old.ring ++ item ∷ [] }
{
    common.gate.pass(inlet.noter.serial, Point::BeforePush);
    common
        .order
        .bring(common.rt, &mut inlet.ring, &mut inlet.noter, item);
}

/// Brings these messages.
fn bring_all<R: Wait, L: Ledger, G: Gate>(
    common: Common<'_, R, L, G>,
    inlet: &mut Inlet<L>,
    messages: Vec<Received>,
)
    ensures inlet { SameInlet inlet.old inlet.new }
    ensures brought { BringsAll messages.items (sent inlet.old.ring) (sent inlet.new.ring) }
{
    for message in messages {
        bring(common, inlet, Brought::Message(message));
    }
}

/// Brings the messages that a piece of the stream ends. Returns why the stream can't be read on, if so.
pub(crate) fn bring_piece<R: Wait, L: Ledger, G: Gate>(
    common: Common<'_, R, L, G>,
    inlet: &mut Inlet<L>,
    cutter: &mut Cutter,
    piece: &[u8],
) -> Option<StreamFault>
    ensures inlet { SameInlet inlet.old inlet.new }
    ensures brought { (stream : List ℕ) → IsBrought stream cutter.old (sent inlet.old.ring)
        → BroughtSoFar result (stream ++ piece.now) cutter.new (sent inlet.new.ring) }
{
    let PieceRead { messages, fault } = cutter.read(common.alloc, piece);
    bring_all(common, inlet, messages);
    fault
}
