ghost use Rattle.std.specs.Prelude.{◌≡◌, []};
ghost use Rattle.rtrb.specs.Ring.{sent};
ghost use Rattle.ov_ends.specs.States.{source_of};
ghost use Rattle.ov_workers.specs.Reading.{BringsItems};
ghost use Rattle.ov_workers.specs.Bringing.{ReadsToEnd};
ghost use Rattle.ov_workers.specs.Inlet.{SameInlet};

use crate::bring::{bring, bring_piece};
use crate::cause::ReadCause;
use crate::common::Common;
use crate::gate::Gate;
use crate::inlet::Inlet;
use ov_cut::Cutter;
use ov_ends::Source;
use ov_order::Brought;
use std::sync::Wait;
use std::sync::ledger::Ledger;

/// The most bytes that are read at once.
const PIECE_BYTES: usize = 4096;

/// What a reader's worker returns.
#[derive(Drop)]
pub struct ReadEnd<S, L: Ledger> {
    /// The reader, after its last read.
    pub reader: S,
    /// The worker's side of the session; the end mark was put into the ring last.
    pub inlet: Inlet<L>,
    /// The cause in the end mark.
    pub cause: ReadCause,
}

/// Reads the stream in pieces of at most 4,096 bytes until the input ends, a read fails, the stream is damaged or an
/// allocation for a message fails; brings the desk each message that the stream asks for, and last one end mark with the
/// cause.
///
/// It waits while its ring or the order of notes is full, forever if nobody takes anything out.
pub fn read_worker<R: Wait, L: Ledger, G: Gate, S: Source>(
    common: Common<'_, R, L, G>,
    reader: S,
    inlet: Inlet<L>,
) -> ReadEnd<S, L>
    requires fresh { sent inlet.ring ≡ [] }
    ensures inlet { SameInlet inlet result.inlet }
    ensures brought { BringsItems result.cause (source_of S.Source reader)
        (source_of S.Source result.reader) (sent result.inlet.ring) }
{
    let mut reader = reader;
    let mut inlet = inlet;
    let cause = read_messages(common, &mut inlet, &mut reader);
    bring(common, &mut inlet, Brought::End(cause));
    ReadEnd {
        reader,
        inlet,
        cause,
    }
}

/// Brings the messages of what the reader gives, until the stream ends, and returns why it did.
fn read_messages<R: Wait, L: Ledger, G: Gate, S: Source>(
    common: Common<'_, R, L, G>,
    inlet: &mut Inlet<L>,
    reader: &mut S,
) -> ReadCause
    requires fresh { sent inlet.old.ring ≡ [] }
    ensures inlet { SameInlet inlet.old inlet.new }
    ensures brought { ReadsToEnd result (source_of S.Source reader.old)
        (source_of S.Source reader.new) (sent inlet.new.ring) }
{
    let mut cutter = Cutter::new(common.alloc);
    let mut piece = [0u8; PIECE_BYTES];
    for _ in common.rt.forever() {
        match reader.read(&mut piece) {
            Some(0) => return ReadCause::InputEnded,
            Some(n) => {
                let read = &piece[..n];
                if let Some(fault) = bring_piece(common, inlet, &mut cutter, read) {
                    return ReadCause::from(fault);
                }
            }
            None => return ReadCause::ReadFault,
        }
    }
    unreachable!()
}
