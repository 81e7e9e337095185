ghost use Rattle.std.specs.Prelude.{◌≡◌, true};
ghost use Rattle.ov_ends.specs.Ends.{GivesWritten};
ghost use Rattle.ov_ends.specs.Writing.{CountsFailures};
ghost use Rattle.ov_serve.specs.Progress.{Sends};

use ov_core::{Core, Session};
use ov_ends::{Sink, write_frame};
use ov_keeper::Keeper;
use ov_requests::Draws;

/// Writes all that waits for the session, oldest first, and flushes it. Returns false if the writer failed.
pub(crate) fn write_waiting<K: Keeper + Drop, D: Draws + Drop, W: Sink>(
    core: &mut Core<K, D>,
    session: Session,
    writer: &mut W,
) -> bool
    ensures sends { Sends session.serial result core.old core.new (W.bytes_written writer.old)
        (W.bytes_written writer.new) }
    ensures given { GivesWritten (W.bytes_written writer.old) (W.contents writer.old)
        (W.bytes_written writer.new) (W.contents writer.new) }
    ensures state { core.new.state ≡ core.old.state }
    ensures keeper { core.new.keeper ≡ core.old.keeper }
    ensures flushed { result ≡ true → W.is_flushed writer.new ≡ true }
    ensures faults { CountsFailures result (W.faults writer.old) (W.faults writer.new) }
{
    while let Some(frame) = core.next_frame(session) {
        if !write_frame(writer, frame.as_slice()) {
            return false;
        }
    }
    writer.flush()
}
