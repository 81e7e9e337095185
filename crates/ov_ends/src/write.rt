ghost use Rattle.ov_ends.specs.Ends.{GivesWritten};
ghost use Rattle.ov_ends.specs.Writing.{WritesOf, CountsFailures};

use crate::ends::Sink;

/// Writes the bytes whole, in as many writes as it takes; a write of no byte is an error. Returns false if the writer
/// failed; the failure is counted, and a beginning of the bytes was written. It doesn't flush.
pub fn write_frame<W: Sink>(writer: &mut W, bytes: &[u8]) -> bool
    ensures written { WritesOf result bytes.now (W.bytes_written writer.old)
        (W.bytes_written writer.new) }
    ensures given { GivesWritten (W.bytes_written writer.old) (W.contents writer.old)
        (W.bytes_written writer.new) (W.contents writer.new) }
    ensures faults { CountsFailures result (W.faults writer.old) (W.faults writer.new) }
{
    let mut rest = bytes;
    while !rest.is_empty() {
        match writer.write(rest) {
            Some(n) => rest = &rest[n..],
            None => return false,
        }
    }
    true
}
