ghost use Rattle.std.specs.Prelude.{◌≡◌, ◌++◌, ◌∷◌, [], ℕ, List, map, not, is_some, MatchOption};
ghost use Rattle.rtrb.specs.Ring.{received, SameConsumer};
ghost use Rattle.ov_ends.specs.States.{sink_of};
ghost use Rattle.ov_ends.specs.Ends.{GivesWritten};
ghost use Rattle.ov_ends.specs.Writing.{CountsFailures};
ghost use Rattle.ov_order.specs.declared.items.Sent.TheVariants.{Frame, End};
ghost use Rattle.ov_workers.specs.Writing.{Writes};

use crate::common::Common;
use crate::gate::{Gate, Point};
use ov_ends::{Sink, write_frame};
use ov_order::{Bell, Sent};
use rtrb::Consumer;
use std::sync::Wait;
use std::sync::ledger::Ledger;

/// What a writer's worker returns.
#[derive(Drop)]
pub struct WriteEnd<W> {
    /// The writer, after its last write.
    pub writer: W,
    /// The worker's end of the ring, from which it took the end mark last.
    pub ring: Consumer<Sent>,
    /// Whether a write or a flush failed; the frames after it were dropped.
    pub failed: bool,
}

/// Takes what is in its ring and writes each frame whole, with nothing between two frames, until it takes the end mark; then
/// it flushes. When the ring is empty before that, it flushes what it wrote and waits for its bell. Once the writer has
/// failed it is not used again, and the frames that are taken are dropped. The serial is for the gate alone.
///
/// It waits forever if no end mark comes, or if the bell is not rung after it.
pub fn write_worker<R: Wait, L: Ledger, G: Gate, W: Sink>(
    common: Common<'_, R, L, G>,
    bell: &Bell,
    serial: u64,
    writer: W,
    ring: Consumer<Sent>,
) -> WriteEnd<W>
    requires { received ring ≡ [] }
    ensures ring { SameConsumer ring result.ring }
    ensures wrote { Writes (not result.failed) (sink_of W.Sink writer)
        (sink_of W.Sink result.writer) (received result.ring) }
{
    let mut writer = writer;
    let mut ring = ring;
    let failed = !write_all(common.rt, bell, common.gate, serial, &mut writer, &mut ring);
    WriteEnd {
        writer,
        ring,
        failed,
    }
}

/// Writes the frames of the ring up to the end mark. Returns false if the writer failed; the frames are taken all the same.
fn write_all<R: Wait, G: Gate, W: Sink>(
    rt: &R,
    bell: &Bell,
    gate: &G,
    serial: u64,
    writer: &mut W,
    ring: &mut Consumer<Sent>,
) -> bool
    requires { received ring.old ≡ [] }
    ensures ring { SameConsumer ring.old ring.new }
    ensures wrote { Writes result (sink_of W.Sink writer.old)
        (sink_of W.Sink writer.new) (received ring.new) }
{
    let mut is_held = false;
    for _ in rt.forever() {
        match next_item(rt, bell, is_held, writer, ring) {
            Some(Sent::End) => return writer.flush(),
            Some(Sent::Frame(frame)) => {
                gate.pass(serial, Point::BeforeWrite);
                if !write_frame(writer, frame.as_slice()) {
                    drop_frames(rt, bell, ring);
                    return false;
                }
            }
            None => {
                drop_frames(rt, bell, ring);
                return false;
            }
        }
        is_held = true;
    }
    unreachable!()
}

/// Takes the next item. Before it waits for one it flushes, if something was written since the last flush. None if that
/// failed, and then nothing is taken.
fn next_item<R: Wait, W: Sink>(
    rt: &R,
    bell: &Bell,
    is_held: bool,
    writer: &mut W,
    ring: &mut Consumer<Sent>,
) -> Option<Sent>
    ensures ring { SameConsumer ring.old ring.new }
    ensures taken { MatchOption result (received ring.new
        ≡ received ring.old) (λ item. received ring.new ≡ received ring.old ++ item ∷ []) }
    ensures written { W.bytes_written writer.new ≡ W.bytes_written writer.old }
    ensures given { GivesWritten (W.bytes_written writer.old) (W.contents writer.old)
        (W.bytes_written writer.new) (W.contents writer.new) }
    ensures faults { CountsFailures (is_some result) (W.faults writer.old) (W.faults writer.new) }
{
    match ring.pop() {
        Ok(item) => Some(item),
        Err(_) => {
            if is_held && !writer.flush() {
                return None;
            }
            Some(wait_item(rt, bell, ring))
        }
    }
}

/// Takes the next item, and waits for the bell if there is none.
fn wait_item<R: Wait>(rt: &R, bell: &Bell, ring: &mut Consumer<Sent>) -> Sent
    ensures ring { SameConsumer ring.old ring.new }
    ensures taken { received ring.new ≡ received ring.old ++ result ∷ [] }
{
    for _ in rt.forever() {
        if let Ok(item) = ring.pop() {
            return item;
        }
        bell.wait(rt);
    }
    unreachable!()
}

/// Takes frames and drops them, up to the end mark.
fn drop_frames<R: Wait>(rt: &R, bell: &Bell, ring: &mut Consumer<Sent>)
    ensures ring { SameConsumer ring.old ring.new }
    ensures taken { (frames : List (List ℕ))
        × (received ring.new ≡ received ring.old ++ (map Frame frames ++ End ∷ [])) }
{
    for _ in rt.forever() {
        match wait_item(rt, bell, ring) {
            Sent::End => return,
            Sent::Frame(_frame) => {}
        }
    }
    unreachable!()
}
