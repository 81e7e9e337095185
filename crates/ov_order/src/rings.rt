ghost use Rattle.std.specs.Prelude.{◌≡◌, [], ◌∷◌, ◌++◌, IfOk};
ghost use Rattle.rtrb.specs.Ring.{sent, SameProducer};
ghost use Rattle.ov_order.specs.Rings.{IsNewRing};

use crate::items::{Brought, Sent};
use rtrb::{Consumer, Producer, PushError, RingBuffer};
use std::alloc::{AllocError, Global};
use std::sync::Wait;
use std::thread;

/// How many items brought by its reader may wait for a session.
const INBOUND_CAPACITY: usize = 64;

/// How many frames may wait for a session's writer, and the end mark after them.
const OUTBOUND_CAPACITY: usize = 1_024 + 1;

/// A ring from a reader to the desk, with room for 64 items.
pub fn inbound_ring<M: Drop, C: Drop>(
    alloc: Global,
) -> Result<(Producer<Brought<M, C>>, Consumer<Brought<M, C>>), AllocError>
    ensures { IfOk result (λ ring. IsNewRing 64 ring.0 ring.1) }
{
    RingBuffer::new(alloc, INBOUND_CAPACITY)
}

/// A ring from the desk to a writer, with room for 1,024 frames; the last place is for the end mark.
pub fn outbound_ring(alloc: Global) -> Result<(Producer<Sent>, Consumer<Sent>), AllocError>
    ensures { IfOk result (λ ring. IsNewRing 1025 ring.0 ring.1) }
{
    RingBuffer::new(alloc, OUTBOUND_CAPACITY)
}

/// Pushes the item once there is room for it. That is never if the ring is full and its other end is gone.
pub(crate) fn wait_push<R: Wait, T: Drop>(rt: &R, ring: &mut Producer<T>, item: T)
    ensures ring { SameProducer ring.old ring.new }
    ensures sent { sent ring.new ≡ sent ring.old ++ item ∷ [] }
{
    let mut item = item;
    for _ in rt.forever() {
        match ring.push(item) {
            Ok(()) => return,
            Err(PushError::Full(back)) => item = back,
        }
        thread::yield_now();
    }
    unreachable!()
}
