ghost use Rattle.std.specs.Prelude.{◌≡◌, [], ◌∷◌, ◌++◌};
ghost use Rattle.rtrb.specs.Ring.{sent, known_free, received, IsPair, SameConsumer};
ghost use Rattle.ov_threads.specs.Handing.{kept_if};

use ov_order::Leave;
use rtrb::{Consumer, Producer, RingBuffer};
use std::alloc::{AllocError, Global};
use std::sync::Wait;
use std::sync::ledger::Ledger;
use std::thread;

/// A new ring of one item, through which a worker's thread is handed its end of a link, or `None` if there is no work.
#[derive(Drop)]
pub struct HandRing<T> {
    /// The end that hands.
    pub to_worker: Producer<Option<T>>,
    /// The end of the thread.
    pub from_desk: Consumer<Option<T>>,
    ghost pair: { IsPair to_worker from_desk },
    ghost unsent: { (sent to_worker ≡ []) × (known_free to_worker ≡ 1) },
    ghost unreceived: { received from_desk ≡ [] },
}

impl<T: Drop> HandRing<T> {
    /// A ring through which nothing was handed.
    pub fn new(alloc: Global) -> Result<HandRing<T>, AllocError> {
        let (to_worker, from_desk) = RingBuffer::new(alloc, 1)?;
        Ok(HandRing {
            to_worker,
            from_desk,
        })
    }
}

/// The rings through which the two workers of a session are handed their ends of its link.
#[derive(Drop)]
pub struct Hands<S, W> {
    /// The reader's.
    pub reader: HandRing<S>,
    /// The writer's.
    pub writer: HandRing<W>,
}

impl<S: Drop, W: Drop> Hands<S, W> {
    /// Two new rings. Allocates all that the hand-over needs.
    pub fn new(alloc: Global) -> Result<Hands<S, W>, AllocError> {
        let reader = HandRing::new(alloc)?;
        let writer = HandRing::new(alloc)?;
        Ok(Hands { reader, writer })
    }
}

/// Takes what is handed, once it is there. Waits forever if nothing is. Asks for the leave that `wait_begin` returned.
///
/// It polls, yielding after each look, so call it only shortly before something is handed.
pub fn take_handed<R: Wait, L: Ledger, T: Drop>(
    rt: &R,
    _leave: &Leave<L>,
    hand: &mut Consumer<Option<T>>,
) -> Option<T>
    ensures hand { SameConsumer hand.old hand.new }
    ensures taken { received hand.new ≡ received hand.old ++ result ∷ [] }
{
    for _ in rt.forever() {
        if let Ok(item) = hand.pop() {
            return item;
        }
        thread::yield_now();
    }
    unreachable!()
}

/// The end of a link if it is kept; otherwise it is dropped, which closes it.
pub(crate) fn keep_or_drop<T: Drop>(keeps: bool, end: T) -> Option<T>
    ensures { result ≡ kept_if keeps end }
{
    if keeps { Some(end) } else { None }
}
