ghost use Rattle.std.specs.Prelude.{◌≡◌, ◌+◌, [], ◌∷◌, ◌++◌, MatchOption};
ghost use Rattle.rtrb.specs.Ring.{sent, SameProducer};

use crate::bell::LOOKS;
use crate::book::OrderBook;
use crate::leave::Leave;
use crate::noter::Noter;
use crate::rings::wait_push;
use crate::taken::Taken;
use rtrb::Producer;
use std::alloc::{AllocError, Global};
use std::rt::Clock;
use std::sync::ledger::{Book, Ledger};
use std::sync::{Condvar, Mutex, MutexGuard, Wait};
use std::thread;
use std::time::Duration;

/// How many milliseconds the desk sleeps at most while it may not wait for a note without end.
const NAP_MILLISECONDS: u64 = 1;

/// An order book that the desk and all workers share. A thread that changes the book under its lock wakes those that wait
/// for a change.
///
/// No contract can say what another thread finds in the book. So no call here says what it does to the book: `OrderBook`
/// says that, and each of these calls makes one call of it. What was taken is in the trace of the thread that takes.
#[derive(Drop)]
pub struct Order<L: Ledger> {
    book: Mutex<OrderBook<L>>,
    changed: Condvar,
}

impl<L: Ledger> Order<L> {
    /// A book with nothing noted, and not yet decided whether the workers may begin. Allocates the room for all notes that may
    /// wait.
    pub fn new(alloc: Global, ledger: Book<L>) -> Result<Order<L>, AllocError>
        requires { ledger.total ≡ 0 }
    {
        let book = OrderBook::new(alloc, ledger)?;
        Ok(Order {
            book: Mutex::new(book),
            changed: Condvar::new(),
        })
    }

    /// Locks the book, once nobody else has it. Dropping the guard unlocks it.
    pub fn lock<R: Wait>(&self, rt: &R) -> MutexGuard<'_, OrderBook<L>> {
        self.book.lock(rt)
    }

    /// Wakes all that wait for a change of the book. Call it after each `note` and `begin` of the book, and best without the
    /// lock.
    pub fn wake(&self) {
        self.changed.notify_all();
    }

    /// Notes the noter's serial once there is room for the note, and wakes all that wait.
    fn wait_note<R: Wait>(&self, rt: &R, noter: &mut Noter<L>)
        ensures amount { noter.new.share.amount ≡ noter.old.share.amount + 1 }
        ensures noter { (noter.new.serial ≡ noter.old.serial)
            × (noter.new.share.parts ≡ noter.old.share.parts) }
    {
        for _ in rt.forever() {
            let is_noted = self.lock(rt).note(noter);
            if is_noted {
                self.wake();
                return;
            }
            thread::yield_now();
        }
        unreachable!()
    }

    /// Brings the desk an item: pushes it into the ring once there is room, and then notes the noter's serial. Each is done
    /// once, so a worker that brings all its items this way has as many notes in its share as items in its ring.
    pub fn bring<R: Wait, T: Drop>(
        &self,
        rt: &R,
        ring: &mut Producer<T>,
        noter: &mut Noter<L>,
        item: T,
    )
        ensures ring { SameProducer ring.old ring.new }
        ensures sent { sent ring.new ≡ sent ring.old ++ item ∷ [] }
        ensures amount { noter.new.share.amount ≡ noter.old.share.amount + 1 }
        ensures noter { (noter.new.serial ≡ noter.old.serial)
            × (noter.new.share.parts ≡ noter.old.share.parts) }
    {
        wait_push(rt, ring, item);
        self.wait_note(rt, noter);
    }

    /// Takes the oldest note, if one comes while the thread looks for it.
    fn look_for_next<R: Wait>(&self, rt: &R, taken: &mut Taken) -> Option<u64>
        ensures { MatchOption result (taken.new.serials ≡ taken.old.serials)
            (λ serial. taken.new.serials ≡ taken.old.serials ++ serial ∷ []) }
    {
        for _ in 0..LOOKS {
            let note = self.lock(rt).next(taken);
            if note.is_some() {
                return note;
            }
            thread::yield_now();
        }
        None
    }

    /// Takes the oldest note, once there is one. Sleeps until then.
    fn sleep_for_next<R: Wait>(&self, rt: &R, taken: &mut Taken) -> u64
        ensures { taken.new.serials ≡ taken.old.serials ++ result ∷ [] }
    {
        let guard = self.lock(rt);
        let mut book = self.changed.wait_while(rt, guard, |book| book.is_empty());
        let Some(serial) = book.next(taken) else {
            unreachable!()
        };
        serial
    }

    /// Takes the oldest note, once there is one. Looks for it for a while before the thread sleeps.
    pub fn wait_next<R: Wait>(&self, rt: &R, taken: &mut Taken) -> u64
        ensures { taken.new.serials ≡ taken.old.serials ++ result ∷ [] }
    {
        match self.look_for_next(rt, taken) {
            Some(serial) => serial,
            None => self.sleep_for_next(rt, taken),
        }
    }

    /// Takes the oldest note, if one comes within a millisecond. Sleeps until then. A caller that `looks` looks for one for
    /// a while before it sleeps; after a call without a note that would only cost processor time.
    pub fn wait_briefly<R: Wait + Clock>(
        &self,
        rt: &R,
        taken: &mut Taken,
        looks: bool,
    ) -> Option<u64>
        ensures { MatchOption result (taken.new.serials ≡ taken.old.serials)
            (λ serial. taken.new.serials ≡ taken.old.serials ++ serial ∷ []) }
    {
        if looks {
            let note = self.look_for_next(rt, taken);
            if note.is_some() {
                return note;
            }
        }
        let nap = Duration::from_millis(NAP_MILLISECONDS);
        let guard = self.lock(rt);
        let (mut book, _) = self
            .changed
            .wait_timeout_while(rt, guard, nap, |book| book.is_empty());
        book.next(taken)
    }

    /// Says whether the workers may begin, wakes all that wait for that, and returns it.
    pub fn begin<R: Wait>(&self, rt: &R, go: bool) -> Leave<L>
        ensures { result ≡ go }
    {
        let leave = self.lock(rt).begin(go);
        self.wake();
        leave
    }

    /// Whether the workers may begin, once that was said.
    pub fn wait_begin<R: Wait>(&self, rt: &R) -> Leave<L> {
        let guard = self.lock(rt);
        let book = self
            .changed
            .wait_while(rt, guard, |book| book.begun().is_none());
        let Some(go) = book.begun() else {
            unreachable!()
        };
        Leave::new(go)
    }
}
