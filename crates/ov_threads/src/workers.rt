ghost use Rattle.std.specs.Prelude.{◌≡◌, [], ◌∷◌, true, Some, IfSome};
ghost use Rattle.rtrb.specs.Ring.{sent, received};
ghost use Rattle.ov_ends.specs.States.{source_of, sink_of};
ghost use Rattle.ov_threads.specs.Handing.{ReadsLink, WritesLink};

use crate::hand::Hands;
use crate::reading::{ReadLeft, Reading, start_reader};
use crate::writing::{WriteLeft, Writing, start_writer};
use ov_ends::{Sink, Source};
use ov_order::{Bell, Leave, Sent};
use ov_workers::{Common, Gate, Inlet};
use rtrb::Consumer;
use std::sync::Wait;
use std::sync::ledger::Ledger;
use std::thread::{Scope, Threads};

/// The two workers of a session in their threads, which have no link before one is handed to them.
#[derive(Drop)]
pub struct Workers<S: Source, W: Sink, L: Ledger> {
    /// The reader's.
    pub reading: Reading<S, L>,
    /// The writer's.
    pub writing: Writing<W>,
}

/// Starts the threads of a session's workers in the scope. If one can't be started, calls `begin(false)`, unless `begin` was
/// called before, and leaves no thread of the two.
///
/// A thread that `keeps` its end of the link returns it as it ends; another one drops it at once, so that the connection
/// closes. As its last act the writer's thread calls `bell.say_over()`, also if it was dismissed: renew the bell before it is
/// used again.
///
/// The threads sleep until `begin` was called, with either answer. Hand them a link, or dismiss them, soon after that: until
/// then they poll.
pub fn start_workers<'s, E, R, L, G, S, W>(
    common: Common<'s, R, L, G>,
    scope: &Scope<'s, E>,
    bell: &'s Bell,
    keeps: bool,
    inlet: Inlet<L>,
    ring: Consumer<Sent>,
    hands: Hands<S, W>,
) -> Option<Workers<S, W, L>>
where
    R: Threads + Wait + Sync,
    L: Ledger + Send + Sync + 's,
    G: Gate + Sync,
    S: Source + Send + Drop + 's,
    W: Sink + Send + Drop + 's,
    requires fresh { (sent inlet.ring ≡ []) × (received ring ≡ []) }
    ensures reading { IfSome result (λ w. (sent w.reading.hand ≡ [])
        × (w.reading.handle.promise.inlet.value ≡ inlet)
        × (w.reading.handle.promise.keeps ≡ keeps)) }
    ensures writing { IfSome result (λ w. (sent w.writing.hand ≡ [])
        × (w.writing.handle.promise.ring.value ≡ ring)
        × (w.writing.handle.promise.keeps ≡ keeps)) }
{
    let Hands { reader, writer } = hands;
    let writing = start_writer(common, scope, bell, keeps, inlet.noter.serial, writer, ring);
    let Some(writing) = writing else {
        say_no_begin(common);
        return None;
    };
    match start_reader(common, scope, keeps, reader, inlet) {
        Some(reading) => Some(Workers { reading, writing }),
        None => {
            say_no_begin(common);
            writing.dismiss(common.rt);
            None
        }
    }
}

/// Tells the workers that none may begin, unless `begin` was called before.
fn say_no_begin<R: Wait, L: Ledger, G>(common: Common<'_, R, L, G>) {
    {
        let mut book = common.order.lock(common.rt);
        if book.begun().is_none() {
            book.begin(false);
        }
    }
    common.order.wake();
}

impl<S: Source + Drop, W: Sink + Drop, L: Ledger> Workers<S, W, L> {
    /// Hands the threads the two ends of a link. Asks for the leave of `begin(true)`, of an order over the same ledger.
    pub fn hand(&mut self, leave: &Leave<L>, reader: S, writer: W)
        requires begun { leave.now ≡ true }
        requires unhanded { (sent self.old.reading.hand ≡ [])
            × (sent self.old.writing.hand ≡ []) }
        ensures handed { (sent self.new.reading.hand ≡ Some reader ∷ [])
            × (sent self.new.writing.hand ≡ Some writer ∷ []) }
        ensures promises { (self.new.reading.handle.promise ≡ self.old.reading.handle.promise)
            × (self.new.writing.handle.promise ≡ self.old.writing.handle.promise) }
    {
        self.reading.hand(leave, reader);
        self.writing.hand(leave, writer);
    }

    /// Tells the threads that there is no link for them, and joins them.
    pub fn dismiss<R: Threads>(self, rt: &R)
        requires { (sent self.reading.hand ≡ []) × (sent self.writing.hand ≡ []) }
    {
        let Workers { reading, writing } = self;
        reading.dismiss(rt);
        writing.dismiss(rt);
    }

    /// Joins the threads, to which a link was handed.
    pub fn join<R: Threads>(self, rt: &R) -> (ReadLeft<S, L>, WriteLeft<W>)
        requires reading { (reader : S) × (sent self.reading.hand ≡ Some reader ∷ []) }
        requires writing { (writer : W) × (sent self.writing.hand ≡ Some writer ∷ []) }
        ensures reading { (reader : S) → sent self.reading.hand ≡ Some reader ∷ []
            → ReadsLink (source_of S.Source) self.reading.handle.promise.keeps
            self.reading.handle.promise.inlet.value
            reader result.0 }
        ensures writing { (writer : W) → sent self.writing.hand ≡ Some writer ∷ []
            → WritesLink (sink_of W.Sink) self.writing.handle.promise.keeps
            self.writing.handle.promise.ring.value
            writer result.1 }
    {
        let Workers { reading, writing } = self;
        let read = reading.join(rt);
        let wrote = writing.join(rt);
        (read, wrote)
    }
}
