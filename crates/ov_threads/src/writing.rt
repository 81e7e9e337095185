ghost use Rattle.std.specs.Prelude.{◌≡◌, ◌<◌, [], ◌∷◌, true, Some, IfSome};
ghost use Rattle.rtrb.specs.Ring.{sent, known_free, received, IsPair, SameConsumer};
ghost use Rattle.ov_ends.specs.States.{sink_of};
ghost use Rattle.ov_threads.specs.Handing.{WritesLink, WritesHanded};

use crate::hand::{HandRing, keep_or_drop, take_handed};
use ov_ends::Sink;
use ov_order::{Bell, Leave, Sent};
use ov_workers::{Common, Gate, WriteEnd, write_worker};
use rtrb::{Consumer, Producer};
use std::snapshot::Snapshot;
use std::sync::Wait;
use std::sync::ledger::Ledger;
use std::thread::{Promise, PromisedHandle, Scope, Threads};

/// What is left of a writer to which all was written.
#[derive(Drop)]
pub struct WriteLeft<W> {
    /// The writer if it is kept; None if it was dropped after its last write.
    pub writer: Option<W>,
    /// The writer after its last write. Contracts alone see it.
    pub last: Snapshot<W>,
    /// The worker's end of the ring, from which it took the end mark last.
    pub ring: Consumer<Sent>,
    /// Whether a write or a flush failed, once; after that it dropped what it took.
    pub failed: bool,
}

/// What a writer's thread returns.
#[derive(Drop)]
pub struct WriteDone<W> {
    /// Its end of the ring through which it was handed a writer, or `None`.
    pub hand: Consumer<Option<W>>,
    /// What is left of the writer; None if it was handed none.
    pub left: Option<WriteLeft<W>>,
}

/// What a writer's thread promises of what it returns: that it wrote to nothing but the writer that it was handed, and kept or
/// dropped it as it was to.
#[derive(Drop)]
pub struct Writes<W> {
    /// Its end of the ring through which it is handed a writer.
    pub hand: Snapshot<Consumer<Option<W>>>,
    /// The worker's end of the ring of frames.
    pub ring: Snapshot<Consumer<Sent>>,
    /// Whether the writer is kept. If not, it is dropped as the thread ends.
    pub keeps: bool,
}

impl<W: Sink> Promise<WriteDone<W>> for Writes<W> {
    ghost kept_by = { λ p done. SameConsumer p.hand.value done.hand
        × WritesHanded (sink_of W.Sink) p.keeps p.ring.value (received done.hand) done.left };
}

impl<W> Writes<W> {
    /// The promise of a thread that gets these.
    fn of(keeps: bool, hand: &Consumer<Option<W>>, ring: &Consumer<Sent>) -> Writes<W>
        ensures { (result.keeps ≡ keeps) × (result.hand.value ≡ hand.now)
            × (result.ring.value ≡ ring.now) }
    {
        Writes {
            hand: Snapshot::of(hand),
            ring: Snapshot::of(ring),
            keeps,
        }
    }
}

/// Writes to the writer up to the end mark, and then keeps or drops it.
fn write_link<R: Wait, L: Ledger, G: Gate, W: Sink + Drop>(
    common: Common<'_, R, L, G>,
    bell: &Bell,
    keeps: bool,
    serial: u64,
    writer: W,
    ring: Consumer<Sent>,
) -> WriteLeft<W>
    requires fresh { received ring ≡ [] }
    ensures { WritesLink (sink_of W.Sink) keeps ring writer result }
{
    let WriteEnd {
        writer,
        ring,
        failed,
    } = write_worker(common, bell, serial, writer, ring);
    let last = Snapshot::of(&writer);
    let writer = keep_or_drop(keeps, writer);
    WriteLeft {
        writer,
        last,
        ring,
        failed,
    }
}

/// Waits until `begin` was called, and then for what is handed: writes to a writer up to the end mark, and does nothing if
/// there is none. Its last act is to say that it is over.
fn write_handed<R: Wait, L: Ledger, G: Gate, W: Sink + Drop>(
    common: Common<'_, R, L, G>,
    bell: &Bell,
    keeps: bool,
    serial: u64,
    hand: Consumer<Option<W>>,
    ring: Consumer<Sent>,
) -> WriteDone<W>
    requires fresh { (received hand ≡ []) × (received ring ≡ []) }
    ensures hand { SameConsumer hand result.hand }
    ensures handed { WritesHanded (sink_of W.Sink) keeps ring (received result.hand) result.left }
{
    let leave = common.order.wait_begin(common.rt);
    let mut hand = hand;
    let left = match take_handed(common.rt, &leave, &mut hand) {
        Some(writer) => Some(write_link(common, bell, keeps, serial, writer, ring)),
        None => None,
    };
    bell.say_over();
    WriteDone { hand, left }
}

/// A writer's worker in a thread of its own, which has no writer before one is handed to it.
#[derive(Drop)]
pub struct Writing<W: Sink> {
    /// The thread.
    pub handle: PromisedHandle<WriteDone<W>, Writes<W>>,
    /// The end of the ring through which it is handed a writer.
    pub hand: Producer<Option<W>>,
    ghost pair: { IsPair hand handle.promise.hand.value },
    ghost room: { sent hand ≡ [] → 0 < known_free hand },
}

/// Starts the thread of a writer's worker in the scope. None if no thread can be started. The serial is for the gate alone.
///
/// After the end mark, a thread that `keeps` returns the writer; another one drops it at once, before it can be joined. As
/// its last act the thread calls `bell.say_over()`, also if it was handed no writer.
///
/// The thread sleeps until `begin` was called, with either answer. Soon after that it has to be handed a writer or be
/// dismissed: until then it polls.
pub fn start_writer<'s, E, R, L, G, W>(
    common: Common<'s, R, L, G>,
    scope: &Scope<'s, E>,
    bell: &'s Bell,
    keeps: bool,
    serial: u64,
    hand: HandRing<W>,
    ring: Consumer<Sent>,
) -> Option<Writing<W>>
where
    R: Threads + Wait + Sync,
    L: Ledger + Send + Sync + 's,
    G: Gate + Sync,
    W: Sink + Send + Drop + 's,
    requires fresh { received ring ≡ [] }
    ensures { IfSome result (λ w. (sent w.hand ≡ []) × (w.handle.promise.ring.value ≡ ring)
        × (w.handle.promise.keeps ≡ keeps)) }
{
    let HandRing {
        to_worker,
        from_desk,
    } = hand;
    let promise = Writes::of(keeps, &from_desk, &ring);
    let job = move || write_handed(common, bell, keeps, serial, from_desk, ring);
    match scope.spawn_with(promise, job) {
        Ok(handle) => Some(Writing {
            handle,
            hand: to_worker,
        }),
        Err(_) => None,
    }
}

impl<W: Sink + Drop> Writing<W> {
    /// Hands the thread its writer, to which it writes up to the end mark. Asks for the leave of `begin(true)`.
    pub fn hand<L: Ledger>(&mut self, leave: &Leave<L>, writer: W)
        requires begun { leave.now ≡ true }
        requires unhanded { sent self.old.hand ≡ [] }
        ensures handed { sent self.new.hand ≡ Some writer ∷ [] }
        ensures promise { self.new.handle.promise ≡ self.old.handle.promise }
    {
        self.hand.push_reserved(Some(writer));
    }

    /// Tells the thread that there is no writer for it, and joins it.
    pub fn dismiss<R: Threads>(self, rt: &R)
        requires { sent self.hand ≡ [] }
    {
        let Writing { handle, hand } = self;
        let mut hand = hand;
        hand.push_reserved(None);
        handle.join(rt);
    }

    /// Joins the thread, to which a writer was handed. It ends after the end mark.
    pub fn join<R: Threads>(self, rt: &R) -> WriteLeft<W>
        requires { (writer : W) × (sent self.hand ≡ Some writer ∷ []) }
        ensures { (writer : W) → sent self.hand ≡ Some writer ∷ []
            → WritesLink (sink_of W.Sink) self.handle.promise.keeps self.handle.promise.ring.value
            writer result }
    {
        let Writing { handle, hand } = self;
        let mut hand = hand;
        let WriteDone { hand: taken, left } = handle.join(rt);
        let mut taken = taken;
        taken.slots_beside(&mut hand);
        let Some(left) = left else { unreachable!() };
        left
    }
}
