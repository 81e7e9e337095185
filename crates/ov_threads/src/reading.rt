ghost use Rattle.std.specs.Prelude.{◌≡◌, ◌<◌, [], ◌∷◌, true, Some, IfSome};
ghost use Rattle.rtrb.specs.Ring.{sent, known_free, received, IsPair, SameConsumer};
ghost use Rattle.ov_ends.specs.States.{source_of};
ghost use Rattle.ov_threads.specs.Handing.{ReadsLink, ReadsHanded};

use crate::hand::{HandRing, keep_or_drop, take_handed};
use ov_ends::Source;
use ov_order::Leave;
use ov_workers::{Common, Gate, Inlet, ReadCause, ReadEnd, read_worker};
use rtrb::{Consumer, Producer};
use std::snapshot::Snapshot;
use std::sync::Wait;
use std::sync::ledger::Ledger;
use std::thread::{Promise, PromisedHandle, Scope, Threads};

/// What is left of a reader that was read to its end.
#[derive(Drop)]
pub struct ReadLeft<S, L: Ledger> {
    /// The reader if it is kept; None if it was dropped after its last read.
    pub reader: Option<S>,
    /// The reader after its last read. Contracts alone see it.
    pub last: Snapshot<S>,
    /// The worker's side of the session; the end mark was put into the ring last.
    pub inlet: Inlet<L>,
    /// The cause in the end mark.
    pub cause: ReadCause,
}

/// What a reader's thread returns.
#[derive(Drop)]
pub struct ReadDone<S, L: Ledger> {
    /// Its end of the ring through which it was handed a reader, or `None`.
    pub hand: Consumer<Option<S>>,
    /// What is left of the reader; None if it was handed none.
    pub left: Option<ReadLeft<S, L>>,
}

/// What a reader's thread promises of what it returns: that it read nothing but the reader that it was handed, and kept or
/// dropped it as it was to.
#[derive(Drop)]
pub struct Reads<S, L: Ledger> {
    /// Its end of the ring through which it is handed a reader.
    pub hand: Snapshot<Consumer<Option<S>>>,
    /// The worker's side of the session.
    pub inlet: Snapshot<Inlet<L>>,
    /// Whether the reader is kept. If not, it is dropped as the thread ends.
    pub keeps: bool,
}

impl<S: Source, L: Ledger> Promise<ReadDone<S, L>> for Reads<S, L> {
    ghost kept_by = { λ p done. SameConsumer p.hand.value done.hand
        × ReadsHanded (source_of S.Source) p.keeps p.inlet.value (received done.hand) done.left };
}

impl<S, L: Ledger> Reads<S, L> {
    /// The promise of a thread that gets these.
    fn of(keeps: bool, hand: &Consumer<Option<S>>, inlet: &Inlet<L>) -> Reads<S, L>
        ensures { (result.keeps ≡ keeps) × (result.hand.value ≡ hand.now)
            × (result.inlet.value ≡ inlet.now) }
    {
        Reads {
            hand: Snapshot::of(hand),
            inlet: Snapshot::of(inlet),
            keeps,
        }
    }
}

/// Reads the reader to its end, and then keeps or drops it.
fn read_link<R: Wait, L: Ledger, G: Gate, S: Source + Drop>(
    common: Common<'_, R, L, G>,
    keeps: bool,
    reader: S,
    inlet: Inlet<L>,
) -> ReadLeft<S, L>
    requires fresh { sent inlet.ring ≡ [] }
    ensures { ReadsLink (source_of S.Source) keeps inlet reader result }
{
    let ReadEnd {
        reader,
        inlet,
        cause,
    } = read_worker(common, reader, inlet);
    let last = Snapshot::of(&reader);
    let reader = keep_or_drop(keeps, reader);
    ReadLeft {
        reader,
        last,
        inlet,
        cause,
    }
}

/// Waits until `begin` was called, and then for what is handed: reads a reader to its end, and does nothing if there is none.
fn read_handed<R: Wait, L: Ledger, G: Gate, S: Source + Drop>(
    common: Common<'_, R, L, G>,
    keeps: bool,
    hand: Consumer<Option<S>>,
    inlet: Inlet<L>,
) -> ReadDone<S, L>
    requires fresh { (received hand ≡ []) × (sent inlet.ring ≡ []) }
    ensures hand { SameConsumer hand result.hand }
    ensures handed { ReadsHanded (source_of S.Source) keeps inlet (received result.hand)
        result.left }
{
    let leave = common.order.wait_begin(common.rt);
    let mut hand = hand;
    let left = match take_handed(common.rt, &leave, &mut hand) {
        Some(reader) => Some(read_link(common, keeps, reader, inlet)),
        None => None,
    };
    ReadDone { hand, left }
}

/// A reader's worker in a thread of its own, which has no reader before one is handed to it.
#[derive(Drop)]
pub struct Reading<S: Source, L: Ledger> {
    /// The thread.
    pub handle: PromisedHandle<ReadDone<S, L>, Reads<S, L>>,
    /// The end of the ring through which it is handed a reader.
    pub hand: Producer<Option<S>>,
    ghost pair: { IsPair hand handle.promise.hand.value },
    ghost room: { sent hand ≡ [] → 0 < known_free hand },
}

/// Starts the thread of a reader's worker in the scope. None if no thread can be started.
///
/// After the stream has ended, a thread that `keeps` returns the reader; another one drops it at once, before it can be
/// joined.
///
/// The thread sleeps until `begin` was called, with either answer. Soon after that it has to be handed a reader or be
/// dismissed: until then it polls.
pub fn start_reader<'s, E, R, L, G, S>(
    common: Common<'s, R, L, G>,
    scope: &Scope<'s, E>,
    keeps: bool,
    hand: HandRing<S>,
    inlet: Inlet<L>,
) -> Option<Reading<S, L>>
where
    R: Threads + Wait + Sync,
    L: Ledger + Send + Sync + 's,
    G: Gate + Sync,
    S: Source + Send + Drop + 's,
    requires fresh { sent inlet.ring ≡ [] }
    ensures { IfSome result (λ r. (sent r.hand ≡ []) × (r.handle.promise.inlet.value ≡ inlet)
        × (r.handle.promise.keeps ≡ keeps)) }
{
    let HandRing {
        to_worker,
        from_desk,
    } = hand;
    let promise = Reads::of(keeps, &from_desk, &inlet);
    let job = move || read_handed(common, keeps, from_desk, inlet);
    match scope.spawn_with(promise, job) {
        Ok(handle) => Some(Reading {
            handle,
            hand: to_worker,
        }),
        Err(_) => None,
    }
}

impl<S: Source + Drop, L: Ledger> Reading<S, L> {
    /// Hands the thread its reader, which it reads to the end. Asks for the leave of `begin(true)`.
    pub fn hand(&mut self, leave: &Leave<L>, reader: S)
        requires begun { leave.now ≡ true }
        requires unhanded { sent self.old.hand ≡ [] }
        ensures handed { sent self.new.hand ≡ Some reader ∷ [] }
        ensures promise { self.new.handle.promise ≡ self.old.handle.promise }
    {
        self.hand.push_reserved(Some(reader));
    }

    /// Tells the thread that there is no reader for it, and joins it.
    pub fn dismiss<R: Threads>(self, rt: &R)
        requires { sent self.hand ≡ [] }
    {
        let Reading { handle, hand } = self;
        let mut hand = hand;
        hand.push_reserved(None);
        handle.join(rt);
    }

    /// Joins the thread, to which a reader was handed. It ends after the stream has ended.
    pub fn join<R: Threads>(self, rt: &R) -> ReadLeft<S, L>
        requires { (reader : S) × (sent self.hand ≡ Some reader ∷ []) }
        ensures { (reader : S) → sent self.hand ≡ Some reader ∷ []
            → ReadsLink (source_of S.Source) self.handle.promise.keeps
            self.handle.promise.inlet.value reader result }
    {
        let Reading { handle, hand } = self;
        let mut hand = hand;
        let ReadDone { hand: taken, left } = handle.join(rt);
        let mut taken = taken;
        taken.slots_beside(&mut hand);
        let Some(left) = left else { unreachable!() };
        left
    }
}
