ghost use Rattle.std.specs.Prelude.{◌≡◌, ◌<◌, [], ◌∷◌, true, Some, IfSome};
ghost use Rattle.rtrb.specs.Ring.{sent, known_free, received, IsPair, SameConsumer, SameProducer};
ghost use Rattle.ov_workers.specs.Accepting.{links_in};
ghost use Rattle.ov_workers.specs.LinkStates.{ends_of};
ghost use Rattle.ov_threads.specs.Handing.{BringsLinks, HaveCome};

use crate::hand::{HandRing, take_handed};
use ov_ends::{Sink, Source};
use ov_order::{Leave, Noter};
use ov_workers::{Accepted, Arrivals, Common, Gate, Listen, accept_worker};
use rtrb::{Consumer, Producer};
use std::snapshot::Snapshot;
use std::sync::Wait;
use std::sync::ledger::Ledger;
use std::thread::{Promise, PromisedHandle, Scope, Threads};

/// What the accepting worker's thread returns.
#[derive(Drop)]
pub struct AcceptDone<S, W, T> {
    /// Its end of the ring through which it was handed a listener, or `None`.
    pub hand: Consumer<Option<T>>,
    /// Its end of the ring into which it put what the listener gave.
    pub ring: Producer<Accepted<S, W>>,
}

/// What the accepting worker's thread promises of what it returns: that it brought all that the listener gave that it was
/// handed, until that had no more, and nothing else.
#[derive(Drop)]
pub struct Accepts<S, W, T> {
    /// Its end of the ring through which it is handed a listener.
    pub hand: Snapshot<Consumer<Option<T>>>,
    /// Its end of the ring into which it puts what the listener gives.
    pub ring: Snapshot<Producer<Accepted<S, W>>>,
}

impl<S: Source, W: Sink, T: Listen<S, W>> Promise<AcceptDone<S, W, T>> for Accepts<S, W, T> {
    ghost kept_by = { λ p done. SameConsumer p.hand.value done.hand
        × SameProducer p.ring.value done.ring
        × BringsLinks (ends_of S.Source W.Sink) T.gives (received done.hand)
        (links_in (sent done.ring)) };
}

impl<S, W, T> Accepts<S, W, T> {
    /// The promise of a thread that gets these.
    fn of(hand: &Consumer<Option<T>>, ring: &Producer<Accepted<S, W>>) -> Accepts<S, W, T>
        ensures { (result.hand.value ≡ hand.now) × (result.ring.value ≡ ring.now) }
    {
        Accepts {
            hand: Snapshot::of(hand),
            ring: Snapshot::of(ring),
        }
    }
}

/// Waits until `begin` was called, and then for what is handed: brings the desk what a listener gives, and brings nothing if
/// there is none.
fn accept_handed<R, L, G, S, W, T>(
    common: Common<'_, R, L, G>,
    hand: Consumer<Option<T>>,
    ring: Producer<Accepted<S, W>>,
    noter: Noter<L>,
) -> AcceptDone<S, W, T>
where
    R: Wait,
    L: Ledger,
    S: Source + Drop,
    W: Sink + Drop,
    T: Listen<S, W> + Drop,
    requires fresh { (received hand ≡ []) × (sent ring ≡ []) }
    ensures hand { SameConsumer hand result.hand }
    ensures ring { SameProducer ring result.ring }
    ensures brings { BringsLinks (ends_of S.Source W.Sink) T.gives (received result.hand)
        (links_in (sent result.ring)) }
{
    let leave = common.order.wait_begin(common.rt);
    let mut hand = hand;
    let ring = match take_handed(common.rt, &leave, &mut hand) {
        Some(listener) => accept_worker(common, listener, ring, noter),
        None => ring,
    };
    AcceptDone { hand, ring }
}

/// The accepting worker in a thread of its own, which has no listener before one is handed to it.
#[derive(Drop)]
pub struct Accepting<S: Source, W: Sink, T: Listen<S, W>> {
    /// The thread.
    pub handle: PromisedHandle<AcceptDone<S, W, T>, Accepts<S, W, T>>,
    /// The end of the ring through which it is handed a listener.
    pub hand: Producer<Option<T>>,
    ghost pair: { IsPair hand handle.promise.hand.value },
    ghost room: { sent hand ≡ [] → 0 < known_free hand },
}

/// Starts the thread of the accepting worker in the scope. None if no thread can be started.
///
/// The thread sleeps until `begin` was called, with either answer. Soon after that it has to be handed a listener: until then
/// it polls.
pub fn start_accepting<'s, E, R, L, G, S, W, T>(
    common: Common<'s, R, L, G>,
    scope: &Scope<'s, E>,
    hand: HandRing<T>,
    ring: Producer<Accepted<S, W>>,
    noter: Noter<L>,
) -> Option<Accepting<S, W, T>>
where
    R: Threads + Wait + Sync,
    L: Ledger + Send + Sync + 's,
    G: Gate + Sync,
    S: Source + Send + Drop + 's,
    W: Sink + Send + Drop + 's,
    T: Listen<S, W> + Send + Drop + 's,
    requires fresh { sent ring ≡ [] }
    ensures { IfSome result (λ a. (sent a.hand ≡ []) × (a.handle.promise.ring.value ≡ ring)) }
{
    let HandRing {
        to_worker,
        from_desk,
    } = hand;
    let promise = Accepts::of(&from_desk, &ring);
    let job = move || accept_handed(common, from_desk, ring, noter);
    match scope.spawn_with(promise, job) {
        Ok(handle) => Some(Accepting {
            handle,
            hand: to_worker,
        }),
        Err(_) => None,
    }
}

impl<S: Source + Drop, W: Sink + Drop, T: Listen<S, W> + Drop> Accepting<S, W, T> {
    /// Hands the thread its listener, whose links it brings the desk. Asks for the leave of `begin(true)`.
    pub fn hand<L: Ledger>(&mut self, leave: &Leave<L>, listener: T)
        requires begun { leave.now ≡ true }
        requires unhanded { sent self.old.hand ≡ [] }
        ensures handed { sent self.new.hand ≡ Some listener ∷ [] }
        ensures promise { self.new.handle.promise ≡ self.old.handle.promise }
    {
        self.hand.push_reserved(Some(listener));
    }

    /// Joins the thread, to which a listener was handed, once that gives no more. What the desk took from the ring are the
    /// first of the links that the listener gave until then, one after another.
    pub fn join<R: Threads>(self, rt: &R, arrivals: Arrivals<S, W>)
        requires { IsPair self.handle.promise.ring.value arrivals.ring }
        ensures { (listener : T) → sent self.hand ≡ Some listener ∷ []
            → HaveCome (ends_of S.Source W.Sink) T.gives listener
            (links_in (received arrivals.ring)) }
    {
        let Accepting { handle, hand } = self;
        let mut hand = hand;
        let AcceptDone {
            hand: mut taken,
            mut ring,
        } = handle.join(rt);
        taken.slots_beside(&mut hand);
        let mut brought = arrivals.ring;
        brought.slots_beside(&mut ring);
    }
}
