ghost use Rattle.std.specs.Prelude.{◌≡◌, ◌-◌, ◌^◌, [], Some, IfOk, IfErr, vec_len};
ghost use Rattle.rtrb.specs.Ring.{sent, IsPair};
ghost use Rattle.ov_lanes.specs.Lanes.{AreFree, Serves};
ghost use Rattle.ov_lanes.specs.declared.fault.ServeFault.TheVariants as fault;
ghost use Rattle.ov_hall.specs.Serving.{to_serve};
ghost use Rattle.ov_hall.specs.Seats.{AreSeats};
ghost use Rattle.ov_lobby.specs.Serving.{AnswersLobby};
ghost use Rattle.ov_workers.specs.LinkStates.{ends_of};
ghost use Rattle.ov_workers.specs.declared.arrivals.Arrivals.{Arrivals as SpecArrivals};
ghost use Rattle.ov_lobby.specs.Places.{AreEmpty};

use crate::fault::RefusedLobby;
use ov_core::Core;
use ov_ends::{Clock, Sink, Source};
use ov_hall::{Begun, Hall, LOBBY, Parts, SHARES, all_bells, run};
use ov_keeper::Keeper;
use ov_lanes::{Desk, Lane, ServeFault};
use ov_order::{Bell, Noter, Order, Taken, inbound_ring};
use ov_requests::Draws;
use ov_threads::{HandRing, Workers, start_accepting};
use ov_workers::{Accepted, Arrivals, Common, Gate, Listen};
use rtrb::{Consumer, Producer};
use std::alloc::{AllocError, Global};
use std::marker::Brand;
use std::rt::Clock as SystemClock;
use std::sync::Wait;
use std::sync::ledger::{Blank, Book, Ledger};
use std::thread;
use std::thread::{Scope, Threads};

/// How many sessions are served at a time.
const PLACES: usize = 64;

/// A list of 64 places, in which there is nothing.
fn empty_places<T: Drop>(alloc: Global) -> Result<Vec<Option<T>>, AllocError>
    ensures { IfOk result (λ places. AreEmpty 64 places.items) }
{
    let mut places = Vec::with_capacity(alloc, PLACES)?;
    while places.len() < PLACES {
        places.push_reserved(None);
    }
    Ok(places)
}

/// What serving a listener needs besides the threads.
#[derive(Drop)]
struct Room<S: Source, W: Sink, L: Ledger, T> {
    /// The order of notes.
    order: Order<L>,
    /// The writers' bells.
    bells: Vec<Bell>,
    /// The places.
    lanes: Vec<Option<Lane>>,
    /// The workers at them.
    workers: Vec<Option<Workers<S, W, L>>>,
    /// Where the accepting worker brings what it accepts.
    ring: Producer<Accepted<S, W>>,
    /// What it brings.
    accepted: Consumer<Accepted<S, W>>,
    /// Where it is handed the listener.
    hand: HandRing<T>,
}

/// Allocates it.
fn take_room<S: Source + Drop, W: Sink + Drop, L: Ledger, T: Drop>(
    alloc: Global,
    book: Book<L>,
) -> Result<Room<S, W, L, T>, AllocError>
    requires { book.total ≡ 0 }
    ensures bells { IfOk result (λ room. vec_len room.bells ≡ 64) }
    ensures places { IfOk result
        (λ room. AreEmpty 64 room.lanes.items × AreEmpty 64 room.workers.items) }
    ensures ring { IfOk result
        (λ room. IsPair room.ring room.accepted × (sent room.ring ≡ [])) }
{
    let order = Order::new(alloc, book)?;
    let bells = all_bells(alloc, PLACES)?;
    let lanes = empty_places(alloc)?;
    let workers = empty_places(alloc)?;
    let (ring, accepted) = inbound_ring(alloc)?;
    let hand = HandRing::new(alloc)?;
    Ok(Room {
        order,
        bells,
        lanes,
        workers,
        ring,
        accepted,
        hand,
    })
}

/// The listener, and what the accepting worker needs to bring its connections.
#[derive(Drop)]
struct Door<S, W, L: Ledger, T> {
    /// The listener.
    listener: T,
    /// Where the worker is handed it.
    hand: HandRing<T>,
    /// Where it brings what it accepts.
    ring: Producer<Accepted<S, W>>,
    /// Who notes it.
    noter: Noter<L>,
    ghost lobby: { noter.serial ≡ 0 },
}

/// No session is served yet.
fn shows_none_served<K: Keeper + Drop, D: Draws + Drop>(desk: &Desk<K, D>)
    requires { AreFree desk.now.lanes.items }
    ensures { (serves : Serves desk.now.core desk.now.core desk.now.lanes.items)
        × (serves.since.entries ≡ []) }
{
    let _ = desk.core.history();
}

/// Starts the accepting worker, serves the connections it accepts with the desk in this thread, and joins all workers. There is
/// a bell for each place, and the ledger has parts left for 2^64-3 sessions.
fn serve_scoped<'s, E, R, K, D, L, G, S, W, T, C>(
    common: Common<'s, R, L, G>,
    scope: &Scope<'s, E>,
    bells: &'s Vec<Bell>,
    hall: Hall<K, D, S, W, L>,
    door: Door<S, W, L, T>,
    clock: &mut C,
) -> Result<Desk<K, D>, RefusedLobby<K, D, T>>
where
    R: Threads + Wait + SystemClock + Sync,
    K: Keeper + Drop,
    D: Draws + Drop,
    L: Ledger + Send + Sync + 's,
    G: Gate + Sync,
    S: Source + Send + Drop + 's,
    W: Sink + Send + Drop + 's,
    T: Listen<S, W> + Send + Drop + 's,
    C: Clock,
    requires free { AreFree hall.desk.lanes.items }
    requires seats { AreSeats hall }
    requires bells { vec_len bells.now ≡ vec_len hall.desk.lanes }
    requires parts { hall.parts.left ≡ 2 ^ 64 - 3 }
    requires ring { (a : SpecArrivals S W) × (hall.accepted ≡ Some a) × IsPair door.ring a.ring
        × (sent door.ring ≡ []) }
    ensures answers { AnswersLobby (ends_of S.Source W.Sink) C.tells T.gives K.is_honest
        (to_serve hall.desk.core clock.old door.listener) result clock.new }
    ensures threads { IfErr result (λ refused. refused.fault ≡ fault.Threads) }
{
    let Door {
        listener,
        hand,
        ring,
        noter,
    } = door;
    let mut hall = hall;
    shows_none_served(&hall.desk);
    let Some(accepting) = start_accepting(common, scope, hand, ring, noter) else {
        return Err(RefusedLobby {
            fault: ServeFault::Threads,
            desk: hall.desk,
            listener,
        });
    };
    let mut accepting = accepting;
    accepting.hand(hall.begun.leave(), listener);
    run(common, scope, bells, &mut hall, &mut Taken::new(), clock);
    hall.leave_all(common.rt);
    let Hall { desk, accepted, .. } = hall;
    let Some(arrivals) = accepted else {
        unreachable!()
    };
    accepting.join(common.rt, arrivals);
    Ok(desk)
}

/// The same, in a scope of threads. The scope gives the clock back, so that its contract can name it.
fn in_scope<'a, R, K, D, L, G, S, W, T, C>(
    common: Common<'a, R, L, G>,
    bells: &'a Vec<Bell>,
    hall: Hall<K, D, S, W, L>,
    door: Door<S, W, L, T>,
    clock: &mut C,
) -> Result<Desk<K, D>, RefusedLobby<K, D, T>>
where
    R: Threads + Wait + SystemClock + Sync,
    K: Keeper + Drop,
    D: Draws + Drop,
    L: Ledger + Send + Sync,
    G: Gate + Sync,
    S: Source + Send + Drop,
    W: Sink + Send + Drop,
    T: Listen<S, W> + Send + Drop,
    C: Clock,
    requires free { AreFree hall.desk.lanes.items }
    requires seats { AreSeats hall }
    requires bells { vec_len bells.now ≡ vec_len hall.desk.lanes }
    requires parts { hall.parts.left ≡ 2 ^ 64 - 3 }
    requires ring { (a : SpecArrivals S W) × (hall.accepted ≡ Some a) × IsPair door.ring a.ring
        × (sent door.ring ≡ []) }
    ensures answers { AnswersLobby (ends_of S.Source W.Sink) C.tells T.gives K.is_honest
        (to_serve hall.desk.core clock.old door.listener) result clock.new }
    ensures threads { IfErr result (λ refused. refused.fault ≡ fault.Threads) }
{
    let (served, _clock) = thread::scope(
        thread::scope_env(),
        common.rt,
        move |scope| -> (Result<Desk<K, D>, RefusedLobby<K, D, T>>, &mut C)
            requires free { AreFree hall.desk.lanes.items }
            requires seats { AreSeats hall }
            requires bells { vec_len bells.now ≡ vec_len hall.desk.lanes }
            requires parts { hall.parts.left ≡ 2 ^ 64 - 3 }
            requires ring { (a : SpecArrivals S W) × (hall.accepted ≡ Some a)
                × IsPair door.ring a.ring × (sent door.ring ≡ []) }
            ensures answers { AnswersLobby (ends_of S.Source W.Sink) C.tells T.gives K.is_honest
                (to_serve hall.desk.core clock.entry.now door.listener) result.0 result.1.now }
            ensures threads { IfErr result.0 (λ refused. refused.fault ≡ fault.Threads) }
            ensures same_clock { result.1.ghost_name ≡ clock.entry.ghost_name }
        {
            let served = serve_scoped(common, scope, bells, hall, door, clock);
            (served, clock)
        },
    );
    served
}

/// Serves the listener with the ledger that a type stands for. Lets all workers begin before any is started, so each begins at
/// once and waits for what it is handed.
fn serve_as<R, K, D, L, G, S, W, T, C>(
    rt: &R,
    alloc: Global,
    blank: Blank,
    gate: &G,
    core: Core<K, D>,
    listener: T,
    clock: &mut C,
) -> Result<Desk<K, D>, RefusedLobby<K, D, T>>
where
    R: Threads + Wait + SystemClock + Sync,
    K: Keeper + Drop,
    D: Draws + Drop,
    L: Ledger + Send + Sync,
    G: Gate + Sync,
    S: Source + Send + Drop,
    W: Sink + Send + Drop,
    T: Listen<S, W> + Send + Drop,
    C: Clock,
    requires name { blank.name ≡ L.name }
    requires parts { (blank.parts ≡ L.parts) × (blank.parts ≡ 2 ^ 64 - 1) }
    ensures { AnswersLobby (ends_of S.Source W.Sink) C.tells T.gives K.is_honest
        (to_serve core clock.old listener) result clock.new }
{
    let (book, all) = blank.open::<L>();
    let Ok(room) = take_room(alloc, book) else {
        return Err(RefusedLobby {
            fault: ServeFault::Memory,
            desk: Desk::new(alloc, core),
            listener,
        });
    };
    let leave = room.order.begin(rt, true);
    let mut all = all;
    let noter = Noter::new(LOBBY, all.split_off(1, 0));
    let hall = Hall {
        desk: Desk {
            core,
            lanes: room.lanes,
        },
        workers: room.workers,
        accepted: Some(Arrivals {
            ring: room.accepted,
            ended: false,
        }),
        parts: Parts::of(all, SHARES - 2),
        keeps: false,
        begun: Begun::new(leave),
    };
    let door = Door {
        listener,
        hand: room.hand,
        ring: room.ring,
        noter,
    };
    let common = Common {
        rt,
        alloc,
        order: &room.order,
        gate,
    };
    in_scope(common, &room.bells, hall, door, clock)
}

/// Serves every connection that the listener accepts as a session, up to 64 at a time, until the listener gives no more and
/// all sessions are over (RFC 7047, 4). Then the desk comes back. The sessions get the next serials, in the order of their
/// connections.
///
/// A session ends as in `serve_links`: when its reader's input ends, a read fails or its stream is damaged, when more than
/// 1,024 frames wait for its writer, or when an allocation for its request fails. What was read of it, what was written to it
/// and why it was closed fits the history in the same way. Other sessions are not delayed. Once a session's reader has ended,
/// and its writer has written what was sent to it, both are dropped, which closes the connection, and the place is free for
/// another. A session that is closed before its reader ends keeps its place until the reader ends.
///
/// A connection is dropped at once, with nothing read from it or written to it, if there is no place for it, the machine
/// refuses it, an allocation fails or a thread can't be started. Up to 64 connections wait for the desk; then the listener
/// isn't asked for another. Once the listener gives no more, it is dropped, even while sessions are served: the system should
/// refuse clients that connect afterwards.
///
/// Each reader and each writer works in a thread of its own, the listener in one more, and the machine in this one. The desk
/// asks the clock for the moment of each item that it takes, in milliseconds. While a waiting transaction may time out, the
/// desk sleeps for a millisecond at most.
///
/// Refused as `Memory` if an allocation fails, or as `Threads` if the accepting thread can't be started, before anything is
/// accepted. Then the desk comes back with its machine as it was, and so does the listener.
pub fn serve_lobby<R, K, D, G, S, W, T, C>(
    rt: &R,
    alloc: Global,
    desk: Desk<K, D>,
    listener: T,
    gate: &G,
    clock: &mut C,
) -> Result<Desk<K, D>, RefusedLobby<K, D, T>>
where
    R: Threads + Wait + SystemClock + Sync,
    K: Keeper + Drop,
    D: Draws + Drop,
    G: Gate + Sync,
    S: Source + Send + Drop,
    W: Sink + Send + Drop,
    T: Listen<S, W> + Send + Drop,
    C: Clock,
    ensures { AnswersLobby (ends_of S.Source W.Sink) C.tells T.gives K.is_honest
        (to_serve desk.core clock.old listener) result clock.new }
{
    serve_as::<R, K, D, Brand, G, S, W, T, C>(
        rt,
        alloc,
        Blank::new(SHARES),
        gate,
        desk.into_core(),
        listener,
        clock,
    )
}
