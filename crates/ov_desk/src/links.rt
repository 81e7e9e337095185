ghost use Rattle.std.specs.Prelude.{◌≡◌, ◌≤◌, ◌-◌, ◌^◌, ℕ, [], true, vec_len, vec_capacity, IfOk};
ghost use Rattle.std.specs.Prelude.{IfErr};
ghost use Rattle.ov_core.specs.Following.{CoreState, with_clock};
ghost use Rattle.std.specs.VecDeque.{deque_len};
ghost use Rattle.ov_lanes.specs.Lanes.{AreNewLanes};
ghost use Rattle.ov_lanes.specs.Opening.{AreSessions};
ghost use Rattle.ov_lanes.specs.Pairs.{Threewise};
ghost use Rattle.ov_lanes.specs.Places.{has_places};
ghost use Rattle.ov_hall.specs.Serving.{to_serve};
ghost use Rattle.ov_hall.specs.Seats.{AreStarted, IsSeatOf};
ghost use Rattle.ov_workers.specs.LinkStates.{ends_of};
ghost use Rattle.ov_desk.specs.Opening.{IsOpened};
ghost use Rattle.ov_desk.specs.Serving.{AnswersLinks, RefusesLinks, ServesAll};

use crate::link::{Served, Unserved};
use ov_core::{Core, Session};
use ov_ends::{Clock, Sink, Source};
use ov_hall::{
    Begun, End, Hall, Parts, SHARES, Started, all_bells, dismiss_all, finish_all, run, start_all,
};
use ov_keeper::Keeper;
use ov_lanes::{Desk, Lane, ServeFault, has_places, open_sessions, shows_nothing_opened};
use ov_order::{Bell, Leave, Order, Taken};
use ov_requests::Draws;
use ov_threads::Workers;
use ov_workers::{Common, Gate, Link};
use std::alloc::Global;
use std::collections::VecDeque;
use std::marker::Brand;
use std::rt::Clock as SystemClock;
use std::sync::Wait;
use std::sync::ledger::{Blank, Ledger};
use std::thread;
use std::thread::{Scope, Threads};

/// Sessions that were opened and the workers that were started for them, with room for what becomes of them.
#[derive(Drop)]
pub(crate) struct Opened<S: Source, W: Sink, L: Ledger> {
    /// The workers, to which nothing was handed yet.
    pub started: VecDeque<Started<S, W, L>>,
    /// The sessions, in the same order.
    pub sessions: VecDeque<Session>,
    /// Room for a lane of each.
    pub lanes: Vec<Option<Lane>>,
    /// For the workers of each.
    pub workers: Vec<Option<Workers<S, W, L>>>,
    /// For what remains of each link.
    pub ends: VecDeque<End<S, W>>,
    /// The parts for further workers that note.
    pub parts: Parts<L>,
}

/// Starts the workers of one session for each bell, and opens the sessions. If that is refused, no worker is left, and the
/// sessions that were opened are closed again.
fn open_all<'s, E, R, K, D, L, G, S, W>(
    common: Common<'s, R, L, G>,
    scope: &Scope<'s, E>,
    bells: &'s Vec<Bell>,
    core: &mut Core<K, D>,
    parts: Parts<L>,
) -> Result<Opened<S, W, L>, ServeFault>
where
    R: Threads + Wait + Sync,
    K: Keeper + Drop,
    D: Draws + Drop,
    L: Ledger + Send + Sync + 's,
    G: Gate + Sync,
    S: Source + Send + Drop + 's,
    W: Sink + Send + Drop + 's,
    requires places { has_places (vec_len bells.now) core.old.state ≡ true }
    requires parts { vec_len bells.now ≤ parts.left }
    ensures opened { IfOk result (λ o. IsOpened (vec_len bells.now) core.old core.new o) }
    ensures refused { IfErr result
        (λ fault. RefusesLinks (vec_len bells.now) core.old fault core.new) }
    ensures honest { K.is_honest core.new.keeper → K.is_honest core.old.keeper }
{
    shows_nothing_opened(core);
    let lanes = Vec::with_capacity(common.alloc, bells.len())?;
    let workers = Vec::with_capacity(common.alloc, bells.len())?;
    let ends = VecDeque::with_capacity(common.alloc, bells.len())?;
    let first = core.next_serial().unwrap_or(0);
    let mut parts = parts;
    let started = start_all(common, scope, bells, &mut parts, first)?;
    let Some(sessions) = open_sessions(core, common.alloc, bells.len()) else {
        let _said = dismiss_all(common, started);
        return Err(ServeFault::Memory);
    };
    Ok(Opened {
        started,
        sessions,
        lanes,
        workers,
        ends,
        parts,
    })
}

/// Hands each link to the workers that were started for its session, in order, once these may begin. Puts the lanes and the
/// workers into lists that have room for them.
fn seat_all<S, W, L>(
    leave: &Leave<L>,
    started: VecDeque<Started<S, W, L>>,
    sessions: VecDeque<Session>,
    links: VecDeque<Link<S, W>>,
    lanes: &mut Vec<Option<Lane>>,
    workers: &mut Vec<Option<Workers<S, W, L>>>,
)
where
    S: Source + Drop,
    W: Sink + Drop,
    L: Ledger,
    requires begun { leave.now ≡ true }
    requires many { (deque_len started ≡ deque_len links) × (deque_len sessions ≡ deque_len links) }
    requires started { (first : ℕ) × AreStarted true first started.items }
    requires lanes { (lanes.old.items ≡ []) × (deque_len links ≤ vec_capacity lanes.old) }
    requires workers { (workers.old.items ≡ []) × (deque_len links ≤ vec_capacity workers.old) }
    ensures { (first : ℕ) → AreStarted true first started.items → AreSessions first sessions.items
        → AreNewLanes first lanes.new.items
        × Threewise IsSeatOf links.items lanes.new.items workers.new.items }
{
    let mut started = started;
    let mut sessions = sessions;
    let mut links = links;
    while let Some(link) = links.pop_front() {
        let (Some(one), Some(session)) = (started.pop_front(), sessions.pop_front()) else {
            unreachable!()
        };
        let mut pair = one.workers;
        pair.hand(leave, link.reader, link.writer);
        lanes.push_reserved(Some(Lane::new(session, one.inbound, one.outbound)));
        workers.push_reserved(Some(pair));
    }
}

/// Lets the workers begin and then hands them the links, so that none is read or written before. Serves the sessions to the
/// end, and joins the workers.
fn serve_opened<'s, E, R, K, D, L, G, S, W, C>(
    common: Common<'s, R, L, G>,
    scope: &Scope<'s, E>,
    bells: &'s Vec<Bell>,
    core: Core<K, D>,
    opened: Opened<S, W, L>,
    links: VecDeque<Link<S, W>>,
    clock: &mut C,
) -> Served<K, D, S, W>
where
    R: Threads + Wait + SystemClock + Sync,
    K: Keeper + Drop,
    D: Draws + Drop,
    L: Ledger + Send + Sync + 's,
    G: Gate + Sync,
    S: Source + Send + Drop + 's,
    W: Sink + Send + Drop + 's,
    C: Clock,
    requires { (old : CoreState K D) × IsOpened (deque_len links) old core opened }
    ensures served { (old : CoreState K D) → IsOpened (deque_len links) old core opened
        → ServesAll (ends_of S.Source W.Sink) C.tells (with_clock old clock.old)
        (with_clock result.desk.core clock.new) links.items result.ends.items }
    ensures honest { K.is_honest result.desk.core.keeper → K.is_honest core.keeper }
{
    let leave = common.order.begin(common.rt, true);
    let mut lanes = opened.lanes;
    let mut workers = opened.workers;
    seat_all(
        &leave,
        opened.started,
        opened.sessions,
        links,
        &mut lanes,
        &mut workers,
    );
    let mut hall = Hall {
        desk: Desk { core, lanes },
        workers,
        accepted: None,
        parts: opened.parts,
        keeps: true,
        begun: Begun::new(leave),
    };
    run(common, scope, bells, &mut hall, &mut Taken::new(), clock);
    let served = hall.desk;
    let ends = finish_all(common.rt, served.lanes, hall.workers, opened.ends);
    let desk = Desk::new(common.alloc, served.core);
    Served { desk, ends }
}

/// Starts the workers, opens the sessions, and serves them, in a scope of threads. If that is refused, the links are as before.
/// The scope gives the clock back, so that its contract can name it.
fn in_scope<'a, R, K, D, L, G, S, W, C>(
    common: Common<'a, R, L, G>,
    bells: &'a Vec<Bell>,
    core: Core<K, D>,
    links: VecDeque<Link<S, W>>,
    parts: Parts<L>,
    clock: &mut C,
) -> Result<Served<K, D, S, W>, Unserved<K, D, S, W>>
where
    R: Threads + Wait + SystemClock + Sync,
    K: Keeper + Drop,
    D: Draws + Drop,
    L: Ledger + Send + Sync,
    G: Gate + Sync,
    S: Source + Send + Drop,
    W: Sink + Send + Drop,
    C: Clock,
    requires bells { vec_len bells.now ≡ deque_len links }
    requires places { has_places (deque_len links) core.state ≡ true }
    requires parts { deque_len links ≤ parts.left }
    ensures { AnswersLinks (ends_of S.Source W.Sink) C.tells K.is_honest
        (to_serve core clock.old links.items) result clock.new }
{
    let (served, _clock) = thread::scope(
        thread::scope_env(),
        common.rt,
        move |scope| -> (Result<Served<K, D, S, W>, Unserved<K, D, S, W>>, &mut C)
            requires bells { vec_len bells.now ≡ deque_len links }
            requires places { has_places (deque_len links) core.state ≡ true }
            requires parts { deque_len links ≤ parts.left }
            ensures answers { AnswersLinks (ends_of S.Source W.Sink) C.tells K.is_honest
                (to_serve core clock.entry.now links.items) result.0 result.1.now }
            ensures same_clock { result.1.ghost_name ≡ clock.entry.ghost_name }
        {
            let mut core = core;
            match open_all(common, scope, bells, &mut core, parts) {
                Ok(opened) => {
                    let served = serve_opened(common, scope, bells, core, opened, links, clock);
                    (Ok(served), clock)
                }
                Err(fault) => {
                    let desk = Desk::new(common.alloc, core);
                    (Err(Unserved { fault, desk, links }), clock)
                }
            }
        },
    );
    served
}

/// Serves the links with the ledger that a type stands for.
fn serve_as<R, K, D, L, G, S, W, C>(
    rt: &R,
    alloc: Global,
    blank: Blank,
    gate: &G,
    core: Core<K, D>,
    links: VecDeque<Link<S, W>>,
    clock: &mut C,
) -> Result<Served<K, D, S, W>, Unserved<K, D, S, W>>
where
    R: Threads + Wait + SystemClock + Sync,
    K: Keeper + Drop,
    D: Draws + Drop,
    L: Ledger + Send + Sync,
    G: Gate + Sync,
    S: Source + Send + Drop,
    W: Sink + Send + Drop,
    C: Clock,
    requires name { blank.name ≡ L.name }
    requires parts { (blank.parts ≡ L.parts) × (blank.parts ≡ 2 ^ 64 - 1) }
    requires places { has_places (deque_len links) core.state ≡ true }
    ensures { AnswersLinks (ends_of S.Source W.Sink) C.tells K.is_honest
        (to_serve core clock.old links.items) result clock.new }
{
    let (book, all) = blank.open::<L>();
    let (Ok(order), Ok(bells)) = (Order::new(alloc, book), all_bells(alloc, links.len())) else {
        shows_nothing_opened(&core);
        let desk = Desk::new(alloc, core);
        return Err(Unserved {
            fault: ServeFault::Memory,
            desk,
            links,
        });
    };
    let common = Common {
        rt,
        alloc,
        order: &order,
        gate,
    };
    in_scope(
        common,
        &bells,
        core,
        links,
        Parts::of(all, SHARES - 1),
        clock,
    )
}

/// Serves each link as a session, all at the same time, to its end (RFC 7047, 4). The sessions get the next serials, in the
/// order of the links. A session ends when its reader's input ends, a read fails or its stream is damaged, when more than
/// 1,024 frames wait for its writer, or when an allocation for its request fails. A failed writer is reported at the end:
/// its session goes on, and what is sent to it is dropped.
///
/// Each reader and each writer works in a thread of its own, and the machine in this one: requests enter the history in the
/// order in which the desk takes them. Up to 64 messages of a session wait for the desk; then its reader waits. The desk asks
/// the clock for the moment of each, in milliseconds. A transaction whose `wait` times out is answered then, even if nobody
/// sends anything: while one may time out, the desk sleeps for a millisecond at most.
///
/// The call returns once all readers and writers have ended. A reader ends with its input, at a failed read, at damage or at
/// a failed allocation for a message; if its session is closed before that, the desk still takes what it brings, and drops
/// it.
///
/// Refused as `TooMany` if the machine has too few places or serials left, as `Memory` if an allocation fails, or as
/// `Threads` if a thread can't be started. Then nothing is read or written. The links come back as they were, and so does the
/// machine, unless `Memory` came after sessions were opened: these were closed again, as out of memory.
pub fn serve_links<R, K, D, G, S, W, C>(
    rt: &R,
    alloc: Global,
    desk: Desk<K, D>,
    links: VecDeque<Link<S, W>>,
    gate: &G,
    clock: &mut C,
) -> Result<Served<K, D, S, W>, Unserved<K, D, S, W>>
where
    R: Threads + Wait + SystemClock + Sync,
    K: Keeper + Drop,
    D: Draws + Drop,
    G: Gate + Sync,
    S: Source + Send + Drop,
    W: Sink + Send + Drop,
    C: Clock,
    ensures { AnswersLinks (ends_of S.Source W.Sink) C.tells K.is_honest
        (to_serve desk.core clock.old links.items) result clock.new }
{
    let core = desk.into_core();
    if !has_places(&core, links.len()) {
        return Err(Unserved {
            fault: ServeFault::TooMany,
            desk: Desk::new(alloc, core),
            links,
        });
    }
    serve_as::<R, K, D, Brand, G, S, W, C>(rt, alloc, Blank::new(SHARES), gate, core, links, clock)
}
