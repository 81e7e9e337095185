ghost use Rattle.std.specs.Prelude.{◌≡◌, [], IfOk, IfErr};
ghost use Rattle.std.specs.VecDeque.{deque_len};
ghost use Rattle.ov_core.specs.Following.{with_clock};
ghost use Rattle.ov_sockets.specs.Links.{AreNewClients};
ghost use Rattle.ov_listen.specs.Connections.{EndsSoMany, RefusesConnections, ServesLinks};

use crate::endings::{ending_of_listening, ending_of_serving};
use crate::endpoint::Ended;
use ov_core::Core;
use ov_desk::{Served, Unserved, serve_links};
use ov_ends::Clock;
use ov_keeper::Keeper;
use ov_lanes::Desk;
use ov_requests::Draws;
use ov_sockets::{ClientReader, ClientWriter, ListenFault, accept_all};
use ov_words::Ending;
use ov_workers::{FreeGate, Link};
use std::alloc::Global;
use std::collections::VecDeque;
use std::net::TcpListener;
use std::rt::Clock as SystemClock;
use std::sync::Wait;
use std::thread::Threads;

/// Serves each connection as a session of the machine, all at the same time, as `serve_links` does, and returns what remains
/// of each. If they are not served, nothing is read or written, the connections are closed, and the machine is as
/// `serve_links` leaves it. The ending is then `Memory` if an allocation failed, and otherwise `Streams`.
///
/// No connection is closed before all sessions have ended; then the owner of what remains closes them.
pub fn serve_connections<R, K, D, C>(
    rt: &R,
    alloc: Global,
    core: Core<K, D>,
    links: VecDeque<Link<ClientReader, ClientWriter>>,
    clock: &mut C,
) -> Result<Served<K, D, ClientReader, ClientWriter>, Ended<K, D>>
where
    R: Threads + Wait + SystemClock + Sync,
    K: Keeper + Drop,
    D: Draws + Drop,
    C: Clock,
    ensures served { IfOk result
        (λ served. ServesLinks C.tells (with_clock core clock.old) links.items
        (with_clock served.desk.core clock.new) served.ends.items) }
    ensures refused { IfErr result
        (λ ended. RefusesConnections (with_clock core clock.old) (deque_len links)
        ended.ending (with_clock ended.core clock.new)) }
    ensures none { IfErr result (λ ended. ended.ends.items ≡ []) }
    ensures honest { IfOk result (λ served. K.is_honest served.desk.core.keeper
        → K.is_honest core.keeper) }
    ensures honest_refused { IfErr result (λ ended. K.is_honest ended.core.keeper
        → K.is_honest core.keeper) }
{
    match serve_links(rt, alloc, Desk::new(alloc, core), links, &FreeGate, clock) {
        Ok(served) => Ok(served),
        Err(unserved) => {
            let Unserved {
                fault,
                desk,
                links: _,
            } = unserved;
            Err(Ended {
                ending: ending_of_serving(fault),
                core: desk.into_core(),
                ends: VecDeque::new(alloc),
            })
        }
    }
}

/// Accepts this many connections. The listener is closed once they are there.
fn connected(
    alloc: Global,
    listener: TcpListener,
    count: usize,
) -> Result<VecDeque<Link<ClientReader, ClientWriter>>, ListenFault>
    ensures many { IfOk result (λ links. deque_len links ≡ count) }
    ensures unused { IfOk result (λ links. AreNewClients links.items) }
{
    accept_all(alloc, &listener, count)
}

/// Serves this many connections as sessions of the machine, once all of them are there. If they are served, the ending is
/// `InputEnded`, whatever each session was closed for.
pub(crate) fn serve_so_many<R, K, D, C>(
    rt: &R,
    alloc: Global,
    core: Core<K, D>,
    listener: TcpListener,
    count: usize,
    clock: &mut C,
) -> Ended<K, D>
where
    R: Threads + Wait + SystemClock + Sync,
    K: Keeper + Drop,
    D: Draws + Drop,
    C: Clock,
    ensures ends { EndsSoMany C.tells (with_clock core clock.old) count result.ending
        (with_clock result.core clock.new) result.ends.items }
    ensures honest { K.is_honest result.core.keeper → K.is_honest core.keeper }
{
    let links = match connected(alloc, listener, count) {
        Ok(links) => links,
        Err(fault) => {
            return Ended {
                ending: ending_of_listening(fault),
                core,
                ends: VecDeque::new(alloc),
            };
        }
    };
    match serve_connections(rt, alloc, core, links, clock) {
        Ok(served) => {
            let Served { desk, ends } = served;
            Ended {
                ending: Ending::InputEnded,
                core: desk.into_core(),
                ends,
            }
        }
        Err(ended) => ended,
    }
}
