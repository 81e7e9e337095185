ghost use Rattle.std.specs.Prelude.{◌≡◌, []};
ghost use Rattle.ov_core.specs.Following.{with_clock};
ghost use Rattle.ov_listen.specs.Connections.{EndsEveryone};

use crate::endings::ending_of_serving;
use crate::endpoint::Ended;
use ov_core::Core;
use ov_ends::Clock;
use ov_keeper::Keeper;
use ov_lanes::Desk;
use ov_lobby::{RefusedLobby, serve_lobby};
use ov_requests::Draws;
use ov_sockets::Clients;
use ov_words::Ending;
use ov_workers::FreeGate;
use std::alloc::Global;
use std::collections::VecDeque;
use std::net::TcpListener;
use std::rt::Clock as SystemClock;
use std::sync::Wait;
use std::thread::Threads;

/// Serves every client as a session of the machine, up to 64 at a time, as `serve_lobby` does, until accepting one fails.
pub(crate) fn serve_everyone<R, K, D, C>(
    rt: &R,
    alloc: Global,
    core: Core<K, D>,
    listener: TcpListener,
    clock: &mut C,
) -> Ended<K, D>
where
    R: Threads + Wait + SystemClock + Sync,
    K: Keeper + Drop,
    D: Draws + Drop,
    C: Clock,
    ensures ends { EndsEveryone C.tells (with_clock core clock.old) result.ending
        (with_clock result.core clock.new) }
    ensures none { result.ends.items ≡ [] }
    ensures honest { K.is_honest result.core.keeper → K.is_honest core.keeper }
{
    let clients = Clients::new(alloc, listener);
    match serve_lobby(rt, alloc, Desk::new(alloc, core), clients, &FreeGate, clock) {
        Ok(desk) => Ended {
            ending: Ending::Streams,
            core: desk.into_core(),
            ends: VecDeque::new(alloc),
        },
        Err(refused) => {
            let RefusedLobby {
                fault,
                desk,
                listener: _,
            } = refused;
            Ended {
                ending: ending_of_serving(fault),
                core: desk.into_core(),
                ends: VecDeque::new(alloc),
            }
        }
    }
}
