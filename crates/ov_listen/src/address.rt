ghost use Rattle.ov_core.specs.Following.{with_clock};
ghost use Rattle.ov_listen.specs.Connections.{EndsAddress};

use crate::connections::serve_so_many;
use crate::endings::ending_of_listening;
use crate::endpoint::Ended;
use crate::everyone::serve_everyone;
use crate::system::System;
use ov_core::Core;
use ov_ends::Clock;
use ov_keeper::Keeper;
use ov_requests::Draws;
use ov_sockets::{ListenFault, chosen_line, listen};
use std::alloc::Global;
use std::collections::VecDeque;
use std::net::{Net, TcpListener, TcpStream};

/// Listens at an address, HOST:PORT, accepts connections, and serves a session of the machine over each, all at the same
/// time, from the first byte of its input to its end. If the port is 0, the system chooses one, and a line on standard error
/// reports it.
///
/// If a number N is given, N connections are accepted, and then served; none is closed before all sessions have ended, and
/// what remains of each comes back. The session of a client that has left by then ends at once. If a connection can't be
/// accepted, or `serve_links` refuses them, nothing is read or written, and all are closed: so N is at most the number of
/// places that the machine has left, 64 if no session is open. Without a number every client is served at once, up to 64 at a
/// time, until a connection can't be accepted.
///
/// The ending is `InputEnded` if N sessions were served, `Memory` if none was served because an allocation failed, and
/// otherwise `Streams`.
pub fn serve_at<R, K, D, C>(
    rt: &R,
    alloc: Global,
    core: Core<K, D>,
    address: &str,
    count: Option<usize>,
    clock: &mut C,
) -> Ended<K, D>
where
    R: System,
    K: Keeper + Drop,
    D: Draws + Drop,
    C: Clock,
    ensures ends { EndsAddress C.tells (with_clock core clock.old) count result.ending
        (with_clock result.core clock.new) result.ends.items }
    ensures honest { K.is_honest result.core.keeper → K.is_honest core.keeper }
{
    match listening(rt, alloc, address) {
        Ok(listener) => match count {
            Some(count) => serve_so_many(rt, alloc, core, listener, count, clock),
            None => serve_everyone(rt, alloc, core, listener, clock),
        },
        Err(fault) => Ended {
            ending: ending_of_listening(fault),
            core,
            ends: VecDeque::new(alloc),
        },
    }
}

/// Listens at an address. If the system chooses the port, one line on standard error reports it.
fn listening<R>(rt: &R, alloc: Global, address: &str) -> Result<TcpListener, ListenFault>
where
    R: Net<Listener = TcpListener, Stream = TcpStream> + Eprint,
{
    let listener = listen(rt, address)?;
    if let Some(line) = chosen_line(alloc, address, &listener)? {
        // A user who has closed standard error finds the port by other means, or not at all.
        let _ = eprintln!(rt; "{}", line.as_str());
    }
    Ok(listener)
}
