ghost use Rattle.std.specs.Prelude.{◌≡◌, IfOk};
ghost use Rattle.std.specs.VecDeque.{deque_len};
ghost use Rattle.ov_sockets.specs.Links.{AreNewClients};

use crate::clients::{ClientReader, ClientWriter, client_of};
use crate::fault::ListenFault;
use ov_workers::Link;
use std::alloc::Global;
use std::collections::VecDeque;
use std::net::TcpListener;

/// Accepts this many connections, one after another, waits for each, and returns the two ends of each, which own it. Nothing
/// has been read from them or written to them. What is flushed is sent at once and not gathered (TCP_NODELAY), unless the
/// system refuses that.
///
/// Returns `Refused` if one is not accepted, even if only its client gave it up, or the system has no room for its second
/// end, and `Memory` if an allocation fails; then all that were accepted are closed. Without a client it waits forever.
pub fn accept_all(
    alloc: Global,
    listener: &TcpListener,
    count: usize,
) -> Result<VecDeque<Link<ClientReader, ClientWriter>>, ListenFault>
    ensures many { IfOk result (λ links. deque_len links ≡ count) }
    ensures unused { IfOk result (λ links. AreNewClients links.items) }
{
    let mut links = VecDeque::with_capacity(alloc, count)?;
    for _ in 0..count {
        let (stream, _) = listener.accept()?;
        links.push_back_reserved(client_of(alloc, stream)?);
    }
    Ok(links)
}
