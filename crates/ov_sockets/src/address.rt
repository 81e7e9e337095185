ghost use Rattle.std.specs.Prelude.{◌≡◌, true, false, Ok, Some, None, IfOk};
ghost use Rattle.std.specs.declared.net.socket_addr.SocketAddr.{SocketAddr as SpecAddress};
ghost use Rattle.ov_sockets.specs.Address.{leaves_port_open, line};

use crate::fault::ListenFault;
use ov_base::Text;
use std::alloc::{AllocError, Global};
use std::net::{Net, SocketAddr, TcpListener, TcpStream};

/// Listens at an address, HOST:PORT: a name or an IP address, in brackets if it is of version 6, and a port from 0 to 65535.
/// The first address of a name that can be bound is taken. If the port is 0, the system chooses a free one.
///
/// Afterwards clients can connect before they are accepted: up to 128 then wait. Returns `Refused` if the text is not an
/// address, or none of its addresses can be bound, for example because another program listens at the port; and `Memory` if
/// the system is out of memory.
pub fn listen<R: Net<Listener = TcpListener, Stream = TcpStream>>(
    net: &R,
    address: &str,
) -> Result<TcpListener, ListenFault> {
    Ok(TcpListener::bind(net, address)?)
}

/// The line that reports where a listener listens, without its line end, if the address that was named ends in `:0`: then
/// the system chose the port. For any other address there is none. Returns `Refused` if the system doesn't report the
/// address, and `Memory` if an allocation fails.
pub fn chosen_line(
    alloc: Global,
    named: &str,
    listener: &TcpListener,
) -> Result<Option<Text>, ListenFault>
    ensures chosen { leaves_port_open named.now ≡ true
        → IfOk result (λ told. (address : SpecAddress) × (told ≡ Some (line address))) }
    ensures named { leaves_port_open named.now ≡ false → result ≡ Ok None }
{
    if !leaves_port_open(named) {
        return Ok(None);
    }
    let address = listener.local_addr()?;
    Ok(Some(line_of(alloc, address)?))
}

/// Whether an address leaves its port to the system.
fn leaves_port_open(named: &str) -> bool
    ensures { result ≡ leaves_port_open named.now }
{
    named.as_bytes().ends_with(b":0")
}

/// The line that reports an address.
fn line_of(alloc: Global, address: SocketAddr) -> Result<Text, AllocError>
    ensures { IfOk result (λ text. text ≡ line address) }
{
    Ok(Text::from_string(format!(in alloc; "ov_server: listening at {address}")?))
}
