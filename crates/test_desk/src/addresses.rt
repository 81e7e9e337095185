use ov_base::Text;
use ov_sockets::{ListenFault, accept_all, chosen_line, listen};
use std::alloc::Global;
use std::net::{Net, TcpListener, TcpStream};
use std::test::Fail;
use test_basics::{holds, is_text};

/// Addresses at which nobody can listen.
const NOWHERE: &str = "
127.0.0.1
:
127.0.0.1:
127.0.0.1:65536
127.0.0.1:port
256.0.0.1:0
192.0.2.1:0
[::1:0";

/// Whether listening at an address is refused.
fn is_refused<R: Net<Listener = TcpListener, Stream = TcpStream>>(rt: &R, address: &str) -> bool {
    matches!(listen(rt, address), Err(ListenFault::Refused))
}

/// Fails unless listening at an address is refused.
fn refuses<R: Net<Listener = TcpListener, Stream = TcpStream>>(
    rt: &R,
    alloc: Global,
    address: &str,
) -> Result<(), Fail> {
    let what = format!(in alloc; "refused at {address}")?;
    holds(alloc, is_refused(rt, address), what.as_str())
}

#[test]
fn no_address_is_refused(rt: HostRuntime) -> Result<(), Fail> {
    for address in NOWHERE.split('\n') {
        refuses(&rt, rt.alloc(), address)?;
    }
    Ok(())
}

/// The address at which a listener listens.
pub(crate) fn address_of(alloc: Global, listener: &TcpListener) -> Result<String, Fail> {
    let address = listener.local_addr()?;
    Ok(format!(in alloc; "{address}")?)
}

/// Fails unless listening at the address of a listener is refused.
fn refuses_another<R: Net<Listener = TcpListener, Stream = TcpStream>>(
    rt: &R,
    alloc: Global,
    listener: &TcpListener,
) -> Result<(), Fail> {
    let address = address_of(alloc, listener)?;
    refuses(rt, alloc, address.as_str())
}

#[test]
fn a_port_is_listened_at_once(rt: HostRuntime) -> Result<(), Fail> {
    let listener = listen(&rt, "127.0.0.1:0")?;
    refuses_another(&rt, rt.alloc(), &listener)
}

/// The line that reports a listener for which this address was named, or `none`.
fn line_of(alloc: Global, named: &str, listener: &TcpListener) -> Result<Text, Fail> {
    match chosen_line(alloc, named, listener)? {
        Some(line) => Ok(line),
        None => Ok(Text::from_str(alloc, "none")?),
    }
}

/// Fails unless this line is reported.
fn tells(alloc: Global, named: &str, listener: &TcpListener, wanted: &str) -> Result<(), Fail> {
    let line = line_of(alloc, named, listener)?;
    is_text(alloc, line.as_str(), wanted)
}

/// Fails unless the address of a listener is reported if the system chose its port.
fn tells_its_address(alloc: Global, listener: &TcpListener) -> Result<(), Fail> {
    let address = listener.local_addr()?;
    let wanted = format!(in alloc; "ov_server: listening at {address}")?;
    tells(alloc, "127.0.0.1:0", listener, wanted.as_str())
}

#[test]
fn a_chosen_port_is_told(rt: HostRuntime) -> Result<(), Fail> {
    let listener = listen(&rt, "127.0.0.1:0")?;
    tells_its_address(rt.alloc(), &listener)?;
    tells(rt.alloc(), "127.0.0.1:6640", &listener, "none")
}

/// Whether accepting a client is refused.
fn is_accept_refused(alloc: Global, listener: &TcpListener) -> bool {
    matches!(accept_all(alloc, listener, 1), Err(ListenFault::Refused))
}

/// A listener that does not wait fails if nobody has connected.
#[test]
fn a_failed_accept_is_refused(rt: HostRuntime) -> Result<(), Fail> {
    let listener = listen(&rt, "127.0.0.1:0")?;
    listener.set_nonblocking(true)?;
    let is_so = is_accept_refused(rt.alloc(), &listener);
    holds(rt.alloc(), is_so, "an accept is refused")
}
