ghost use Rattle.std.specs.Prelude.{◌≡◌, IfOk};
ghost use Rattle.ov_sockets.specs.Faults.{is_given_up};
ghost use Rattle.ov_sockets.specs.Links.{ComesTo, GivesClient, IsNewClient};

use crate::fault::ListenFault;
use ov_ends::Watched;
use ov_workers::{Link, Listen};
use std::alloc::Global;
use std::io::{self, BufWriter, ErrorKind};
use std::net::{TcpListener, TcpStream};

/// What reads from a connection that closes once both of its ends are dropped.
pub type ClientReader = Watched<TcpStream>;

/// What writes to it. It buffers up to 8,192 bytes, until a flush.
pub type ClientWriter = Watched<BufWriter<TcpStream>>;

/// The clients that connect to a listener, each with the two ends of its connection.
#[derive(Drop)]
pub struct Clients {
    alloc: Global,
    listener: TcpListener,
}

impl Clients {
    /// Those who connect to this listener.
    pub fn new(alloc: Global, listener: TcpListener) -> Clients
        ensures { result.listener ≡ listener }
    {
        Clients { alloc, listener }
    }
}

impl Listen<ClientReader, ClientWriter> for Clients {
    ghost gives = { GivesClient };

    /// Skips a connection that its client gave up before it was accepted, and closes one at once if the system has no room
    /// for its ends or an allocation fails. Tries again after an interruption; after any other error there are no more. What
    /// is flushed is sent at once and not gathered (TCP_NODELAY), unless the system refuses that.
    fn accept(&mut self) -> Option<Link<ClientReader, ClientWriter>> {
        for answer in self.listener.incoming() {
            match next_of(self.alloc, answer) {
                Next::Client(link) => return Some(link),
                Next::Failed => {}
                Next::Over => return None,
            }
        }
        None
    }
}

/// What the system's answer to a listener comes to.
#[derive(Drop)]
enum Next {
    /// A client.
    Client(Link<ClientReader, ClientWriter>),
    /// Only this one connection failed.
    Failed,
    /// No more can come.
    Over,
}

/// What the system's answer comes to. A connection for whose ends the system has no room, or for which an allocation fails, is
/// closed.
fn next_of(alloc: Global, answer: io::Result<TcpStream>) -> Next
    ensures { ComesTo answer result }
{
    match answer {
        Ok(stream) => match client_of(alloc, stream) {
            Ok(link) => Next::Client(link),
            Err(_) => Next::Failed,
        },
        Err(error) if is_given_up(error.kind()) => Next::Failed,
        Err(_) => Next::Over,
    }
}

/// Whether only this one connection failed.
fn is_given_up(kind: ErrorKind) -> bool
    ensures { result ≡ is_given_up kind }
{
    matches!(
        kind,
        ErrorKind::ConnectionAborted | ErrorKind::ConnectionReset | ErrorKind::Interrupted
    )
}

/// The two ends of a client's connection, which own it. What is flushed is sent at once and not gathered (TCP_NODELAY),
/// unless the system refuses that.
///
/// Returns `Memory` if an allocation fails, and `Refused` if the system has no room for the second end.
pub(crate) fn client_of(
    alloc: Global,
    stream: TcpStream,
) -> Result<Link<ClientReader, ClientWriter>, ListenFault>
    ensures { IfOk result (λ link. IsNewClient link stream) }
{
    let _ = stream.set_nodelay(true);
    let output = BufWriter::new(alloc, stream.try_clone()?)?;
    Ok(Link {
        reader: Watched::new(stream),
        writer: Watched::new(output),
    })
}
