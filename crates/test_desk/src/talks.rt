//! Clients over the loopback interface, which follow a script.

use std::alloc::Global;
use std::io;
use std::io::{Read, Write};
use std::net::{Net, TcpListener, TcpStream};
use std::time::Duration;

/// How many seconds a client waits for what it is sent.
const PATIENCE: u64 = 20;

/// A client that connects to a listener, and waits for a while for what it is sent.
pub(crate) fn client_at<R: Net<Listener = TcpListener, Stream = TcpStream>>(
    rt: &R,
    listener: &TcpListener,
) -> io::Result<TcpStream> {
    let client = TcpStream::connect(rt, listener.local_addr()?)?;
    client.set_read_timeout(Some(Duration::from_secs(PATIENCE)))?;
    Ok(client)
}

/// Reads as many bytes as `wanted` has. None if they differ.
fn reads(alloc: Global, client: &TcpStream, wanted: &str) -> Option<()> {
    let mut reader = client;
    let mut got = Vec::new(alloc);
    got.resize(wanted.len(), 0).ok()?;
    reader.read_exact(got.as_mut_slice()).ok()?;
    if got.as_slice() == wanted.as_bytes() {
        Some(())
    } else {
        None
    }
}

/// Meets the end of what the client is sent. None if there is more, or no end for a while.
pub(crate) fn meets_end(client: &TcpStream) -> Option<()> {
    let mut reader = client;
    match reader.read(&mut [0; 1]) {
        Ok(0) => Some(()),
        _ => None,
    }
}

/// Follows a line of a script: who sends or reads, and what, or who meets the end.
fn follow(alloc: Global, first: &TcpStream, second: &TcpStream, line: &str) -> Option<()> {
    let (who, what) = line.split_once(" ")?;
    let client = if who == "1" { first } else { second };
    match what.split_once(" ")? {
        ("sends", text) => {
            let mut writer = client;
            writer.write_all(text.as_bytes()).ok()
        }
        ("reads", text) => reads(alloc, client, text),
        ("meets", _the_end) => meets_end(client),
        _ => None,
    }
}

/// Follows a script, line by line. None if something else is read, or nothing for a while.
pub(crate) fn talk(
    alloc: Global,
    first: &TcpStream,
    second: &TcpStream,
    script: &str,
) -> Option<()> {
    for line in script.lines() {
        follow(alloc, first, second, line)?;
    }
    Some(())
}
