use crate::talks::{client_at, talk};
use ov_ends::{Sink, Source};
use ov_sockets::{ClientReader, ClientWriter, accept_all, listen};
use ov_workers::Link;
use std::alloc::Global;
use std::collections::VecDeque;
use std::net::{Net, Shutdown, TcpListener, TcpStream};
use std::test::Fail;
use test_basics::is_text;

/// Reads up to 16 bytes, sends them back, and returns how many.
fn echo(link: &mut Link<ClientReader, ClientWriter>) -> Option<usize> {
    let mut piece = [0; 16];
    let n = link.reader.read(&mut piece)?;
    if link.writer.write(&piece[..n])? == n && link.writer.flush() {
        return Some(n);
    }
    None
}

/// The ends of a connection can be moved into threads of their own.
fn crosses<S: Send, W: Send>(link: &mut Link<S, W>) -> &mut Link<S, W> {
    link
}

/// Like `echo` for each connection, in order.
fn echo_all(
    alloc: Global,
    links: &mut VecDeque<Link<ClientReader, ClientWriter>>,
) -> Result<Vec<usize>, Fail> {
    let mut lengths = Vec::new(alloc);
    for link in links.iter_mut() {
        lengths.push(echo(crosses(link)).ok_or("no echo")?)?;
    }
    Ok(lengths)
}

/// Fails unless these numbers of bytes are sent back.
fn echoes(
    alloc: Global,
    links: &mut VecDeque<Link<ClientReader, ClientWriter>>,
    wanted: &str,
) -> Result<(), Fail> {
    let lengths = echo_all(alloc, links)?;
    let told = format!(in alloc; "{lengths:?}")?;
    is_text(alloc, told.as_str(), wanted)
}

/// Fails unless both clients can follow a script.
fn follows(alloc: Global, first: &TcpStream, second: &TcpStream, script: &str) -> Result<(), Fail> {
    Ok(talk(alloc, first, second, script).ok_or("another talk")?)
}

/// Both clients are answered, and the second goes on after the first has ended.
fn are_answered(
    alloc: Global,
    links: &mut VecDeque<Link<ClientReader, ClientWriter>>,
    first: &TcpStream,
    second: &TcpStream,
) -> Result<(), Fail> {
    follows(alloc, first, second, "1 sends [1]\n2 sends [22]")?;
    echoes(alloc, links, "[3, 4]")?;
    follows(alloc, first, second, "1 reads [1]\n2 reads [22]")?;
    first.shutdown(Shutdown::Write)?;
    follows(alloc, first, second, "2 sends {}")?;
    echoes(alloc, links, "[0, 2]")?;
    follows(alloc, first, second, "2 reads {}")
}

/// The same with new connections, until they are dropped.
fn are_accepted(
    alloc: Global,
    listener: &TcpListener,
    first: &TcpStream,
    second: &TcpStream,
) -> Result<(), Fail> {
    let mut links = accept_all(alloc, listener, 2)?;
    are_answered(alloc, &mut links, first, second)
}

/// The same; then both clients meet the end.
fn meet_their_ends(
    alloc: Global,
    listener: &TcpListener,
    first: &TcpStream,
    second: &TcpStream,
) -> Result<(), Fail> {
    are_accepted(alloc, listener, first, second)?;
    follows(alloc, first, second, "1 meets end\n2 meets end")
}

/// The same with new clients.
fn two_meet_their_ends<R: Net<Listener = TcpListener, Stream = TcpStream>>(
    rt: &R,
    alloc: Global,
    listener: &TcpListener,
) -> Result<(), Fail> {
    let first = client_at(rt, listener)?;
    let second = client_at(rt, listener)?;
    meet_their_ends(alloc, listener, &first, &second)
}

/// Serves two clients over connections of their own. Each sees its end once its connection is dropped.
#[test]
fn clients_meet_the_ends_of_their_connections(rt: HostRuntime) -> Result<(), Fail> {
    let listener = listen(&rt, "127.0.0.1:0")?;
    two_meet_their_ends(&rt, rt.alloc(), &listener)
}
