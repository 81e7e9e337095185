//! Sessions of clients over the loopback interface that are served together, at an address, and over pipes.

use crate::addresses::address_of;
use crate::machines::net_core;
use crate::talks::{client_at, talk};
use ov_base::Text;
use ov_core::Core;
use ov_ends::{Clock as MomentClock, Sink, Source};
use ov_hall::End;
use ov_keeper::Keeper;
use ov_listen::{
    Endpoint, MonotonicClock, Pipes, Service, pipes_over, serve_at, serve_connections, serve_memory,
};
use ov_requests::Draws;
use ov_schema::text_of;
use ov_sockets::{ClientReader, ClientWriter, accept_all, listen};
use ov_words::{Ending, ending_of_open};
use ov_workers::Link;
use std::alloc::Global;
use std::collections::VecDeque;
use std::net::{Net, Shutdown, TcpListener, TcpStream};
use std::rt::Clock;
use std::sync::Wait;
use std::test::Fail;
use std::thread;
use std::thread::Threads;
use test_basics::{Counter, holds, is_text, net};

/// The first client owns a lock, and gives it up after the second was told to wait. The second is then notified that it owns
/// the lock.
const GIVEN_ON: &str = r#"1 sends {"id":1,"method":"lock","params":["L"]}
1 reads {"error":null,"id":1,"result":{"locked":true}}
2 sends {"id":1,"method":"lock","params":["L"]}
2 reads {"error":null,"id":1,"result":{"locked":false}}
1 sends {"id":2,"method":"unlock","params":["L"]}
1 reads {"error":null,"id":2,"result":{}}
2 reads {"id":null,"method":"locked","params":["L"]}"#;

/// Follows a script, and then ends both inputs, however the talk went, because serving waits for that. False if something
/// else is read.
fn talk_to_end(alloc: Global, first: &TcpStream, second: &TcpStream, script: &str) -> bool {
    let talked = talk(alloc, first, second, script).is_some();
    let ended = first.shutdown(Shutdown::Write).is_ok();
    second.shutdown(Shutdown::Write).is_ok() && ended && talked
}

/// How sessions ended, and the serials of what remains of their connections.
fn told_of_ends(
    alloc: Global,
    ending: Ending,
    ends: &VecDeque<End<ClientReader, ClientWriter>>,
) -> Result<String, Fail> {
    let mut serials = Vec::new(alloc);
    for end in ends {
        serials.push(end.serial)?;
    }
    Ok(format!(in alloc; "{ending:?} {serials:?}")?)
}

/// The same of sessions over these connections, by this machine.
fn served_by<R: Threads + Wait + Clock + Sync, K: Keeper + Drop, D: Draws + Drop>(
    rt: &R,
    alloc: Global,
    core: Core<K, D>,
    links: VecDeque<Link<ClientReader, ClientWriter>>,
) -> Result<String, Fail> {
    match serve_connections(rt, alloc, core, links, &mut MonotonicClock::new(rt)) {
        Ok(served) => told_of_ends(alloc, Ending::InputEnded, &served.ends),
        Err(ended) => told_of_ends(alloc, ended.ending, &ended.ends),
    }
}

/// The same with a new in-memory database Net.
fn served<R: Threads + Wait + Clock + Sync>(
    rt: &R,
    alloc: Global,
    links: VecDeque<Link<ClientReader, ClientWriter>>,
) -> Result<String, Fail> {
    let core = net_core(alloc)?;
    served_by(rt, alloc, core, links)
}

/// Fails unless this is how sessions end.
fn is_ending(alloc: Global, ending: Ending, wanted: &str) -> Result<(), Fail> {
    let told = format!(in alloc; "{ending:?}")?;
    is_text(alloc, told.as_str(), wanted)
}

/// Fails unless two sessions end with their input, both connections remain, and their clients have talked.
fn have_talked(alloc: Global, told: Result<String, Fail>, is_as_told: bool) -> Result<(), Fail> {
    let told = told?;
    is_text(alloc, told.as_str(), "InputEnded [1, 2]")?;
    holds(alloc, is_as_told, "the clients have talked to the end")
}

/// The same with clients that talk while these connections are served.
fn share_a_lock<R: Threads + Wait + Clock + Sync>(
    rt: &R,
    alloc: Global,
    listener: &TcpListener,
    first: &TcpStream,
    second: &TcpStream,
) -> Result<(), Fail> {
    let links = accept_all(alloc, listener, 2)?;
    let (told, is_as_told) = thread::join(
        rt,
        move || served(rt, alloc, links),
        move || talk_to_end(alloc, first, second, GIVEN_ON),
    );
    have_talked(alloc, told, is_as_told)
}

/// The same with new clients.
fn two_share_a_lock<R>(rt: &R, alloc: Global, listener: &TcpListener) -> Result<(), Fail>
where
    R: Net<Listener = TcpListener, Stream = TcpStream> + Threads + Wait + Clock + Sync,
{
    let first = client_at(rt, listener)?;
    let second = client_at(rt, listener)?;
    share_a_lock(rt, alloc, listener, &first, &second)
}

#[test]
fn two_clients_share_a_lock(rt: HostRuntime) -> Result<(), Fail> {
    let listener = listen(&rt, "127.0.0.1:0")?;
    two_share_a_lock(&rt, rt.alloc(), &listener)
}

/// How a session at an address ends, by this machine.
fn ending_by<R, K, D>(rt: &R, alloc: Global, core: Core<K, D>, address: &str) -> Ending
where
    R: Net<Listener = TcpListener, Stream = TcpStream> + Threads + Wait + Clock + Eprint + Sync,
    K: Keeper + Drop,
    D: Draws + Drop,
{
    let clock = &mut MonotonicClock::new(rt);
    serve_at(rt, alloc, core, address, Some(1), clock).ending
}

/// The same with a new in-memory database Net.
fn ending_at<R>(rt: &R, alloc: Global, address: &str) -> Result<Ending, Fail>
where
    R: Net<Listener = TcpListener, Stream = TcpStream> + Threads + Wait + Clock + Eprint + Sync,
{
    let core = net_core(alloc)?;
    Ok(ending_by(rt, alloc, core, address))
}

/// Fails unless this is how it ends.
fn ends_at<R>(rt: &R, alloc: Global, address: &str, wanted: &str) -> Result<(), Fail>
where
    R: Net<Listener = TcpListener, Stream = TcpStream> + Threads + Wait + Clock + Eprint + Sync,
{
    is_ending(alloc, ending_at(rt, alloc, address)?, wanted)
}

#[test]
fn no_address_ends_as_streams(rt: HostRuntime) -> Result<(), Fail> {
    ends_at(&rt, rt.alloc(), "127.0.0.1", "Streams")
}

/// Fails unless this is how a session at the address of another listener ends.
fn ends_beside<R>(rt: &R, alloc: Global, listener: &TcpListener, wanted: &str) -> Result<(), Fail>
where
    R: Net<Listener = TcpListener, Stream = TcpStream> + Threads + Wait + Clock + Eprint + Sync,
{
    let address = address_of(alloc, listener)?;
    ends_at(rt, alloc, address.as_str(), wanted)
}

#[test]
fn a_port_in_use_ends_as_streams(rt: HostRuntime) -> Result<(), Fail> {
    let listener = listen(&rt, "127.0.0.1:0")?;
    ends_beside(&rt, rt.alloc(), &listener, "Streams")
}

/// A service of a new database Net at this endpoint.
fn service_at(alloc: Global, endpoint: Endpoint) -> Result<Service<Counter>, Fail> {
    let schema = net(alloc)?;
    let text = text_of(alloc, &schema)?;
    Ok(Service {
        schema,
        text,
        draws: Counter::new(),
        endpoint,
    })
}

/// How the sessions of a service in memory end.
fn ending_in_memory<R, D, S, W, C>(
    rt: &R,
    alloc: Global,
    service: Service<D>,
    pipes: &mut Pipes<S, W, C>,
) -> Ending
where
    R: Net<Listener = TcpListener, Stream = TcpStream> + Threads + Wait + Clock + Eprint + Sync,
    D: Draws + Drop,
    S: Source,
    W: Sink,
    C: MomentClock,
{
    match serve_memory(rt, alloc, service, pipes) {
        Ok(ended) => ended.ending,
        Err(refused) => ending_of_open(refused.fault),
    }
}

/// How sessions end at this endpoint, with a new in-memory database Net.
fn ending_of<R, S, W, C>(
    rt: &R,
    alloc: Global,
    endpoint: Endpoint,
    pipes: &mut Pipes<S, W, C>,
) -> Result<Ending, Fail>
where
    R: Net<Listener = TcpListener, Stream = TcpStream> + Threads + Wait + Clock + Eprint + Sync,
    S: Source,
    W: Sink,
    C: MomentClock,
{
    let service = service_at(alloc, endpoint)?;
    Ok(ending_in_memory(rt, alloc, service, pipes))
}

/// How a session over streams ended, and what it wrote.
fn told_of(alloc: Global, ended: Result<Ending, Fail>, output: Vec<u8>) -> Result<String, Fail> {
    let ending = ended?;
    let output = String::from_utf8(output)?;
    Ok(format!(in alloc; "{ending:?} {output}")?)
}

/// The same at an endpoint, with this input of the pipes.
fn told_at<R>(rt: &R, alloc: Global, endpoint: Endpoint, input: &[u8]) -> Result<String, Fail>
where
    R: Net<Listener = TcpListener, Stream = TcpStream> + Threads + Wait + Clock + Eprint + Sync,
{
    let mut output = Vec::new(alloc);
    let mut pipes = pipes_over(rt, alloc, input, &mut output)?;
    let ended = ending_of(rt, alloc, endpoint, &mut pipes);
    drop(pipes);
    told_of(alloc, ended, output)
}

#[test]
fn a_session_is_served_over_streams(rt: HostRuntime) -> Result<(), Fail> {
    let input = br#"{"id":1,"method":"echo","params":[2]}"#.as_slice();
    let told = told_at(&rt, rt.alloc(), Endpoint::Pipes, input)?;
    let wanted = r#"InputEnded {"error":null,"id":1,"result":[2]}"#;
    is_text(rt.alloc(), told.as_str(), wanted)
}

#[test]
fn nothing_is_served_where_no_address_is(rt: HostRuntime) -> Result<(), Fail> {
    let address = Text::from_str(rt.alloc(), "127.0.0.1")?;
    let endpoint = Endpoint::Address(address, Some(1));
    let input = br#"{"id":1,"method":"echo","params":[2]}"#.as_slice();
    let told = told_at(&rt, rt.alloc(), endpoint, input)?;
    is_text(rt.alloc(), told.as_str(), "Streams ")
}
