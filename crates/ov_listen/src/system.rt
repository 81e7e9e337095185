use std::net::{Net, TcpListener, TcpStream};
use std::rt::Clock;
use std::sync::Wait;
use std::thread::Threads;

/// What serving at an address asks of the system: sockets, threads, waiting, a clock, and standard error. Every type that
/// has all of these is one.
pub trait System: Net<Listener = TcpListener, Stream = TcpStream>
    + Threads
    + Wait
    + Clock
    + Eprint
    + Sync {}

impl<R> System for R
where
    R: Net<Listener = TcpListener, Stream = TcpStream> + Threads + Wait + Clock + Eprint + Sync,
{}
