//! A lobby and its clients, which come when their listener gives them, with what each of them was written.

use crate::clocks::RisingClock;
use crate::machines::net_desk;
use crate::told::{push, tells};
use ov_ends::Watched;
use ov_keeper::Keeper;
use ov_lanes::Desk;
use ov_lobby::serve_lobby;
use ov_requests::Draws;
use ov_workers::{FreeGate, Link, Listen};
use std::alloc::{AllocError, Global};
use std::io::{Read, Write};
use std::rt::Clock;
use std::sync::atomic::{AtomicBool, AtomicU64, Ordering};
use std::sync::{Mutex, Wait};
use std::test::Fail;
use std::thread::Threads;
use std::time::Duration;
use std::{io, thread};

/// The largest number of clients.
const CLIENTS: usize = 70;

/// How many turns of a millisecond a wait for another client lasts at most.
const TURNS: u32 = 10_000;

/// What is seen of a client: what it was written, how often that was flushed, whether it was read from, and how many of its two
/// ends are closed.
#[derive(Drop)]
struct Seen {
    text: Mutex<Vec<u8>>,
    told: AtomicU64,
    is_read: AtomicBool,
    closed: AtomicU64,
}

impl Seen {
    /// For the word `told`, whether the client's writer was flushed; for any other word, whether both its ends are closed.
    fn is_so(&self, word: &str) -> bool {
        if word == "told" {
            return self.told.load(Ordering::SeqCst) > 0;
        }
        self.closed.load(Ordering::SeqCst) == 2
    }
}

/// What is seen of all clients, and whether their listener was dropped. If one waits too long, it is let go, and all others
/// with it.
#[derive(Drop)]
struct Board<'r, R: Wait + Clock> {
    rt: &'r R,
    clients: Vec<Seen>,
    is_deaf: AtomicBool,
    is_late: AtomicBool,
}

impl<'r, R: Wait + Clock> Board<'r, R> {
    /// A board on which nothing has been seen yet.
    fn new(rt: &'r R, alloc: Global) -> Result<Board<'r, R>, AllocError> {
        let mut clients = Vec::new(alloc);
        for _ in 0..CLIENTS {
            clients.push(Seen {
                text: Mutex::new(Vec::new(alloc)),
                told: AtomicU64::new(0),
                is_read: AtomicBool::new(false),
                closed: AtomicU64::new(0),
            })?;
        }
        Ok(Board {
            rt,
            clients,
            is_deaf: AtomicBool::new(false),
            is_late: AtomicBool::new(false),
        })
    }

    /// Notes that an end of a client is closed.
    fn close(&self, client: usize) {
        if let Some(seen) = self.clients.get(client) {
            seen.closed.fetch_add(1, Ordering::SeqCst);
        }
    }

    /// Whether `CLIENT told`, `CLIENT closed` or `listener closed` has come true.
    fn is_so(&self, fact: &str) -> bool {
        let (client, word) = fact.split_once(" ").unwrap_or((fact, ""));
        match client.parse::<usize>() {
            Ok(client) => self.is_so_of(client, word),
            Err(_) => self.is_deaf.load(Ordering::SeqCst),
        }
    }

    /// Whether a client was told, or else is closed.
    fn is_so_of(&self, client: usize, word: &str) -> bool {
        match self.clients.get(client) {
            Some(seen) => seen.is_so(word),
            None => false,
        }
    }

    /// Waits until a fact has come true.
    fn wait(&self, fact: &str) {
        for _ in 0..TURNS {
            if self.is_so(fact) || self.is_late.load(Ordering::SeqCst) {
                return;
            }
            thread::sleep(self.rt, Duration::from_millis(1));
        }
        self.is_late.store(true, Ordering::SeqCst);
    }

    /// The line of a client: how many of its ends are closed, whether it was read from, and what it was written.
    fn line(&self, alloc: Global, client: usize) -> Result<String, AllocError> {
        let Some(seen) = self.clients.get(client) else {
            return String::from_str(alloc, "no such client\n");
        };
        let closed = seen.closed.load(Ordering::SeqCst);
        let is_read = seen.is_read.load(Ordering::SeqCst);
        let text = seen.text.lock(self.rt);
        line_of(alloc, closed, is_read, text.as_slice())
    }
}

/// A line with how many ends of a client are closed, whether it was read from, and what it was written.
fn line_of(alloc: Global, closed: u64, is_read: bool, text: &[u8]) -> Result<String, AllocError> {
    let text = str::from_utf8(text).unwrap_or("no text");
    let word = if is_read { "read" } else { "unread" };
    format!(in alloc; "{closed} {word} {text}\n")
}

/// A client's reader, which follows a script: a line is sent at once, and a line `after FACT` before it says what to wait for
/// first. The input ends after the last line.
struct LobbyReader<'b, 'r, 's, R: Wait + Clock> {
    board: &'b Board<'r, R>,
    client: usize,
    line: &'s [u8],
    script: &'s str,
}

impl<'s, R: Wait + Clock> LobbyReader<'_, '_, 's, R> {
    /// Takes the next line of the script; after the last one they are empty.
    fn take_line(&mut self) -> &'s str {
        let (line, rest) = self.script.split_once("\n").unwrap_or((self.script, ""));
        self.script = rest;
        line
    }

    /// Goes on to the next line that is sent.
    fn go_on(&mut self) {
        let mut line = self.take_line();
        if let Some(("after", fact)) = line.split_once(" ") {
            self.board.wait(fact);
            line = self.take_line();
        }
        self.line = line.as_bytes();
    }
}

impl<R: Wait + Clock> Read for LobbyReader<'_, '_, '_, R> {
    fn read(&mut self, buf: &mut [u8]) -> io::Result<usize> {
        if let Some(seen) = self.board.clients.get(self.client) {
            seen.is_read.store(true, Ordering::SeqCst);
        }
        if self.line.is_empty() {
            self.go_on();
        }
        self.line.read(buf)
    }
}

impl<R: Wait + Clock> Drop for LobbyReader<'_, '_, '_, R> {
    fn drop(self) {
        self.board.close(self.client);
        let LobbyReader {
            board: _,
            client: _,
            line: _,
            script: _,
        } = self;
    }
}

/// A client's writer.
struct LobbyWriter<'b, 'r, R: Wait + Clock> {
    board: &'b Board<'r, R>,
    client: usize,
}

impl<R: Wait + Clock> Write for LobbyWriter<'_, '_, R> {
    fn write(&mut self, buf: &[u8]) -> io::Result<usize> {
        if let Some(seen) = self.board.clients.get(self.client) {
            seen.text.lock(self.board.rt).extend_from_slice(buf)?;
        }
        Ok(buf.len())
    }

    fn flush(&mut self) -> io::Result<()> {
        if let Some(seen) = self.board.clients.get(self.client) {
            seen.told.fetch_add(1, Ordering::SeqCst);
        }
        Ok(())
    }
}

impl<R: Wait + Clock> Drop for LobbyWriter<'_, '_, R> {
    fn drop(self) {
        self.board.close(self.client);
        let LobbyWriter {
            board: _,
            client: _,
        } = self;
    }
}

/// The fact after which a client comes, and its script.
type Coming<'s> = (&'s str, &'s str);

/// A listener that gives clients, one after another.
struct LobbyListener<'b, 'r, 's, R: Wait + Clock> {
    board: &'b Board<'r, R>,
    client: usize,
    clients: &'s [Coming<'s>],
}

impl<'b, 'r, 's, R: Wait + Clock> Listen<
    Watched<LobbyReader<'b, 'r, 's, R>>,
    Watched<LobbyWriter<'b, 'r, R>>,
> for LobbyListener<'b, 'r, 's, R> {
    ghost gives = { λ _ _ _. Unit {0} };

    fn accept(
        &mut self,
    ) -> Option<Link<Watched<LobbyReader<'b, 'r, 's, R>>, Watched<LobbyWriter<'b, 'r, R>>>> {
        let (board, client) = (self.board, self.client);
        let (fact, script) = *self.clients.get(client)?;
        self.client += 1;
        if !fact.is_empty() {
            board.wait(fact);
        }
        let reader = LobbyReader {
            board,
            client,
            line: b"",
            script,
        };
        Some(Link {
            reader: Watched::new(reader),
            writer: Watched::new(LobbyWriter { board, client }),
        })
    }
}

impl<R: Wait + Clock> Drop for LobbyListener<'_, '_, '_, R> {
    fn drop(self) {
        self.board.is_deaf.store(true, Ordering::SeqCst);
        let LobbyListener {
            board: _,
            client: _,
            clients: _,
        } = self;
    }
}

/// Serves clients in a lobby, and returns how many entries the history then has. The largest number if the lobby is refused.
fn serve_clients<R: Threads + Wait + Clock + Sync, K: Keeper + Drop, D: Draws + Drop>(
    rt: &R,
    alloc: Global,
    desk: Desk<K, D>,
    listener: LobbyListener<'_, '_, '_, R>,
) -> usize {
    let clock = &mut RisingClock { moment: 0 };
    match serve_lobby(rt, alloc, desk, listener, &FreeGate, clock) {
        Ok(desk) => desk.core().history().len(),
        Err(_refused) => usize::MAX,
    }
}

/// The number of entries, and what is seen of `clients` clients.
fn told_of<R: Wait + Clock>(
    alloc: Global,
    board: &Board<'_, R>,
    entries: usize,
    clients: usize,
) -> Result<String, AllocError> {
    let mut told = format!(in alloc; "{entries}\n")?;
    for client in 0..clients {
        push(&mut told, board.line(alloc, client))?;
    }
    let is_late = board.is_late.load(Ordering::SeqCst);
    told.push_str(if is_late { "too late\n" } else { "" })?;
    Ok(told)
}

/// Fails unless this is the outcome of clients at a lobby with this board: how many entries the history then has, and a line
/// for each client.
fn conversed_on<R: Threads + Wait + Clock + Sync>(
    rt: &R,
    alloc: Global,
    board: &Board<'_, R>,
    clients: &[Coming<'_>],
    wanted: &str,
) -> Result<(), Fail> {
    let desk = net_desk(alloc)?;
    let listener = LobbyListener {
        board,
        client: 0,
        clients,
    };
    let entries = serve_clients(rt, alloc, desk, listener);
    tells(alloc, told_of(alloc, board, entries, clients.len()), wanted)
}

/// Fails unless this is the outcome of clients at a lobby.
fn conversed<R: Threads + Wait + Clock + Sync>(
    rt: &R,
    alloc: Global,
    clients: &[Coming<'_>],
    wanted: &str,
) -> Result<(), Fail> {
    let board = Board::new(rt, alloc)?;
    conversed_on(rt, alloc, &board, clients, wanted)
}

const LIST: &str = r#"{"id":0,"method":"list_dbs","params":[]}"#;

#[test]
fn a_lobby_where_nobody_comes(rt: HostRuntime) -> Result<(), Fail> {
    conversed(&rt, rt.alloc(), &[], "0\n")
}

/// Goes on once the listener is closed.
const LAST: &str = r#"{"id":0,"method":"list_dbs","params":[]}
after listener closed
{"id":1,"method":"echo","params":[2]}"#;

const LAST_SERVED: &str = r#"4
2 read {"error":null,"id":0,"result":["Net"]}{"error":null,"id":1,"result":[2]}
"#;

#[test]
fn nobody_is_listened_to_while_the_last_is_served(rt: HostRuntime) -> Result<(), Fail> {
    conversed(&rt, rt.alloc(), &[("", LAST)], LAST_SERVED)
}

/// Goes on once the other client is closed.
const PATIENT: &str = r#"{"id":0,"method":"list_dbs","params":[]}
after 1 closed
{"id":1,"method":"echo","params":[2]}"#;

/// Sends a message and then damage, once the other client has been told. Its last line waits for what never comes, so that it
/// is closed by the damage and not by the end of its input.
const DAMAGED: &str = r#"after 0 told
{"id":0,"method":"list_dbs","params":[]}]
after 9 told"#;

const BOTH_SERVED: &str = r#"7
2 read {"error":null,"id":0,"result":["Net"]}{"error":null,"id":1,"result":[2]}
2 read {"error":null,"id":0,"result":["Net"]}
"#;

#[test]
fn a_client_goes_on_beside_one_that_is_damaged(rt: HostRuntime) -> Result<(), Fail> {
    let clients = [("", PATIENT), ("", DAMAGED)];
    conversed(&rt, rt.alloc(), &clients, BOTH_SERVED)
}

/// What is written to a client that asks for the list.
const LISTED: &str = "2 read {\"error\":null,\"id\":0,\"result\":[\"Net\"]}\n";

/// The outcome of `count` clients that ask for the list, one of which may be turned away.
fn listed(
    alloc: Global,
    entries: u64,
    count: usize,
    away: Option<usize>,
) -> Result<String, AllocError> {
    let mut told = format!(in alloc; "{entries}\n")?;
    for client in 0..count {
        told.push_str(if away == Some(client) {
            "2 unread \n"
        } else {
            LISTED
        })?;
    }
    Ok(told)
}

/// Fails unless that is the outcome of clients.
fn are_listed<R: Threads + Wait + Clock + Sync>(
    rt: &R,
    alloc: Global,
    clients: &[Coming<'_>],
    entries: u64,
    away: Option<usize>,
) -> Result<(), Fail> {
    let wanted = listed(alloc, entries, clients.len(), away)?;
    conversed(rt, alloc, clients, wanted.as_str())
}

/// The facts that clients wait for: the first client comes at once, and each other after the one before has gone.
fn facts_in_turn(alloc: Global) -> Result<Vec<String>, AllocError> {
    let mut facts = Vec::new(alloc);
    facts.push(String::new(alloc))?;
    for client in 1..CLIENTS {
        facts.push(format!(in alloc; "{} closed", client - 1)?)?;
    }
    Ok(facts)
}

/// Clients that say the same, each once its fact has come true.
fn clients_after<'a>(
    alloc: Global,
    facts: &'a Vec<String>,
    says: &'a str,
) -> Result<Vec<Coming<'a>>, AllocError> {
    let mut clients = Vec::new(alloc);
    for fact in facts {
        clients.push((fact.as_str(), says))?;
    }
    Ok(clients)
}

/// Fails unless a client is listed once each fact has come true.
fn are_listed_after<R: Threads + Wait + Clock + Sync>(
    rt: &R,
    alloc: Global,
    facts: &Vec<String>,
) -> Result<(), Fail> {
    let clients = clients_after(alloc, facts, LIST)?;
    are_listed(rt, alloc, clients.as_slice(), 210, None)
}

#[test]
fn a_place_is_free_again(rt: HostRuntime) -> Result<(), Fail> {
    let facts = facts_in_turn(rt.alloc())?;
    are_listed_after(&rt, rt.alloc(), &facts)
}

/// Holds its place until one client has been turned away.
const HOLDING: &str = r#"{"id":0,"method":"list_dbs","params":[]}
after 64 closed
"#;

/// 64 clients that hold their places, one more, and one that comes once the first has gone. `others` is what all but the first
/// of the 64 say.
fn one_too_many(alloc: Global, others: &'static str) -> Result<Vec<Coming<'static>>, AllocError> {
    let mut clients = Vec::new(alloc);
    clients.push(("", HOLDING))?;
    for _ in 0..63 {
        clients.push(("", others))?;
    }
    clients.push(("", LIST))?;
    clients.push(("0 closed", LIST))?;
    Ok(clients)
}

/// Fails unless all of them are listed but the sixty-fifth.
fn are_listed_but_one<R: Threads + Wait + Clock + Sync>(
    rt: &R,
    alloc: Global,
    others: &'static str,
) -> Result<(), Fail> {
    let clients = one_too_many(alloc, others)?;
    are_listed(rt, alloc, clients.as_slice(), 195, Some(64))
}

#[test]
fn the_sixty_fifth_is_turned_away(rt: HostRuntime) -> Result<(), Fail> {
    are_listed_but_one(&rt, rt.alloc(), HOLDING)
}

/// Holds its place until the last client has been served, which came once the first had gone.
const STAYING: &str = r#"{"id":0,"method":"list_dbs","params":[]}
after 65 told
"#;

/// The first client holds its place until another has been turned away, and the other 63 stay.
#[test]
fn the_place_of_one_that_left_serves_another(rt: HostRuntime) -> Result<(), Fail> {
    are_listed_but_one(&rt, rt.alloc(), STAYING)
}
