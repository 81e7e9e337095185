//! Clients of a desk whose database is in two files, one of which stops, and what is found when both are opened again.

use crate::serve::{StillClock, reader_of, told_of, writer_of};
use ov_base::Text;
use ov_core::{Cause, Core};
use ov_desk::{Served, serve_links};
use ov_ends::Watched;
use ov_files::{Store, reopen_after_crash};
use ov_hall::End;
use ov_keeper::Keeper;
use ov_lanes::Desk;
use ov_workers::{FreeGate, Link};
use sqlite::{Alter, Connection, Files, Options};
use sqlite_disk::{Crash, Fuse, Memory};
use sqlite_trees::store::Reopen;
use std::alloc::{AllocError, Global};
use std::collections::VecDeque;
use std::rt::Clock;
use std::sync::Wait;
use std::test::Fail;
use std::thread::Threads;
use test_basics::{Counter, Keeping, NET, Scripted, SlowReader, SlowWriter, net};

/// What the first client sends.
const FIRST: &str =
    r#"{"id":1,"method":"transact","params":["Net",{"op":"insert","table":"Switch","row":{"name":"s1"}}]}"#;

/// What the second client sends at the same time.
const SECOND: &str =
    r#"{"id":1,"method":"transact","params":["Net",{"op":"insert","table":"Switch","row":{"name":"s2"}}]}"#;

/// The largest number of runs over one file.
const RUNS: u64 = 100;

/// What came of a run: a line for each client, or nothing if none was served; and which switches were found.
#[derive(Drop)]
struct Outcome {
    told: String,
    found: String,
}

/// The reader of a client.
type ClientReader = Watched<SlowReader<'static>>;

/// The writer of a client.
type ClientWriter = Watched<SlowWriter>;

/// The links of the two clients.
fn links_of_both(alloc: Global) -> Result<VecDeque<Link<ClientReader, ClientWriter>>, AllocError> {
    let mut links = VecDeque::new(alloc);
    for message in [FIRST, SECOND] {
        links.push_back(Link {
            reader: Watched::new(reader_of(message.as_bytes())),
            writer: Watched::new(writer_of(alloc)),
        })?;
    }
    Ok(links)
}

/// Why a client's session was closed, and what it was written.
fn cause_and_taken<S: Drop>(end: End<S, ClientWriter>) -> (Cause, Vec<u8>) {
    (end.cause, end.writer.into_inner().taken)
}

/// Adds the line of a client.
fn push_line(alloc: Global, lines: &mut String, told: (Cause, Vec<u8>)) -> Result<(), AllocError> {
    let (cause, taken) = told;
    let line = told_of(alloc, cause, taken.as_slice())?;
    lines.push_str(line.as_str())?;
    lines.push_str("\n")
}

/// The lines of what remains of clients, which is taken out.
fn lines_of<S: Drop>(
    alloc: Global,
    ends: &mut VecDeque<End<S, ClientWriter>>,
) -> Result<String, AllocError> {
    let mut lines = String::new(alloc);
    for _ in 0..ends.len() {
        if let Some(end) = ends.pop_front() {
            push_line(alloc, &mut lines, cause_and_taken(end))?;
        }
    }
    Ok(lines)
}

/// A line for each client that was served, and the keeper, which is given back.
fn told_and_kept<K: Keeper + Drop, S: Drop>(
    alloc: Global,
    served: Served<K, Counter, S, ClientWriter>,
) -> Result<(K, String), Fail> {
    let Served { desk, mut ends } = served;
    let told = lines_of(alloc, &mut ends);
    let keeper = desk.into_core().into_keeper();
    Ok((keeper, told?))
}

/// Serves the two clients at a desk over a keeper, which is given back, and returns a line for each.
fn serve_both<R: Threads + Wait + Clock + Sync, K: Keeper + Drop>(
    rt: &R,
    alloc: Global,
    core: Core<K, Counter>,
) -> Result<(K, String), Fail> {
    let links = links_of_both(alloc)?;
    let desk = Desk::new(alloc, core);
    match serve_links(rt, alloc, desk, links, &FreeGate, &mut StillClock) {
        Ok(served) => told_and_kept(alloc, served),
        Err(_) => Err(Fail::new("not served")),
    }
}

/// The same over a keeper whose machine is not opened yet.
fn serve_over<R: Threads + Wait + Clock + Sync, K: Keeper + Drop>(
    rt: &R,
    alloc: Global,
    keeper: K,
) -> Result<(K, String), Fail> {
    let schema = net(alloc)?;
    match Core::open(alloc, keeper, schema, Counter::new()) {
        Ok(core) => serve_both(rt, alloc, core),
        Err(refused) => Ok((refused.keeper, String::new(alloc))),
    }
}

/// The lines of a store after a crash, which loses what was not synced.
fn found_after<S: Alter + Reopen + Drop>(alloc: Global, store: Store<S>) -> Result<String, Fail> {
    match reopen_after_crash(alloc, store) {
        Ok(Ok(again)) => Keeping::new(alloc, again).answer(alloc, "lines"),
        _ => Err(Fail::new("not opened again")),
    }
}

/// Serves the two clients over a store, and crashes.
fn outcome_over<R: Threads + Wait + Clock + Sync, S: Alter + Reopen + Drop>(
    rt: &R,
    alloc: Global,
    store: Store<S>,
) -> Result<Outcome, Fail> {
    let (store, told) = serve_over(rt, alloc, store)?;
    let found = found_after(alloc, store)?;
    Ok(Outcome { told, found })
}

/// The same over a new store. None if it is not made.
fn outcome_at<R: Threads + Wait + Clock + Sync, S: Alter + Reopen + Drop>(
    rt: &R,
    alloc: Global,
    connection: Connection<S>,
) -> Result<Option<Outcome>, Fail> {
    if !connection.is_autocommit() {
        return Err(Fail::new("in a transaction"));
    }
    let schema = Text::from_str(alloc, NET)?;
    match Store::create(connection, schema) {
        Ok(store) => Ok(Some(outcome_over(rt, alloc, store)?)),
        Err(_) => Ok(None),
    }
}

/// The same over two files. It is generic over them, since the proof for a kind of file is longer.
fn outcome_in_files<R: Threads + Wait + Clock + Sync, D: Crash + Drop>(
    rt: &R,
    alloc: Global,
    files: Files<D>,
) -> Result<Option<Outcome>, Fail> {
    if !files.may_be_used() {
        return Err(Fail::new("not usable"));
    }
    match Connection::open_files(alloc, files, Options::new(3)) {
        Ok(connection) => outcome_at(rt, alloc, connection),
        Err(_) => Ok(None),
    }
}

/// The same over two files in memory, each of which stops after a number of calls.
fn outcome_of<R: Threads + Wait + Clock + Sync>(
    rt: &R,
    alloc: Global,
    log_calls: u64,
    file_calls: u64,
) -> Result<Option<Outcome>, Fail> {
    let files = Files {
        log: Fuse::new(Memory::new(alloc), log_calls),
        db: Fuse::new(Memory::new(alloc), file_calls),
    };
    outcome_in_files(rt, alloc, files)
}

/// Whether the client in this place was answered without an error.
fn is_answered(told: &str, place: usize) -> bool {
    let line = told.lines().nth(place).unwrap_or("");
    line.contains("\"error\":null") && !line.contains("\"error\":\"")
}

/// Whether both clients were answered so.
fn are_answered(told: &str) -> bool {
    is_answered(told, 0) && is_answered(told, 1)
}

/// Whether the switch of each client that was answered without an error was found.
fn has_answered(outcome: &Outcome) -> bool {
    let (told, found) = (outcome.told.as_str(), outcome.found.as_str());
    (!is_answered(told, 0) || found.contains("\"name\":\"s1\""))
        && (!is_answered(told, 1) || found.contains("\"name\":\"s2\""))
}

/// Fails unless an outcome has the switch of each client that was answered; returns whether both were.
fn is_kept(alloc: Global, calls: u64, outcome: &Outcome) -> Result<bool, Fail> {
    if has_answered(outcome) {
        return Ok(are_answered(outcome.told.as_str()));
    }
    let (told, found) = (outcome.told.as_str(), outcome.found.as_str());
    Err(Fail::new(format!(in alloc; "{calls}: {told}{found}")?))
}

/// The same of a run in which the log, or else the file, stops after this number of calls.
fn is_kept_after<R: Threads + Wait + Clock + Sync>(
    rt: &R,
    alloc: Global,
    is_log: bool,
    calls: u64,
) -> Result<bool, Fail> {
    let outcome = if is_log {
        outcome_of(rt, alloc, calls, u64::MAX)?
    } else {
        outcome_of(rt, alloc, u64::MAX, calls)?
    };
    match outcome {
        Some(outcome) => is_kept(alloc, calls, &outcome),
        None => Ok(false),
    }
}

/// The same of runs in which the log, or else the file, stops after each number of calls, until both clients are answered.
fn are_kept<R: Threads + Wait + Clock + Sync>(
    rt: &R,
    alloc: Global,
    is_log: bool,
) -> Result<(), Fail> {
    for calls in 0..RUNS {
        if is_kept_after(rt, alloc, is_log, calls)? {
            return Ok(());
        }
    }
    Err(Fail::new("not answered"))
}

#[test]
fn a_switch_that_was_answered_is_found_after_a_stop(rt: HostRuntime) -> Result<(), Fail> {
    are_kept(&rt, rt.alloc(), true)?;
    are_kept(&rt, rt.alloc(), false)
}
