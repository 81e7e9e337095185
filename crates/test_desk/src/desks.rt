use crate::clients::{Client, ClientWriter, lines_of, links_of};
use crate::clocks::RisingClock;
use crate::holding::{HoldingGate, Holds};
use crate::machines::net_desk;
use ov_desk::{Served, Unserved, serve_links};
use ov_ends::Source;
use ov_keeper::Keeper;
use ov_lanes::{Desk, ServeFault};
use ov_requests::Draws;
use ov_workers::{Gate, Link};
use std::alloc::{AllocError, Global};
use std::collections::VecDeque;
use std::rt::Clock;
use std::sync::Wait;
use std::test::Fail;
use std::thread::Threads;
use test_basics::is_text;

/// Serves links through a gate, by a clock that rises.
pub(crate) fn serve<R, K, D, S, G>(
    rt: &R,
    alloc: Global,
    desk: Desk<K, D>,
    links: VecDeque<Link<S, ClientWriter>>,
    gate: &G,
) -> Result<Served<K, D, S, ClientWriter>, Unserved<K, D, S, ClientWriter>>
where
    R: Threads + Wait + Clock + Sync,
    K: Keeper + Drop,
    D: Draws + Drop,
    S: Source + Send + Drop,
    G: Gate + Sync,
{
    serve_links(rt, alloc, desk, links, gate, &mut RisingClock { moment: 0 })
}

/// A fault, and the numbers of links and of history entries.
fn fault_line(
    alloc: Global,
    fault: ServeFault,
    links: usize,
    entries: usize,
) -> Result<String, AllocError> {
    format!(in alloc; "{fault:?} {links} {entries}")
}

/// Why links are not served, and the numbers of links and of history entries then.
pub(crate) fn refusal<K: Keeper + Drop, D: Draws + Drop, S: Drop>(
    alloc: Global,
    unserved: Unserved<K, D, S, ClientWriter>,
) -> Result<String, AllocError> {
    let entries = unserved.desk.core().history().len();
    fault_line(alloc, unserved.fault, unserved.links.len(), entries)
}

/// A line for each link that is served at a desk, or why they are not served.
fn lines_at<R, K, D, S>(
    rt: &R,
    alloc: Global,
    desk: Desk<K, D>,
    links: VecDeque<Link<S, ClientWriter>>,
    gate: &HoldingGate<'_, R>,
) -> Result<String, AllocError>
where
    R: Threads + Wait + Clock + Sync,
    K: Keeper + Drop,
    D: Draws + Drop,
    S: Source + Send + Drop,
{
    match serve(rt, alloc, desk, links, gate) {
        Ok(mut served) => lines_of(alloc, &mut served.ends, gate.is_late()),
        Err(unserved) => refusal(alloc, unserved),
    }
}

/// The outcome of clients at a desk, through their gate: a line for each client, or why they are not served.
pub(crate) fn converse_at<R, K, D>(
    rt: &R,
    alloc: Global,
    desk: Desk<K, D>,
    clients: &[Client<'_>],
    gate: &HoldingGate<'_, R>,
) -> Result<String, AllocError>
where
    R: Threads + Wait + Clock + Sync,
    K: Keeper + Drop,
    D: Draws + Drop,
{
    let links = links_of(alloc, gate, clients)?;
    lines_at(rt, alloc, desk, links, gate)
}

/// The outcome of clients at a new desk, through their gate.
fn converse_after<R: Threads + Wait + Clock + Sync>(
    rt: &R,
    alloc: Global,
    clients: &[Client<'_>],
    gate: &HoldingGate<'_, R>,
) -> Result<String, Fail> {
    Ok(converse_at(rt, alloc, net_desk(alloc)?, clients, gate)?)
}

/// The outcome of clients at a new desk whose workers are held up so.
pub(crate) fn converse<R: Threads + Wait + Clock + Sync>(
    rt: &R,
    alloc: Global,
    holds: Holds,
    clients: &[Client<'_>],
) -> Result<String, Fail> {
    let gate = HoldingGate::new(rt, alloc, holds)?;
    converse_after(rt, alloc, clients, &gate)
}

/// Fails unless this is the outcome of clients at a new desk.
pub(crate) fn conversed<R: Threads + Wait + Clock + Sync>(
    rt: &R,
    alloc: Global,
    holds: Holds,
    clients: &[Client<'_>],
    wanted: &str,
) -> Result<(), Fail> {
    let told = converse(rt, alloc, holds, clients)?;
    is_text(alloc, told.as_str(), wanted)
}
