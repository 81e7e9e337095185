ghost use Rattle.std.specs.Prelude.{◌≡◌, [], IfOk};
ghost use Rattle.rtrb.specs.Ring.{received};

use crate::gates::CountingGate;
use crate::told::{begin, tells};
use ov_base::Bytes;
use ov_ends::Watched;
use ov_order::{Bell, Order, Sent, outbound_ring};
use ov_threads::{HandRing, start_writer};
use ov_workers::{Common, Point, WriteEnd, write_worker};
use rtrb::{Consumer, Producer};
use std::alloc::{AllocError, Global};
use std::io::{ErrorKind, Write};
use std::marker::Brand;
use std::sync::Wait;
use std::sync::ledger::{Blank, Ledger};
use std::test::Fail;
use std::thread::{Scope, Threads};
use std::{io, thread};

/// A writer that takes at most `most` bytes per call. After `left` bytes it takes none, or fails.
#[derive(Drop)]
struct ShortWriter {
    taken: Vec<u8>,
    most: usize,
    left: usize,
    fails: bool,
    flushes: u64,
}

impl Write for ShortWriter {
    fn write(&mut self, buf: &[u8]) -> io::Result<usize> {
        if self.left == 0 && self.fails {
            return Err(io::Error::from(ErrorKind::Other));
        }
        let n = self.most.min(self.left).min(buf.len());
        self.taken.extend_from_slice(&buf[..n])?;
        self.left -= n;
        Ok(n)
    }

    fn flush(&mut self) -> io::Result<()> {
        self.flushes = self.flushes.saturating_add(1);
        Ok(())
    }
}

/// A writer that takes one byte per call, and `left` bytes in all. Then it takes none, or fails.
fn writer_of(alloc: Global, left: usize, fails: bool) -> ShortWriter {
    ShortWriter {
        taken: Vec::new(alloc),
        most: 1,
        left,
        fails,
        flushes: 0,
    }
}

/// Pushes two frames and the end mark into the ring. Fails if there is no memory for a frame, or no room in the ring.
fn send(alloc: Global, ring: &mut Producer<Sent>) -> Result<(), AllocError> {
    for frame in [b"[12]".as_slice(), b"[345]".as_slice()] {
        let frame = Bytes::from_slice(alloc, frame)?;
        let Ok(()) = ring.push(Sent::Frame(frame)) else {
            return Err(AllocError);
        };
    }
    let Ok(()) = ring.push(Sent::End) else {
        return Err(AllocError);
    };
    Ok(())
}

/// What a worker did: whether it failed, whether its ring is empty, and how often it flushed.
type Ended = (bool, bool, u64);

/// What was written, and what a worker did, with how often it passed the gate before its flushes.
fn told_of(alloc: Global, taken: Vec<u8>, ended: Ended, passed: u64) -> Result<String, AllocError> {
    let (failed, is_empty, flushes) = ended;
    let taken = str::from_utf8(taken.as_slice()).unwrap_or("no text");
    format!(in alloc; "{taken} {failed} {is_empty} {passed} {flushes}")
}

/// Has a worker write what is in its ring to such a writer. Returns what was written, and what it did.
fn write<R: Wait, L: Ledger>(
    common: Common<'_, R, L, CountingGate>,
    bell: &Bell,
    writer: ShortWriter,
    ring: Consumer<Sent>,
) -> (Vec<u8>, Ended)
    requires { received ring ≡ [] }
{
    let WriteEnd {
        writer,
        ring,
        failed,
    } = write_worker(common, bell, 7, Watched::new(writer), ring);
    let mut ring = ring;
    let ShortWriter { taken, flushes, .. } = writer.into_inner();
    (taken, (failed, ring.pop().is_err(), flushes))
}

/// A ring with two frames and the end mark in it.
fn sent_ring(alloc: Global) -> Result<(Producer<Sent>, Consumer<Sent>), AllocError>
    ensures { IfOk result (λ ring. received ring.1 ≡ []) }
{
    let (mut desk, ring) = outbound_ring(alloc)?;
    match send(alloc, &mut desk) {
        Ok(()) => Ok((desk, ring)),
        Err(fault) => Err(fault),
    }
}

/// What a worker writes of two frames to such a writer, with this order.
fn written_with<R: Wait, L: Ledger>(
    rt: &R,
    alloc: Global,
    order: &Order<L>,
    left: usize,
    fails: bool,
) -> Result<String, AllocError> {
    let (_desk, ring) = sent_ring(alloc)?;
    let bell = Bell::new();
    bell.ring(rt);
    let gate = CountingGate::new(Point::BeforeWrite);
    let common = Common {
        rt,
        alloc,
        order,
        gate: &gate,
    };
    let (taken, ended) = write(common, &bell, writer_of(alloc, left, fails), ring);
    told_of(alloc, taken, ended, gate.passed())
}

/// The same with a new order.
fn written_by<R: Wait, L: Ledger>(
    rt: &R,
    alloc: Global,
    blank: Blank,
    left: usize,
    fails: bool,
) -> Result<String, AllocError>
    requires name { blank.name ≡ L.name }
    requires parts { (blank.parts ≡ L.parts) × (blank.parts ≡ 1) }
{
    let (ledger, _share) = blank.open::<L>();
    let order = Order::new(alloc, ledger)?;
    written_with(rt, alloc, &order, left, fails)
}

/// Fails unless a worker writes this.
fn writes<R: Wait>(
    rt: &R,
    alloc: Global,
    left: usize,
    fails: bool,
    wanted: &str,
) -> Result<(), Fail> {
    let told = written_by::<R, Brand>(rt, alloc, Blank::new(1), left, fails);
    tells(alloc, told, wanted)
}

#[test]
fn frames_are_written_in_short_writes(rt: HostRuntime) -> Result<(), Fail> {
    let wanted = "[12][345] false true 2 1";
    writes(&rt, rt.alloc(), 9, false, wanted)
}

#[test]
fn a_writer_that_takes_nothing_or_fails_gets_no_more(rt: HostRuntime) -> Result<(), Fail> {
    for fails in [false, true] {
        writes(&rt, rt.alloc(), 3, fails, "[12 true true 1 0")?;
    }
    Ok(())
}

/// Starts the thread of a worker, says that no worker may begin, and dismisses it. Returns false if no thread can be started.
fn dismiss_in<'s, E, R: Threads + Wait + Sync, L: Ledger + Send + Sync + 's>(
    common: Common<'s, R, L, CountingGate>,
    scope: &Scope<'s, E>,
    bell: &'s Bell,
    hand: HandRing<Watched<ShortWriter>>,
    ring: Consumer<Sent>,
) -> bool
    requires { received ring ≡ [] }
{
    let Some(writing) = start_writer(common, scope, bell, true, 7, hand, ring) else {
        return false;
    };
    begin(common.rt, common.order, false);
    writing.dismiss(common.rt);
    true
}

/// The same, in a scope of its own.
fn dismiss<'a, R: Threads + Wait + Sync, L: Ledger + Send + Sync>(
    common: Common<'a, R, L, CountingGate>,
    bell: &'a Bell,
    hand: HandRing<Watched<ShortWriter>>,
    ring: Consumer<Sent>,
) -> bool
    requires { received ring ≡ [] }
{
    thread::scope(
        thread::scope_env(),
        common.rt,
        move |scope| -> bool
            requires { received ring ≡ [] }
        { dismiss_in(common, scope, bell, hand, ring) },
    )
}

/// Whether a worker was dismissed and has said that it is over, how many of two frames and the end mark it left in its ring,
/// and how often it passed the gate.
fn dismissed_text(
    alloc: Global,
    is_dismissed: bool,
    is_over: bool,
    left: usize,
    passed: u64,
) -> Result<String, AllocError> {
    format!(in alloc; "{is_dismissed} {is_over} {left} {passed}")
}

/// The room of a ring to a writer.
const ROOM: usize = 1_025;

/// The same for a new ring, with this order.
fn dismissed_with<R: Threads + Wait + Sync, L: Ledger + Send + Sync>(
    rt: &R,
    alloc: Global,
    order: &Order<L>,
    hand: HandRing<Watched<ShortWriter>>,
) -> Result<String, AllocError> {
    let (mut desk, ring) = sent_ring(alloc)?;
    let bell = Bell::new();
    let gate = CountingGate::new(Point::BeforeWrite);
    let common = Common {
        rt,
        alloc,
        order,
        gate: &gate,
    };
    let is_dismissed = dismiss(common, &bell, hand, ring);
    let left = ROOM.saturating_sub(desk.slots());
    dismissed_text(alloc, is_dismissed, bell.is_over(), left, gate.passed())
}

/// The same with a new order.
fn dismissed<R: Threads + Wait + Sync, L: Ledger + Send + Sync>(
    rt: &R,
    alloc: Global,
    blank: Blank,
) -> Result<String, AllocError>
    requires name { blank.name ≡ L.name }
    requires parts { (blank.parts ≡ L.parts) × (blank.parts ≡ 1) }
{
    let hand = HandRing::new(alloc)?;
    let (ledger, _share) = blank.open::<L>();
    let order = Order::new(alloc, ledger)?;
    dismissed_with(rt, alloc, &order, hand)
}

#[test]
fn a_writer_that_may_not_begin_takes_nothing(rt: HostRuntime) -> Result<(), Fail> {
    let told = dismissed::<HostRuntime, Brand>(&rt, rt.alloc(), Blank::new(1));
    tells(rt.alloc(), told, "true true 3 0")
}
