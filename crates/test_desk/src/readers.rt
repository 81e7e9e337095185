ghost use Rattle.std.specs.Prelude.{◌≡◌, []};
ghost use Rattle.rtrb.specs.Ring.{sent};

use crate::gates::CountingGate;
use crate::told::{begin, next, noted, push, tells};
use ov_ends::Watched;
use ov_order::{Brought, Noter, Order, inbound_ring};
use ov_rpc::Received;
use ov_threads::{HandRing, start_reader};
use ov_workers::{Common, Inlet, Point, ReadCause, ReadEnd, read_worker};
use rtrb::{Consumer, Producer};
use std::alloc::{AllocError, Global};
use std::io::ErrorKind;
use std::marker::Brand;
use std::sync::Wait;
use std::sync::ledger::{Blank, Ledger, Share};
use std::test::Fail;
use std::thread;
use std::thread::{Scope, Threads};
use test_basics::SlowReader;

/// Two messages, with white space before the second.
pub(crate) const STREAM: &[u8] =
    b"{\"id\":0,\"method\":\"echo\",\"params\":[]}\n{\"id\":1,\"method\":\"echo\",\"params\":[\"}\"]}";

/// A reader of the stream that never fails.
pub(crate) fn reader_of(rest: &[u8], most: usize) -> SlowReader<'_> {
    SlowReader {
        rest,
        most,
        calls: 1_000,
        error: ErrorKind::Other,
    }
}

/// What a ring to the desk has: messages, and last the end mark with the cause.
pub(crate) type Item = Brought<Received, ReadCause>;

/// The line of a message: its text.
fn message_line(alloc: Global, received: Received) -> Result<String, AllocError> {
    let text = received.into_parts().1;
    let text = str::from_utf8(text.as_slice()).unwrap_or("no text");
    format!(in alloc; "{text}\n")
}

/// The line of an item: the text of a message, or the cause of an end mark.
fn item_line(alloc: Global, item: Item) -> Result<String, AllocError> {
    match item {
        Brought::Message(received) => message_line(alloc, received),
        Brought::End(cause) => format!(in alloc; "{cause:?}\n"),
    }
}

/// The lines of the items in the ring.
fn lines_of(alloc: Global, ring: &mut Consumer<Item>) -> Result<String, AllocError> {
    let mut lines = String::new(alloc);
    for _ in 0..64 {
        let Ok(item) = ring.pop() else {
            break;
        };
        push(&mut lines, item_line(alloc, item))?;
    }
    Ok(lines)
}

/// How many notes a worker made, the first of them, and its cause.
type Noted = (u64, Option<u64>, ReadCause);

/// The last line: the number of notes, the first of them, how often the gate was passed, and the cause.
fn noted_text(alloc: Global, noted: Noted, passed: u64) -> Result<String, AllocError> {
    let (noted, first, cause) = noted;
    format!(in alloc; "{noted} {first:?} {passed} {cause:?}")
}

/// The lines of the items in the ring, and a last one.
pub(crate) fn with_last(
    alloc: Global,
    ring: &mut Consumer<Item>,
    last: Result<String, AllocError>,
) -> Result<String, AllocError> {
    let mut lines = lines_of(alloc, ring)?;
    push(&mut lines, last)?;
    Ok(lines)
}

/// Has a worker bring what a reader gives into a ring.
fn bring<R: Wait, L: Ledger>(
    common: Common<'_, R, L, CountingGate>,
    reader: SlowReader<'_>,
    ring: Producer<Item>,
    share: Share<L>,
) -> Noted
    requires { (share.parts ≡ L.parts) × (share.parts ≡ 1) × (share.amount ≡ 0) × (sent ring ≡ []) }
{
    let inlet = Inlet::new(ring, Noter::new(7, share));
    let ReadEnd { inlet, cause, .. } = read_worker(common, Watched::new(reader), inlet);
    let Inlet { noter, .. } = inlet;
    let count = noted(common.rt, common.order, noter.into_share());
    (count, next(common.rt, common.order), cause)
}

/// What a worker brings from a reader, then how many notes it made, the first of them, how often it passed the gate, and its
/// cause.
fn read_with<R: Wait, L: Ledger>(
    rt: &R,
    alloc: Global,
    order: &Order<L>,
    share: Share<L>,
    reader: SlowReader<'_>,
) -> Result<String, AllocError>
    requires { (share.parts ≡ L.parts) × (share.parts ≡ 1) × (share.amount ≡ 0) }
{
    let (ring, mut desk) = inbound_ring(alloc)?;
    let gate = CountingGate::new(Point::BeforePush);
    let common = Common {
        rt,
        alloc,
        order,
        gate: &gate,
    };
    let noted = bring(common, reader, ring, share);
    with_last(alloc, &mut desk, noted_text(alloc, noted, gate.passed()))
}

/// The same with a new order.
fn read_by<R: Wait, L: Ledger>(
    rt: &R,
    alloc: Global,
    blank: Blank,
    reader: SlowReader<'_>,
) -> Result<String, AllocError>
    requires name { blank.name ≡ L.name }
    requires parts { (blank.parts ≡ L.parts) × (blank.parts ≡ 1) }
{
    let (ledger, share) = blank.open::<L>();
    let order = Order::new(alloc, ledger)?;
    read_with(rt, alloc, &order, share, reader)
}

/// Fails unless a worker brings this from a reader.
fn brings<R: Wait>(
    rt: &R,
    alloc: Global,
    reader: SlowReader<'_>,
    wanted: &str,
) -> Result<(), Fail> {
    let lines = read_by::<R, Brand>(rt, alloc, Blank::new(1), reader);
    tells(alloc, lines, wanted)
}

const TWO_MESSAGES: &str = r#"{"id":0,"method":"echo","params":[]}
{"id":1,"method":"echo","params":["}"]}
InputEnded
3 Some(7) 3 InputEnded"#;

#[test]
fn messages_and_the_end_are_brought(rt: HostRuntime) -> Result<(), Fail> {
    for most in [1, 7, 4_096] {
        brings(&rt, rt.alloc(), reader_of(STREAM, most), TWO_MESSAGES)?;
    }
    Ok(())
}

const ONE_AND_DAMAGE: &str = "{\"result\":0}\nDamaged\n2 Some(7) 2 Damaged";

/// A stray letter ends a stream, and so does a text that can't be read.
#[test]
fn damage_ends_a_stream(rt: HostRuntime) -> Result<(), Fail> {
    let stray = reader_of(b"{\"result\":0} x {\"result\":1}", 9);
    brings(&rt, rt.alloc(), stray, ONE_AND_DAMAGE)?;
    let unreadable = reader_of(b"{\"result\":0} {x} {\"result\":1}", 9);
    brings(&rt, rt.alloc(), unreadable, ONE_AND_DAMAGE)
}

const ONE_AND_FAULT: &str = r#"{"id":0,"method":"echo","params":[]}
ReadFault
2 Some(7) 2 ReadFault"#;

#[test]
fn the_second_read_fails(rt: HostRuntime) -> Result<(), Fail> {
    let reader = SlowReader {
        rest: STREAM,
        most: 40,
        calls: 1,
        error: ErrorKind::Other,
    };
    brings(&rt, rt.alloc(), reader, ONE_AND_FAULT)
}

/// Starts the thread of a worker, says that no worker may begin, and dismisses it. Returns false if no thread can be started.
fn dismiss_in<'s, E, R: Threads + Wait + Sync, L: Ledger + Send + Sync + 's>(
    common: Common<'s, R, L, CountingGate>,
    scope: &Scope<'s, E>,
    hand: HandRing<Watched<SlowReader<'static>>>,
    inlet: Inlet<L>,
) -> bool
    requires { sent inlet.ring ≡ [] }
{
    let Some(reading) = start_reader(common, scope, true, hand, inlet) else {
        return false;
    };
    begin(common.rt, common.order, false);
    reading.dismiss(common.rt);
    true
}

/// The same, in a scope of its own.
fn dismiss<'a, R: Threads + Wait + Sync, L: Ledger + Send + Sync>(
    common: Common<'a, R, L, CountingGate>,
    hand: HandRing<Watched<SlowReader<'static>>>,
    inlet: Inlet<L>,
) -> bool
    requires { sent inlet.ring ≡ [] }
{
    thread::scope(
        thread::scope_env(),
        common.rt,
        move |scope| -> bool
            requires { sent inlet.ring ≡ [] }
        { dismiss_in(common, scope, hand, inlet) },
    )
}

/// Whether a worker was dismissed, its first note, and how often it passed the gate.
fn dismissed_text(
    alloc: Global,
    is_dismissed: bool,
    first: Option<u64>,
    passed: u64,
) -> Result<String, AllocError> {
    format!(in alloc; "{is_dismissed} {first:?} {passed}")
}

/// What a worker brought that was dismissed, and the same.
fn dismissed_with<R: Threads + Wait + Sync, L: Ledger + Send + Sync>(
    rt: &R,
    alloc: Global,
    order: &Order<L>,
    share: Share<L>,
    hand: HandRing<Watched<SlowReader<'static>>>,
) -> Result<String, AllocError>
    requires { (share.parts ≡ 1) × (share.amount ≡ 0) }
{
    let (ring, mut desk) = inbound_ring(alloc)?;
    let gate = CountingGate::new(Point::BeforePush);
    let common = Common {
        rt,
        alloc,
        order,
        gate: &gate,
    };
    let is_dismissed = dismiss(common, hand, Inlet::new(ring, Noter::new(7, share)));
    let told = dismissed_text(alloc, is_dismissed, next(rt, order), gate.passed());
    with_last(alloc, &mut desk, told)
}

/// The same with a new order.
fn dismissed<R: Threads + Wait + Sync, L: Ledger + Send + Sync>(
    rt: &R,
    alloc: Global,
    blank: Blank,
) -> Result<String, AllocError>
    requires name { blank.name ≡ L.name }
    requires parts { (blank.parts ≡ L.parts) × (blank.parts ≡ 1) }
{
    let hand = HandRing::new(alloc)?;
    let (ledger, share) = blank.open::<L>();
    let order = Order::new(alloc, ledger)?;
    dismissed_with(rt, alloc, &order, share, hand)
}

#[test]
fn a_reader_that_may_not_begin_brings_nothing(rt: HostRuntime) -> Result<(), Fail> {
    let lines = dismissed::<HostRuntime, Brand>(&rt, rt.alloc(), Blank::new(1));
    tells(rt.alloc(), lines, "true None 0")
}
