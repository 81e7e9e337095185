ghost use Rattle.std.specs.Prelude.{◌≡◌, [], IfOk};
ghost use Rattle.rtrb.specs.Ring.{sent, received};

use crate::gates::CountingGate;
use crate::readers::{Item, STREAM, reader_of, with_last};
use crate::told::{begin, next, tells};
use ov_base::Bytes;
use ov_ends::Watched;
use ov_order::{Bell, Noter, Order, Sent, inbound_ring, outbound_ring};
use ov_threads::{Hands, ReadLeft, WriteLeft, start_workers};
use ov_workers::{Common, Inlet, Point, ReadCause};
use rtrb::{Consumer, Producer};
use std::alloc::{AllocError, Global};
use std::io::Write;
use std::marker::Brand;
use std::sync::Wait;
use std::sync::ledger::{Blank, Ledger, Share};
use std::test::Fail;
use std::thread::{Scope, Threads};
use std::{io, thread};
use test_basics::SlowReader;

/// A writer that keeps what it is given, and rings a bell at each flush.
#[derive(Drop)]
struct RingingWriter<'a, R: Wait> {
    rt: &'a R,
    flushed: &'a Bell,
    taken: Vec<u8>,
}

impl<R: Wait> Write for RingingWriter<'_, R> {
    fn write(&mut self, buf: &[u8]) -> io::Result<usize> {
        self.taken.extend_from_slice(buf)?;
        Ok(buf.len())
    }

    fn flush(&mut self) -> io::Result<()> {
        self.flushed.ring(self.rt);
        Ok(())
    }
}

/// The reader of the session.
type SessionReader = Watched<SlowReader<'static>>;

/// The writer of the session.
type SessionWriter<'a, R> = Watched<RingingWriter<'a, R>>;

/// What the two workers of a session get.
#[derive(Drop)]
struct Ends<'a, R: Wait, L: Ledger> {
    reader: SessionReader,
    inlet: Inlet<L>,
    writer: SessionWriter<'a, R>,
    to_writer: Consumer<Sent>,
}

/// Sends three frames, each after the writer has handed on the one before, and the end. If the allocation of a frame fails it
/// is not sent, and is missing in what was written.
fn send<R: Wait>(rt: &R, alloc: Global, bell: &Bell, flushed: &Bell, out: Producer<Sent>) {
    let mut out = out;
    for text in [b"[1]".as_slice(), b"[2]".as_slice(), b"[3]".as_slice()] {
        if let Ok(frame) = Bytes::from_slice(alloc, text) {
            let _ = out.push(Sent::Frame(frame));
            bell.ring(rt);
            flushed.wait(rt);
        }
    }
    let _ = out.push(Sent::End);
    bell.ring(rt);
}

/// The reader's cause and what was written. None if the workers could not be started, or if the writer was not kept.
type Served = Option<(ReadCause, Vec<u8>)>;

/// The same, from what is left of the two ends of a link.
fn served_of<R: Wait, L: Ledger>(
    read: ReadLeft<SessionReader, L>,
    wrote: WriteLeft<SessionWriter<'_, R>>,
) -> Served {
    let cause = read.cause;
    drop(read);
    let writer = wrote.writer?;
    Some((cause, writer.into_inner().taken))
}

/// Does what a desk does for a session: hands the workers the two ends of its link, sends three frames and joins the workers.
fn serve_in<'s, E, R: Threads + Wait + Sync, L: Ledger + Send + Sync + 's>(
    common: Common<'s, R, L, CountingGate>,
    scope: &Scope<'s, E>,
    bell: &'s Bell,
    flushed: &'s Bell,
    ends: Ends<'s, R, L>,
    out: Producer<Sent>,
) -> Served
    requires reader { sent ends.inlet.ring ≡ [] }
    requires writer { received ends.to_writer ≡ [] }
{
    let hands = Hands::new(common.alloc).ok()?;
    let Ends {
        reader,
        inlet,
        writer,
        to_writer,
    } = ends;
    let Some(workers) = start_workers(common, scope, bell, true, inlet, to_writer, hands) else {
        return None;
    };
    let mut workers = workers;
    let leave = begin(common.rt, common.order, true);
    workers.hand(&leave, reader, writer);
    send(common.rt, common.alloc, bell, flushed, out);
    let (read, wrote) = workers.join(common.rt);
    served_of(read, wrote)
}

/// The same, in a scope of its own.
fn in_scope<'a, R: Threads + Wait + Sync, L: Ledger + Send + Sync>(
    common: Common<'a, R, L, CountingGate>,
    bell: &'a Bell,
    flushed: &'a Bell,
    ends: Ends<'a, R, L>,
    out: Producer<Sent>,
) -> Served
    requires reader { sent ends.inlet.ring ≡ [] }
    requires writer { received ends.to_writer ≡ [] }
{
    thread::scope(
        thread::scope_env(),
        common.rt,
        move |scope| -> Served
            requires reader { sent ends.inlet.ring ≡ [] }
            requires writer { received ends.to_writer ≡ [] }
        { serve_in(common, scope, bell, flushed, ends, out) },
    )
}

/// The desk's ends of a session's rings.
#[derive(Drop)]
struct Desk {
    inbound: Consumer<Item>,
    out: Producer<Sent>,
}

/// What the workers of a session get whose writer rings a bell, and the desk's ends of its rings.
fn ends_of<'a, R: Wait, L: Ledger>(
    rt: &'a R,
    alloc: Global,
    flushed: &'a Bell,
    share: Share<L>,
) -> Result<(Ends<'a, R, L>, Desk), AllocError>
    requires { (share.parts ≡ 1) × (share.amount ≡ 0) }
    ensures reader { IfOk result (λ r. sent r.0.inlet.ring ≡ []) }
    ensures writer { IfOk result (λ r. received r.0.to_writer ≡ []) }
{
    let (to_desk, inbound) = inbound_ring(alloc)?;
    let (out, to_writer) = outbound_ring(alloc)?;
    let writer = RingingWriter {
        rt,
        flushed,
        taken: Vec::new(alloc),
    };
    let ends = Ends {
        reader: Watched::new(reader_of(STREAM, 7)),
        inlet: Inlet::new(to_desk, Noter::new(7, share)),
        writer: Watched::new(writer),
        to_writer,
    };
    Ok((ends, Desk { inbound, out }))
}

/// The reader's cause and what was written, then the first serial that was noted, how often the writer passed the gate, and
/// whether its thread has said that it is over.
fn told_of(
    alloc: Global,
    served: Served,
    first: Option<u64>,
    passed: u64,
    is_over: bool,
) -> Result<String, AllocError> {
    let Some((cause, written)) = served else {
        return Ok(String::new(alloc));
    };
    let written = str::from_utf8(written.as_slice()).unwrap_or("");
    format!(in alloc; "{cause:?} {written} {first:?} {passed} {is_over}")
}

/// The lines of what the reader brought for a session with this order, and that as the last one.
fn serve_with<R: Threads + Wait + Sync, L: Ledger + Send + Sync>(
    rt: &R,
    alloc: Global,
    order: &Order<L>,
    share: Share<L>,
) -> Result<String, AllocError>
    requires { (share.parts ≡ 1) × (share.amount ≡ 0) }
{
    let flushed = Bell::new();
    let (ends, desk) = ends_of(rt, alloc, &flushed, share)?;
    let Desk { inbound, out } = desk;
    let mut inbound = inbound;
    let gate = CountingGate::new(Point::BeforeWrite);
    let bell = Bell::new();
    let common = Common {
        rt,
        alloc,
        order,
        gate: &gate,
    };
    let served = in_scope(common, &bell, &flushed, ends, out);
    let told = told_of(
        alloc,
        served,
        next(rt, order),
        gate.passed(),
        bell.is_over(),
    );
    with_last(alloc, &mut inbound, told)
}

/// The same with a ledger and an order of its own.
fn serve<R: Threads + Wait + Sync, L: Ledger + Send + Sync>(
    rt: &R,
    alloc: Global,
    blank: Blank,
) -> Result<String, AllocError>
    requires name { blank.name ≡ L.name }
    requires parts { (blank.parts ≡ L.parts) × (blank.parts ≡ 1) }
{
    let (ledger, share) = blank.open::<L>();
    let order = Order::new(alloc, ledger)?;
    serve_with(rt, alloc, &order, share)
}

const BOTH_RAN: &str = r#"{"id":0,"method":"echo","params":[]}
{"id":1,"method":"echo","params":["}"]}
InputEnded
InputEnded [1][2][3] Some(7) 3 true"#;

#[test]
fn both_workers_of_a_session_run_in_threads(rt: HostRuntime) -> Result<(), Fail> {
    let told = serve::<HostRuntime, Brand>(&rt, rt.alloc(), Blank::new(1));
    tells(rt.alloc(), told, BOTH_RAN)
}
