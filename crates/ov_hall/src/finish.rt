ghost use Rattle.std.specs.Prelude.{◌≡◌, ◌≤◌, List, [], Bool, true, vec_len, unwrap_or, MatchBool};
ghost use Rattle.std.specs.VecDeque.{deque_capacity};
ghost use Rattle.ov_history.specs.declared.event.Cause.TheVariants.{WriteFault, Memory};
ghost use Rattle.ov_lanes.specs.Courses.{Course};
ghost use Rattle.ov_lanes.specs.Lanes.{AreOver, FitsLane};
ghost use Rattle.ov_lanes.specs.Pairs.{Threewise};
ghost use Rattle.ov_workers.specs.declared.link.Link.{Link as SpecLink};
ghost use Rattle.ov_threads.specs.Handing.{kept_if};
ghost use Rattle.ov_hall.specs.Ending.{CourseEnds};
ghost use Rattle.ov_hall.specs.Ends.{EndsLane, EndsSeat};
ghost use Rattle.ov_workers.specs.LinkStates.{ends_of};
ghost use Rattle.ov_hall.specs.Seats.{AreWorkersOf, HaveLink, IsSeatOf};

use ov_core::Cause;
use ov_ends::{Sink, Source};
use ov_lanes::Lane;
use ov_threads::Workers;
use std::collections::VecDeque;
use std::snapshot::Snapshot;
use std::sync::Wait;
use std::sync::ledger::Ledger;
use std::thread::Threads;

/// What is reported of a session: that its writer failed, or why it was closed.
fn reported_cause(failed: bool, known: Option<Cause>) -> Cause
    ensures { MatchBool failed (result ≡ WriteFault) (result ≡ unwrap_or known Memory) }
{
    if failed {
        return Cause::WriteFault;
    }
    known.unwrap_or(Cause::Memory)
}

/// What remains of a link after its session was closed and its workers have ended.
#[derive(Drop)]
pub struct End<S, W> {
    /// The serial that the session had.
    pub serial: u64,
    /// Why the session was closed; or `WriteFault` if the writer failed, whatever the session was closed for.
    pub cause: Cause,
    /// The reader, after its last read.
    pub reader: S,
    /// The writer, after its last write.
    pub writer: W,
}

/// What is left of a session once its workers have ended.
#[derive(Drop)]
pub(crate) struct Joined<S, W> {
    /// The reader, if it was kept.
    pub reader: Option<S>,
    /// The reader after its last read. Contracts alone see it.
    pub last_reader: Snapshot<S>,
    /// The writer, if it was kept.
    pub writer: Option<W>,
    /// The writer after its last write. Contracts alone see it.
    pub last_writer: Snapshot<W>,
    /// What is reported of the session.
    pub cause: Cause,
}

/// Joins the workers of a session whose reader's end was taken and whose end mark was put, and compares the ends of its
/// rings.
pub(crate) fn join_workers<R, S, W, L>(
    rt: &R,
    lane: Lane,
    workers: Workers<S, W, L>,
) -> Joined<S, W>
where
    R: Threads + Wait,
    S: Source + Drop,
    W: Sink + Drop,
    L: Ledger,
    requires workers { (keeps : Bool) × AreWorkersOf keeps lane workers }
    requires link { (k : SpecLink S W) × HaveLink k workers }
    requires over { (lane.ended ≡ true) × (lane.marked ≡ true) }
    ensures ends { (k : SpecLink S W) → HaveLink k workers → (c : Course) → FitsLane c lane
        → CourseEnds c result.cause (ends_of S.Source W.Sink k.reader k.writer)
        (ends_of S.Source W.Sink result.last_reader.value result.last_writer.value) }
    ensures keep { (keeps : Bool) → AreWorkersOf keeps lane workers
        → (result.reader ≡ kept_if keeps result.last_reader.value)
        × (result.writer ≡ kept_if keeps result.last_writer.value) }
{
    let (read, wrote) = workers.join(rt);
    let mut inlet = read.inlet;
    let mut inbound = lane.inbound;
    inbound.slots_beside(&mut inlet.ring);
    let mut ring = wrote.ring;
    let mut outbound = lane.outbound;
    ring.slots_beside(&mut outbound);
    Joined {
        reader: read.reader,
        last_reader: read.last,
        writer: wrote.writer,
        last_writer: wrote.last,
        cause: reported_cause(wrote.failed, lane.cause),
    }
}

/// Joins the workers of a session that is over, and gives back the ends of its link, which they kept.
fn finish_link<R, S, W, L>(rt: &R, lane: Lane, workers: Workers<S, W, L>) -> End<S, W>
where
    R: Threads + Wait,
    S: Source + Drop,
    W: Sink + Drop,
    L: Ledger,
    requires workers { AreWorkersOf true lane workers }
    requires link { (k : SpecLink S W) × HaveLink k workers }
    requires over { (lane.ended ≡ true) × (lane.marked ≡ true) }
    ensures { (k : SpecLink S W) → HaveLink k workers
        → EndsLane (ends_of S.Source W.Sink) k lane result }
{
    let serial = lane.session.serial;
    let Joined {
        reader,
        writer,
        cause,
        ..
    } = join_workers(rt, lane, workers);
    let Some(reader) = reader else { unreachable!() };
    let Some(writer) = writer else { unreachable!() };
    End {
        serial,
        cause,
        reader,
        writer,
    }
}

/// Joins the workers of all sessions, whose readers' ends were taken and whose end marks were put. Puts what remains of the
/// links, in their order, into a queue that has room for it.
pub fn finish_all<R, S, W, L>(
    rt: &R,
    lanes: Vec<Option<Lane>>,
    workers: Vec<Option<Workers<S, W, L>>>,
    ends: VecDeque<End<S, W>>,
) -> VecDeque<End<S, W>>
where
    R: Threads + Wait,
    S: Source + Drop,
    W: Sink + Drop,
    L: Ledger,
    requires room { (ends.items ≡ []) × (vec_len lanes ≤ deque_capacity ends) }
    requires over { AreOver lanes.items }
    requires seats { (links : List (SpecLink S W))
        × Threewise IsSeatOf links lanes.items workers.items }
    ensures { (links : List (SpecLink S W)) → Threewise IsSeatOf links lanes.items workers.items
        → Threewise (λ k p e. EndsSeat (ends_of S.Source W.Sink) k p e) links lanes.items
        result.items }
{
    let mut lanes = lanes;
    let mut workers = workers;
    let mut ends = ends;
    while let Some(place) = lanes.pop() {
        let Some(seat) = workers.pop() else {
            unreachable!()
        };
        let Some(lane) = place else { unreachable!() };
        let Some(worker) = seat else { unreachable!() };
        ends.push_front_reserved(finish_link(rt, lane, worker));
    }
    ends
}
