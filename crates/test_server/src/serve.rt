use crate::made::made;
use crate::steps::net_core;
use ov_core::{Cause, StepFault};
use ov_ends::{Clock, Source, Watched};
use ov_serve::serve_one;
use std::alloc::{AllocError, Global};
use std::cell::Cell;
use std::io;
use std::io::{ErrorKind, Read, Write};
use std::sync::Wait;
use std::test::Fail;
use test_basics::{Faults, SlowReader, SlowWriter, is_text};

const REQUEST: &[u8] = b"{\"id\":0,\"method\":\"list_dbs\",\"params\":[]}";

const REPLY: &str = r#"{"error":null,"id":0,"result":["Net"]}"#;

/// No limit.
pub(crate) const ALL: usize = 1_000_000;

/// A clock that stands still.
#[derive(Drop)]
pub(crate) struct StillClock;

impl Clock for StillClock {
    ghost use Rattle.std.specs.Prelude.{◌≡◌};

    ghost tells = { λ _ moment _. moment ≡ 0 };

    fn now(&mut self) -> u64 {
        0
    }
}

/// A reader of these bytes without a limit.
pub(crate) fn reader_of(rest: &[u8]) -> SlowReader<'_> {
    SlowReader {
        rest,
        most: ALL,
        calls: ALL,
        error: ErrorKind::Other,
    }
}

/// A writer without a limit.
pub(crate) fn writer_of(alloc: Global) -> SlowWriter {
    SlowWriter {
        taken: Vec::new(alloc),
        most: ALL,
        left: ALL,
        fails: false,
        flushes: true,
    }
}

/// Why a session ended. Fails unless the cause is `InputEnded` exactly when the reader has ended.
fn cause_of(served: Result<Cause, StepFault>, has_ended: bool) -> Result<Cause, Fail> {
    let cause = served?;
    if has_ended != (cause == Cause::InputEnded) {
        return Err(Fail::new("an end that is no end"));
    }
    Ok(cause)
}

/// Serves a session over a new machine by a clock, and returns why it ended.
fn serve_by<H: Wait, R: Read + Drop, W: Write + Drop, C: Clock>(
    rt: &H,
    alloc: Global,
    reader: &mut Watched<R>,
    writer: &mut Watched<W>,
    clock: &mut C,
) -> Result<Cause, Fail> {
    let mut core = net_core(alloc, Faults::NONE)?;
    let served = serve_one(rt, &mut core, alloc, reader, writer, clock);
    cause_of(served, reader.ended())
}

/// Serves a session by a clock, and returns why it ended, its reader and its writer.
fn served_by<H: Wait, R: Read + Drop, W: Write + Drop, C: Clock>(
    rt: &H,
    alloc: Global,
    reader: R,
    writer: W,
    clock: &mut C,
) -> Result<(Cause, R, W), Fail> {
    let mut reader = Watched::new(reader);
    let mut writer = Watched::new(writer);
    let cause = serve_by(rt, alloc, &mut reader, &mut writer, clock)?;
    Ok((cause, reader.into_inner(), writer.into_inner()))
}

/// The same with a clock that stands still.
fn served<H: Wait, R: Read + Drop, W: Write + Drop>(
    rt: &H,
    alloc: Global,
    reader: R,
    writer: W,
) -> Result<(Cause, R, W), Fail> {
    served_by(rt, alloc, reader, writer, &mut StillClock)
}

/// Why a session ended, and what was written.
pub(crate) fn told_of(alloc: Global, cause: Cause, taken: &[u8]) -> Result<String, AllocError> {
    let taken = str::from_utf8(taken).unwrap_or("no text");
    format!(in alloc; "{cause:?} {taken}")
}

/// The same for a session over this reader and writer.
fn told<H: Wait>(
    rt: &H,
    alloc: Global,
    reader: SlowReader<'_>,
    writer: SlowWriter,
) -> Result<String, Fail> {
    let (cause, _, writer) = served(rt, alloc, reader, writer)?;
    made(told_of(alloc, cause, writer.taken.as_slice()))
}

/// Fails unless this is the outcome of a session.
pub(crate) fn tells<H: Wait>(
    rt: &H,
    alloc: Global,
    reader: SlowReader<'_>,
    writer: SlowWriter,
    wanted: &str,
) -> Result<(), Fail> {
    let told = told(rt, alloc, reader, writer)?;
    is_text(alloc, told.as_str(), wanted)
}

/// The request is answered; then the input ends.
const ANSWERED: &str = r#"InputEnded {"error":null,"id":0,"result":["Net"]}"#;

/// The request is answered; then a read fails.
const READ_FAULT: &str = r#"ReadFault {"error":null,"id":0,"result":["Net"]}"#;

/// The flush before the first read fails, so nothing is read or written.
const WRITE_FAULT: &str = "WriteFault ";

#[test]
fn a_request_is_answered(rt: HostRuntime) -> Result<(), Fail> {
    let (reader, writer) = (reader_of(REQUEST), writer_of(rt.alloc()));
    tells(&rt, rt.alloc(), reader, writer, ANSWERED)
}

/// Fails unless this is the outcome of a session whose reader gives at most `most` bytes per call, and fails after `calls`
/// calls.
fn tells_of_reads<H: Wait>(
    rt: &H,
    alloc: Global,
    most: usize,
    calls: usize,
    wanted: &str,
) -> Result<(), Fail> {
    let reader = SlowReader {
        rest: REQUEST,
        most,
        calls,
        error: ErrorKind::Other,
    };
    tells(rt, alloc, reader, writer_of(alloc), wanted)
}

#[test]
fn a_slow_reader_is_read_to_its_end_or_its_failure(rt: HostRuntime) -> Result<(), Fail> {
    for (most, calls, wanted) in [
        (1, ALL, ANSWERED),
        (ALL, 0, "ReadFault "),
        (ALL, 1, READ_FAULT),
        (1, REQUEST.len(), READ_FAULT),
        (1, REQUEST.len() - 1, "ReadFault "),
    ] {
        tells_of_reads(&rt, rt.alloc(), most, calls, wanted)?;
    }
    Ok(())
}

#[test]
fn a_stream_that_stops_or_is_damaged_ends(rt: HostRuntime) -> Result<(), Fail> {
    for (bytes, wanted) in [
        (&REQUEST[..9], "InputEnded "),
        (b"".as_slice(), "InputEnded "),
        (b"x".as_slice(), "Damaged "),
        (b"{]".as_slice(), "InputEnded "),
    ] {
        let (reader, writer) = (reader_of(bytes), writer_of(rt.alloc()));
        tells(&rt, rt.alloc(), reader, writer, wanted)?;
    }
    Ok(())
}

/// Fails unless this is the outcome of a session whose writer takes at most `most` bytes per call, and `left` bytes in all.
/// Then it fails, or takes no byte.
fn tells_of_writes<H: Wait>(
    rt: &H,
    alloc: Global,
    most: usize,
    left: usize,
    fails: bool,
    wanted: &str,
) -> Result<(), Fail> {
    let writer = SlowWriter {
        taken: Vec::new(alloc),
        most,
        left,
        fails,
        flushes: true,
    };
    tells(rt, alloc, reader_of(REQUEST), writer, wanted)
}

#[test]
fn a_writer_gets_all_or_the_session_ends(rt: HostRuntime) -> Result<(), Fail> {
    for (most, left, fails, wanted) in [
        (1, ALL, false, ANSWERED),
        (ALL, 0, false, "WriteFault "),
        (ALL, 0, true, "WriteFault "),
        (2, 5, false, "WriteFault {\"err"),
        (2, 5, true, "WriteFault {\"err"),
    ] {
        tells_of_writes(&rt, rt.alloc(), most, left, fails, wanted)?;
    }
    Ok(())
}

#[test]
fn a_flush_that_fails_is_a_write_fault(rt: HostRuntime) -> Result<(), Fail> {
    let mut writer = writer_of(rt.alloc());
    writer.flushes = false;
    tells(&rt, rt.alloc(), reader_of(REQUEST), writer, WRITE_FAULT)
}

/// A reader of two requests, one per call. It counts the calls before which not all replies had been handed on.
#[derive(Drop)]
struct AskingReader<'a> {
    handed_on: &'a Cell<usize>,
    calls: usize,
    early: usize,
}

impl Read for AskingReader<'_> {
    fn read(&mut self, buf: &mut [u8]) -> io::Result<usize> {
        let asked = self.calls.min(2);
        if self.handed_on.get() != asked * REPLY.len() {
            self.early = self.early.saturating_add(1);
        }
        self.calls = self.calls.saturating_add(1);
        if asked == 2 || buf.len() < REQUEST.len() {
            return Ok(0);
        }
        buf[..REQUEST.len()].copy_from_slice(REQUEST);
        Ok(REQUEST.len())
    }
}

/// A writer that reports at each flush how many bytes it has handed on.
#[derive(Drop)]
struct HandingWriter<'a> {
    handed_on: &'a Cell<usize>,
    taken: usize,
}

impl Write for HandingWriter<'_> {
    fn write(&mut self, buf: &[u8]) -> io::Result<usize> {
        self.taken = self.taken.saturating_add(buf.len());
        Ok(buf.len())
    }

    fn flush(&mut self) -> io::Result<()> {
        self.handed_on.set(self.taken);
        Ok(())
    }
}

/// Why a session ended, how often its reader was called, and how often before all replies had been handed on.
fn asked_text(
    alloc: Global,
    cause: Cause,
    calls: usize,
    early: usize,
) -> Result<String, AllocError> {
    format!(in alloc; "{cause:?} {calls} {early}")
}

/// The same for a session of two requests.
fn asked<H: Wait>(rt: &H, alloc: Global) -> Result<String, Fail> {
    let handed_on = Cell::new(0);
    let reader = AskingReader {
        handed_on: &handed_on,
        calls: 0,
        early: 0,
    };
    let writer = HandingWriter {
        handed_on: &handed_on,
        taken: 0,
    };
    let (cause, reader, _) = served(rt, alloc, reader, writer)?;
    made(asked_text(alloc, cause, reader.calls, reader.early))
}

#[test]
fn answers_are_handed_on_before_more_is_read(rt: HostRuntime) -> Result<(), Fail> {
    let told = asked(&rt, rt.alloc())?;
    is_text(rt.alloc(), told.as_str(), "InputEnded 3 0")
}

/// A reader that gives one piece per call, and then none.
#[derive(Drop)]
struct PieceReader<'a> {
    first: &'a [u8],
    second: &'a [u8],
}

impl Read for PieceReader<'_> {
    fn read(&mut self, buf: &mut [u8]) -> io::Result<usize> {
        let piece = self.first;
        let n = piece.len().min(buf.len());
        buf[..n].copy_from_slice(&piece[..n]);
        self.first = self.second;
        self.second = b"";
        Ok(n)
    }
}

/// A clock that returns 0, and then this moment.
#[derive(Drop)]
struct LeapingClock {
    later: u64,
    told: bool,
}

impl Clock for LeapingClock {
    ghost tells = { λ _ _ _. Unit {0} };

    fn now(&mut self) -> u64 {
        if self.told {
            return self.later;
        }
        self.told = true;
        0
    }
}

/// A transaction that waits 50 milliseconds for a switch.
const WAIT: &[u8] =
    b"{\"id\":1,\"method\":\"transact\",\"params\":[\"Net\",{\"op\":\"wait\",\"table\":\"Switch\",\"timeout\":50,\"where\":[[\"name\",\"==\",\"s9\"]],\"columns\":[\"name\"],\"until\":\"==\",\"rows\":[{\"name\":\"s9\"}]}]}";

/// The wait times out after the request is answered.
const TIMED_OUT: &str =
    r#"{"error":null,"id":0,"result":["Net"]}{"error":null,"id":1,"result":[{"error":"timed out"}]}"#;

/// What a session writes if its second piece arrives at this moment.
fn told_at<H: Wait>(rt: &H, alloc: Global, later: u64) -> Result<String, Fail> {
    let reader = PieceReader {
        first: WAIT,
        second: REQUEST,
    };
    let mut clock = LeapingClock { later, told: false };
    let (_, _, writer) = served_by(rt, alloc, reader, writer_of(alloc), &mut clock)?;
    Ok(String::from_utf8(writer.taken)?)
}

/// Fails unless the session writes this.
fn tells_at<H: Wait>(rt: &H, alloc: Global, later: u64, wanted: &str) -> Result<(), Fail> {
    let told = told_at(rt, alloc, later)?;
    is_text(alloc, told.as_str(), wanted)
}

/// Time advances after a piece that arrives when a wait has run out, and not before.
#[test]
fn ticks_are_given(rt: HostRuntime) -> Result<(), Fail> {
    tells_at(&rt, rt.alloc(), 49, REPLY)?;
    tells_at(&rt, rt.alloc(), 50, TIMED_OUT)
}
