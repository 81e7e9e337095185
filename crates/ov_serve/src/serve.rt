ghost use Rattle.std.specs.Prelude.{◌≡◌, ◌⊎◌, ◌≤◌, ◌++◌, ℕ, List, [], ◌∷◌, map, length, true};
ghost use Rattle.std.specs.Prelude.{is_ok, IfOk, IfErr};
ghost use Rattle.std.specs.Io.KnownBytes.{IsAtEnd};
ghost use Rattle.ov_specs.specs.machine.Machine.{is_open, Entry as SpecEntry, Open as SpecOpen};
ghost use Rattle.ov_history.specs.Entries.{cause_view, event_view, entry_view, is_written};
ghost use Rattle.ov_history.specs.declared.event.Stepped.TheVariants.{Opened};
ghost use Rattle.ov_core.specs.Following.{CoreState, with_clock};
ghost use Rattle.ov_core.specs.Stepping.{IsEntered, RefusesStep};
ghost use Rattle.ov_cut.specs.Reading.{IsFed};
ghost use Rattle.ov_streams.specs.Feeding.{fed_piece};
ghost use Rattle.ov_ends.specs.Ends.{KeepsInput, GivesWritten};
ghost use Rattle.ov_serve.specs.Serving.{ServesSession, Served, server_of};
ghost use Rattle.ov_serve.specs.Serving.{CauseMatchesCounts, IsSized};
ghost use Rattle.ov_serve.specs.Progress.{stream_cause, ServesPiece};

use crate::send::write_waiting;
use ov_core::{Cause, Core, Entry, Event, Session, StepFault};
use ov_cut::Cutter;
use ov_ends::{Clock, Sink, Source};
use ov_keeper::Keeper;
use ov_requests::Draws;
use ov_rpc::MessageText;
use ov_streams::feed_session;
use std::alloc::Global;
use std::collections::VecDeque;
use std::sync::Wait;

/// The most bytes that are read at once.
const PIECE_BYTES: usize = 4096;

/// Serves one session (RFC 7047, 4): reads its stream in pieces of at most 4,096 bytes, asks the clock for the moment of
/// each, in milliseconds, after reading it, and writes what is sent to the session before reading on. After each piece,
/// advances time to its moment if a waiting transaction has timed out by then (RFC 7047, 5.2.6); never otherwise.
///
/// Returns the cause for which the history closed the session, after all that was sent to it was written and flushed. With
/// `WriteFault`, the writer failed: a beginning of that is written, and the stream may have closed the session before. If no
/// session can be opened, nothing is read or written, and the fault is that of `Core::open_session`.
pub fn serve_one<R: Wait, K: Keeper + Drop, D: Draws + Drop, S: Source, W: Sink, C: Clock>(
    rt: &R,
    core: &mut Core<K, D>,
    alloc: Global,
    reader: &mut S,
    writer: &mut W,
    clock: &mut C,
) -> Result<Cause, StepFault>
    ensures served { IfOk result
        (λ cause. ServesSession C.tells
        (server_of S.Source W.Sink core.old reader.old writer.old clock.old) cause
        (server_of S.Source W.Sink core.new reader.new writer.new clock.new)) }
    ensures refused { IfErr result (λ fault. (core.new ≡ core.old)
        × RefusesStep SpecOpen core.old.state fault) }
    ensures untouched { IfErr result (λ fault. (reader.new ≡ reader.old) × (writer.new ≡ writer.old)
        × (clock.new ≡ clock.old)) }
    ensures honest { K.is_honest core.new.keeper → K.is_honest core.old.keeper }
{
    let session = core.open_session()?;
    Ok(serve_session(rt, core, alloc, session, reader, writer, clock))
}

/// Serves the session that was just opened, until it is closed.
fn serve_session<R: Wait, K: Keeper + Drop, D: Draws + Drop, S: Source, W: Sink, C: Clock>(
    rt: &R,
    core: &mut Core<K, D>,
    alloc: Global,
    session: Session,
    reader: &mut S,
    writer: &mut W,
    clock: &mut C,
) -> Cause
    ensures served { (first : CoreState K D)
        → IsEntered D.draws first.state.moment SpecOpen first (Opened session) core.old
        → Served C.tells session.serial
        (server_of S.Source W.Sink first reader.old writer.old clock.old) result
        (server_of S.Source W.Sink core.new reader.new writer.new clock.new) }
    ensures flushed { is_written result ≡ true → W.is_flushed writer.new ≡ true }
    ensures ends { CauseMatchesCounts result (S.at_end reader.new) (S.faults reader.old)
        (S.faults reader.new) (W.faults writer.old) (W.faults writer.new) }
    ensures input { KeepsInput (S.bytes_read reader.old) (S.remaining reader.old)
        (S.bytes_read reader.new) (S.remaining reader.new) }
    ensures all { result ≡ Cause.InputEnded → IsAtEnd (S.remaining reader.new) }
    ensures given { GivesWritten (W.bytes_written writer.old) (W.contents writer.old)
        (W.bytes_written writer.new) (W.contents writer.new) }
    ensures honest { K.is_honest core.new.keeper → K.is_honest core.old.keeper }
{
    let mut cutter = Cutter::new(alloc);
    let mut piece = [0u8; PIECE_BYTES];
    for _ in rt.forever() {
        if !write_waiting(core, session, writer) {
            let _ = core.close(session, Cause::WriteFault);
            return Cause::WriteFault;
        }
        if !core.is_open(session) {
            return cause_of_closing(core.history());
        }
        match reader.read(&mut piece) {
            Some(0) => {
                let _ = core.close(session, Cause::InputEnded);
                return Cause::InputEnded;
            }
            Some(n) => {
                let _ = serve_piece(core, alloc, session, &mut cutter, clock, &piece[..n]);
            }
            None => {
                let _ = core.close(session, Cause::ReadFault);
                return Cause::ReadFault;
            }
        }
    }
    unreachable!()
}

/// Enters a piece of the open session's stream at the moment that the clock reports, and then gives the transactions that
/// are due their turn, unless the piece closed the session. Returns `Err` if an allocation fails in that: they get it after
/// the next piece.
fn serve_piece<K: Keeper + Drop, D: Draws + Drop, C: Clock>(
    core: &mut Core<K, D>,
    alloc: Global,
    session: Session,
    cutter: &mut Cutter,
    clock: &mut C,
    piece: &[u8],
) -> Result<(), StepFault>
    requires open { is_open core.old.state session.serial ≡ true }
    requires sized { IsSized piece.now }
    ensures sized { IsSized piece.now }
    ensures entered { (stream : List ℕ) → IsFed stream cutter.old
        → ServesPiece C.tells (fed_piece session.serial stream piece.now)
        (with_clock core.old clock.old) (is_ok result) (with_clock core.new clock.new)
        cutter.new }
    ensures honest { K.is_honest core.new.keeper → K.is_honest core.old.keeper }
{
    let at = clock.now();
    feed_session(core, alloc, at, session, cutter, piece);
    if core.is_open(session) {
        core.pass_where_due(alloc, at)?;
    }
    Ok(())
}

/// Why the session that was closed last was closed, if its stream closed it: by damage, or when out of memory.
fn cause_of_closing(history: &VecDeque<Entry>) -> Cause
    ensures one_of { (result ≡ Cause.Damaged) ⊎ (result ≡ Cause.Memory) }
    ensures found { (front : List SpecEntry) (last : SpecEntry) → map entry_view history.now.items
        ≡ front ++ last ∷ []
        → cause_view result ≡ stream_cause last.event }
{
    match history.back() {
        Some(entry) => cause_by(&entry.event),
        None => Cause::Memory,
    }
}

/// Why a stream closed its session, by the event that did.
fn cause_by(event: &Event<MessageText>) -> Cause
    ensures one_of { (result ≡ Cause.Damaged) ⊎ (result ≡ Cause.Memory) }
    ensures is { cause_view result ≡ stream_cause (event_view event.now) }
{
    match event {
        Event::Close(_, Cause::Damaged) => Cause::Damaged,
        _ => Cause::Memory,
    }
}
