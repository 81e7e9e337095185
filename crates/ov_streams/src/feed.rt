ghost use Rattle.std.specs.Prelude.{◌≡◌, ℕ, List, true};
ghost use Rattle.ov_specs.specs.machine.Machine.{is_open};
ghost use Rattle.ov_history.specs.Entries.{cause_view};
ghost use Rattle.ov_cut.specs.Reading.{IsFed};
ghost use Rattle.ov_streams.specs.Feeding.{EntersPiece, EntersOwn, fed_piece};
ghost use Rattle.ov_streams.specs.Entering.{EntersMessages, EntersMessage, ClosesByEntry};
ghost use Rattle.ov_streams.specs.Entering.{closing_cause_of};

use ov_core::{Cause, Core, Event, Session};
use ov_cut::{Cutter, PieceRead, StreamFault};
use ov_keeper::Keeper;
use ov_requests::Draws;
use ov_rpc::Received;
use std::alloc::Global;

/// Enters the messages that end in this piece of the open session's stream, at the moment in milliseconds, or at the last one
/// if that is later. Then closes the session as Damaged if the stream is damaged. Closes it as Memory if an allocation fails.
///
/// The cutter has to be the one that was given the session's stream, which was not damaged before. With any other, messages
/// that the cutter finds may be entered, and the session may be closed, but nothing of another session is entered.
pub fn feed_session<K: Keeper + Drop, D: Draws + Drop>(
    core: &mut Core<K, D>,
    alloc: Global,
    moment: u64,
    session: Session,
    cutter: &mut Cutter,
    piece: &[u8],
)
    requires { is_open core.old.state session.serial ≡ true }
    ensures enters { (stream : List ℕ) → IsFed stream cutter.old
        → EntersPiece moment (fed_piece session.serial stream piece.now) core.old core.new
        cutter.new }
    // Whatever the cutter was given, entries of this session alone are entered.
    ensures own { EntersOwn session.serial core.old core.new }
    ensures honest { K.is_honest core.new.keeper → K.is_honest core.old.keeper }
{
    let PieceRead { messages, fault } = cutter.read(alloc, piece);
    enter_all(core, alloc, moment, session, messages);
    if !core.is_open(session) {
        return;
    }
    let Some(fault) = fault else {
        return;
    };
    close_at(core, alloc, moment, session, cause_of(fault));
}

/// Why a session is closed if its stream can't be read on.
fn cause_of(fault: StreamFault) -> Cause
    ensures { cause_view result ≡ closing_cause_of fault }
{
    match fault {
        StreamFault::Damaged => Cause::Damaged,
        StreamFault::Memory => Cause::Memory,
    }
}

/// Enters these messages, up to one that closes the session.
fn enter_all<K: Keeper + Drop, D: Draws + Drop>(
    core: &mut Core<K, D>,
    alloc: Global,
    moment: u64,
    session: Session,
    messages: Vec<Received>,
)
    requires { is_open core.old.state session.serial ≡ true }
    ensures enters { EntersMessages moment session.serial messages.items core.old core.new }
    ensures honest { K.is_honest core.new.keeper → K.is_honest core.old.keeper }
{
    for message in messages {
        enter_one(core, alloc, moment, session, message);
        if !core.is_open(session) {
            return;
        }
    }
}

/// Enters one message.
fn enter_one<K: Keeper + Drop, D: Draws + Drop>(
    core: &mut Core<K, D>,
    alloc: Global,
    moment: u64,
    session: Session,
    message: Received,
)
    requires { is_open core.old.state session.serial ≡ true }
    ensures enters { EntersMessage moment session.serial message core.old core.new }
    ensures honest { K.is_honest core.new.keeper → K.is_honest core.old.keeper }
{
    let _ = core.step(alloc, moment, Event::Take(session, message));
}

/// Closes the open session at the moment, or at the last one if that is later.
fn close_at<K: Keeper + Drop, D: Draws + Drop>(
    core: &mut Core<K, D>,
    alloc: Global,
    moment: u64,
    session: Session,
    cause: Cause,
)
    requires { is_open core.old.state session.serial ≡ true }
    ensures closes { ClosesByEntry moment session.serial (cause_view cause) core.old core.new }
    ensures honest { K.is_honest core.new.keeper → K.is_honest core.old.keeper }
{
    let _ = core.step(alloc, moment, Event::Close(session, cause));
}
