ghost use Rattle.std.specs.Prelude.{◌≡◌, ◌++◌, ℕ, [], ◌∷◌, true, false, Some, unwrap_or, MatchBool};
ghost use Rattle.rtrb.specs.Ring.{sent};
ghost use Rattle.ov_order.specs.declared.items.Sent.TheVariants.{End};
ghost use Rattle.ov_history.specs.Entries.{cause_view};
ghost use Rattle.ov_core.specs.Following.{CoreState};
ghost use Rattle.ov_history.specs.declared.event.Cause.TheVariants.{Memory};
ghost use Rattle.ov_lanes.specs.Entering.{EntersOverruns};
ghost use Rattle.ov_lanes.specs.Since.{Since};
ghost use Rattle.ov_lanes.specs.Fitting.{Items, end_cause};
ghost use Rattle.ov_lanes.specs.Lanes.{Flushes, GivesUpIf, IsSteady, LaneFits, LaneFitsWith, LooksAt};
ghost use Rattle.ov_lanes.specs.Lanes.{Moves, SameLane, TakesItemOf};
ghost use Rattle.ov_lanes.specs.Moving.{ClosesOnce, GivesUp, MovesFrames, SameInbound, TakesItem};
ghost use Rattle.ov_lanes.specs.Moving.{at_lane};

use crate::lane::Lane;
use ov_core::{Cause, Core, Event};
use ov_keeper::Keeper;
use ov_order::{Brought, Sent};
use ov_requests::Draws;
use ov_rpc::Received;
use ov_workers::ReadCause;
use std::alloc::Global;

/// Puts the frames that wait for the session into its ring, oldest first. Returns false if there was no room for one of
/// them, which is dropped: the last place is kept for the end mark.
fn move_frames<K: Keeper + Drop, D: Draws + Drop>(core: &mut Core<K, D>, lane: &mut Lane) -> bool
    requires { lane.old.marked ≡ false }
    ensures moves { MovesFrames lane.old.session.serial result core.old core.new
        (sent lane.old.outbound) (sent lane.new.outbound) }
    ensures inbound { SameInbound lane.old lane.new }
    ensures cause { lane.new.cause ≡ lane.old.cause }
    ensures unmarked { lane.new.marked ≡ false }
    ensures honest { K.is_honest core.new.keeper → K.is_honest core.old.keeper }
{
    loop {
        let has_room = lane.outbound.slots() >= 2;
        let Some(frame) = core.next_frame(lane.session) else {
            return true;
        };
        if !has_room {
            return false;
        }
        lane.outbound.push_reserved(Sent::Frame(frame));
        lane.news = true;
    }
}

/// Closes the session for the cause, if it is open.
fn close<K: Keeper + Drop, D: Draws + Drop>(core: &mut Core<K, D>, lane: &mut Lane, cause: Cause)
    ensures closes { ClosesOnce lane.old.session.serial (cause_view cause) core.old core.new
        lane.old.cause lane.new.cause }
    ensures inbound { SameInbound lane.old lane.new }
    ensures outbound { lane.new.outbound ≡ lane.old.outbound }
    ensures marked { lane.new.marked ≡ lane.old.marked }
    ensures honest { K.is_honest core.new.keeper → K.is_honest core.old.keeper }
{
    if core.close(lane.session, cause) {
        lane.cause = Some(cause);
    }
}

/// Closes the session, if it is open, because its ring has no room, and drops the frames that wait for it.
fn give_up<K: Keeper + Drop, D: Draws + Drop>(core: &mut Core<K, D>, lane: &mut Lane)
    ensures gives_up { GivesUp lane.old.session.serial core.old core.new lane.old.cause
        lane.new.cause }
    ensures inbound { SameInbound lane.old lane.new }
    ensures outbound { lane.new.outbound ≡ lane.old.outbound }
    ensures marked { lane.new.marked ≡ lane.old.marked }
    ensures honest { K.is_honest core.new.keeper → K.is_honest core.old.keeper }
{
    close(core, lane, Cause::Overrun);
    core.discard(lane.session);
}

/// Puts the end mark. If the cause of the closing is not known, the session was closed as out of memory.
fn mark(lane: &mut Lane)
    requires { lane.old.marked ≡ false }
    ensures put { sent lane.new.outbound ≡ sent lane.old.outbound ++ End ∷ [] }
    ensures inbound { SameInbound lane.old lane.new }
    ensures cause { lane.new.cause ≡ Some (unwrap_or lane.old.cause Memory) }
    ensures marked { lane.new.marked ≡ true }
{
    lane.cause = Some(lane.cause.unwrap_or(Cause::Memory));
    lane.outbound.push_reserved(Sent::End);
    lane.marked = true;
    lane.news = true;
}

/// Puts what waits for the session into its ring, and after the last frame of a closed session the end mark. If there is no
/// room for a frame, closes the session as `Overrun`, if it is open, drops what waits for it, and returns true.
pub(crate) fn flush<K: Keeper + Drop, D: Draws + Drop>(
    core: &mut Core<K, D>,
    lane: &mut Lane,
) -> bool
    ensures flushes { (at : ℕ) (first : CoreState K D) (since : Since first core.old)
        (items : Items)
        → LaneFitsWith since items lane.old
        → Flushes at since items lane.old core.new lane.new }
    ensures enters { EntersOverruns (λ n. n ≡ lane.old.session.serial) core.old core.new }
    ensures gives_up { GivesUpIf result core.old (Some lane.old) core.new (Some lane.new) }
    ensures inbound { SameInbound lane.old lane.new }
    ensures steady { IsSteady K.is_honest core.old core.new }
{
    if lane.marked {
        return false;
    }
    if !move_frames(core, lane) {
        give_up(core, lane);
        mark(lane);
        return true;
    }
    if !core.is_open(lane.session) {
        mark(lane);
    }
    false
}

/// Why a session is closed when its reader's end is taken.
fn end_cause(cause: ReadCause) -> Cause
    ensures { cause_view result ≡ end_cause cause }
{
    match cause {
        ReadCause::InputEnded => Cause::InputEnded,
        ReadCause::ReadFault => Cause::ReadFault,
        ReadCause::Damaged => Cause::Damaged,
        ReadCause::Memory => Cause::Memory,
    }
}

/// Takes an item that was popped from the ring: enters a message at the moment, or at the last one if that is later; closes
/// the session at its reader's end, if it is open. A message of a closed session is dropped.
fn take_item<K: Keeper + Drop, D: Draws + Drop>(
    core: &mut Core<K, D>,
    alloc: Global,
    moment: u64,
    lane: &mut Lane,
    item: Brought<Received, ReadCause>,
)
    ensures takes { TakesItem D.draws moment item (at_lane core.old lane.old)
        (at_lane core.new lane.new) }
    ensures rings { (lane.new.outbound ≡ lane.old.outbound)
        × (lane.new.inbound ≡ lane.old.inbound) }
    ensures same { (lane.new.session ≡ lane.old.session) × (lane.new.marked ≡ lane.old.marked) }
    ensures honest { K.is_honest core.new.keeper → K.is_honest core.old.keeper }
{
    match item {
        Brought::Message(message) => {
            let _ = core.step(alloc, moment, Event::Take(lane.session, message));
        }
        Brought::End(cause) => {
            lane.ended = true;
            close(core, lane, end_cause(cause));
        }
    }
}

/// Takes one item from the ring: enters a message at the moment in milliseconds, or at the last one if that is later; an end
/// closes the session. What comes after a closing is dropped. Returns false if no item was seen. What already waits for the
/// session is moved first; what the item adds is not.
pub(crate) fn take<K: Keeper + Drop, D: Draws + Drop>(
    core: &mut Core<K, D>,
    alloc: Global,
    moment: u64,
    lane: &mut Lane,
) -> bool
    ensures moves { (first : CoreState K D) (since : Since first core.old) → LaneFits since lane.old
        → Moves moment since lane.old core.new lane.new }
    ensures rings { SameLane lane.old lane.new }
    ensures taken { MatchBool result (TakesItemOf lane.old core.old lane.new core.new)
        ((core.new ≡ core.old) × LooksAt lane.old lane.new) }
    ensures steady { IsSteady K.is_honest core.old core.new }
{
    let Ok(item) = lane.inbound.pop() else {
        return false;
    };
    flush(core, lane);
    take_item(core, alloc, moment, lane, item);
    true
}
