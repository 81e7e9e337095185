ghost use Rattle.std.specs.Prelude.{◌≡◌, ◌+◌, IfSome, IfNone};
ghost use Rattle.std.specs.VecDeque.{deque_len};
ghost use Rattle.ov_core.specs.Following.{CoreState};
ghost use Rattle.ov_lanes.specs.Opening.{AreSessions, ClosesAgain, DropsSession, OpensAll};

use ov_core::{Cause, Core, Session};
use ov_keeper::Keeper;
use ov_requests::Draws;
use std::alloc::Global;
use std::collections::VecDeque;

/// Closes a session as out of memory, and drops what waits for it. Does nothing if it is not open. Allocates nothing.
fn drop_session<K: Keeper + Drop, D: Draws + Drop>(core: &mut Core<K, D>, session: Session)
    ensures drops { DropsSession session.serial core.old core.new }
    ensures honest { K.is_honest core.new.keeper → K.is_honest core.old.keeper }
{
    if core.close(session, Cause::Memory) {
        core.discard(session);
    }
}

/// States that nothing has been opened yet, and that nothing has to be closed again. Does nothing.
pub fn shows_nothing_opened<K: Keeper + Drop, D: Draws + Drop>(core: &Core<K, D>)
    ensures opened { OpensAll core.now core.now.state.next 0 core.now }
    ensures closed { ClosesAgain core.now core.now }
{
    let _ = core.history();
}

/// Closes the sessions that were opened, as out of memory.
fn close_sessions<K: Keeper + Drop, D: Draws + Drop>(
    core: &mut Core<K, D>,
    sessions: VecDeque<Session>,
)
    ensures closes { (start : CoreState K D) → AreSessions start.state.next sessions.items
        → OpensAll start start.state.next (deque_len sessions) core.old
        → ClosesAgain start core.new }
    ensures honest { K.is_honest core.new.keeper → K.is_honest core.old.keeper }
{
    let mut sessions = sessions;
    while let Some(session) = sessions.pop_back() {
        drop_session(core, session);
    }
}

/// Opens this many sessions, with the next serials. None if an allocation fails or the machine refuses one; then those that
/// were opened are closed again, as out of memory, and their serials stay used.
pub fn open_sessions<K: Keeper + Drop, D: Draws + Drop>(
    core: &mut Core<K, D>,
    alloc: Global,
    count: usize,
) -> Option<VecDeque<Session>>
    ensures opened { IfSome result
        (λ sessions. OpensAll core.old core.old.state.next count core.new) }
    ensures serials { IfSome result (λ sessions. AreSessions core.old.state.next sessions.items
        × (deque_len sessions ≡ count)) }
    ensures refused { IfNone result (ClosesAgain core.old core.new) }
    ensures honest { K.is_honest core.new.keeper → K.is_honest core.old.keeper }
{
    shows_nothing_opened(core);
    let Ok(mut sessions) = VecDeque::with_capacity(alloc, count) else {
        close_sessions(core, VecDeque::new(alloc));
        return None;
    };
    while sessions.len() < count {
        match core.open_session() {
            Ok(session) => sessions.push_back_reserved(session),
            Err(_) => {
                close_sessions(core, sessions);
                return None;
            }
        }
    }
    Some(sessions)
}
