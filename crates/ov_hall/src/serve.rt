ghost use Rattle.std.specs.Prelude.{◌≡◌, ◌++◌, ◌∷◌, [], ℕ, List, None, Option, true};
ghost use Rattle.std.specs.Prelude.{MatchOption, option_to_list};
ghost use Rattle.ov_specs.specs.machine.Machine.{due};
ghost use Rattle.ov_lanes.specs.Lanes.{AreFlushed, AreOver, DeskGoesOn, IsSteady, SameLane, StayAs};
ghost use Rattle.ov_hall.specs.Guests.{HostsBy, HostsOn, ServesEach, ServesNote, StayOrLeave, TakesNote};
ghost use Rattle.ov_hall.specs.Guests.{notes_in};
ghost use Rattle.ov_workers.specs.LinkStates.{ends_of};
ghost use Rattle.ov_hall.specs.Seats.{AreSeats};
ghost use Rattle.ov_hall.specs.Serving.{IsTended, KeepsHall, TakesNoted};

use crate::admit::admit;
use crate::hall::Hall;
use ov_core::Core;
use ov_ends::{Clock, Sink, Source};
use ov_keeper::Keeper;
use ov_lanes::{Desk, are_over, place_of};
use ov_order::{Bell, Taken};
use ov_requests::Draws;
use ov_workers::{Common, Gate, may_come};
use std::alloc::Global;
use std::rt::Clock as SystemClock;
use std::sync::Wait;
use std::sync::ledger::Ledger;
use std::thread;
use std::thread::{Scope, Threads};

/// What the accepting worker notes for each item it brings. No session has this serial.
pub const LOBBY: u64 = 0;

/// Takes an item of the session of this serial once it is seen, as `Desk::turn` does. If the session has no place, takes
/// nothing, changes nothing and returns false.
fn turn_once_seen<R: Wait, K: Keeper + Drop, D: Draws + Drop>(
    rt: &R,
    alloc: Global,
    desk: &mut Desk<K, D>,
    moment: u64,
    serial: u64,
) -> bool
    ensures goes { DeskGoesOn moment desk.old desk.new }
    ensures rings { StayAs SameLane desk.old.lanes.items desk.new.lanes.items }
    ensures taken { TakesNoted serial desk.old.lanes.items result desk.new.lanes.items }
    ensures flushed { result ≡ true → AreFlushed desk.new }
    ensures steady { IsSteady K.is_honest desk.old.core desk.new.core }
{
    if place_of(&desk.lanes, serial).is_none() {
        return false;
    }
    for _ in rt.forever() {
        if desk.turn(alloc, moment, serial) {
            return true;
        }
        thread::yield_now();
    }
    unreachable!()
}

/// Takes an item of the accepting worker once it is seen: a link to be served, or its end.
fn accept_once_seen<'s, E, R, K, D, L, G, S, W>(
    common: Common<'s, R, L, G>,
    scope: &Scope<'s, E>,
    bells: &'s Vec<Bell>,
    hall: &mut Hall<K, D, S, W, L>,
)
where
    R: Threads + Wait + Sync,
    K: Keeper + Drop,
    D: Draws + Drop,
    L: Ledger + Send + Sync + 's,
    G: Gate + Sync,
    S: Source + Send + Drop + 's,
    W: Sink + Send + Drop + 's,
    requires seats { AreSeats hall.old }
    ensures hosts { (moment : ℕ)
        → HostsOn (ends_of S.Source W.Sink) moment hall.old hall.new }
    ensures untaken { StayOrLeave IsTended (ends_of S.Source W.Sink) hall.old.desk.lanes.items
        hall.old.workers.items hall.new.desk.lanes.items hall.new.workers.items }
    ensures seats { AreSeats hall.new }
    ensures honest { K.is_honest hall.new.desk.core.keeper → K.is_honest hall.old.desk.core.keeper }
{
    hall.tend(common.rt, bells);
    let Some(arrivals) = &mut hall.accepted else {
        return;
    };
    let Some(link) = arrivals.take(common.rt) else {
        return;
    };
    // A client that is not served finds its connection closed, and gets no other answer.
    let _ = admit(common, scope, bells, hall, link);
}

/// Takes the item of a note: from the accepting worker, or from a session's reader. Returns whether all that waits was moved
/// too.
fn take_noted<'s, E, R, K, D, L, G, S, W>(
    common: Common<'s, R, L, G>,
    scope: &Scope<'s, E>,
    bells: &'s Vec<Bell>,
    hall: &mut Hall<K, D, S, W, L>,
    moment: u64,
    note: u64,
) -> bool
where
    R: Threads + Wait + Sync,
    K: Keeper + Drop,
    D: Draws + Drop,
    L: Ledger + Send + Sync + 's,
    G: Gate + Sync,
    S: Source + Send + Drop + 's,
    W: Sink + Send + Drop + 's,
    requires seats { AreSeats hall.old }
    ensures hosts { HostsOn (ends_of S.Source W.Sink) moment hall.old hall.new }
    ensures noted { TakesNote (ends_of S.Source W.Sink) note hall.old result hall.new }
    ensures flushed { result ≡ true → AreFlushed hall.new.desk }
    ensures kept { KeepsHall (note ∷ []) hall.old hall.new }
    ensures seats { AreSeats hall.new }
    ensures honest { K.is_honest hall.new.desk.core.keeper → K.is_honest hall.old.desk.core.keeper }
{
    if note == LOBBY && may_come(&hall.accepted) {
        accept_once_seen(common, scope, bells, hall);
        return false;
    }
    turn_once_seen(common.rt, common.alloc, &mut hall.desk, moment, note)
}

/// Serves a note that was taken, or none: asks the clock for the moment, advances time to it if a waiting transaction is due
/// by then, takes the item of the note if there is one, and moves what waits for all sessions.
fn serve_note<'s, E, R, K, D, L, G, S, W, C>(
    common: Common<'s, R, L, G>,
    scope: &Scope<'s, E>,
    bells: &'s Vec<Bell>,
    hall: &mut Hall<K, D, S, W, L>,
    clock: &mut C,
    note: Option<u64>,
)
where
    R: Threads + Wait + Sync,
    K: Keeper + Drop,
    D: Draws + Drop,
    L: Ledger + Send + Sync + 's,
    G: Gate + Sync,
    S: Source + Send + Drop + 's,
    W: Sink + Send + Drop + 's,
    C: Clock,
    requires seats { AreSeats hall.old }
    ensures hosts { (moment : ℕ) × C.tells clock.old moment clock.new
        × HostsOn (ends_of S.Source W.Sink) moment hall.old hall.new }
    ensures noted { ServesNote (ends_of S.Source W.Sink) note hall.old hall.new }
    ensures flushed { AreFlushed hall.new.desk }
    ensures kept { KeepsHall (option_to_list note) hall.old hall.new }
    ensures seats { AreSeats hall.new }
    ensures honest { K.is_honest hall.new.desk.core.keeper → K.is_honest hall.old.desk.core.keeper }
{
    let moment = clock.now();
    // If an allocation fails here, the next call tries again, with a note or without one.
    let _ = hall.desk.core.pass_where_due(common.alloc, moment);
    let is_flushed = match note {
        Some(note) => take_noted(common, scope, bells, hall, moment, note),
        None => false,
    };
    if !is_flushed {
        hall.desk.flush();
    }
    hall.tend(common.rt, bells);
}

/// Takes the next note once there is one, and waits for it without end. So call it only while no transaction may time out: time
/// would not pass for one.
fn wait_untimed<R: Wait, K: Keeper + Drop, D: Draws + Drop, L: Ledger, G>(
    common: Common<'_, R, L, G>,
    _core: &Core<K, D>,
    taken: &mut Taken,
) -> u64
    requires { due _core.now.state ≡ None }
    ensures { taken.new.serials ≡ taken.old.serials ++ result ∷ [] }
{
    common.order.wait_next(common.rt, taken)
}

/// Takes the next note. While no waiting transaction may time out, waits for one without end. Otherwise sleeps for a
/// millisecond at most, and returns None if no note has come; if `looks`, it looks for one for a while before it sleeps.
fn next_note<R: Wait + SystemClock, K: Keeper + Drop, D: Draws + Drop, L: Ledger, G>(
    common: Common<'_, R, L, G>,
    core: &Core<K, D>,
    taken: &mut Taken,
    looks: bool,
) -> Option<u64>
    ensures { MatchOption result (taken.new.serials ≡ taken.old.serials)
        (λ note. taken.new.serials ≡ taken.old.serials ++ note ∷ []) }
{
    match core.due() {
        None => Some(wait_untimed(common, core, taken)),
        Some(_) => common.order.wait_briefly(common.rt, taken, looks),
    }
}

/// Serves all sessions, one item for each note, until no more links come, each reader's end was taken and the end mark was put
/// after each session's last frame. Each note is taken from the order once.
///
/// While a waiting transaction may time out, the desk sleeps for a millisecond at most, and asks the clock after each sleep.
pub fn run<'s, E, R, K, D, L, G, S, W, C>(
    common: Common<'s, R, L, G>,
    scope: &Scope<'s, E>,
    bells: &'s Vec<Bell>,
    hall: &mut Hall<K, D, S, W, L>,
    taken: &mut Taken,
    clock: &mut C,
)
where
    R: Threads + Wait + SystemClock + Sync,
    K: Keeper + Drop,
    D: Draws + Drop,
    L: Ledger + Send + Sync + 's,
    G: Gate + Sync,
    S: Source + Send + Drop + 's,
    W: Sink + Send + Drop + 's,
    C: Clock,
    requires seats { AreSeats hall.old }
    ensures hosts { HostsBy (ends_of S.Source W.Sink) C.tells hall.old clock.old hall.new
        clock.new }
    ensures over { AreOver hall.new.desk.lanes.items }
    ensures noted { (notes : List (Option ℕ))
        × (taken.new.serials ≡ taken.old.serials ++ notes_in notes)
        × ServesEach (ends_of S.Source W.Sink) notes hall.old hall.new }
    ensures kept { (notes : List ℕ) × (taken.new.serials ≡ taken.old.serials ++ notes)
        × KeepsHall notes hall.old hall.new }
    ensures seats { AreSeats hall.new }
    ensures honest { K.is_honest hall.new.desk.core.keeper → K.is_honest hall.old.desk.core.keeper }
{
    let mut is_busy = true;
    for _ in common.rt.forever() {
        if !may_come(&hall.accepted) && are_over(&hall.desk.lanes) {
            return;
        }
        let note = next_note(common, &hall.desk.core, taken, is_busy);
        is_busy = note.is_some();
        serve_note(common, scope, bells, hall, clock, note);
    }
    unreachable!()
}
