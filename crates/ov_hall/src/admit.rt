ghost use Rattle.std.specs.Prelude.{◌≡◌, ◌<◌, ℕ, None, vec_len, slice_index_or};
ghost use Rattle.ov_lanes.specs.Lanes.{DeskGoesOn};
ghost use Rattle.ov_hall.specs.Admitting.{Admits};
ghost use Rattle.ov_hall.specs.Seats.{AreSeats, IsStarted, seating};

use crate::hall::Hall;
use crate::start::{Started, start};
use ov_core::StepFault;
use ov_ends::{Sink, Source};
use ov_keeper::Keeper;
use ov_lanes::{Lane, ServeFault, free_place};
use ov_order::Bell;
use ov_requests::Draws;
use ov_workers::{Common, Gate, Link};
use std::sync::Wait;
use std::sync::ledger::Ledger;
use std::thread::{Scope, Threads};

/// What became of a link that was to be served.
#[derive(Drop)]
pub(crate) enum Admitted {
    /// Its session is open, and has a place.
    Opened,
    /// All places are taken.
    Full,
    /// There is a free place, and something else was refused.
    Refused(AdmitFault),
}

/// Why a link is not served although a place is free.
#[derive(Drop)]
pub(crate) enum AdmitFault {
    /// There are fewer bells than places.
    Bell,
    /// No part of the ledger is left.
    Part,
    /// No serial is left.
    Serial,
    /// The workers could not be started.
    Workers(ServeFault),
    /// The machine refused the session.
    Machine(StepFault),
}

/// Opens a session and gives it a free place, with workers that were started for its serial, and hands them the link. If the
/// machine refuses the session, ends the workers and closes both ends of the link.
fn admit_at<R, K, D, L, S, W>(
    rt: &R,
    hall: &mut Hall<K, D, S, W, L>,
    at: usize,
    started: Started<S, W, L>,
    link: Link<S, W>,
) -> Admitted
where
    R: Threads + Wait,
    K: Keeper + Drop,
    D: Draws + Drop,
    L: Ledger,
    S: Source + Drop,
    W: Sink + Drop,
    requires seats { AreSeats hall.old }
    requires place { (at < vec_len hall.old.desk.lanes)
        × (slice_index_or hall.old.desk.lanes.items at None ≡ None) }
    requires started { IsStarted hall.old.keeps hall.old.desk.core.state.next started }
    ensures goes { (moment : ℕ) → DeskGoesOn moment hall.old.desk hall.new.desk }
    ensures answer { (bells parts : ℕ)
        → Admits bells parts link (seating hall.old) result (seating hall.new) }
    ensures accepted { hall.new.accepted ≡ hall.old.accepted }
    ensures seats { AreSeats hall.new }
    ensures honest { K.is_honest hall.new.desk.core.keeper → K.is_honest hall.old.desk.core.keeper }
{
    let mut workers = started.workers;
    match hall.desk.core.open_session() {
        Ok(session) => {
            workers.hand(hall.begun.leave(), link.reader, link.writer);
            let lane = Lane::new(session, started.inbound, started.outbound);
            hall.seat(at, lane, workers);
            Admitted::Opened
        }
        Err(fault) => {
            workers.dismiss(rt);
            Admitted::Refused(AdmitFault::Machine(fault))
        }
    }
}

/// Opens a session for the link, at a free place. If there is none, or if no bell, part of the ledger or serial is left, or
/// if a ring, a thread or the session is refused, closes both ends of the link; the machine and the places are then as they
/// were.
pub(crate) fn admit<'s, E, R, K, D, L, G, S, W>(
    common: Common<'s, R, L, G>,
    scope: &Scope<'s, E>,
    bells: &'s Vec<Bell>,
    hall: &mut Hall<K, D, S, W, L>,
    link: Link<S, W>,
) -> Admitted
where
    R: Threads + Wait + Sync,
    K: Keeper + Drop,
    D: Draws + Drop,
    L: Ledger + Send + Sync + 's,
    G: Gate + Sync,
    S: Source + Send + Drop + 's,
    W: Sink + Send + Drop + 's,
    requires seats { AreSeats hall.old }
    ensures goes { (moment : ℕ) → DeskGoesOn moment hall.old.desk hall.new.desk }
    ensures answer { Admits (vec_len bells.now) hall.old.parts.left link (seating hall.old) result
        (seating hall.new) }
    ensures accepted { hall.new.accepted ≡ hall.old.accepted }
    ensures seats { AreSeats hall.new }
    ensures honest { K.is_honest hall.new.desk.core.keeper → K.is_honest hall.old.desk.core.keeper }
{
    let Some(at) = free_place(&hall.desk.lanes) else {
        return Admitted::Full;
    };
    let Some(bell) = bells.get(at) else {
        return Admitted::Refused(AdmitFault::Bell);
    };
    let Some(share) = hall.parts.take() else {
        return Admitted::Refused(AdmitFault::Part);
    };
    let Some(serial) = hall.desk.core.next_serial() else {
        return Admitted::Refused(AdmitFault::Serial);
    };
    match start(common, scope, bell, hall.keeps, serial, share) {
        Ok(started) => admit_at(common.rt, hall, at, started, link),
        Err(fault) => Admitted::Refused(AdmitFault::Workers(fault)),
    }
}
