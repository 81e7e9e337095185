ghost use Rattle.std.specs.Prelude.{◌≡◌, ◌<◌, None, Some, true, slice_index_or, slice_set, vec_len};
ghost use Rattle.ov_lanes.specs.Lanes.{AreOver, IsAt, StayAs};
ghost use Rattle.ov_lanes.specs.declared.lane.Lane.{Lane as SpecLane};
ghost use Rattle.ov_workers.specs.declared.link.Link.{Link as SpecLink};
ghost use Rattle.ov_hall.specs.Guests.{HaveLeft, IsKept, TendsHall};
ghost use Rattle.ov_workers.specs.LinkStates.{ends_of};
ghost use Rattle.ov_hall.specs.Seats.{AreSeats, AreWorkersOf, HaveLink};
ghost use Rattle.ov_hall.specs.Serving.{IsTended};

use crate::begun::Begun;
use crate::finish::join_workers;
use crate::parts::Parts;
use ov_ends::{Sink, Source};
use ov_keeper::Keeper;
use ov_lanes::{Desk, Lane};
use ov_order::Bell;
use ov_requests::Draws;
use ov_threads::Workers;
use ov_workers::Arrivals;
use std::sync::Wait;
use std::sync::ledger::Ledger;
use std::thread::Threads;

/// The desk, and the workers of the sessions that are served, by their places.
#[derive(Drop)]
pub struct Hall<K: Keeper, D: Draws, S: Source, W: Sink, L: Ledger> {
    /// The machine and the lanes.
    pub desk: Desk<K, D>,
    /// The workers; None where no session is served.
    pub workers: Vec<Option<Workers<S, W, L>>>,
    /// What the accepting worker brings; None if there is none.
    pub accepted: Option<Arrivals<S, W>>,
    /// The parts for further workers that note.
    pub parts: Parts<L>,
    /// Whether each session keeps its place, and its workers the ends of their link, until all sessions are over.
    pub keeps: bool,
    /// That the workers were told to begin.
    pub begun: Begun<L>,
}

/// Empties a place, and returns what was in it.
fn take_out<T: Drop>(places: &mut Vec<Option<T>>, at: usize) -> Option<T>
    requires { at < vec_len places.old }
    ensures { (result ≡ slice_index_or places.old.items at None)
        × (places.new.items ≡ slice_set places.old.items at None) }
{
    places[at].take()
}

/// Rings the writer's bell if something was put for it. Returns whether its session has left: its reader's end was taken, its
/// end mark was put, and both workers are about to end.
fn tend_lane<R: Wait>(rt: &R, bell: &Bell, lane: &mut Lane) -> bool
    ensures tended { IsTended lane.old lane.new }
    ensures over { result ≡ true → (lane.new.ended ≡ true) × (lane.new.marked ≡ true) }
{
    if lane.news {
        lane.news = false;
        bell.ring(rt);
    }
    lane.ended && lane.marked && bell.is_over()
}

/// The same for the session at a place; false if there is none.
fn tend_lane_at<R: Wait>(rt: &R, bell: &Bell, lanes: &mut Vec<Option<Lane>>, at: usize) -> bool
    requires { at < vec_len lanes.old }
    ensures tended { StayAs IsTended lanes.old.items lanes.new.items }
    ensures over { result ≡ true
        → (lane : SpecLane) × IsAt lanes.new.items at lane × (lane.ended ≡ true)
        × (lane.marked ≡ true) }
{
    match &mut lanes[at] {
        Some(lane) => tend_lane(rt, bell, lane),
        None => false,
    }
}

impl<K, D, S, W, L> Hall<K, D, S, W, L>
where
    K: Keeper + Drop,
    D: Draws + Drop,
    S: Source + Drop,
    W: Sink + Drop,
    L: Ledger,
{
    /// Gives a session a free place.
    pub(crate) fn seat(&mut self, at: usize, lane: Lane, workers: Workers<S, W, L>)
        requires seats { AreSeats self.old }
        requires place { at < vec_len self.old.desk.lanes }
        requires workers { AreWorkersOf self.old.keeps lane workers }
        requires link { (k : SpecLink S W) × HaveLink k workers }
        ensures lanes { self.new.desk.lanes.items
            ≡ slice_set self.old.desk.lanes.items at (Some lane) }
        ensures workers { self.new.workers.items
            ≡ slice_set self.old.workers.items at (Some workers) }
        ensures same { (self.new.desk.core ≡ self.old.desk.core)
            × (self.new.keeps ≡ self.old.keeps) × (self.new.accepted ≡ self.old.accepted) }
        ensures seats { AreSeats self.new }
    {
        self.desk.lanes[at] = Some(lane);
        self.workers[at] = Some(workers);
    }

    /// Frees a place. If a session that is over is there, joins its workers.
    fn leave<R: Threads + Wait>(&mut self, rt: &R, at: usize)
        requires seats { AreSeats self.old }
        requires place { at < vec_len self.old.desk.lanes }
        requires over { (lane : SpecLane) → IsAt self.old.desk.lanes.items at lane
            → (lane.ended ≡ true) × (lane.marked ≡ true) }
        ensures leaves { TendsHall (ends_of S.Source W.Sink) self.old self.new }
        ensures free { self.new.desk.lanes.items ≡ slice_set self.old.desk.lanes.items at None }
    {
        let place = take_out(&mut self.desk.lanes, at);
        let seat = take_out(&mut self.workers, at);
        let Some(lane) = place else {
            return;
        };
        let Some(workers) = seat else { unreachable!() };
        let _left = join_workers(rt, lane, workers);
    }

    /// Rings the bell of the writer at a place if something was put for it. Unless the places are kept, frees the place if its
    /// session has left.
    fn tend_at<R: Threads + Wait>(&mut self, rt: &R, bells: &Vec<Bell>, at: usize)
        requires seats { AreSeats self.old }
        requires place { at < vec_len self.old.desk.lanes }
        ensures tends { TendsHall (ends_of S.Source W.Sink) self.old self.new }
        ensures kept { IsKept self.old self.new }
    {
        let Some(bell) = bells.get(at) else {
            return;
        };
        let has_left = tend_lane_at(rt, bell, &mut self.desk.lanes, at);
        if has_left && !self.keeps {
            self.leave(rt, at);
        }
    }

    /// Rings the bells of all writers for which something was put. Unless the places are kept, frees those whose sessions have
    /// left.
    pub(crate) fn tend<R: Threads + Wait>(&mut self, rt: &R, bells: &Vec<Bell>)
        requires seats { AreSeats self.old }
        ensures tends { TendsHall (ends_of S.Source W.Sink) self.old self.new }
        ensures kept { IsKept self.old self.new }
    {
        for at in 0..self.desk.lanes.len() {
            self.tend_at(rt, bells, at);
        }
    }

    /// Frees the places of all sessions, which are over, and joins their workers.
    pub fn leave_all<R: Threads + Wait>(&mut self, rt: &R)
        requires seats { AreSeats self.old }
        requires over { AreOver self.old.desk.lanes.items }
        ensures left { HaveLeft (ends_of S.Source W.Sink) self.old.desk.lanes.items
            self.old.workers.items }
        ensures same { (self.new.desk.core ≡ self.old.desk.core)
            × (self.new.accepted ≡ self.old.accepted) }
    {
        for place in 0..self.desk.lanes.len() {
            self.leave(rt, place);
        }
    }
}
