ghost use Rattle.std.specs.Prelude.{◌≡◌, ◌+◌, ◌<◌, ◌≤◌, [], true, false, vec_len, MatchBool};
ghost use Rattle.ov_lanes.specs.Lanes.{AreFlushed, AreFlushedBelow, FlushesDesk, DeskGoesOn, IsSteady};
ghost use Rattle.ov_lanes.specs.Lanes.{LookAll, SameLane, StayAs, TakesAndEnters, Turns, unmarked};

use crate::lane::Lane;
use crate::lanes::place_of;
use crate::moves::{flush, take};
use ov_core::Core;
use ov_keeper::Keeper;
use ov_requests::Draws;
use std::alloc::Global;

/// A machine, and the lanes of the sessions that are served, each at a place of its own.
#[derive(Drop)]
pub struct Desk<K: Keeper, D: Draws> {
    /// The machine.
    pub core: Core<K, D>,
    /// The lanes by their places; None where no session is served.
    pub lanes: Vec<Option<Lane>>,
}

impl<K: Keeper, D: Draws> Desk<K, D> {
    /// A desk for this machine, which may have been used before. It has no places.
    pub fn new(alloc: Global, core: Core<K, D>) -> Desk<K, D>
        ensures core { result.core ≡ core }
        ensures lanes { result.lanes.items ≡ [] }
    {
        let lanes = Vec::new(alloc);
        Desk { core, lanes }
    }

    /// The machine.
    pub fn core(&self) -> &Core<K, D>
        ensures { result.now ≡ self.now.core }
    {
        &self.core
    }

    /// Gives the machine back.
    pub fn into_core(self) -> Core<K, D>
        ensures { result ≡ self.core }
    {
        let Desk { core, lanes: _ } = self;
        core
    }
}

impl<K: Keeper + Drop, D: Draws + Drop> Desk<K, D> {
    /// Takes an item of the session at a place, as `take` does. Returns false if no item was seen or the place is free.
    fn take_at(&mut self, alloc: Global, moment: u64, at: usize) -> bool
        requires { at < vec_len self.old.lanes }
        ensures goes { DeskGoesOn moment self.old self.new }
        ensures rings { StayAs SameLane self.old.lanes.items self.new.lanes.items }
        ensures taken { MatchBool result (TakesAndEnters at self.old self.new)
            ((self.new.core ≡ self.old.core) × LookAll self.old.lanes.items self.new.lanes.items) }
        ensures steady { IsSteady K.is_honest self.old.core self.new.core }
    {
        match &mut self.lanes[at] {
            Some(lane) => take(&mut self.core, alloc, moment, lane),
            None => false,
        }
    }

    /// Takes one item from the ring of the session of this serial: enters a message at the moment in milliseconds, or at the
    /// last one if that is later, or drops it if the session is closed; an end closes the session. Then moves what waits for
    /// all sessions, as `flush` does. The only other entries close served sessions whose rings have no room, as `Overrun`.
    /// Apart from these no other session is closed, unless the machine closes it as out of memory while it works on the item.
    /// Returns false if no item was seen or the session has no place; then nothing is changed. Takes no mutex, and waits for no
    /// other thread.
    pub fn turn(&mut self, alloc: Global, moment: u64, serial: u64) -> bool
        ensures goes { DeskGoesOn moment self.old self.new }
        ensures rings { StayAs SameLane self.old.lanes.items self.new.lanes.items }
        ensures turns { Turns serial self.old result self.new }
        ensures steady { IsSteady K.is_honest self.old.core self.new.core }
    {
        let Some(at) = place_of(&self.lanes, serial) else {
            return false;
        };
        if !self.take_at(alloc, moment, at) {
            return false;
        }
        self.flush();
        true
    }

    /// Moves what waits for the session at a place. Returns whether its ring had no room for a frame.
    fn flush_at(&mut self, at: usize) -> bool
        requires { at < vec_len self.old.lanes }
        ensures flushes { FlushesDesk K.is_honest self.old self.new }
        ensures fewer { MatchBool result
            (unmarked self.new.lanes.items < unmarked self.old.lanes.items)
            (unmarked self.new.lanes.items ≤ unmarked self.old.lanes.items) }
        ensures flushed { result ≡ false
            → AreFlushedBelow at self.old.core self.old.lanes.items
            → AreFlushedBelow (at + 1) self.new.core self.new.lanes.items }
    {
        match &mut self.lanes[at] {
            Some(lane) => flush(&mut self.core, lane),
            None => false,
        }
    }

    /// Moves what waits for each session, once. Returns whether one of their rings had no room for a frame.
    fn flush_each(&mut self) -> bool
        ensures flushes { FlushesDesk K.is_honest self.old self.new }
        ensures fewer { result ≡ true
            → unmarked self.new.lanes.items < unmarked self.old.lanes.items }
        ensures flushed { result ≡ false → AreFlushed self.new }
    {
        let mut any = false;
        for at in 0..self.lanes.len() {
            if self.flush_at(at) {
                any = true;
            }
        }
        any
    }

    /// Moves what waits for all sessions: frames into their rings, and after the last frame of a closed session the end mark.
    /// A session whose ring has no room for a frame is closed as `Overrun`, and what waits for it is dropped. It may have owned
    /// locks, and their next owners are notified: then all sessions are flushed again.
    pub fn flush(&mut self)
        ensures flushes { FlushesDesk K.is_honest self.old self.new }
        ensures flushed { AreFlushed self.new }
    {
        loop {
            if !self.flush_each() {
                return;
            }
        }
    }
}
