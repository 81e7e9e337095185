ghost use Rattle.std.specs.Prelude.{◌≡◌, ◌≢◌, ◌++◌, ℕ, [], false, IfOk, IfNone, MatchBool};
ghost use Rattle.std.specs.Prelude.{option_to_list};
ghost use Rattle.ov_locks.specs.Calls.{lock_call_view};
ghost use Rattle.ov_specs.specs.locks.Queues.{DoQueuesAscend, owns, leave, told_of_leaving};
ghost use Rattle.ov_specs.specs.machine.History.{joined};
ghost use Rattle.ov_specs.specs.machine.Machine.{told};
ghost use Rattle.ov_outbox.specs.Asking.{IsAsked};
ghost use Rattle.ov_outbox.specs.Frames.{waiting_for, has_queue, PostsFrame, PostsSent};
ghost use Rattle.ov_outbox.specs.Frames.{HasSameFrames, ClearsSession};
ghost use Rattle.ov_outbox.specs.Waits.{HasPlaces, IsOutOfQueues};

use crate::frames::FrameQueues;
use crate::locking;
use ov_base::{Bytes, Tree};
use ov_locks::{LockCall, LockFault, LockTable};
use std::alloc::{AllocError, Global};
use std::marker::Model;

/// The frames that wait for sessions, and the locks that sessions have asked for. For each queue of a lock in which a session
/// waits, a place is kept for it, so that it can be notified without allocating that it has become the owner.
#[derive(Drop)]
pub struct Outbox {
    frames: FrameQueues,
    locks: LockTable,
}

impl Model for Outbox {
    ghost use Rattle.std.specs.Prelude.{◌≡◌, []};
    ghost use Rattle.ov_outbox.specs.Outbox as outbox;
    ghost use Rattle.ov_outbox.specs.Outbox.{outbox_code};
    ghost use Rattle.ov_outbox.specs.Waits.{HasPlaces};

    ghost Value = { outbox.Outbox };

    ghost coded = { outbox_code };

    ghost view = { λ o. record { frames = o.frames; queues = o.locks.0 } };

    ghost invariant = { λ o. HasPlaces o.frames o.locks.0 × (o.locks.1 ≡ []) };
}

impl Outbox {
    /// Nothing waits, and no session has asked for a lock.
    pub fn new(alloc: Global) -> Outbox
        ensures { result ≡ record { frames = []; queues = [] } }
    {
        Outbox {
            frames: FrameQueues::new(alloc),
            locks: LockTable::new(alloc),
        }
    }

    /// Joins these frames and these locks: no session is still to be notified of a lock, and the places are kept.
    pub fn from_parts(frames: FrameQueues, locks: LockTable) -> Outbox
        requires freed { locks.1 ≡ [] }
        requires room { HasPlaces frames locks.0 }
        ensures { result ≡ record { frames = frames; queues = locks.0 } }
    {
        Outbox { frames, locks }
    }

    /// Splits it into the frames and the locks: no session is still to be notified of a lock, and the places are kept.
    pub fn into_parts(self) -> (FrameQueues, LockTable)
        ensures frames { result.0 ≡ self.frames }
        ensures queues { result.1.0 ≡ self.queues }
        ensures freed { result.1.1 ≡ [] }
        ensures room { HasPlaces result.0 result.1.0 }
    {
        let Outbox { frames, locks } = self;
        (frames, locks)
    }

    /// Appends a frame to those of its session, unless an allocation fails.
    pub fn push(&mut self, alloc: Global, session: u64, frame: Bytes) -> bool
        ensures frames { MatchBool result (PostsFrame session frame self.old.frames self.new.frames)
            (HasSameFrames self.old.frames self.new.frames) }
        ensures queues { self.new.queues ≡ self.old.queues }
    {
        self.frames.push(alloc, session, frame)
    }

    /// Takes out the oldest frame of the session.
    pub fn pop(&mut self, session: u64) -> Option<Bytes>
        ensures session { waiting_for session self.old.frames
            ≡ option_to_list result ++ waiting_for session self.new.frames }
        ensures others { (other : ℕ) → other ≢ session
            → waiting_for other self.new.frames ≡ waiting_for other self.old.frames }
        ensures none { IfNone result (waiting_for session self.old.frames ≡ []) }
        ensures queues { self.new.queues ≡ self.old.queues }
    {
        self.frames.pop(session)
    }

    /// A copy of the session's frames, joined in order.
    pub fn joined_for(&self, alloc: Global, session: u64) -> Result<Bytes, AllocError>
        ensures { IfOk result (λ b. b ≡ joined (waiting_for session self.now.frames)) }
    {
        self.frames.joined_for(alloc, session)
    }

    /// Takes out all frames of the session, and removes its queue if it has asked for no lock.
    pub fn clear(&mut self, session: u64)
        ensures frames { ClearsSession session self.old.frames self.new.frames }
        ensures queues { self.new.queues ≡ self.old.queues }
        ensures gone { IsOutOfQueues session self.old.queues
            → has_queue session self.new.frames ≡ false }
    {
        self.locks.shows_order();
        if self.locks.requests(session) == 0 {
            self.frames.drop_queue(session);
        } else {
            self.frames.clear(session);
        }
    }

    /// Removes the queue of a session for which nothing waits and that has asked for no lock.
    pub fn forget(&mut self, session: u64)
        ensures frames { HasSameFrames self.old.frames self.new.frames }
        ensures queues { self.new.queues ≡ self.old.queues }
        ensures gone { IsOutOfQueues session self.old.queues
            → waiting_for session self.old.frames ≡ [] → has_queue session self.new.frames ≡ false }
    {
        self.locks.shows_order();
        if self.frames.is_empty(session) && self.locks.requests(session) == 0 {
            self.frames.drop_queue(session);
        }
    }

    /// States that the queues of the locks ascend by the locks' names, an invariant of every outbox. Does nothing.
    pub fn shows_order(&self)
        ensures { DoQueuesAscend self.now.queues }
    {
        self.locks.shows_order();
    }

    /// Whether the session is the owner of the lock.
    pub fn owns(&self, session: u64, name: &str) -> bool
        ensures { result ≡ owns self.now.queues session name.now }
    {
        locking::owns(&self.locks, session, name)
    }

    /// Carries out a call on a lock, replies to it, and notifies the session that loses the lock by it or becomes its owner
    /// (RFC 7047, 4.1.8 to 4.1.10). If it is refused, nothing is changed or sent.
    pub fn ask(
        &mut self,
        alloc: Global,
        call: LockCall,
        session: u64,
        id: &Tree,
        name: &str,
    ) -> Result<(), LockFault>
        ensures { IsAsked
            (record { call = lock_call_view call; session = session; id = id.now; name = name.now })
            self.old result self.new }
    {
        self.locks.shows_order();
        match call {
            LockCall::Lock => {
                locking::lock(alloc, &mut self.frames, &mut self.locks, session, id, name)
            }
            LockCall::Steal => {
                locking::steal(alloc, &mut self.frames, &mut self.locks, session, id, name)
            }
            LockCall::Unlock => {
                locking::unlock(alloc, &mut self.frames, &mut self.locks, session, id, name)
            }
        }
    }

    /// The session gives up all locks, and stops waiting for any. The new owners are notified (RFC 7047, 4.1.9). Allocates
    /// nothing.
    pub fn leave(&mut self, session: u64)
        ensures queues { self.new.queues ≡ leave session self.old.queues }
        ensures posts { PostsSent (told (told_of_leaving session self.old.queues)) self.old.frames
            self.new.frames }
    {
        locking::leave(&mut self.frames, &mut self.locks, session);
    }
}
