ghost use Rattle.std.specs.Prelude.{◌≡◌, [], ◌∷◌};
ghost use Rattle.ov_stored.specs.Changing.{applied};
ghost use Rattle.ov_specs.specs.machine.Machine.{updates_sent, to_session};
ghost use Rattle.ov_specs.specs.monitors.Updates.{update_notification};
ghost use Rattle.ov_live.specs.Preparing.{PreparesFrames, PreparesMore, updates_to_one};
ghost use Rattle.ov_live.specs.States.{machine_sessions};

use crate::frames::Frames;
use ov_base::{Bytes, Tree, Trees};
use ov_db::{Db, Delta};
use ov_keeper::Keeper;
use ov_outbox::{FrameQueues, Prepared};
use ov_rpc::notification;
use ov_sessions::Sessions;
use ov_txn::{Ready, Replies};
use ov_watch::Watchers;
use std::alloc::Global;

/// The open sessions and their monitors, which receive the updates of a commit.
#[derive(Clone, Copy)]
pub(crate) struct Audience<'a> {
    pub sessions: &'a Sessions,
    pub watchers: &'a Watchers,
}

/// What follows a commit, made ready for each answer of the store: the updates of the monitors, and the reply. It holds the
/// waiting frames while the transaction is tried.
#[derive(Drop)]
pub(crate) struct Replying<'a> {
    pub alloc: Global,
    pub audience: Audience<'a>,
    pub session: u64,
    pub id: &'a Tree,
    pub queues: FrameQueues,
    /// What is sent if the store keeps the changes: the updates, then the reply.
    pub prepared: Prepared,
    /// The reply if the store answers that resources are exhausted, once all is ready.
    pub exhausted: Bytes,
    /// The reply if the store fails, once all is ready.
    pub failed: Bytes,
}

impl<'a> Replying<'a> {
    /// Nothing is ready yet. Allocates nothing.
    pub fn new(
        alloc: Global,
        audience: Audience<'a>,
        session: u64,
        id: &'a Tree,
        queues: FrameQueues,
    ) -> Replying<'a>
        ensures audience { result.audience ≡ audience.entry }
        ensures session { result.session ≡ session }
        ensures id { result.id.now ≡ id.now }
        ensures queues { result.queues ≡ queues }
        ensures prepared { result.prepared ≡ [] }
    {
        Replying {
            alloc,
            audience,
            session,
            id,
            queues,
            prepared: Prepared::new(alloc),
            exhausted: Bytes::from_vec(Vec::new(alloc)),
            failed: Bytes::from_vec(Vec::new(alloc)),
        }
    }

    /// Prepares a frame for a session; false if an allocation fails.
    fn prepare(&mut self, session: u64, frame: Bytes) -> bool
        ensures { PreparesFrames ((session, frame) ∷ []) self.old result self.new }
    {
        self.prepared
            .prepare(self.alloc, &mut self.queues, session, frame)
    }

    /// Prepares one update with these params for a session; false if an allocation fails.
    fn prepare_update(&mut self, session: u64, params: Trees) -> bool
        ensures { PreparesMore (to_session session (update_notification params ∷ [])) self.old
            result self.new }
    {
        let Ok(frame) = notification(self.alloc, "update", params) else {
            return false;
        };
        self.prepare(session, frame)
    }

    /// Prepares the updates of these changes for the monitors of one session; false if an allocation fails.
    fn prepare_updates_of<K: Keeper + Drop>(
        &mut self,
        session: u64,
        db: &Db<K>,
        delta: &Delta,
    ) -> bool
        ensures { PreparesMore
            (updates_to_one db.now.committed (applied delta.now db.now.committed)
            self.old.audience.watchers.now session)
            self.old result self.new }
    {
        let Ok(updates) = self
            .audience
            .watchers
            .updates(self.alloc, db, delta, session)
        else {
            return false;
        };
        for params in updates {
            if !self.prepare_update(session, params) {
                return false;
            }
        }
        true
    }

    /// Prepares the updates of these changes (RFC 7047, 4.1.6) for the monitors of all sessions, session by session in order
    /// of opening; false if an allocation fails.
    fn prepare_updates<K: Keeper + Drop>(&mut self, db: &Db<K>, delta: &Delta) -> bool
        ensures { PreparesMore
            (updates_sent db.now.committed (applied delta.now db.now.committed)
            (machine_sessions self.old.audience.watchers.now
            self.old.audience.sessions.now.open_sessions))
            self.old result self.new }
    {
        for session in self.audience.sessions.serials() {
            if !self.prepare_updates_of(*session, db, delta) {
                return false;
            }
        }
        true
    }
}

impl<'a, K: Keeper + Drop> Ready<K> for Replying<'a> {
    ghost use Rattle.ov_live.specs.Preparing.{Prepares};

    ghost readies = { λ old db delta replies ready new. Prepares old db delta replies ready new };

    /// Prepares the updates and the reply of a commit that is kept, each with a place for its frame.
    fn ready(&mut self, db: &Db<K>, delta: &Delta, replies: Replies) -> bool {
        let Ok(frames) = Frames::new(self.alloc, self.id, replies) else {
            return false;
        };
        let Frames {
            kept,
            exhausted,
            failed,
        } = frames;
        self.exhausted = exhausted;
        self.failed = failed;
        let session = self.session;
        self.prepare_updates(db, delta) && self.prepare(session, kept)
    }
}
