ghost use Rattle.std.specs.Prelude.{◌≡◌, ◌≤◌, [], length, vec_capacity, false, IfOk, OnErr};
ghost use Rattle.ov_specs.specs.machine.Machine.{Tick};
ghost use Rattle.ov_sessions.specs.Sessions.{has_no_room};
ghost use Rattle.ov_live.specs.Sessions.{ClosesSession, OpensLive};
ghost use Rattle.ov_live.specs.Settling.{ComesTo, choice_of};

use ov_db::Db;
use ov_history::Attempt;
use ov_keeper::Keeper;
use ov_outbox::Outbox;
use ov_requests::Waiting;
use ov_sessions::{Session, Sessions};
use ov_txn::Tries;
use ov_watch::Watchers;
use std::alloc::{AllocError, Global};

/// What an event changes apart from the history.
#[derive(Drop)]
pub struct Live<K: Keeper> {
    /// The database.
    pub database: Db<K>,
    /// The open sessions.
    pub sessions: Sessions,
    /// Their monitors.
    pub watchers: Watchers,
    /// The waiting transactions.
    pub waiting: Waiting,
    /// The waiting frames, with the queues of the locks.
    pub outbox: Outbox,
    /// The count of attempts.
    pub tries: Tries,
}

impl<K: Keeper + Drop> Live<K> {
    /// No frame waits, no lock is requested, there are no monitors, and no attempt has been made.
    pub fn new(alloc: Global, database: Db<K>, sessions: Sessions, waiting: Waiting) -> Live<K>
        ensures { result
            ≡ record {
              database = database;
              sessions = sessions;
              watchers = [];
              waiting = waiting;
              outbox = record { frames = []; queues = [] };
              tries = 0;
            } }
    {
        Live {
            database,
            sessions,
            watchers: Watchers::new(alloc),
            waiting,
            outbox: Outbox::new(alloc),
            tries: Tries::new(),
        }
    }

    /// Opens a session with the next serial and no monitors. If an allocation fails, nothing is changed.
    pub fn open(&mut self) -> Result<Session, AllocError>
        requires { has_no_room (length self.old.sessions.open_sessions) self.old.sessions.next
            ≡ false }
        ensures opened { IfOk result (λ session. OpensLive self.old session self.new) }
        ensures refused { OnErr result (self.new ≡ self.old) }
    {
        let session = self.sessions.open()?;
        // A new serial has no monitors yet, but the types do not say so.
        self.watchers.leave(session.serial);
        Ok(session)
    }

    /// Closes the session: drops its monitors and its waiting transactions, and takes it out of the queues of all locks,
    /// whose next owners are notified (RFC 7047, 4.1.9). Its frame queue is dropped if no frame waits in it. Allocates
    /// nothing.
    pub fn close(&mut self, session: u64)
        ensures { ClosesSession session self.old self.new }
    {
        self.sessions.close(session);
        self.watchers.leave(session);
        self.waiting.leave(session);
        self.outbox.shows_order();
        self.outbox.leave(session);
        self.outbox.forget(session);
    }

    /// Advances time to the moment: settles the waiting transactions.
    pub fn tick(&mut self, alloc: Global, moment: u64, attempts: &mut Vec<Attempt>)
        requires untried { self.old.waiting.untried ≡ [] }
        requires none { attempts.old.items ≡ [] }
        requires room { length self.old.waiting.outstanding ≤ vec_capacity attempts.old }
        ensures comes_to { ComesTo K.failed (choice_of moment [] attempts.new.items) Tick self.old
            self.new }
        ensures honest { K.is_honest self.new.database.keeper
            → K.is_honest self.old.database.keeper }
    {
        self.settle(alloc, moment, 1, attempts);
    }

    /// Gives up all but the keeper, and returns it.
    pub fn into_keeper(self) -> K
        ensures same { result ≡ self.database.keeper }
        ensures format { K.format result ≡ 2 }
    {
        let Live {
            database,
            sessions: _,
            watchers: _,
            waiting: _,
            outbox: _,
            tries: _,
        } = self;
        database.into_keeper()
    }
}
