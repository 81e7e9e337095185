ghost use Rattle.std.specs.Prelude.{◌≡◌, ℕ, [], ◌∷◌, true};
ghost use Rattle.serde_json.specs.Data.{object, no_members};
ghost use Rattle.ov_sessions.specs.Sessions.{has_serial};
ghost use Rattle.ov_watch.specs.Watching.{monitors_at};
ghost use Rattle.ov_specs.specs.machine.Machine as spec;
ghost use Rattle.ov_specs.specs.monitors.Monitors.{added, canceled};
ghost use Rattle.ov_specs.specs.monitors.Updates.{initial_of};
ghost use Rattle.ov_specs.specs.wire.Frame.{reply_tree};
ghost use Rattle.ov_live.specs.Handling.{PostsIfRoom, WorksWith, HasSameRest, work_at};
ghost use Rattle.ov_live.specs.States.{machine_state};

use crate::live::Live;
use crate::send::send;
use ov_base::Tree;
use ov_history::Outcome;
use ov_keeper::Keeper;
use ov_rpc::reply;
use ov_watch::WatchFault;
use serde_json::{Map, Value};
use std::alloc::Global;

impl<K: Keeper + Drop> Live<K> {
    /// Adds a monitor of this name with these requests and replies with its initial contents, or refuses it (RFC 7047, 4.1.5).
    /// If an allocation fails, returns `NoMemory`; the session may have the monitor, and `take` then closes the session.
    pub fn monitor(
        &mut self,
        alloc: Global,
        session: u64,
        id: Tree,
        name: &Tree,
        requests: &Tree,
    ) -> Option<Outcome>
        requires open { has_serial session self.old.sessions.open_sessions ≡ true }
        ensures works { (moment : ℕ)
            → WorksWith
            (work_at moment session
            (spec.monitor_work (machine_state self.old moment) id name.now
            (added self.old.database.schema (monitors_at session self.old.watchers) name.now
            requests.now))
            [])
            self.old result self.new }
        ensures rest { HasSameRest self.old result self.new }
    {
        let Ok(copy) = name.copy() else {
            return Some(Outcome::NoMemory);
        };
        let schema = self.database.schema();
        match self
            .watchers
            .add(alloc, schema, session, copy, requests.as_value())
        {
            Ok(()) => self.tell_initial(alloc, session, id, name),
            Err(fault) => match fault {
                WatchFault::Memory => Some(Outcome::NoMemory),
                _ => self.refuse(alloc, session, id, fault.text()),
            },
        }
    }

    /// Replies with the initial contents of the monitor of this name (RFC 7047, 4.1.5).
    fn tell_initial(
        &mut self,
        alloc: Global,
        session: u64,
        id: Tree,
        name: &Tree,
    ) -> Option<Outcome>
        ensures posts { PostsIfRoom
            (spec.to_session session
            (reply_tree id
            (initial_of self.old.database.committed name.now
            (monitors_at session self.old.watchers))
            ∷ []))
            self.old.outbox.frames result self.new.outbox.frames }
        ensures queues { self.new.outbox.queues ≡ self.old.outbox.queues }
        ensures same { self.new ≡ record self.old { outbox = self.new.outbox } }
    {
        let told = match self.watchers.initial(alloc, &self.database, session, name) {
            Ok(Some(told)) => told,
            Ok(None) => Tree::new(Value::Null),
            Err(_) => return Some(Outcome::NoMemory),
        };
        self.answer(alloc, session, id, told)
    }

    /// Replies with a result.
    fn answer(&mut self, alloc: Global, session: u64, id: Tree, told: Tree) -> Option<Outcome>
        ensures posts { PostsIfRoom (spec.to_session session (reply_tree id told ∷ []))
            self.old.outbox.frames result self.new.outbox.frames }
        ensures queues { self.new.outbox.queues ≡ self.old.outbox.queues }
        ensures same { self.new ≡ record self.old { outbox = self.new.outbox } }
    {
        match reply(alloc, id, told) {
            Ok(frame) => send(alloc, &mut self.outbox, session, Some(frame)),
            Err(_) => Some(Outcome::NoMemory),
        }
    }

    /// Cancels the monitor of this name, or refuses if there is none (RFC 7047, 4.1.7). If an allocation fails, returns
    /// `NoMemory`; the session may have lost the monitor, and `take` then closes the session.
    pub fn cancel_monitor(
        &mut self,
        alloc: Global,
        session: u64,
        id: Tree,
        name: &Tree,
    ) -> Option<Outcome>
        requires open { has_serial session self.old.sessions.open_sessions ≡ true }
        ensures works { (moment : ℕ)
            → WorksWith
            (work_at moment session
            (spec.monitor_cancel_work id
            (canceled (monitors_at session self.old.watchers) name.now))
            [])
            self.old result self.new }
        ensures rest { HasSameRest self.old result self.new }
    {
        match self.watchers.cancel(alloc, session, name) {
            Ok(()) => {
                let told = nothing(alloc);
                self.answer(alloc, session, id, told)
            }
            Err(fault) => match fault {
                WatchFault::Memory => Some(Outcome::NoMemory),
                _ => self.refuse(alloc, session, id, fault.text()),
            },
        }
    }
}

/// The result `{}` (RFC 7047, 4.1.7).
fn nothing(alloc: Global) -> Tree
    ensures { result ≡ object no_members }
{
    Tree::new(Value::Object(Map::new(alloc)))
}
