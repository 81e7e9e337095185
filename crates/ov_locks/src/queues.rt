ghost use Rattle.std.specs.Prelude.{◌≡◌, ℕ, List, [], not, is_some, option_map, if◌then◌else◌};
ghost use Rattle.std.specs.Prelude.{IfOk, OnOk, OnErr};
ghost use Rattle.ov_specs.specs.locks.Queues.{owner, next_in, next_owner, lock, steal, unlock};
ghost use Rattle.ov_specs.specs.locks.Queues.{with_queue, without, stolen_notification};
ghost use Rattle.ov_specs.specs.wire.Frame.{frame};
ghost use Rattle.ov_locks.specs.Freeing.{owner_notified};
ghost use Rattle.ov_locks.specs.Queued.{sessions_of, AreToldOf};

use crate::queue::Queue;
use ov_base::Bytes;
use std::alloc::{AllocError, Global};
use std::collections::BTreeMap;
use std::marker::Model;

/// The queues of all locks that any session has asked for, by the locks' names.
#[derive(Drop)]
pub(crate) struct Queues {
    of: BTreeMap<String, Queue>,
}

impl Model for Queues {
    ghost use Rattle.ov_specs.specs.locks.Queues as locks;
    ghost use Rattle.ov_locks.specs.Queued.{queues_of, AllAreTold};

    ghost Value = { locks.Queues };

    ghost view = { λ q. queues_of q.of.entries };

    ghost invariant = { λ q. AllAreTold q.of.entries };
}

impl Queues {
    /// No session has asked for a lock.
    pub fn new(alloc: Global) -> Queues
        ensures { result ≡ [] }
    {
        Queues {
            of: BTreeMap::new(alloc),
        }
    }

    /// The owner of the lock.
    pub fn owner(&self, name: &str) -> Option<u64>
        ensures { result ≡ owner name.now self.now }
    {
        match self.of.get(name) {
            Some(queue) => Some(queue.owner()),
            None => None,
        }
    }

    /// The session asks for the lock. Returns whether it is the owner now.
    pub fn lock(&mut self, alloc: Global, session: u64, name: &str) -> Result<bool, AllocError>
        ensures first { IfOk result (λ first. first ≡ not (is_some (owner name.now self.old))) }
        ensures ok { OnOk result (self.new ≡ lock name.now session self.old) }
        ensures err { OnErr result (self.new ≡ self.old) }
    {
        match self.of.get_mut(name) {
            Some(queue) => {
                queue.wait(alloc, session, name)?;
                Ok(false)
            }
            None => {
                let name = String::from_str(alloc, name)?;
                self.of.insert(name, Queue::new(alloc, session))?;
                Ok(true)
            }
        }
    }

    /// The session takes the lock. Returns the former owner, if there is one, and the frame that notifies it.
    pub fn steal(
        &mut self,
        alloc: Global,
        session: u64,
        name: &str,
    ) -> Result<Option<(u64, Bytes)>, AllocError>
        ensures told { IfOk result (λ told. told
            ≡ option_map (λ s. (s, frame (stolen_notification name.now)))
            (owner name.now self.old)) }
        ensures ok { OnOk result (self.new ≡ steal name.now session self.old) }
        ensures err { OnErr result (self.new ≡ self.old) }
    {
        match self.of.get_mut(name) {
            Some(queue) => {
                let told = queue.steal(alloc, session, name)?;
                Ok(Some(told))
            }
            None => {
                let name = String::from_str(alloc, name)?;
                self.of.insert(name, Queue::new(alloc, session))?;
                Ok(None)
            }
        }
    }

    /// The session leaves the queue of the lock. Returns the next owner, if the session was the owner and another waits, and
    /// the frame that notifies it. Allocates nothing.
    pub fn unlock(&mut self, session: u64, name: &str) -> Option<(u64, Bytes)>
        ensures told { result ≡ owner_notified name.now (next_owner name.now session self.old) }
        ensures queues { self.new ≡ unlock name.now session self.old }
    {
        let (next, is_last) = self.leave(session, name);
        if is_last {
            self.of.remove(name);
        }
        next
    }

    /// Like `unlock`, but does not remove the queue if nobody else is in it, and returns whether that is so.
    fn leave(&mut self, session: u64, name: &str) -> (Option<(u64, Bytes)>, bool)
        ensures told { result.0 ≡ owner_notified name.now (next_owner name.now session self.old) }
        ensures queues { (if result.1 then with_queue name.now [] self.new else self.new)
            ≡ unlock name.now session self.old }
    {
        match self.of.get_mut(name) {
            Some(queue) => leave_queue(queue, session),
            None => (None, true),
        }
    }
}

/// The session leaves the queue. Returns the next owner, if there is a new one, with the frame that notifies it; and whether
/// nobody is left, so that the queue has to be removed.
fn leave_queue(queue: &mut Queue, session: u64) -> (Option<(u64, Bytes)>, bool)
    ensures left { (if result.1 then [] else sessions_of queue.new)
        ≡ without session (sessions_of queue.old) }
    ensures told { (name : List ℕ) → AreToldOf name queue.old.1
        → AreToldOf name queue.new.1
        × (result.0 ≡ owner_notified name (next_in session (sessions_of queue.old))) }
{
    queue.drop_waiter(session);
    if queue.owner() != session {
        return (None, false);
    }
    let next = queue.promote();
    let is_last = next.is_none();
    (next, is_last)
}
