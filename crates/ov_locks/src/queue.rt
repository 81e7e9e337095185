ghost use Rattle.std.specs.Prelude.{◌≡◌, ◌++◌, ◌∷◌, [], IfOk, IfNone, OnOk, OnErr, option_to_list};
ghost use Rattle.ov_specs.specs.locks.Queues.{locked_notification, stolen_notification};
ghost use Rattle.ov_specs.specs.wire.Frame.{frame};
ghost use Rattle.ov_locks.specs.Queued.{without_waiter, owner_after};

use crate::notifications::{locked, stolen};
use ov_base::Bytes;
use std::alloc::{AllocError, Global};
use std::collections::VecDeque;
use std::marker::Model;

/// The queue of one lock: its owner, and the waiters, next owner first. Each waiter has the frame that will notify it that it
/// has become the owner, since giving up a lock allocates nothing.
#[derive(Drop)]
pub(crate) struct Queue {
    owner: u64,
    waiting: VecDeque<(u64, Bytes)>,
}

impl Model for Queue {
    ghost use Rattle.ov_locks.specs.Queued as queued;

    ghost Value = { queued.Queue };

    ghost view = { λ q. (q.owner, q.waiting.items) };
}

impl Queue {
    /// A queue with this owner and no waiters.
    pub fn new(alloc: Global, owner: u64) -> Queue
        ensures { result ≡ (owner, []) }
    {
        Queue {
            owner,
            waiting: VecDeque::new(alloc),
        }
    }

    /// The owner.
    pub fn owner(&self) -> u64
        ensures { result ≡ self.now.0 }
    {
        self.owner
    }

    /// Appends the session to the waiters for the lock of this name.
    pub fn wait(&mut self, alloc: Global, session: u64, name: &str) -> Result<(), AllocError>
        ensures ok { OnOk result (self.new
            ≡ (self.old.0, self.old.1 ++ (session, frame (locked_notification name.now)) ∷ [])) }
        ensures err { OnErr result (self.new ≡ self.old) }
    {
        let frame = locked(alloc, name)?;
        self.waiting.push_back((session, frame))?;
        Ok(())
    }

    /// The session takes the lock of this name from its owner, who then waits before all others. Returns the former owner,
    /// and the frame that notifies it.
    pub fn steal(
        &mut self,
        alloc: Global,
        session: u64,
        name: &str,
    ) -> Result<(u64, Bytes), AllocError>
        ensures told { IfOk result (λ p. p ≡ (self.old.0, frame (stolen_notification name.now))) }
        ensures ok { OnOk result (self.new
            ≡ (session, (self.old.0, frame (locked_notification name.now)) ∷ self.old.1)) }
        ensures err { OnErr result (self.new ≡ self.old) }
    {
        let told = stolen(alloc, name)?;
        let frame = locked(alloc, name)?;
        let former = self.owner;
        self.waiting.push_front((former, frame))?;
        self.owner = session;
        Ok((former, told))
    }

    /// Removes the session from the waiters. Allocates nothing.
    pub fn drop_waiter(&mut self, session: u64)
        ensures { self.new ≡ (self.old.0, without_waiter session self.old.1) }
    {
        self.waiting.retain(|waiter| waiter.0 != session);
    }

    /// Makes the first waiter the owner. Returns it, with the frame that notifies it. Allocates nothing.
    pub fn promote(&mut self) -> Option<(u64, Bytes)>
        ensures waiters { self.old.1 ≡ option_to_list result ++ self.new.1 }
        ensures owner { self.new.0 ≡ owner_after self.old.0 result }
        ensures none { IfNone result (self.old.1 ≡ []) }
    {
        let (next, frame) = self.waiting.pop_front()?;
        self.owner = next;
        Some((next, frame))
    }
}
