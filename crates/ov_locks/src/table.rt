ghost use Rattle.std.specs.Prelude.{◌≡◌, ◌==◌, ◌+◌, ◌-◌, ◌<◌, ◌≤◌, ◌++◌, ℕ, [], length, not};
ghost use Rattle.std.specs.Prelude.{is_some, true, option_map, option_to_list};
ghost use Rattle.std.specs.Prelude.{if◌then◌else◌, Ok, Err, IfOk, IfNone, OnOk, OnErr};
ghost use Rattle.std.specs.BTreeMap.{is_at};
ghost use Rattle.std.specs.BTreeSet.{insert_key};
ghost use Rattle.std.specs.List.{list_any};
ghost use Rattle.std.specs.Set.{remove_key};
ghost use Rattle.ov_specs.specs.locks.Queues.{owner, has_requested, lock, steal, unlock};
ghost use Rattle.ov_specs.specs.locks.Queues.{next_owner, unlock_all, freed_all, leave, freed};
ghost use Rattle.ov_specs.specs.locks.Queues.{stolen_notification, requests_of, DoQueuesAscend};
ghost use Rattle.ov_specs.specs.schema.SchemaTypes.{name_cmp};
ghost use Rattle.ov_specs.specs.wire.Frame.{frame};
ghost use Rattle.ov_locks.specs.Freeing.{owner_notified, owners_notified};
ghost use Rattle.ov_locks.specs.Held.{names_asked, names_of_set, requests_in};
ghost use Rattle.ov_locks.specs.Refusing.{refusal_for, request_refusal, RefusesFor};

use crate::fault::LockFault;
use crate::freed::Freed;
use crate::held::Held;
use crate::queues::Queues;
use ov_base::Bytes;
use std::alloc::Global;
use std::collections::BTreeSet;
use std::marker::Model;

/// The most locks that a session may ask for.
const LOCK_LIMIT: usize = 256;

/// Who owns each lock and who waits for it. Contracts see the queues, and the sessions that have become owners because
/// another session ended and that are still to be notified, each with its frame, oldest first.
///
/// A lock is named by an `<id>` (RFC 7047, 4.1.8), which the caller has checked.
#[derive(Drop)]
pub struct LockTable {
    queues: Queues,
    held: Held,
    freed: Freed,
}

impl Model for LockTable {
    ghost use Rattle.std.specs.Prelude.{◌≡◌, ℕ, List};
    ghost use Rattle.ov_specs.specs.locks.Queues as locks;
    ghost use Rattle.ov_specs.specs.locks.Queues.{names_of};
    ghost use Rattle.ov_specs.proofs.laws.LockQueues.{DoQueuesAscend};
    ghost use Rattle.ov_locks.specs.Held.{names_asked, requests_in};

    ghost Value = { locks.Queues × List (ℕ × List ℕ) };

    ghost view = { λ t. (t.queues, t.freed.0) };

    ghost invariant = { λ t. DoQueuesAscend t.queues
        × ((session : ℕ) → names_asked session t.held ≡ names_of session t.queues)
        × (t.freed.1 ≡ requests_in t.held) };
}

impl LockTable {
    /// No session has asked for a lock.
    pub fn new(alloc: Global) -> LockTable
        ensures { result ≡ ([], []) }
    {
        LockTable {
            queues: Queues::new(alloc),
            held: Held::new(alloc),
            freed: Freed::new(alloc),
        }
    }

    /// The owner of the lock.
    pub fn owner(&self, name: &str) -> Option<u64>
        ensures { result ≡ owner name.now self.now.0 }
    {
        self.queues.owner(name)
    }

    /// How many locks the session has asked for, as owner or as waiter.
    pub fn requests(&self, session: u64) -> usize
        ensures { result ≡ requests_of session self.now.0 }
    {
        self.held.count(session)
    }

    /// States that the queues ascend by the names of their locks, an invariant of every table. Does nothing.
    pub fn shows_order(&self)
        ensures { DoQueuesAscend self.now.0 }
    {
        let _ = &self.queues;
    }

    /// The session asks for the lock, and goes to the back of its queue. Returns whether it is the owner now (RFC 7047, 4.1.8).
    pub fn lock(&mut self, alloc: Global, session: u64, name: &str) -> Result<bool, LockFault>
        ensures refused { RefusesFor (request_refusal name.now session self.old.0) result }
        ensures first { IfOk result (λ first. first ≡ not (is_some (owner name.now self.old.0))) }
        ensures ok { OnOk result (self.new ≡ (lock name.now session self.old.0, self.old.1)) }
        ensures err { OnErr result (self.new ≡ self.old) }
    {
        request(&mut self.held, &mut self.freed, alloc, session, name)?;
        match self.queues.lock(alloc, session, name) {
            Ok(is_first) => Ok(is_first),
            Err(_) => {
                take_back(&mut self.held, &mut self.freed, session, name);
                Err(LockFault::Memory)
            }
        }
    }

    /// The session takes the lock, and goes to the front of its queue. Returns the former owner, if there is one, and the
    /// frame that notifies it; it now stands after the session (RFC 7047, 4.1.8, which does not set its place).
    pub fn steal(
        &mut self,
        alloc: Global,
        session: u64,
        name: &str,
    ) -> Result<Option<(u64, Bytes)>, LockFault>
        ensures refused { RefusesFor (request_refusal name.now session self.old.0) result }
        ensures told { IfOk result (λ told. told
            ≡ option_map (λ s. (s, frame (stolen_notification name.now)))
            (owner name.now self.old.0)) }
        ensures ok { OnOk result (self.new ≡ (steal name.now session self.old.0, self.old.1)) }
        ensures err { OnErr result (self.new ≡ self.old) }
    {
        request(&mut self.held, &mut self.freed, alloc, session, name)?;
        match self.queues.steal(alloc, session, name) {
            Ok(told) => Ok(told),
            Err(_) => {
                take_back(&mut self.held, &mut self.freed, session, name);
                Err(LockFault::Memory)
            }
        }
    }

    /// The session gives up the lock, or stops waiting for it. Returns the next owner, if the session was the owner and another
    /// waits, and the frame that notifies it (RFC 7047, 4.1.8 and 4.1.9). Allocates nothing, and is refused only as `NotHeld`.
    pub fn unlock(&mut self, session: u64, name: &str) -> Result<Option<(u64, Bytes)>, LockFault>
        ensures answer { result
            ≡ (if has_requested session name.now self.old.0 then Ok
            (owner_notified name.now (next_owner name.now session self.old.0)) else Err
            LockFault.NotHeld) }
        ensures ok { OnOk result (self.new ≡ (unlock name.now session self.old.0, self.old.1)) }
        ensures err { OnErr result (self.new ≡ self.old) }
    {
        if !self.held.has(session, name) {
            return Err(LockFault::NotHeld);
        }
        take_back(&mut self.held, &mut self.freed, session, name);
        Ok(self.queues.unlock(session, name))
    }

    /// The session gives up all locks, and stops waiting for any, as when it is closed. The new owners are kept for
    /// `next_freed`, in ascending order of the locks' names, after earlier ones. Allocates nothing.
    pub fn leave_all(&mut self, session: u64)
        ensures { self.new
            ≡ (leave session self.old.0, self.old.1 ++ owners_notified (freed session self.old.0)) }
    {
        if let Some(names) = self.held.take(session) {
            leave_each(&mut self.queues, &mut self.freed, session, names);
        }
    }

    /// Takes out the oldest of the sessions that have become owners because another session ended and have not been notified
    /// yet, with the frame that notifies it (RFC 7047, 4.1.9). Allocates nothing.
    pub fn next_freed(&mut self) -> Option<(u64, Bytes)>
        ensures queues { self.new.0 ≡ self.old.0 }
        ensures freed { self.old.1 ≡ option_to_list result ++ self.new.1 }
        ensures none { IfNone result (self.old.1 ≡ []) }
    {
        self.freed.pop()
    }
}

/// Notes that the session asks for the lock, and keeps a place for its notification, unless it asked before or has asked for
/// too many. If it is refused, nothing changes.
fn request(
    held: &mut Held,
    freed: &mut Freed,
    alloc: Global,
    session: u64,
    name: &str,
) -> Result<(), LockFault>
    ensures refused { RefusesFor
        (refusal_for (list_any (is_at (name_cmp name.now)) (names_asked session held.old))
        (length (names_asked session held.old)))
        result }
    ensures names { OnOk result ((other : ℕ) → names_asked other held.new
        ≡ (if other == session then insert_key name_cmp (names_asked other held.old) name.now else
        names_asked other held.old)) }
    ensures places { OnOk result ((requests_in held.new ≡ requests_in held.old + 1)
        × (freed.new ≡ (freed.old.0, freed.old.1 + 1))) }
    ensures err { OnErr result ((held.new ≡ held.old) × (freed.new ≡ freed.old)) }
{
    if held.has(session, name) {
        return Err(LockFault::AlreadyRequested);
    }
    if held.count(session) >= LOCK_LIMIT {
        return Err(LockFault::Limit);
    }
    freed.keep_place()?;
    if held.add(alloc, session, name).is_err() {
        freed.give_up_place();
        return Err(LockFault::Memory);
    }
    Ok(())
}

/// Notes that the session stops asking for the lock.
fn take_back(held: &mut Held, freed: &mut Freed, session: u64, name: &str)
    ensures names { (other : ℕ) → names_asked other held.new
        ≡ (if other == session then remove_key (is_at (name_cmp name.now))
        (names_asked other held.old) else names_asked other held.old) }
    ensures requests { list_any (is_at (name_cmp name.now)) (names_asked session held.old) ≡ true
        → requests_in held.new + 1 ≡ requests_in held.old }
    ensures places { freed.new ≡ (freed.old.0, freed.old.1 - 1) }
{
    held.remove(session, name);
    freed.give_up_place();
}

/// The session leaves the queues of these locks; a place is kept for each of them.
fn leave_each(queues: &mut Queues, freed: &mut Freed, session: u64, names: BTreeSet<String>)
    requires { length (names_of_set names) ≤ freed.old.1 }
    ensures queues { queues.new ≡ unlock_all session (names_of_set names) queues.old }
    ensures freed { freed.new.0
        ≡ freed.old.0 ++ owners_notified (freed_all session (names_of_set names) queues.old) }
    ensures places { freed.new.1 + length (names_of_set names) ≡ freed.old.1 }
{
    for name in names {
        leave_one(queues, freed, session, name.as_str());
    }
}

/// The session leaves the queue of this lock, and gives up one of the kept places.
fn leave_one(queues: &mut Queues, freed: &mut Freed, session: u64, name: &str)
    requires { 0 < freed.old.1 }
    ensures queues { queues.new ≡ unlock name.now session queues.old }
    ensures freed { freed.new.0
        ≡ freed.old.0
        ++ option_to_list (owner_notified name.now (next_owner name.now session queues.old)) }
    ensures places { freed.new.1 + 1 ≡ freed.old.1 }
{
    match queues.unlock(session, name) {
        Some(pair) => freed.push(pair),
        None => freed.give_up_place(),
    }
}
