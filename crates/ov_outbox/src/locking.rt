ghost use Rattle.std.specs.Prelude.{◌≡◌, ◌<◌, ◌≤◌, ℕ, []};
ghost use Rattle.std.specs.Prelude.{Option, IfOk, IfSome, MatchBool, option_to_list};
ghost use Rattle.serde_json.specs.Data.{object, no_members};
ghost use Rattle.serde_json.specs.View.{view};
ghost use Rattle.ov_specs.specs.locks.Queues.{DoQueuesAscend, Lock, Steal, Unlock, lock_result};
ghost use Rattle.ov_specs.specs.locks.Queues.{owns, leave, told_of_leaving};
ghost use Rattle.ov_specs.specs.machine.Machine.{told};
ghost use Rattle.ov_specs.specs.wire.Frame.{frame, reply_tree};
ghost use Rattle.ov_outbox.specs.Asking.{IsAsked, parts};
ghost use Rattle.ov_outbox.specs.Frames.{places_for, count_for, PostsAll, PostsSent, HasSameFrames};
ghost use Rattle.ov_outbox.specs.Frames.{HasSamePlaces, KeepsTwoFor, GivesUpTwoFor, TakesPlaces};
ghost use Rattle.ov_outbox.specs.Waits.{HasPlaces};

use crate::frames::FrameQueues;
use ov_base::{Bytes, Tree};
use ov_locks::{LockFault, LockTable};
use ov_rpc::reply;
use serde_json::{Value, json};
use std::alloc::{AllocError, Global};

/// Whether the session is the owner of the lock.
pub(crate) fn owns(locks: &LockTable, session: u64, name: &str) -> bool
    ensures { result ≡ owns locks.now.0 session name.now }
{
    match locks.owner(name) {
        Some(owner) => owner == session,
        None => false,
    }
}

/// The session asks for the lock, and the reply says whether it is the owner now. If it is not, it keeps one more place.
pub(crate) fn lock(
    alloc: Global,
    frames: &mut FrameQueues,
    locks: &mut LockTable,
    session: u64,
    id: &Tree,
    name: &str,
) -> Result<(), LockFault>
    requires order { DoQueuesAscend locks.old.0 }
    requires room { HasPlaces frames.old locks.old.0 }
    ensures asked { IsAsked
        (record { call = Lock; session = session; id = id.now; name = name.now })
        (parts frames.old locks.old.0) result (parts frames.new locks.new.0) }
    ensures room { HasPlaces frames.new locks.new.0 }
    ensures freed { locks.new.1 ≡ locks.old.1 }
{
    let is_first = locks.owner(name).is_none();
    let reply = owner_reply(alloc, id, is_first)?;
    if !keep_two_for(alloc, frames, Some(session)) {
        return Err(LockFault::Memory);
    }
    match locks.lock(alloc, session, name) {
        Ok(_) => {
            frames.push_kept(session, reply);
            if is_first {
                frames.give_up_place(session);
            }
            Ok(())
        }
        Err(fault) => {
            give_up_two_for(frames, Some(session));
            Err(fault)
        }
    }
}

/// The session takes the lock. The former owner is notified, and keeps one more place.
pub(crate) fn steal(
    alloc: Global,
    frames: &mut FrameQueues,
    locks: &mut LockTable,
    session: u64,
    id: &Tree,
    name: &str,
) -> Result<(), LockFault>
    requires order { DoQueuesAscend locks.old.0 }
    requires room { HasPlaces frames.old locks.old.0 }
    ensures asked { IsAsked
        (record { call = Steal; session = session; id = id.now; name = name.now })
        (parts frames.old locks.old.0) result (parts frames.new locks.new.0) }
    ensures room { HasPlaces frames.new locks.new.0 }
    ensures freed { locks.new.1 ≡ locks.old.1 }
{
    let former = locks.owner(name);
    let reply = owner_reply(alloc, id, true)?;
    if !frames.keep_place(alloc, session) {
        return Err(LockFault::Memory);
    }
    if !keep_two_for(alloc, frames, former) {
        frames.give_up_place(session);
        return Err(LockFault::Memory);
    }
    match locks.steal(alloc, session, name) {
        Ok(told) => {
            frames.push_kept(session, reply);
            tell(frames, told);
            Ok(())
        }
        Err(fault) => {
            give_up_two_for(frames, former);
            frames.give_up_place(session);
            Err(fault)
        }
    }
}

/// The session gives up the lock, or stops waiting for it, and then keeps one place less. The new owner is notified, if there
/// is one.
pub(crate) fn unlock(
    alloc: Global,
    frames: &mut FrameQueues,
    locks: &mut LockTable,
    session: u64,
    id: &Tree,
    name: &str,
) -> Result<(), LockFault>
    requires order { DoQueuesAscend locks.old.0 }
    requires room { HasPlaces frames.old locks.old.0 }
    ensures asked { IsAsked
        (record { call = Unlock; session = session; id = id.now; name = name.now })
        (parts frames.old locks.old.0) result (parts frames.new locks.new.0) }
    ensures room { HasPlaces frames.new locks.new.0 }
    ensures freed { locks.new.1 ≡ locks.old.1 }
{
    let was_owner = owns(locks, session, name);
    let reply = empty_reply(alloc, id)?;
    if !frames.keep_place(alloc, session) {
        return Err(LockFault::Memory);
    }
    match locks.unlock(session, name) {
        Ok(next) => {
            frames.push_kept(session, reply);
            tell(frames, next);
            if !was_owner {
                frames.give_up_place(session);
            }
            Ok(())
        }
        Err(fault) => {
            frames.give_up_place(session);
            Err(fault)
        }
    }
}

/// The session leaves all queues, and the new owners are notified. Allocates nothing.
pub(crate) fn leave(frames: &mut FrameQueues, locks: &mut LockTable, session: u64)
    requires freed { locks.old.1 ≡ [] }
    requires room { HasPlaces frames.old locks.old.0 }
    ensures queues { locks.new.0 ≡ leave session locks.old.0 }
    ensures posts { PostsSent (told (told_of_leaving session locks.old.0)) frames.old frames.new }
    ensures freed { locks.new.1 ≡ [] }
    ensures room { HasPlaces frames.new locks.new.0 }
{
    locks.shows_order();
    locks.leave_all(session);
    tell_freed(frames, locks);
    frames.give_up_places(session);
}

/// Notifies the sessions that have become owners, in places that are kept for that. Allocates nothing.
fn tell_freed(frames: &mut FrameQueues, locks: &mut LockTable)
    requires { (other : ℕ) → count_for other locks.old.1 ≤ places_for other frames.old }
    ensures posts { PostsAll locks.old.1 frames.old frames.new }
    ensures places { TakesPlaces locks.old.1 frames.old frames.new }
    ensures queues { locks.new.0 ≡ locks.old.0 }
    ensures freed { locks.new.1 ≡ [] }
{
    while let Some((next, frame)) = locks.next_freed() {
        frames.push_kept(next, frame);
    }
}

/// Sends the frame, if there is one, in a place that is kept for it. Allocates nothing.
fn tell(frames: &mut FrameQueues, notification: Option<(u64, Bytes)>)
    requires { IfSome notification (λ p. 0 < places_for p.0 frames.old) }
    ensures posts { PostsAll (option_to_list notification) frames.old frames.new }
    ensures places { TakesPlaces (option_to_list notification) frames.old frames.new }
{
    if let Some((session, frame)) = notification {
        frames.push_kept(session, frame);
    }
}

/// Keeps two places for the session, if there is one; keeps none if an allocation fails.
fn keep_two_for(alloc: Global, frames: &mut FrameQueues, session: Option<u64>) -> bool
    ensures frames { HasSameFrames frames.old frames.new }
    ensures places { MatchBool result (KeepsTwoFor session frames.old frames.new)
        (HasSamePlaces frames.old frames.new) }
{
    let Some(session) = session else {
        return true;
    };
    if !frames.keep_place(alloc, session) {
        return false;
    }
    if !frames.keep_place(alloc, session) {
        frames.give_up_place(session);
        return false;
    }
    true
}

/// Gives up two places of the session, if there is one.
fn give_up_two_for(frames: &mut FrameQueues, session: Option<u64>)
    ensures frames { HasSameFrames frames.old frames.new }
    ensures places { GivesUpTwoFor session frames.old frames.new }
{
    if let Some(session) = session {
        frames.give_up_place(session);
        frames.give_up_place(session);
    }
}

/// The reply to a call that asks for a lock: whether its session is the owner now (RFC 7047, 4.1.8).
fn owner_reply(alloc: Global, id: &Tree, is_owner: bool) -> Result<Bytes, AllocError>
    ensures { IfOk result (λ b. b ≡ frame (reply_tree id.now (lock_result is_owner))) }
{
    let outcome = Tree::new(owner_value(alloc, is_owner)?);
    reply(alloc, id.copy()?, outcome)
}

fn owner_value(alloc: Global, is_owner: bool) -> Result<Value, AllocError>
    ensures { IfOk result (λ v. view v ≡ lock_result is_owner) }
{
    json!(in alloc; {"locked": is_owner})
}

/// The reply to a call that gives up a lock, which is an empty object (RFC 7047, 4.1.8).
fn empty_reply(alloc: Global, id: &Tree) -> Result<Bytes, AllocError>
    ensures { IfOk result (λ b. b ≡ frame (reply_tree id.now (object no_members))) }
{
    let outcome = Tree::new(empty_value(alloc)?);
    reply(alloc, id.copy()?, outcome)
}

fn empty_value(alloc: Global) -> Result<Value, AllocError>
    ensures { IfOk result (λ v. view v ≡ object no_members) }
{
    json!(in alloc; {})
}
