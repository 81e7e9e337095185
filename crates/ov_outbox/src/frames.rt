ghost use Rattle.std.specs.Prelude.{◌≡◌, ◌==◌, ◌≢◌, ◌++◌, ◌<◌, ℕ, [], length, false, IfOk, IfNone};
ghost use Rattle.std.specs.Prelude.{OnOk, MatchBool, option_to_list};
ghost use Rattle.ov_specs.specs.machine.History.{joined};
ghost use Rattle.ov_outbox.specs.Frames.{waiting_for, places_for, has_queue, PostsFrame};
ghost use Rattle.ov_outbox.specs.Frames.{HasSameFrames, HasSamePlaces, ClearsSession, KeepsPlace};
ghost use Rattle.ov_outbox.specs.Frames.{GivesUpPlace, GivesUpPlaces};

use crate::queue::Queue;
use ov_base::Bytes;
use std::alloc::{AllocError, Global};
use std::collections::BTreeMap;
use std::marker::Model;

/// The frames that wait for sessions, oldest first for each session, and the places that are kept for more.
#[derive(Drop)]
pub struct FrameQueues {
    queues: BTreeMap<u64, Queue>,
}

impl Model for FrameQueues {
    ghost use Rattle.ov_outbox.specs.Frames.{WaitingFrames};

    ghost Value = { WaitingFrames };

    ghost view = { λ w. w.queues.entries };
}

impl FrameQueues {
    /// Nothing waits, and no place is kept.
    pub fn new(alloc: Global) -> FrameQueues
        ensures { result ≡ [] }
    {
        FrameQueues {
            queues: BTreeMap::new(alloc),
        }
    }

    /// Appends a frame to those of its session, unless an allocation fails. The kept places stay as they are.
    pub fn push(&mut self, alloc: Global, session: u64, frame: Bytes) -> bool
        ensures frames { MatchBool result (PostsFrame session frame self.old self.new)
            (HasSameFrames self.old self.new) }
        ensures places { HasSamePlaces self.old self.new }
    {
        if !self.opens(alloc, session) {
            return false;
        }
        match self.queues.get_mut(&session) {
            Some(queue) => queue.push(frame),
            None => false,
        }
    }

    /// Keeps one more place for the session, unless an allocation fails: `push_kept` or `give_up_place` takes it.
    pub fn keep_place(&mut self, alloc: Global, session: u64) -> bool
        ensures frames { HasSameFrames self.old self.new }
        ensures places { MatchBool result (KeepsPlace session self.old self.new)
            (HasSamePlaces self.old self.new) }
    {
        if !self.opens(alloc, session) {
            return false;
        }
        match self.queues.get_mut(&session) {
            Some(queue) => queue.keep_place(),
            None => false,
        }
    }

    /// Gives the session a queue, even if it stays empty, unless an allocation fails.
    fn opens(&mut self, alloc: Global, session: u64) -> bool
        ensures frames { HasSameFrames self.old self.new }
        ensures places { HasSamePlaces self.old self.new }
    {
        if self.queues.contains_key(&session) {
            return true;
        }
        self.queues.insert(session, Queue::new(alloc)).is_ok()
    }

    /// Gives up one place of the session, if there is one. Allocates nothing.
    pub fn give_up_place(&mut self, session: u64)
        ensures frames { HasSameFrames self.old self.new }
        ensures places { GivesUpPlace session self.old self.new }
    {
        if let Some(queue) = self.queues.get_mut(&session) {
            queue.give_up_place();
        }
    }

    /// Gives up all places of the session. Allocates nothing.
    pub fn give_up_places(&mut self, session: u64)
        ensures frames { HasSameFrames self.old self.new }
        ensures places { GivesUpPlaces session self.old self.new }
    {
        if let Some(queue) = self.queues.get_mut(&session) {
            queue.give_up_places();
        }
    }

    /// Appends a frame to those of its session, in a place that was kept for it. Allocates nothing.
    pub fn push_kept(&mut self, session: u64, frame: Bytes)
        requires { 0 < places_for session self.old }
        ensures frames { PostsFrame session frame self.old self.new }
        ensures places { GivesUpPlace session self.old self.new }
    {
        if let Some(queue) = self.queues.get_mut(&session) {
            queue.push_kept(frame);
        }
    }

    /// Takes out the oldest frame of the session.
    pub fn pop(&mut self, session: u64) -> Option<Bytes>
        ensures session { waiting_for session self.old
            ≡ option_to_list result ++ waiting_for session self.new }
        ensures others { (other : ℕ) → other ≢ session
            → waiting_for other self.new ≡ waiting_for other self.old }
        ensures none { IfNone result (waiting_for session self.old ≡ []) }
        ensures places { HasSamePlaces self.old self.new }
    {
        match self.queues.get_mut(&session) {
            Some(queue) => queue.pop(),
            None => None,
        }
    }

    /// A copy of the session's frames, joined in order.
    pub fn joined_for(&self, alloc: Global, session: u64) -> Result<Bytes, AllocError>
        ensures { IfOk result (λ b. b ≡ joined (waiting_for session self.now)) }
    {
        match self.queues.get(&session) {
            Some(queue) => join(alloc, queue),
            None => Ok(Bytes::from_vec(Vec::new(alloc))),
        }
    }

    /// Whether nothing waits for the session.
    pub fn is_empty(&self, session: u64) -> bool
        ensures { result ≡ (length (waiting_for session self.now) == 0) }
    {
        match self.queues.get(&session) {
            Some(queue) => queue.is_empty(),
            None => true,
        }
    }

    /// Takes out all frames of the session. The kept places stay as they are.
    pub fn clear(&mut self, session: u64)
        ensures frames { ClearsSession session self.old self.new }
        ensures places { HasSamePlaces self.old self.new }
    {
        if let Some(queue) = self.queues.get_mut(&session) {
            queue.clear();
        }
    }

    /// Removes the queue of the session, with its frames and its places. Allocates nothing.
    pub fn drop_queue(&mut self, session: u64)
        ensures frames { ClearsSession session self.old self.new }
        ensures places { GivesUpPlaces session self.old self.new }
        ensures gone { has_queue session self.new ≡ false }
    {
        self.queues.remove(&session);
    }
}

/// A copy of the frames, joined in order.
fn join(alloc: Global, queue: &Queue) -> Result<Bytes, AllocError>
    ensures { IfOk result (λ b. b ≡ joined queue.now.0) }
{
    let mut out = Vec::new(alloc);
    let (older, newer) = queue.as_slices();
    append(&mut out, older)?;
    append(&mut out, newer)?;
    Ok(Bytes::from_vec(out))
}

/// Appends the frames to the bytes.
fn append(out: &mut Vec<u8>, frames: &[Bytes]) -> Result<(), AllocError>
    ensures { OnOk result (out.new.items ≡ out.old.items ++ joined frames.now) }
{
    for frame in frames {
        out.extend_from_slice(frame.as_slice())?;
    }
    Ok(())
}
