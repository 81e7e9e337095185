ghost use Rattle.std.specs.Prelude.{◌≡◌, ◌≤◌, ◌+◌, ◌++◌, ℕ, List, [], ◌∷◌, map, MatchBool};
ghost use Rattle.ov_specs.specs.machine.Machine.{Sent};
ghost use Rattle.ov_outbox.specs.Frames.{places_for, HasSameFrames, PostsFrame, PostsSent, posted};
ghost use Rattle.ov_outbox.specs.Frames.{count_for, PostsAll, TakesPlaces};

use crate::frames::FrameQueues;
use ov_base::Bytes;
use std::alloc::Global;
use std::collections::VecDeque;
use std::marker::Model;

/// Frames that are ready to be sent, in order, each with its session. A call that sends them asks that each session's queue has
/// a place for each of its frames, and allocates nothing.
#[derive(Drop)]
pub struct Prepared {
    frames: VecDeque<(u64, Bytes)>,
}

impl Model for Prepared {
    ghost use Rattle.std.specs.Prelude.{ℕ, List};

    ghost Value = { List (ℕ × List ℕ) };

    ghost view = { λ p. p.frames.items };
}

impl Prepared {
    /// Creates an empty list of frames.
    pub fn new(alloc: Global) -> Prepared
        ensures { result ≡ [] }
    {
        Prepared {
            frames: VecDeque::new(alloc),
        }
    }

    /// Appends a frame, and keeps a place for it, unless an allocation fails.
    pub fn prepare(
        &mut self,
        alloc: Global,
        queues: &mut FrameQueues,
        session: u64,
        frame: Bytes,
    ) -> bool
        ensures prepared { MatchBool result (self.new ≡ self.old ++ (session, frame) ∷ []) (self.new
            ≡ self.old) }
        ensures frames { HasSameFrames queues.old queues.new }
        ensures places { (other base : ℕ) → places_for other queues.old
            ≡ base + count_for other self.old
            → places_for other queues.new ≡ base + count_for other self.new }
    {
        if !queues.keep_place(alloc, session) {
            return false;
        }
        if self.frames.push_back((session, frame)).is_err() {
            queues.give_up_place(session);
            return false;
        }
        true
    }

    /// Sends all frames, in order. Allocates nothing.
    pub fn release(self, queues: &mut FrameQueues)
        requires { (other : ℕ) → count_for other self ≤ places_for other queues.old }
        ensures all { PostsAll self queues.old queues.new }
        ensures posts { (sent : List Sent) → self ≡ map posted sent
            → PostsSent sent queues.old queues.new }
        ensures places { TakesPlaces self queues.old queues.new }
    {
        let mut frames = self.frames;
        while let Some((session, frame)) = frames.pop_front() {
            queues.push_kept(session, frame);
        }
    }

    /// Sends this frame in place of the last one, and gives up the others; sends nothing if there is none. Allocates nothing.
    pub fn release_instead(self, queues: &mut FrameQueues, frame: Bytes)
        requires { (other : ℕ) → count_for other self ≤ places_for other queues.old }
        ensures posts { (front : List (ℕ × List ℕ)) (session : ℕ) (former : List ℕ) → self
            ≡ front ++ (session, former) ∷ []
            → PostsFrame session frame queues.old queues.new }
        ensures none { self ≡ [] → HasSameFrames queues.old queues.new }
        ensures places { TakesPlaces self queues.old queues.new }
    {
        let mut frames = self.frames;
        let Some((session, _)) = frames.pop_back() else {
            return;
        };
        queues.push_kept(session, frame);
        give_up_each(frames, queues);
    }

    /// Sends none of the frames. Allocates nothing.
    pub fn give_up(self, queues: &mut FrameQueues)
        requires { (other : ℕ) → count_for other self ≤ places_for other queues.old }
        ensures frames { HasSameFrames queues.old queues.new }
        ensures places { TakesPlaces self queues.old queues.new }
    {
        give_up_each(self.frames, queues);
    }
}

/// Gives up the places of these frames.
fn give_up_each(mut frames: VecDeque<(u64, Bytes)>, queues: &mut FrameQueues)
    requires { (other : ℕ) → count_for other frames.items ≤ places_for other queues.old }
    ensures frames { HasSameFrames queues.old queues.new }
    ensures places { TakesPlaces frames.items queues.old queues.new }
{
    while let Some((session, _)) = frames.pop_front() {
        queues.give_up_place(session);
    }
}
