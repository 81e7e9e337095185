ghost use Rattle.std.specs.Prelude.{◌≡◌, ◌==◌, ◌+◌, ◌-◌, ◌<◌, ◌++◌, [], ◌∷◌, length, IfNone};
ghost use Rattle.std.specs.Prelude.{option_to_list, if◌then◌else◌};

use ov_base::Bytes;
use std::alloc::Global;
use std::collections::VecDeque;
use std::marker::Model;

/// The frames that wait for one session, oldest first, and places kept for more: putting a frame in one allocates nothing.
#[derive(Drop)]
pub(crate) struct Queue {
    frames: VecDeque<Bytes>,
    places: usize,
}

impl Model for Queue {
    ghost use Rattle.std.specs.Prelude.{◌≤◌, ◌+◌, ℕ, List};
    ghost use Rattle.std.specs.VecDeque.{deque_len, deque_capacity};

    ghost Value = { List (List ℕ) × ℕ };

    ghost view = { λ q. (q.frames.items, q.places) };

    ghost invariant = { λ q. deque_len q.frames + q.places ≤ deque_capacity q.frames };
}

impl Queue {
    /// No frame waits, and no place is kept.
    pub fn new(alloc: Global) -> Queue
        ensures { result ≡ ([], 0) }
    {
        Queue {
            frames: VecDeque::new(alloc),
            places: 0,
        }
    }

    /// Appends a frame, unless an allocation fails.
    pub fn push(&mut self, frame: Bytes) -> bool
        ensures { self.new ≡ (if result then (self.old.0 ++ frame ∷ [], self.old.1) else self.old) }
    {
        let wanted = self.places + 1;
        if self.frames.reserve(wanted).is_err() {
            return false;
        }
        self.frames.push_back_reserved(frame);
        true
    }

    /// Keeps one more place, unless an allocation fails.
    pub fn keep_place(&mut self) -> bool
        ensures { self.new ≡ (if result then (self.old.0, self.old.1 + 1) else self.old) }
    {
        let places = self.places + 1;
        if self.frames.reserve(places).is_err() {
            return false;
        }
        self.places = places;
        true
    }

    /// Gives up one place.
    pub fn give_up_place(&mut self)
        ensures { self.new ≡ (self.old.0, self.old.1 - 1) }
    {
        self.places = self.places.saturating_sub(1);
    }

    /// Gives up all places.
    pub fn give_up_places(&mut self)
        ensures { self.new ≡ (self.old.0, 0) }
    {
        self.places = 0;
    }

    /// Appends a frame, in a place that was kept. Allocates nothing.
    pub fn push_kept(&mut self, frame: Bytes)
        requires { 0 < self.old.1 }
        ensures { self.new ≡ (self.old.0 ++ frame ∷ [], self.old.1 - 1) }
    {
        self.places -= 1;
        self.frames.push_back_reserved(frame);
    }

    /// Takes out the oldest frame.
    pub fn pop(&mut self) -> Option<Bytes>
        ensures frames { self.old.0 ≡ option_to_list result ++ self.new.0 }
        ensures places { self.new.1 ≡ self.old.1 }
        ensures none { IfNone result (self.old.0 ≡ []) }
    {
        self.frames.pop_front()
    }

    /// Takes out all frames.
    pub fn clear(&mut self)
        ensures { self.new ≡ ([], self.old.1) }
    {
        self.frames.clear();
    }

    /// Whether no frame waits.
    pub fn is_empty(&self) -> bool
        ensures { result ≡ (length self.now.0 == 0) }
    {
        self.frames.is_empty()
    }

    /// The frames, in two slices: the older ones, and those after them.
    pub fn as_slices(&self) -> (&[Bytes], &[Bytes])
        ensures { result.0.now ++ result.1.now ≡ self.now.0 }
    {
        self.frames.as_slices()
    }
}
