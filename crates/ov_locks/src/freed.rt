ghost use Rattle.std.specs.Prelude.{◌≡◌, ◌<◌, ◌+◌, ◌-◌, ◌++◌, ◌∷◌, [], IfNone, OnOk, OnErr};
ghost use Rattle.std.specs.Prelude.{option_to_list};

use ov_base::Bytes;
use std::alloc::{AllocError, Global};
use std::collections::VecDeque;
use std::marker::Model;

/// The sessions that have become owners because another session ended, each with the frame that notifies it, and places kept
/// for more: one for each request, so that a session can leave without allocating.
#[derive(Drop)]
pub(crate) struct Freed {
    pairs: VecDeque<(u64, Bytes)>,
    places: usize,
}

impl Model for Freed {
    ghost use Rattle.std.specs.Prelude.{◌≤◌, ◌+◌, ℕ, List};
    ghost use Rattle.std.specs.VecDeque.{deque_len, deque_capacity};

    ghost Value = { List (ℕ × List ℕ) × ℕ };

    ghost view = { λ f. (f.pairs.items, f.places) };

    ghost invariant = { λ f. deque_len f.pairs + f.places ≤ deque_capacity f.pairs };
}

impl Freed {
    /// Starts with no sessions and no places.
    pub fn new(alloc: Global) -> Freed
        ensures { result ≡ ([], 0) }
    {
        Freed {
            pairs: VecDeque::new(alloc),
            places: 0,
        }
    }

    /// Keeps one more place.
    pub fn keep_place(&mut self) -> Result<(), AllocError>
        ensures ok { OnOk result (self.new ≡ (self.old.0, self.old.1 + 1)) }
        ensures err { OnErr result (self.new ≡ self.old) }
    {
        self.pairs.reserve(self.places + 1)?;
        self.places += 1;
        Ok(())
    }

    /// Gives up one place.
    pub fn give_up_place(&mut self)
        ensures { self.new ≡ (self.old.0, self.old.1 - 1) }
    {
        self.places = self.places.saturating_sub(1);
    }

    /// Appends one, in a place that was kept.
    pub fn push(&mut self, pair: (u64, Bytes))
        requires { 0 < self.old.1 }
        ensures { self.new ≡ (self.old.0 ++ pair ∷ [], self.old.1 - 1) }
    {
        self.places -= 1;
        self.pairs.push_back_reserved(pair);
    }

    /// Takes out the oldest one.
    pub fn pop(&mut self) -> Option<(u64, Bytes)>
        ensures pairs { self.old.0 ≡ option_to_list result ++ self.new.0 }
        ensures places { self.new.1 ≡ self.old.1 }
        ensures none { IfNone result (self.old.0 ≡ []) }
    {
        self.pairs.pop_front()
    }
}
