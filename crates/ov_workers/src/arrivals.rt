ghost use Rattle.std.specs.Prelude.{◌≡◌, ◌++◌, ◌∷◌, [], true, MatchOption};
ghost use Rattle.rtrb.specs.Ring.{received, SameConsumer};
ghost use Rattle.ov_workers.specs.Accepting.{links_in, may_come};

use crate::accept::Accepted;
use crate::link::Link;
use ov_order::Brought;
use rtrb::Consumer;
use std::sync::Wait;
use std::thread;

/// The desk's side of the accepting worker: what that brings.
#[derive(Drop)]
pub struct Arrivals<S, W> {
    /// The ring into which the worker puts the links of connections.
    pub ring: Consumer<Accepted<S, W>>,
    /// Whether it was taken that there are no more.
    pub ended: bool,
}

impl<S: Drop, W: Drop> Arrivals<S, W> {
    /// Takes the next link, once the worker has brought it. None if it brought that there are no more. Waits forever if it
    /// brings nothing.
    ///
    /// It polls, yielding after each look, so call it only for a note of the worker.
    pub fn take<R: Wait>(&mut self, rt: &R) -> Option<Link<S, W>>
        ensures ring { SameConsumer self.old.ring self.new.ring }
        ensures taken { MatchOption result
            (links_in (received self.new.ring) ≡ links_in (received self.old.ring))
            (λ link. links_in (received self.new.ring)
            ≡ links_in (received self.old.ring) ++ link ∷ []) }
        ensures ended { MatchOption result (self.new.ended ≡ true)
            (λ _. self.new.ended ≡ self.old.ended) }
    {
        for _ in rt.forever() {
            match self.ring.pop() {
                Ok(Brought::Message(link)) => return Some(link),
                Ok(Brought::End(())) => {
                    self.ended = true;
                    return None;
                }
                Err(_) => thread::yield_now(),
            }
        }
        unreachable!()
    }
}

/// Whether there is an accepting worker that may bring more links.
pub fn may_come<S: Drop, W: Drop>(accepted: &Option<Arrivals<S, W>>) -> bool
    ensures { result ≡ may_come accepted.now }
{
    match accepted {
        Some(arrivals) => !arrivals.ended,
        None => false,
    }
}
