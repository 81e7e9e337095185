ghost use Rattle.std.specs.Prelude.{◌≡◌, ◌+◌, ◌<◌, ◌↔◌, [], None, IsTrue, ◌∷◌, ◌++◌, IfOk, IfNone};
ghost use Rattle.std.specs.Prelude.{IfSome, MatchBool, MatchOption};
ghost use Rattle.ov_order.specs.OrderBook.{noted, HasRoom, Notes, Takes, Says};

use crate::leave::Leave;
use crate::noter::Noter;
use crate::taken::Taken;
use std::alloc::{AllocError, Global};
use std::collections::VecDeque;
use std::marker::Model;
use std::sync::ledger::{Book, Ledger, Share};

/// How many notes may wait: one for each of 64 items in 65 rings, those of 64 sessions and one of accepted connections.
const NOTE_LIMIT: usize = 4_160;

/// The notes of the workers, the oldest first, and whether the workers may begin. Contracts see the notes that wait, how
/// many were taken, and whether the workers may begin, once that is decided.
///
/// The number noted is the number taken plus the number waiting. It is also the total of the ledger `L`: each worker that
/// notes holds a share of it, so all shares together add up to the number noted.
#[derive(Drop)]
pub struct OrderBook<L: Ledger> {
    waiting: VecDeque<u64>,
    taken: u64,
    noted: u64,
    begun: Option<bool>,
    ledger: Book<L>,
}

impl<L: Ledger> Model for OrderBook<L> {
    ghost use Rattle.std.specs.Prelude.{◌≡◌, ◌+◌, ◌≤◌, length};
    ghost use Rattle.std.specs.VecDeque.{deque_capacity};
    ghost use Rattle.ov_order.specs.OrderBook as book;
    ghost use Rattle.ov_order.specs.OrderBook.{note_limit};

    ghost Value = { book.OrderBook };

    ghost view = { λ b. record { waiting = b.waiting.items; taken = b.taken; begun = b.begun } };

    ghost invariant = { λ b. (b.noted ≡ b.taken + length b.waiting.items)
        × (b.noted ≡ b.ledger.total)
        × (note_limit ≤ deque_capacity b.waiting) };
}

impl<L: Ledger> OrderBook<L> {
    /// A book with nothing noted, and not yet decided whether the workers may begin. Allocates the room for all notes that may
    /// wait.
    pub fn new(alloc: Global, ledger: Book<L>) -> Result<OrderBook<L>, AllocError>
        requires { ledger.total ≡ 0 }
        ensures { IfOk result (λ b. b ≡ record { waiting = []; taken = 0; begun = None }) }
    {
        let waiting = VecDeque::with_capacity(alloc, NOTE_LIMIT)?;
        Ok(OrderBook {
            waiting,
            taken: 0,
            noted: 0,
            begun: None,
            ledger,
        })
    }

    /// Notes the noter's serial, after all that wait. Refused if 4,160 notes wait or 2^64-1 serials were noted.
    pub fn note(&mut self, noter: &mut Noter<L>) -> bool
        ensures room { IsTrue result ↔ HasRoom self.old }
        ensures book { MatchBool result (Notes noter.old.serial self.old self.new) (self.new
            ≡ self.old) }
        ensures amount { MatchBool result (noter.new.share.amount
            ≡ noter.old.share.amount + 1) (noter.new.share.amount ≡ noter.old.share.amount) }
        ensures noter { (noter.new.serial ≡ noter.old.serial)
            × (noter.new.share.parts ≡ noter.old.share.parts) }
    {
        if self.waiting.len() >= NOTE_LIMIT || self.noted == u64::MAX {
            return false;
        }
        self.waiting.push_back_reserved(noter.serial);
        self.noted += 1;
        self.ledger.add(&mut noter.share, 1);
        true
    }

    /// Takes the oldest note, and adds it to the serials taken.
    pub fn next(&mut self, taken: &mut Taken) -> Option<u64>
        ensures some { IfSome result (λ serial. Takes serial self.old self.new) }
        ensures none { IfNone result ((self.old.waiting ≡ []) × (self.new ≡ self.old)) }
        ensures taken { MatchOption result (taken.new.serials ≡ taken.old.serials)
            (λ serial. taken.new.serials ≡ taken.old.serials ++ serial ∷ []) }
    {
        let serial = self.waiting.pop_front()?;
        self.taken += 1;
        taken.add(&[serial]);
        Some(serial)
    }

    /// Whether no note waits.
    pub(crate) fn is_empty(&self) -> bool
        ensures { IsTrue result ↔ (self.now.waiting ≡ []) }
    {
        self.waiting.is_empty()
    }

    /// How many serials were noted. `all` is the share that all workers' shares were merged into.
    pub fn noted(&mut self, all: &mut Share<L>) -> u64
        requires { all.old.parts ≡ L.parts }
        ensures noted { result ≡ noted self.old }
        ensures amount { result ≡ all.old.amount }
        ensures book { self.new ≡ self.old }
        ensures share { (all.new.amount ≡ all.old.amount) × (all.new.parts ≡ all.old.parts) }
    {
        self.ledger.audit(all);
        self.noted
    }

    /// Says whether the workers may begin, and returns that.
    pub fn begin(&mut self, go: bool) -> Leave<L>
        ensures says { Says go self.old self.new }
        ensures leave { result ≡ go }
    {
        self.begun = Some(go);
        Leave::new(go)
    }

    /// Whether the workers may begin, if that was said.
    pub fn begun(&self) -> Option<bool>
        ensures { result ≡ self.now.begun }
    {
        self.begun
    }
}
