ghost use Rattle.std.specs.Prelude.{◌≡◌};

use std::marker::{Model, PhantomData};
use std::sync::ledger::Ledger;

/// What was said to the workers of an order over the ledger `L`: whether they may begin. Contracts see just that.
///
/// Only a call of `begin` makes one, or a call of `wait_begin`, which waits for one of `begin`. So what asks for a leave by
/// which they may begin can be called only once `begin(true)` of such an order was, and what asks for any leave only once
/// `begin` was.
#[derive_where(Clone, Copy)]
pub struct Leave<L: Ledger> {
    may_begin: bool,
    ledger: PhantomData<L>,
}

impl<L: Ledger> Model for Leave<L> {
    ghost use Rattle.std.specs.Prelude.{Bool};

    ghost Value = { Bool };

    ghost view = { λ l. l.may_begin };

    ghost inverse = { λ go. record { may_begin = go; ledger = record {} } };
}

impl<L: Ledger> Leave<L> {
    /// That they may begin, or that they may not.
    pub(crate) fn new(may_begin: bool) -> Leave<L>
        ensures { result ≡ may_begin }
    {
        Leave {
            may_begin,
            ledger: PhantomData,
        }
    }

    /// Whether they may begin.
    pub fn may_begin(&self) -> bool
        ensures { result ≡ self.now }
    {
        self.may_begin
    }
}
