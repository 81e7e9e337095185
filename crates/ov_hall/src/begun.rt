ghost use Rattle.std.specs.Prelude.{◌≡◌, true};

use ov_order::Leave;
use std::marker::Model;
use std::sync::ledger::Ledger;

/// The leave of `begin(true)`, with which the desk hands workers what they work on.
#[derive(Drop)]
pub struct Begun<L: Ledger> {
    leave: Leave<L>,
}

impl<L: Ledger> Model for Begun<L> {
    ghost use Rattle.std.specs.Prelude.{Bool, ◌≡◌, true};

    ghost Value = { Bool };

    ghost view = { λ b. b.leave };

    ghost invariant = { λ b. b.leave ≡ true };
}

impl<L: Ledger> Begun<L> {
    /// It has this leave.
    pub fn new(leave: Leave<L>) -> Begun<L>
        requires { leave ≡ true }
    {
        Begun { leave }
    }

    /// That the workers may begin.
    pub fn leave(&self) -> &Leave<L>
        ensures { result.now ≡ true }
    {
        &self.leave
    }
}
