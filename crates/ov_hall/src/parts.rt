ghost use Rattle.std.specs.Prelude.{◌≡◌, ◌+◌, ◌<◌, MatchOption};

use std::sync::ledger::{Ledger, Share};

/// How many parts the ledger of notes has. Each worker that notes takes one, and one is left.
pub const SHARES: u64 = u64::MAX;

/// The parts of the ledger of notes that no worker has yet. Each worker that notes takes one and keeps it.
#[derive(Drop)]
pub struct Parts<L: Ledger> {
    share: Share<L>,
    /// How many can be taken.
    pub left: u64,
    ghost enough: { left < share.parts },
}

impl<L: Ledger> Parts<L> {
    /// The parts of the share, of which this many can be taken; at least one stays in it.
    pub fn of(share: Share<L>, left: u64) -> Parts<L>
        requires { left < share.parts }
        ensures { result.left ≡ left }
    {
        Parts { share, left }
    }

    /// Takes one. None if none is left.
    pub fn take(&mut self) -> Option<Share<L>>
        ensures { MatchOption result (self.old.left ≡ 0) (λ share. (share.parts ≡ 1)
            × (share.amount ≡ 0) × (self.old.left ≡ self.new.left + 1)) }
    {
        if self.left == 0 {
            return None;
        }
        self.left -= 1;
        Some(self.share.split_off(1, 0))
    }
}
