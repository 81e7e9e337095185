ghost use Rattle.std.specs.Prelude.{◌≡◌, ◌<◌};

use std::sync::ledger::{Ledger, Share};

/// Who notes: a serial, and a share of the ledger of notes. The share grows by one with each note.
#[derive(Drop)]
pub struct Noter<L: Ledger> {
    /// The serial that is noted.
    pub serial: u64,
    /// The share that counts its notes.
    pub share: Share<L>,
    ghost part: { 0 < share.parts },
}

impl<L: Ledger> Noter<L> {
    /// Notes this serial, and counts its notes in this share.
    pub fn new(serial: u64, share: Share<L>) -> Noter<L>
        requires { 0 < share.parts }
        ensures { (result.serial ≡ serial) × (result.share ≡ share) }
    {
        Noter { serial, share }
    }

    /// The share, once nothing is to be noted any more.
    pub fn into_share(self) -> Share<L>
        ensures { result ≡ self.share }
    {
        self.share
    }
}
