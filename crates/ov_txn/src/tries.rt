ghost use Rattle.std.specs.Prelude.{◌≡◌, ◌+◌};

use ov_base::ByteTrace;
use std::marker::Model;

/// How many attempts of transactions were made: a number that only contracts see. At run time it is empty.
#[derive(Drop)]
pub struct Tries {
    made: ByteTrace,
}

impl Model for Tries {
    ghost use Rattle.std.specs.Prelude.{ℕ, length};

    ghost Value = { ℕ };

    ghost view = { λ t. length t.made.bytes };
}

impl Tries {
    /// No attempts yet.
    pub fn new() -> Tries
        ensures { result ≡ 0 }
    {
        Tries {
            made: ByteTrace::new(),
        }
    }

    /// Counts one more attempt.
    pub(crate) fn add(&mut self)
        ensures { self.new ≡ self.old + 1 }
    {
        self.made.add(&[0]);
    }
}
