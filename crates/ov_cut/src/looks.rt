ghost use Rattle.std.specs.Prelude.{◌≡◌, ◌+◌, ◌<◌, length, slice_index};

use ov_base::ByteTrace;
use std::marker::Model;

/// How many bytes have been looked at: a number that only contracts see. At run time it is empty.
///
/// The crate looks at a byte only through `byte`, so that a contract on the number says that none is looked at twice.
#[derive(Drop)]
pub(crate) struct Looks {
    seen: ByteTrace,
}

impl Model for Looks {
    ghost use Rattle.std.specs.Prelude.{ℕ, length};

    ghost Value = { ℕ };

    ghost view = { λ l. length l.seen.bytes };
}

impl Looks {
    /// The count when nothing has been looked at.
    pub fn new() -> Looks
        ensures { result ≡ 0 }
    {
        Looks {
            seen: ByteTrace::new(),
        }
    }

    /// The byte of the text at this place, from 0.
    pub fn byte(&mut self, text: &[u8], place: usize) -> u8
        requires { place < length text.now }
        ensures value { result ≡ slice_index text.now place }
        ensures count { self.new ≡ self.old + 1 }
    {
        self.seen.add(&text[place..=place]);
        text[place]
    }
}
