ghost use Rattle.std.specs.Prelude.{◌≡◌, ℕ, List, [], ◌++◌};
ghost use Rattle.std.specs.Borrow.{ftrue};

use std::marker::{Model, PhantomData};

/// Bytes that only contracts see, in the order in which they were added. At run time it is empty and its calls do nothing.
///
/// A source keeps one of what it has read, so that contracts can name the bytes that came in.
#[derive(Drop)]
pub struct ByteTrace {
    marker: PhantomData<u8>,
    pub ghost bytes: { List ℕ },
}

impl Model for ByteTrace {
    ghost also_owns = { λ _. ftrue };
}

unsafe impl Send for ByteTrace {}

impl ByteTrace {
    /// A trace without bytes.
    pub fn new() -> ByteTrace
        ensures { result.bytes ≡ [] }
    {
        ByteTrace {
            marker: PhantomData,
        }
    }

    /// Appends these bytes.
    pub fn add(&mut self, _more: &[u8])
        ensures { self.new.bytes ≡ self.old.bytes ++ _more.now }
    {}
}
