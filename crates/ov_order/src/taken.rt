ghost use Rattle.std.specs.Prelude.{◌≡◌, ℕ, List, [], ◌++◌};
ghost use Rattle.std.specs.Borrow.{ftrue};

use std::marker::{Model, PhantomData};

/// The serials that the desk took, oldest first. Contracts alone see them. At run time it is empty and its calls do nothing.
#[derive(Drop)]
pub struct Taken {
    marker: PhantomData<u8>,
    pub ghost serials: { List ℕ },
}

impl Model for Taken {
    ghost also_owns = { λ _. ftrue };
}

unsafe impl Send for Taken {}

impl Taken {
    /// A trace of nothing taken.
    pub fn new() -> Taken
        ensures { result.serials ≡ [] }
    {
        Taken {
            marker: PhantomData,
        }
    }

    /// Appends these serials.
    pub(crate) fn add(&mut self, _more: &[u64])
        ensures { self.new.serials ≡ self.old.serials ++ _more.now }
    {}
}
