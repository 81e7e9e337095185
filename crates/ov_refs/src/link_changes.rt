ghost use Rattle.std.specs.Prelude.{◌≡◌, []};

use crate::reference::RowReference;
use std::alloc::Global;

/// What a commit has already added to the links, and what it will remove from them.
#[derive(Drop)]
pub struct LinkChanges {
    /// The references that were not there before.
    pub added: Vec<RowReference>,
    /// The references that rows had before the commit and do not have after it.
    pub gone: Vec<RowReference>,
}

impl LinkChanges {
    /// No changes.
    pub fn new(alloc: Global) -> LinkChanges
        ensures added { result.added.items ≡ [] }
        ensures gone { result.gone.items ≡ [] }
    {
        LinkChanges {
            added: Vec::new(alloc),
            gone: Vec::new(alloc),
        }
    }
}
