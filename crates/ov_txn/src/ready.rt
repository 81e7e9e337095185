ghost use Rattle.std.specs.Prelude.{◌≡◌, Bool, IfOk};
ghost use Rattle.ov_stored.specs.Changing.{Delta as Changes};
ghost use Rattle.ov_db.specs.KeptDatabase.{KeptDatabase};
ghost use Rattle.ov_txn.specs.Replying.{replies_with};
ghost use Rattle.ov_txn.specs.declared.ready.Replies.{Replies as Prepared};

use crate::results::error_tree;
use ov_base::Tree;
use ov_db::{Db, Delta};
use ov_keeper::Keeper;
use ov_projection::OpError;
use ov_results::ArrayText;
use std::alloc::{AllocError, Global};

/// The results of a transaction whose changes are to be stored, for each answer of the store (RFC 7047, 4.1.3).
#[derive(Drop)]
pub struct Replies {
    /// The results if the store keeps the changes.
    pub kept: ArrayText,
    /// What is appended to these results if the store runs out of memory or the changes are too large for it:
    /// `resources exhausted`.
    pub exhausted: Tree,
    /// What is appended to them if the store fails: `I/O error`.
    pub failed: Tree,
}

impl Replies {
    /// The replies with these results.
    pub(crate) fn new(alloc: Global, results: ArrayText) -> Result<Replies, AllocError>
        ensures { IfOk result (λ replies. replies ≡ replies_with results) }
    {
        let exhausted = error_tree(alloc, OpError::ResourcesExhausted)?;
        let failed = error_tree(alloc, OpError::InputOutput)?;
        Ok(Replies {
            kept: results,
            exhausted,
            failed,
        })
    }
}

/// Makes everything ready that has to follow a commit, so that nothing is allocated after it.
pub trait Ready<K: Keeper> {
    /// The state before, the database, its changes, the replies, whether all is ready, and the state after.
    ghost readies: { Self → KeptDatabase K → Changes → Prepared → Bool → Self → Type 0 };

    /// Makes ready what follows the store's answer on these changes of the database. False if an allocation fails.
    fn ready(&mut self, db: &Db<K>, delta: &Delta, replies: Replies) -> bool
        ensures { readies self.old db.now delta.now replies result self.new };
}
