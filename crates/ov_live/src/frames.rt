ghost use Rattle.std.specs.Prelude.{IfOk};
ghost use Rattle.ov_live.specs.Preparing.{AreFrames};

use ov_base::{Bytes, Tree};
use ov_rpc::{append_item, reply_with};
use ov_txn::Replies;
use std::alloc::{AllocError, Global};

/// The reply to a transaction for each answer of the store. All are made before the store is asked, so that nothing is
/// allocated after a commit; the results are encoded once.
#[derive(Drop)]
pub(crate) struct Frames {
    pub kept: Bytes,
    pub exhausted: Bytes,
    pub failed: Bytes,
}

impl Frames {
    /// The frames of these replies, under this id.
    pub fn new(alloc: Global, id: &Tree, replies: Replies) -> Result<Frames, AllocError>
        ensures { IfOk result (AreFrames id.now replies) }
    {
        let Replies {
            kept,
            exhausted,
            failed,
        } = replies;
        let is_first = kept.is_empty();
        let kept = reply_with(alloc, id, &kept)?;
        let exhausted = append_item(alloc, &kept, is_first, &exhausted)?;
        let failed = append_item(alloc, &kept, is_first, &failed)?;
        Ok(Frames {
            kept,
            exhausted,
            failed,
        })
    }
}
