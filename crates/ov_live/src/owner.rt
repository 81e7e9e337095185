use ov_locks::LockTable;
use ov_txn::Owns as OwnsLocks;

/// A session that is asked which locks it owns (RFC 7047, 5.2.10).
#[derive(Clone, Copy)]
pub(crate) struct Owner<'a> {
    pub locks: &'a LockTable,
    pub session: u64,
}

impl<'a> OwnsLocks for Owner<'a> {
    ghost use Rattle.ov_specs.specs.locks.Queues.{owns};

    ghost owned = { λ o name. owns o.locks.now.0 o.session name };

    fn owns(&self, lock: &str) -> bool {
        self.locks.owner(lock) == Some(self.session)
    }
}
