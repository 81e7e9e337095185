use ov_txn::Owns as OwnsLocks;

/// A session that owns the lock of this name, and no other.
#[derive(Clone, Copy)]
pub(crate) struct OwnsOne {
    pub(crate) lock: &'static str,
}

impl OwnsLocks for OwnsOne {
    ghost use Rattle.std.specs.Str.{bytes_eq};

    ghost owned = { λ o name. bytes_eq o.lock.now name };

    fn owns(&self, lock: &str) -> bool {
        self.lock == lock
    }
}
