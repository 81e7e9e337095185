ghost use Rattle.std.specs.Prelude.{◌≡◌, IfSome};
ghost use Rattle.ov_locks.specs.Refusing.{fault_text};

use std::alloc::AllocError;
use thiserror::Error;

/// Why a lock is not given or not given up. Nothing has changed.
#[derive(Clone, Copy, Debug, PartialEq, Eq, Error)]
pub enum LockFault {
    /// The session has asked for this lock before, and has not given it up since (RFC 7047, 4.1.8).
    #[error("lock already requested")]
    AlreadyRequested,
    /// The session has not asked for this lock (RFC 7047, 4.1.8).
    #[error("lock not held")]
    NotHeld,
    /// The session has asked for 256 locks, as owner or as waiter, and has given up none of them.
    #[error("resources exhausted")]
    Limit,
    /// An allocation failed.
    #[error("out of memory")]
    Memory,
}

impl LockFault {
    /// The error text sent to the client; `Memory` is reported in another way. Not derived, so that the contract can state it.
    pub fn text(self) -> &'static str
        ensures { IfSome (fault_text self) (λ text. result.now ≡ text) }
    {
        match self {
            LockFault::AlreadyRequested => "lock already requested",
            LockFault::NotHeld => "lock not held",
            LockFault::Limit => "resources exhausted",
            LockFault::Memory => "out of memory",
        }
    }
}

impl From<AllocError> for LockFault {
    ghost use Rattle.std.specs.Prelude.{◌≡◌};
    ghost use Rattle.ov_locks.specs.declared.fault.LockFault.TheVariants.{Memory};

    ghost from_gives = { λ _ e. e ≡ Memory };

    fn from(_refused: AllocError) -> LockFault {
        LockFault::Memory
    }
}
