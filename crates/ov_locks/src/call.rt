/// A call on a lock (RFC 7047, 4.1.8).
#[derive(Clone, Copy, Debug, PartialEq, Eq)]
pub enum LockCall {
    /// Asks for the lock, after those who asked before.
    Lock,
    /// Asks for the lock at once.
    Steal,
    /// Gives the lock up, or stops waiting for it.
    Unlock,
}
