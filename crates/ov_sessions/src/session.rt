/// A session.
#[derive(Clone, Copy, Debug, PartialEq, Eq)]
pub struct Session {
    /// Its place in the core, below 64. It is reused once the session is closed.
    pub key: usize,
    /// Counted from 1, in the order of opening. It is never reused.
    pub serial: u64,
}
