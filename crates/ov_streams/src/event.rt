use ov_base::Bytes;
use ov_core::StepFault;

/// One event of the sessions' streams. Session n is the n-th that was opened, from 1.
#[derive(Drop)]
pub enum StreamEvent {
    /// A session opens.
    Open,
    /// Bytes of a session come. Nothing happens if the session is not open.
    Feed(u64, Bytes),
    /// The bytes of a session end. Nothing happens if the session is not open.
    Finish(u64),
    /// Time passes to this moment in milliseconds, or stays at the last one if that is later.
    Tick(u64),
}

/// How much of a list of events was served.
#[derive(Clone, Copy, Debug, PartialEq, Eq)]
pub struct Ran {
    /// How many of its events, from the first on.
    pub served: usize,
    /// Why the event after them was refused, if it was: an opening or a passing of time.
    pub refused: Option<StepFault>,
}
