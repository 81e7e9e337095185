use ov_rpc::MessageText;
use ov_sessions::Session;
use thiserror::Error;
use uuid::Uuid;

/// Why a session is closed.
#[derive(Clone, Copy, Debug, PartialEq, Eq)]
pub enum Cause {
    /// Its input ended.
    InputEnded,
    /// Its input could not be read.
    ReadFault,
    /// Its output could not be written.
    WriteFault,
    /// What it sent is not a stream of messages.
    Damaged,
    /// It did not take what was sent to it.
    Overrun,
    /// An allocation failed while its input was read and cut or while its request was worked on.
    Memory,
}

/// What happens to the machine. `M` stands for a message: a `Received` when it is taken, and its `MessageText` in the history.
#[derive(Drop)]
pub enum Event<M> {
    /// A session opens, with the next serial.
    Open,
    /// A message of a session is taken, and answered at once if it gets an answer (RFC 7047, 4.1). Only a transaction that is
    /// blocked waits; it is answered when another event settles it (4.1.3), or when it is canceled (4.1.4).
    Take(Session, M),
    /// A session is closed, with its monitors, its places in the queues of locks and its waiting transactions. The frames
    /// that wait for it still wait.
    Close(Session, Cause),
    /// Time has reached the moment. The waiting transactions are tried, since a timeout may have passed (RFC 7047, 5.2.6).
    Tick,
}

/// The outcome of an attempt that asked the store, or in which an allocation failed.
#[derive(Clone, Copy, Debug, PartialEq, Eq)]
pub enum Outcome {
    /// The store kept its changes.
    Committed,
    /// An allocation failed in the store, or the changes were too large for it: it kept none of them.
    Exhausted,
    /// The store failed.
    Failed,
    /// An allocation failed, and the session of this attempt's transaction was closed.
    NoMemory,
}

/// An attempt.
#[derive(Clone, Copy, Debug, PartialEq, Eq)]
pub struct Attempt {
    /// Its number in its event, counted from 1.
    pub number: u64,
    /// Its outcome.
    pub outcome: Outcome,
}

/// What the outside chose for an event.
#[derive(Drop)]
pub struct Choice {
    /// In milliseconds; not below that of the previous entry.
    pub moment: u64,
    /// The identifiers that were drawn, in order.
    pub draws: Vec<Uuid>,
    /// The attempts that asked the store or in which an allocation failed, in order. The first of a `Take` is the work on its
    /// message; the others are those of transactions that waited.
    pub outcomes: Vec<Attempt>,
}

/// One entry of the history.
#[derive(Drop)]
pub struct Entry {
    /// What happened.
    pub event: Event<MessageText>,
    /// What the outside chose for it.
    pub choice: Choice,
}

/// Why a step is refused. A refused step changes nothing.
#[derive(Clone, Copy, Debug, PartialEq, Eq, Error)]
pub enum StepFault {
    /// 64 sessions are open, or no serial is left: the last one is 2^64-2.
    #[error("too many sessions")]
    TooMany,
    /// An allocation failed for a session that opens, or for a `Tick` while transactions wait. No other step returns it,
    /// since the history has its room from the opening on.
    #[error("out of memory")]
    Memory,
    /// The session is not open.
    #[error("the session is not open")]
    NotOpen,
}

/// What a step returns.
#[derive(Clone, Copy, Debug, PartialEq, Eq)]
pub enum Stepped {
    /// The session that was opened.
    Opened(Session),
    /// The event has been entered; the session of a `Take` is open.
    Done,
    /// The session of the `Take` was closed because an allocation failed, for its message or one of its waiting transactions.
    Closed,
    /// Nothing has changed.
    Refused(StepFault),
}
