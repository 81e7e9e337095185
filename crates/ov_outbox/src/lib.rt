//! The frames that wait for sessions, and the locks. A session that becomes the owner of a lock is notified even if no memory
//! is left, since each session's queue keeps a place for each notification that may have to be sent this way.
#![tactic(auto)]

mod frames;
mod locking;
mod outbox;
mod prepared;
mod queue;

pub use frames::FrameQueues;
pub use outbox::Outbox;
pub use prepared::Prepared;
