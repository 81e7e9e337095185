//! Named locks: who owns each, who waits for it, and what sessions are notified of (RFC 7047, 4.1.8 to 4.1.10).
#![tactic(auto)]

mod call;
mod fault;
mod freed;
mod held;
mod notifications;
mod queue;
mod queues;
mod table;

pub use call::LockCall;
pub use fault::LockFault;
pub use table::LockTable;
