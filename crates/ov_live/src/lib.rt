//! What an event changes apart from the history (RFC 7047, 4): the database, the open sessions, their monitors, the waiting
//! transactions, the locks and the waiting frames. Handles messages, and settles the waiting transactions.
#![tactic(auto)]

mod attempt;
mod frames;
mod handle;
mod live;
mod lock;
mod moment;
mod owner;
mod replying;
mod send;
mod settle;
mod watch;

pub use live::Live;
pub use moment::moment_of;
