//! One transaction: its operations in order, each on the rows that those before it left, and its commit (RFC 7047, 4.1.3 and
//! 5.2).
#![tactic(auto)]

mod perform;
mod ready;
mod results;
mod tried;
mod tries;

pub use ov_ops::Owns;
pub use ov_requests::{Draws, Outstanding, Txn, Waiting};
pub use ready::{Ready, Replies};
pub use tried::{Tried, attempt};
pub use tries::Tries;
