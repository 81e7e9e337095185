//! What a commit makes of the rows that the operations of a transaction left (RFC 7047, 3.2 and 5.2): strong references must
//! lead to rows, rows that nothing keeps are removed, weak references to missing rows are removed, and no limit may be
//! broken. Follows only what the transaction has changed.
#![tactic(auto)]

mod finished;
mod missing;
mod prune;

pub use finished::{Finished, finish};
