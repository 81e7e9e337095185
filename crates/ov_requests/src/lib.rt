//! What a message asks for (RFC 7047, 4.1); the transactions that have been read, with what was drawn for them; and those of
//! them that wait to be tried again (4.1.3). No request is carried out here.
#![tactic(auto)]

mod answer;
mod draws;
mod outstanding;
mod txn;
mod waiting;

pub use answer::{Work, work_of};
pub use draws::{Draws, are_uuids};
pub use outstanding::Outstanding;
pub use txn::Txn;
pub use waiting::Waiting;
