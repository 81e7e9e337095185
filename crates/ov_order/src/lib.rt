//! The order in which the desk serves its sessions, and the rings between the desk and its workers. A worker puts an item
//! into the ring of its session and notes the session's serial in the order; the desk takes the notes, the oldest first, and
//! takes one item for each. A writer waits for its bell, which the desk rings.
//!
//! This crate knows of no session, no socket and no machine: a serial is a number, and the crates above say what a message
//! is.
#![tactic(auto)]

mod bell;
mod book;
mod items;
mod leave;
mod noter;
mod order;
mod rings;
mod taken;

pub use bell::Bell;
pub use book::OrderBook;
pub use items::{Brought, Sent};
pub use leave::Leave;
pub use noter::Noter;
pub use order::Order;
pub use rings::{inbound_ring, outbound_ring};
pub use taken::Taken;
