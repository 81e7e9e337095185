//! What the workers of the server do. A reader brings the desk the messages of a stream and last an end mark; a writer writes the
//! frames that the desk sends it; and a worker that accepts connections brings the desk the links that a listener gives.
//! `ov_threads` starts each in a thread of its own.
//!
//! This crate knows of no session, no machine and no database. It cuts a stream into messages and reports its end by a
//! cause; the crates above say what a message asks for, and what a frame answers.
#![tactic(auto)]

mod accept;
mod arrivals;
mod bring;
mod cause;
mod common;
mod gate;
mod inlet;
mod link;
mod listen;
mod reader;
mod writer;

pub use accept::{Accepted, accept_worker};
pub use arrivals::{Arrivals, may_come};
pub use cause::ReadCause;
pub use common::Common;
pub use gate::{FreeGate, Gate, Point};
pub use inlet::Inlet;
pub use link::Link;
pub use listen::Listen;
pub use reader::{ReadEnd, read_worker};
pub use writer::{WriteEnd, write_worker};
