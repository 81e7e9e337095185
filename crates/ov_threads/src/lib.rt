//! The workers of `ov_workers` in threads: how each is started, handed its end of a link once it may begin, and joined. A thread
//! keeps its end of the link or drops it as it ends. All that it needs is allocated before it starts.
//!
//! This crate reads nothing and writes nothing itself: what a thread returns is what its worker did.
#![tactic(auto)]

mod accepting;
mod hand;
mod reading;
mod workers;
mod writing;

pub use accepting::{AcceptDone, Accepting, Accepts, start_accepting};
pub use hand::{HandRing, Hands, take_handed};
pub use reading::{ReadDone, ReadLeft, Reading, Reads, start_reader};
pub use workers::{Workers, start_workers};
pub use writing::{WriteDone, WriteLeft, Writes, Writing, start_writer};
