//! The two ends of a session, a reader and a writer, and a clock beside them; contracts name their bytes and moments.
//!
//! This crate knows of no session and no protocol. It makes such ends from std's readers and writers, and writes frames
//! whole.
#![tactic(auto)]

mod ends;
mod watched;
mod write;

pub use ends::{Clock, Sink, Source};
pub use watched::Watched;
pub use write::write_frame;
