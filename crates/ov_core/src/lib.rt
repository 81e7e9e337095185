//! The server's ordered machine (RFC 7047, 4): events in, frames out, and a history that records them. It uses no socket,
//! clock or thread: moments and identifiers come in as values.
#![tactic(auto)]

mod machine;
mod open;

pub use machine::Core;
pub use ov_history::{Attempt, Cause, Choice, Entry, Event, Outcome, StepFault, Stepped};
pub use ov_schema::{Schema, SchemaFault};
pub use ov_sessions::Session;
