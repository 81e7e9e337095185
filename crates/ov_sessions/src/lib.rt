//! The open sessions: each has a serial, in order of opening, and a key of its own while it is open.
#![tactic(auto)]

mod session;
mod sessions;

pub use session::Session;
pub use sessions::Sessions;
