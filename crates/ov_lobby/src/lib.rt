//! Serves every client that a listener gives, up to 64 at a time, each as a session of one machine. Each session has a reader and
//! a writer, each in a thread of its own; one more thread accepts connections.
#![tactic(auto)]

mod fault;
mod lobby;

pub use fault::RefusedLobby;
pub use lobby::serve_lobby;
