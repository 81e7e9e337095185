//! Connections over TCP: a listener, a number of its connections or all of its clients, and for each the two ends that a
//! session is served over.
//!
//! This crate knows of no session and no protocol. What comes over a connection is the reader's, and what is sent is the
//! writer's.
#![tactic(auto)]

mod accept;
mod address;
mod clients;
mod fault;

pub use accept::accept_all;
pub use address::{chosen_line, listen};
pub use clients::{ClientReader, ClientWriter, Clients};
pub use fault::ListenFault;
