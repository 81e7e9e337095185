//! Sessions of a database: over pipes, or at an address, where N connections are served together or every client is served.
#![tactic(auto)]

mod address;
mod clock;
mod connections;
mod endings;
mod endpoint;
mod everyone;
mod memory;
mod pipes;
mod session;
mod system;

pub use address::serve_at;
pub use clock::MonotonicClock;
pub use connections::serve_connections;
pub use endings::{ending_of_listening, ending_of_serving};
pub use endpoint::{Ended, Endpoint, Offer, serve_offer};
pub use memory::{MemoryEnded, Service, serve_memory};
pub use pipes::{Pipes, pipes_over};
pub use session::serve_pipes;
pub use system::System;
