//! Cuts a byte stream of JSON objects without framing into messages, whatever the pieces in which it arrives, and reads them.
//!
//! Braces alone delimit a message; those inside string literals do not count. A cutter keeps the bytes of the message that
//! has begun, and the state in which they leave it, so that it looks at no byte twice.
#![tactic(auto)]

mod cutter;
mod fault;
mod looks;
mod message;
mod reading;
mod space;

pub use cutter::{Cutter, Fed};
pub use fault::{CutFault, StreamFault};
pub use reading::PieceRead;
