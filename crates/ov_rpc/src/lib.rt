//! Messages and frames of JSON-RPC 1.0: which request a text is, and the bytes that are sent.
#![tactic(auto)]

mod append;
mod fault;
mod frame;
mod incoming;
mod message;
mod received;
mod request;

pub use append::append_item;
pub use fault::RpcFault;
pub use frame::{failure, notification, reply, reply_with};
pub use incoming::Incoming;
pub use message::{BadKind, Message};
pub use received::{MessageText, Received};
