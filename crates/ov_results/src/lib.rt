//! The results of a transaction (RFC 7047, 4.1.3): that of one operation, and those of all, kept as the text that is sent.
#![tactic(auto)]

mod array_text;
mod item_trace;
mod op_result;

pub use array_text::ArrayText;
pub use op_result::OpResult;
