//! The small types that contracts see as lists and trees: bytes, texts, and JSON trees without reals.
#![tactic(auto)]

mod byte_trace;
mod bytes;
mod real;
mod text;
mod tree;
mod trees;

pub use byte_trace::ByteTrace;
pub use bytes::Bytes;
pub use real::has_real;
pub use text::Text;
pub use tree::Tree;
pub use trees::Trees;
