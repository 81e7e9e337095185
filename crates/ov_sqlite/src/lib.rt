//! The rows of the two stored formats in SQLite: what they stand for, how they are read and written, and which fault an error
//! stands for. A rewrite brings format 1 to format 2.
//!
//! Everything here is about an open connection whose tables `ov_tables` has found or made. Opening one over files, and keeping
//! rows in it, is the task of `ov_store`, which has no SQL. The calls are generic over the kit's `Alter`.
#![tactic(auto)]

mod columns;
mod fault;
mod format;
mod join;
mod meta;
mod read;
mod renew;
mod rewrite;
mod rows;
mod value;
mod write;

pub use fault::{fault_at, refusal};
pub use format::read_all;
pub use rewrite::rewrite_all;
pub use write::write_all;
