//! The operations of a transaction, one file each: what an operation makes of the rows that those before it left, and its
//! result (RFC 7047, 5.2).
#![tactic(auto)]

mod abort;
mod ahead;
mod assert;
mod changed;
mod comment;
mod commit;
mod context;
mod count;
mod delete;
mod empty;
mod insert;
mod members;
mod mutate;
mod operation;
mod outcome;
mod owns;
mod select;
mod update;
mod wait;

pub use context::OpCtx;
pub use operation::run_op;
pub use outcome::OpOutcome;
pub use owns::Owns;
pub use select::select_result;
