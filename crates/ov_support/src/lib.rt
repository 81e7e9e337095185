//! Which rows that the operations of a transaction left are supported, and which limits they exceed (RFC 7047, 3.2,
//! `<table-schema>`): rows that nothing keeps are removed, and tables with too many rows, or with two rows that are equal in an
//! index, are found. Follows only what the transaction has changed.
#![tactic(auto)]

mod changes;
mod limits;
mod support;

pub use limits::breaks_a_limit;
pub use support::drop_unsupported;
