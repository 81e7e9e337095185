//! The mutations of a "mutate": read from their trees, and applied to values (RFC 7047, 5.1, `<mutation>`).
//!
//! A mutation is checked against the column that it names, once, as it is read. What it makes of a value is a new value, or
//! the first fault that applies; the original value stays.
#![tactic(auto)]

mod apply;
mod arithmetic;
mod change;
mod delete;
mod fault;
mod insert;
mod mutation;
mod mutator;

pub use fault::{MutateFault, MutationFault};
pub use mutation::Mutation;
