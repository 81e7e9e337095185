//! The conditions of a "where": read from their trees, and tested on rows (RFC 7047, 5.1, `<condition>`).
//!
//! A condition is checked against the column that it names, once, as it is read. Testing a row allocates nothing.
#![tactic(auto)]

mod compare;
mod condition;
mod elements;
mod fault;
mod function;
mod triple;
mod walk;

pub use condition::Condition;
pub use elements::Elements;
pub use fault::ConditionFault;
pub use function::{Function, holds_integers};
pub use triple::Triple;
pub use walk::{atoms_from, pairs_from};
