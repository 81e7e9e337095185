//! The columns that an operation names, what is shown of a row in them, and the errors of operations (RFC 7047, 3.1 and 5.2).
#![tactic(auto)]

mod fault;
mod member;
mod projection;
mod shown;

pub use fault::{OpError, OpFault};
pub use member::{is_insert, text_at};
pub use projection::{chosen_columns, compared_columns, is_among, listed_columns};
pub use shown::{ShownRow, shown_tree};
