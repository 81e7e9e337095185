//! What a client's message says about rows: the names of those that a transaction inserts, the values given to a row, the
//! mutations of a row, and the rows waited for (RFC 7047, 5.1 and 5.2).
#![tactic(auto)]

mod mutated;
mod names;
mod row_values;
mod told;
mod until;

pub use mutated::{mutated_columns, mutations_of};
pub use names::{NamedRows, name_fault, uuid_fault};
pub use row_values::{GivenRow, given_over, given_values, new_row};
pub use told::{timeout_of, told_rows};
pub use until::{Until, is_met, until_of};
