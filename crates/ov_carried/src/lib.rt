//! The rows of an older schema as rows of a newer one, before the rules of a commit are applied to them: columns of both
//! schemas keep their values, new columns get their defaults (RFC 7047, 5.2.1), and other columns and tables are dropped. A
//! row keeps its version if its columns are the same as before (RFC 7047, 3.2).
#![tactic(auto)]

mod carried;
mod keys;

pub use carried::{carried_rows, row_now};
pub use keys::keys_of;
