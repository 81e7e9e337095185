//! Stored rows and changes of rows: the rows that a keeper holds as typed rows of a schema, and the changes of a transaction as
//! the changes of what the keeper holds.
//!
//! Each row is stored as a head and a cell for each of its columns (format 2), or by older programs as one line (format 1). A
//! row is read only if it would be stored as the very bytes that it is read from. Before a commit each new row gets a place
//! among the rows in memory, so that the changes are made there without an allocation.
#![tactic(auto)]

mod cells;
mod changes;
mod delta;
mod fault;
mod load;
mod place;
mod read;
mod read_cells;

pub use changes::{changes_of, puts_of};
pub use delta::Delta;
pub use fault::OpenFault;
pub use load::{has_text, rows_of};
pub use place::{make_changes, place_rows, take_out_rows};
pub use read::row_of;
