//! The tables of the two stored formats in SQLite: how they are found, made, changed, emptied and read.
//!
//! What their rows stand for, and which changes are written, is the task of `ov_sqlite`. The calls are generic over the kit's
//! `Alter`.
#![tactic(auto)]

mod clear;
mod each;
mod make;
mod page;
mod query;
mod room;
mod schema;
mod write_error;

pub use clear::clear_tables;
pub use each::{TakesRows, each_cell};
pub use make::{fill_meta, make_tables};
pub use page::lists_tables;
pub use query::{cells_of, head_rows, line_rows, meta_rows};
pub use room::has_room;
pub use schema::{has_cell_tables, is_blank, is_ours};
pub use write_error::WriteError;
