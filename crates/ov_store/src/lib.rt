//! A keeper that stores rows in SQLite: it keeps all of a commit or nothing of it, even across a crash.
//!
//! The store is generic over the kit's `Alter`; `ov_files` above knows which files are below it. `ov_tables` has the tables
//! that hold the rows, and `ov_sqlite` reads and writes them.
#![tactic(auto)]

mod commit;
mod keep;
mod load;
mod open;
mod over;
mod store;
mod unopened;

pub use ov_keeper::{Change, KeepFault, Line};
pub use over::store_over;
pub use store::Store;
pub use unopened::Unopened;
