//! Sessions of a database, in memory or in a file, which is closed after them.
#![tactic(auto)]

mod closing;
mod database;
mod file;

pub use closing::closes_file;
pub use database::{DatabaseEnded, serve_database};
pub use file::{FileEnded, serve_file};
