//! Commits of one row, and of none, for tests of databases.
#![tactic(auto)]

mod changes;

pub use changes::{commit_nothing, put_line, remove_row};
