//! The monitors of a session: what clients ask of them, and what they report of the rows (RFC 7047, 4.1.5 to 4.1.7).
//!
//! A monitor is checked against the schema once, when it is created: for each table it keeps the columns to report for each
//! kind of change. What it reports of a commit is computed from the changes alone.
#![tactic(auto)]

mod fault;
mod monitor;
mod monitors;
mod object;
mod request;
mod requests;
mod row_update;
mod select;
mod table;
mod table_update;
mod watchers;

pub use fault::WatchFault;
pub use monitors::Monitors;
pub use watchers::Watchers;
