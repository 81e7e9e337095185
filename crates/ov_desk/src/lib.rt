//! Serves a number of links, each as a session of one machine, all at the same time. Each session has a reader and a writer, each
//! in a thread of its own.
#![tactic(auto)]

mod link;
mod links;

pub use link::{Served, Unserved};
pub use links::serve_links;
