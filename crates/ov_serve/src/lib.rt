//! One session at a time, served over a reader, a writer and a clock.
#![tactic(auto)]

mod send;
mod serve;

pub use serve::serve_one;
