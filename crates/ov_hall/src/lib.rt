//! The hall: the places of the sessions that are served, the workers of each, and the loop that serves them. Each session has a
//! reader and a writer, each in a thread of its own. Who opens the sessions stands above: a call for a number of links, and one
//! for every client that a listener gives.
#![tactic(auto)]

mod admit;
mod begun;
mod bells;
mod finish;
mod hall;
mod parts;
mod serve;
mod start;

pub use begun::Begun;
pub use bells::all_bells;
pub use finish::{End, finish_all};
pub use hall::Hall;
pub use parts::{Parts, SHARES};
pub use serve::{LOBBY, run};
pub use start::{Started, dismiss_all, start_all};
