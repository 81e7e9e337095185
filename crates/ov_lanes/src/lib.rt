//! The desk's side of its sessions' rings: what it takes from them goes into the core, and what the core sends goes into
//! them. This crate starts no thread and never waits.
#![tactic(auto)]

mod desk;
mod fault;
mod lane;
mod lanes;
mod moves;
mod open;
mod places;

pub use desk::Desk;
pub use fault::ServeFault;
pub use lane::Lane;
pub use lanes::{are_over, free_place, place_of};
pub use open::{open_sessions, shows_nothing_opened};
pub use places::has_places;
