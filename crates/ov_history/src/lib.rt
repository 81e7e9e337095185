//! What happens to the machine, what it answers, and the newest entries of its history, each an event with what the outside
//! chose for it (RFC 7047, 4). No event is handled here.
#![tactic(auto)]

mod entry;
mod event;
mod history;

pub use entry::{entry_with_choice, entry_without_choice, is_closing, is_kept, list_attempt};
pub use event::{Attempt, Cause, Choice, Entry, Event, Outcome, StepFault, Stepped};
pub use history::History;
