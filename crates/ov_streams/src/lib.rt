//! Lists of stream events, entered into the core: each session's bytes, in whatever pieces they come, become messages.
#![tactic(auto)]

mod event;
mod feed;
mod streams;

pub use event::{Ran, StreamEvent};
pub use feed::feed_session;
pub use streams::Streams;
