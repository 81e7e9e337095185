use crate::steps::net_core;
use crate::texts::{fact_text, number_text, text_of_frame};
use ov_base::Bytes;
use ov_streams::{StreamEvent, Streams};
use std::alloc::{AllocError, Global};
use std::test::Fail;
use test_basics::{Counter, Faults, NetKeeper, Scripted, agrees};

/// The streams of a server, driven by a conversation.
///
/// A line that begins with `>` is what session 1 sends, and one with `<` is all that it was sent since the last such line;
/// `2>` and `2<` are the same for session 2. Other lines are `open`, `tick` and `finish`, which return whether the event was
/// served, and `entries` for how many there are in the history.
#[derive(Drop)]
struct Server {
    streams: Streams<NetKeeper, Counter>,
}

/// This event alone.
fn only(alloc: Global, event: StreamEvent) -> Result<Vec<StreamEvent>, AllocError> {
    let mut events = Vec::new(alloc);
    events.push(event)?;
    Ok(events)
}

impl Server {
    /// Opens session 1. A failure is not reported here, but every conversation that expects a reply then fails.
    fn open(&mut self, alloc: Global) {
        if let Ok(events) = only(alloc, StreamEvent::Open) {
            self.streams.run(alloc, events);
        }
    }

    /// Serves one event, and returns whether it was served.
    fn run(&mut self, alloc: Global, event: StreamEvent) -> Result<String, Fail> {
        let ran = self.streams.run(alloc, only(alloc, event)?);
        fact_text(alloc, ran.refused.is_none())
    }

    /// Feeds a session.
    fn feed(&mut self, alloc: Global, session: u64, text: &str) -> Result<String, Fail> {
        let bytes = Bytes::from_slice(alloc, text.as_bytes())?;
        self.run(alloc, StreamEvent::Feed(session, bytes))?;
        Ok(String::new(alloc))
    }

    /// What a session was sent, or nothing if it is this.
    fn output(&mut self, alloc: Global, session: u64, want: &str) -> Result<String, Fail> {
        let output = self.streams.output(alloc, session)?;
        if output.as_slice() == want.as_bytes() {
            return Ok(String::new(alloc));
        }
        text_of_frame(output)
    }

    /// How many entries the history has.
    fn entries(&self, alloc: Global) -> Result<String, Fail> {
        number_text(alloc, self.streams.core().history().len() as u64)
    }

    /// The outcome of an event, or the number of entries.
    fn act(&mut self, alloc: Global, word: &str) -> Result<String, Fail> {
        match word {
            "open" => self.run(alloc, StreamEvent::Open),
            "tick" => self.run(alloc, StreamEvent::Tick(50)),
            "finish" => self.run(alloc, StreamEvent::Finish(1)),
            "entries" => self.entries(alloc),
            _ => Err(Fail::new("no command")),
        }
    }
}

impl Scripted for Server {
    fn answer(&mut self, alloc: Global, command: &str) -> Result<String, Fail> {
        if let Some(text) = command.strip_prefix(">") {
            return self.feed(alloc, 1, text);
        }
        if let Some(want) = command.strip_prefix("<") {
            return self.output(alloc, 1, want);
        }
        if let Some(text) = command.strip_prefix("2>") {
            return self.feed(alloc, 2, text);
        }
        if let Some(want) = command.strip_prefix("2<") {
            return self.output(alloc, 2, want);
        }
        self.act(alloc, command)
    }
}

/// Holds a conversation with session 1 of a new server over a new database Net, whose keeper fails as `faults` says.
pub(crate) fn converses_over(
    alloc: Global,
    faults: Faults,
    conversation: &str,
) -> Result<(), Fail> {
    let mut server = Server {
        streams: Streams::new(alloc, net_core(alloc, faults)?),
    };
    server.open(alloc);
    agrees(alloc, server, conversation)
}

/// The same with a keeper that keeps everything.
pub(crate) fn converses(alloc: Global, conversation: &str) -> Result<(), Fail> {
    converses_over(alloc, Faults::NONE, conversation)
}
