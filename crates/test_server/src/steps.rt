ghost use Rattle.std.specs.Prelude.{IfOk};
ghost use Rattle.ov_core.specs.Following.{HasNoHistory};

use crate::texts::{
    fact_text, number_or_none, number_text, parts_of, push_number, received, session_of, step_word,
    text_of_frame,
};
use ov_base::Bytes;
use ov_core::{Cause, Core, Event, Session, Stepped};
use ov_rpc::{MessageText, Received};
use std::alloc::Global;
use std::test::Fail;
use test_basics::{Counter, Faults, NetKeeper, Scripted, agrees, net, net_keeper};

/// The machine over a database Net.
pub(crate) type NetCore = Core<NetKeeper, Counter>;

/// The machine over a new database Net, whose keeper fails as `faults` says.
pub(crate) fn net_core(alloc: Global, faults: Faults) -> Result<NetCore, Fail>
    ensures { IfOk result HasNoHistory }
{
    let keeper = net_keeper(alloc, faults)?;
    let schema = net(alloc)?;
    Ok(Core::open(alloc, keeper, schema, Counter::new())?)
}

/// The text of a message that was taken.
fn message_text(alloc: Global, text: &MessageText) -> Result<String, Fail> {
    Ok(String::from_utf8(Vec::from_slice(alloc, text.as_slice())?)?)
}

/// The word of an event that is no message.
fn event_word(event: &Event<MessageText>) -> &'static str {
    match event {
        Event::Open => "open",
        Event::Take(..) => "take",
        Event::Close(..) => "close",
        Event::Tick => "tick",
    }
}

/// An event of the history: the text of a message that was taken, or a word.
fn event_text(alloc: Global, event: &Event<MessageText>) -> Result<String, Fail> {
    match event {
        Event::Take(_, text) => message_text(alloc, text),
        other => Ok(String::from_str(alloc, event_word(other))?),
    }
}

/// Adds the key of a session that was opened.
fn push_key(alloc: Global, keys: &mut String, stepped: Stepped) -> Result<(), Fail> {
    match stepped {
        Stepped::Opened(session) => push_number(alloc, keys, session.key as u64),
        _ => Err(Fail::new("not opened")),
    }
}

/// The text of a frame, or `none`.
fn frame_text(alloc: Global, frame: Option<Bytes>) -> Result<String, Fail> {
    match frame {
        Some(frame) => text_of_frame(frame),
        None => Ok(String::from_str(alloc, "none")?),
    }
}

/// A machine driven by a script.
///
/// The commands are `open MOMENT`, `tick MOMENT`, `take SERIAL MESSAGE`, `end SERIAL`, `close SERIAL`, `is_open SERIAL`,
/// `frame SERIAL` for the oldest frame that waits, `output SERIAL` for all of them, and `discard SERIAL`. The outcome of an
/// event is given in the words of the code. `opens COUNT` opens COUNT sessions and returns their keys, `free` returns how
/// many more may be open, and `next` the serial of the next one. Of the history, `moments` returns the moments of all entries
/// that are kept, `entries` their number, and `first` the event of the first one. `echoes ID BEYOND` takes echoes of session
/// 1 with the ids from ID up to but not including BEYOND.
#[derive(Drop)]
struct Machine {
    core: NetCore,
}

impl Machine {
    /// Enters an event.
    fn step(&mut self, alloc: Global, moment: u64, event: Event<Received>) -> Result<String, Fail> {
        step_word(alloc, self.core.step(alloc, moment, event))
    }

    /// Takes the message of a session.
    fn take(&mut self, alloc: Global, session: Session, text: &str) -> Result<String, Fail> {
        let message = received(alloc, text)?;
        self.step(alloc, 0, Event::Take(session, message))
    }

    /// Takes an echo of session 1.
    fn echo(&mut self, alloc: Global, id: u64) -> Result<(), Fail> {
        let text = format!(in alloc; "{{\"id\":{id},\"method\":\"echo\",\"params\":[]}}")?;
        self.take(alloc, session_of(1), text.as_str())?;
        Ok(())
    }

    /// Takes echoes of session 1.
    fn echoes(&mut self, alloc: Global, first: u64, beyond: &str) -> Result<String, Fail> {
        for id in first..beyond.parse::<u64>()? {
            self.echo(alloc, id)?;
        }
        Ok(String::new(alloc))
    }

    /// The event of the first entry that the history keeps.
    fn first(&self, alloc: Global) -> Result<String, Fail> {
        let entry = self.core.history().front().ok_or("no entry")?;
        event_text(alloc, &entry.event)
    }

    /// Opens `count` sessions, and returns their keys.
    fn opens(&mut self, alloc: Global, count: u64) -> Result<String, Fail> {
        let mut keys = String::new(alloc);
        for _ in 0..count {
            push_key(alloc, &mut keys, self.core.step(alloc, 0, Event::Open))?;
        }
        Ok(keys)
    }

    /// Drops what waits for a closed session.
    fn discard(&mut self, alloc: Global, session: Session) -> Result<String, Fail> {
        self.core.discard(session);
        Ok(String::new(alloc))
    }

    /// All frames that wait for a session.
    fn output(&mut self, alloc: Global, session: Session) -> Result<String, Fail> {
        text_of_frame(self.core.take_output(alloc, session)?)
    }

    /// The moments of the history.
    fn moments(&self, alloc: Global) -> Result<String, Fail> {
        self.core.shows_left();
        let mut text = String::new(alloc);
        for entry in self.core.history() {
            push_number(alloc, &mut text, entry.choice.moment)?;
        }
        Ok(text)
    }

    /// The answer to a command with a number, which is a moment, a serial, an id or a count.
    fn act(&mut self, alloc: Global, word: &str, number: u64, text: &str) -> Result<String, Fail> {
        let session = session_of(number);
        match word {
            "open" => self.step(alloc, number, Event::Open),
            "opens" => self.opens(alloc, number),
            "tick" => self.step(alloc, number, Event::Tick),
            "take" => self.take(alloc, session, text),
            "end" => self.step(alloc, 0, Event::Close(session, Cause::InputEnded)),
            "close" => fact_text(alloc, self.core.close(session, Cause::Overrun)),
            "is_open" => fact_text(alloc, self.core.is_open(session)),
            "frame" => frame_text(alloc, self.core.next_frame(session)),
            "output" => self.output(alloc, session),
            "discard" => self.discard(alloc, session),
            "echoes" => self.echoes(alloc, number, text),
            _ => Err(Fail::new("no command")),
        }
    }

    /// The answer to a command followed by a number and perhaps a text.
    fn act_on(&mut self, alloc: Global, command: &str) -> Result<String, Fail> {
        let (word, rest) = command.split_once(" ").ok_or("no number")?;
        let (number, text) = parts_of(rest);
        self.act(alloc, word, number.parse::<u64>()?, text)
    }
}

impl Scripted for Machine {
    fn answer(&mut self, alloc: Global, command: &str) -> Result<String, Fail> {
        match command {
            "moments" => self.moments(alloc),
            "entries" => number_text(alloc, self.core.history().len() as u64),
            "first" => self.first(alloc),
            "free" => number_text(alloc, self.core.free_places() as u64),
            "next" => number_or_none(alloc, self.core.next_serial()),
            _ => self.act_on(alloc, command),
        }
    }
}

/// Runs a script of commands on a new machine.
pub(crate) fn steps(alloc: Global, script: &str) -> Result<(), Fail> {
    let core = net_core(alloc, Faults::NONE)?;
    agrees(alloc, Machine { core }, script)
}
